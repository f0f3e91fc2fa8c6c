//! The last part of an end's turn: the bridge and the ring are asked whether the end is done, and
//! the token goes on.
ghost use Rattle.std.specs.Prelude.{◌≡◌, ◌<◌, [], true, false, OnOk, IfOk};
ghost use Rattle.comm_port.specs.RingSteps.{HasLeftAt, HoldsAt, IsHereAt, RestsAt, node_at};
ghost use Rattle.bridge_port.specs.EndSteps.{AsksDoneOver, EndStep, EndsOver, IsGoneAt, IsOpenAt};
ghost use Rattle.bridge_port.specs.EndSteps.{LeavesOver, TiesBetween, TurningBetween};

use crate::bridge_side::BridgeSide;
use crate::giving::give_up_where;
use comm_port::{ALL_PATHS, RingSide, Short, hand_on};

/// Whether the turn posted no Request, the end is idle and only ends of bridges are left in the
/// ring; asked in this order.
fn is_done<B: BridgeSide, R: RingSide>(
    side: u8,
    has_posted: bool,
    bridge: &mut B,
    ring: &mut R,
) -> bool
    requires turning { TurningBetween B.BridgeSide R.RingSide side bridge.old ring.old }
    ensures turning { TurningBetween B.BridgeSide R.RingSide side bridge.new ring.new }
    ensures asked { AsksDoneOver B.BridgeSide R.RingSide side has_posted bridge.old bridge.new
        ring.old ring.new result }
    ensures step { EndStep B.BridgeSide R.RingSide side bridge.old bridge.new ring.old ring.new }
{
    if has_posted {
        return false;
    }
    if !bridge.is_idle(side) {
        return false;
    }
    ring.only_bridges(side)
}

/// Gives up all calls of a node that has left, and the end leaves for good.
fn leave_for_good<B: BridgeSide, R: RingSide>(
    side: u8,
    bridge: &mut B,
    ring: &mut R,
) -> Result<(), Short>
    requires turning { TurningBetween B.BridgeSide R.RingSide side bridge.old ring.old }
    requires left { HasLeftAt R.RingSide side ring.old }
    requires wait { 0 < (R.side ring.old).net.answer }
    requires rest { RestsAt R.RingSide side ring.old }
    ensures ties { OnOk result (TiesBetween B.BridgeSide R.RingSide side bridge.new ring.new) }
    ensures left { OnOk result (HasLeftAt R.RingSide side ring.new) }
    ensures gone { OnOk result (IsGoneAt B.BridgeSide side bridge.new) }
    ensures leaves { OnOk result
        (LeavesOver B.BridgeSide R.RingSide side bridge.old bridge.new ring.old ring.new) }
    ensures step { EndStep B.BridgeSide R.RingSide side bridge.old bridge.new ring.old ring.new }
{
    give_up_where(side, &ALL_PATHS, bridge, ring)?;
    bridge.gone(side)?;
    Ok(())
}

/// Leaves or passes the token on; whether the node left.
pub(crate) fn end_turn<B: BridgeSide, R: RingSide>(
    side: u8,
    budget: bool,
    has_posted: bool,
    bridge: &mut B,
    ring: &mut R,
) -> Result<bool, Short>
    requires turning { TurningBetween B.BridgeSide R.RingSide side bridge.old ring.old }
    requires holds { HoldsAt R.RingSide side ring.old }
    requires wait { 0 < (R.side ring.old).net.answer }
    requires rest { RestsAt R.RingSide side ring.old }
    requires empty { (node_at R.RingSide side ring.old).inbox ≡ [] }
    ensures ties { OnOk result (TiesBetween B.BridgeSide R.RingSide side bridge.new ring.new) }
    ensures stays { IfOk result
        (λ left. left ≡ false → IsHereAt R.RingSide side ring.new) }
    ensures is_open { IfOk result
        (λ left. left ≡ false → IsOpenAt B.BridgeSide side bridge.new) }
    ensures left { IfOk result
        (λ left. left ≡ true → HasLeftAt R.RingSide side ring.new) }
    ensures gone { IfOk result
        (λ left. left ≡ true → IsGoneAt B.BridgeSide side bridge.new) }
    ensures ends { IfOk result
        (EndsOver B.BridgeSide R.RingSide side budget has_posted bridge.old bridge.new ring.old
        ring.new) }
    ensures step { EndStep B.BridgeSide R.RingSide side bridge.old bridge.new ring.old ring.new }
{
    let done = is_done(side, has_posted, bridge, ring);
    let left = hand_on(side, done, budget, ring)?;
    if left {
        leave_for_good(side, bridge, ring)?;
    }
    Ok(left)
}
