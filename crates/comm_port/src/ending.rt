//! The last part of a controller's turn: it is asked whether it is done, and the token goes on.
ghost use Rattle.std.specs.Prelude.{◌≡◌, [], OnOk, IfOk};
ghost use Rattle.comm_port.specs.BothSteps.{AsksDoneOver, BothStep, EndsOver, RamStep};
ghost use Rattle.comm_port.specs.BothSteps.{RestedBetween, TurningBetween};
ghost use Rattle.comm_port.specs.RingSteps.{HoldsAt, RestsAfter, RestsAt, down_at, node_at};

use crate::giving::give_up_where;
use crate::leaving::hand_on;
use crate::paths::ALL_PATHS;
use crate::ram_side::RamSide;
use crate::ring_side::RingSide;
use crate::short::Short;
use crate::waiting::Waiting;

/// Whether the scans are gone, no failure is unnoticed, nothing is uncollected and no call waits;
/// asked in this order.
fn is_done<M: RamSide>(noticed: u32, waiting: &Waiting, ram: &mut M) -> bool
    ensures asked { AsksDoneOver M.RamSide noticed waiting.now ram.old ram.new result }
    ensures step { RamStep M.RamSide ram.old ram.new }
{
    if !ram.has_ended() {
        return false;
    }
    if noticed < ram.failures() {
        return false;
    }
    if ram.has_started() {
        return false;
    }
    waiting.is_idle()
}

/// Leaves or passes the token on. After a Leave, each call that still waits is given up.
pub(crate) fn end_turn<M: RamSide, R: RingSide>(
    node: u8,
    budget: bool,
    noticed: u32,
    waiting: &mut Waiting,
    ram: &mut M,
    ring: &mut R,
) -> Result<bool, Short>
    requires turning { TurningBetween M.RamSide R.RingSide node ram.old ring.old waiting.old }
    requires holds { HoldsAt R.RingSide node ring.old }
    requires rest { RestsAt R.RingSide node ring.old }
    requires empty { (node_at R.RingSide node ring.old).inbox ≡ [] }
    requires noticed { noticed ≡ down_at R.RingSide node ring.old }
    ensures rested { OnOk result
        (RestedBetween M.RamSide R.RingSide node ram.new ring.new waiting.new) }
    ensures noticed { OnOk result (noticed ≡ down_at R.RingSide node ring.new) }
    ensures rest { OnOk result (RestsAfter R.RingSide node ring.old ring.new) }
    ensures ends { IfOk result
        (EndsOver M.RamSide R.RingSide node budget ram.old ram.new ring.old ring.new) }
    ensures step { BothStep M.RamSide R.RingSide node ram.old ram.new ring.old ring.new }
{
    let done = is_done(noticed, waiting, ram);
    let left = hand_on(node, done, budget, ring)?;
    if left {
        give_up_where(node, waiting, &ALL_PATHS, ram, ring)?;
        return Ok(true);
    }
    Ok(false)
}
