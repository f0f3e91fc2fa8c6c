//! Power that failed: the node leaves, gives up its calls, and comes back once there is power.
ghost use Rattle.std.specs.Prelude.{◌≡◌, ◌<◌, OnOk, OnErr, IfOk};
ghost use Rattle.ring_core.specs.declared.entry.LeaveCause.TheVariants.{Down};
ghost use Rattle.comm_port.specs.BothSteps.{AddsNothingOver, BothStep, Rejoins, LeavesDown};
ghost use Rattle.comm_port.specs.BothSteps.{HaveFailed, RestedBetween, TurningBetween};
ghost use Rattle.comm_port.specs.RingSteps.{AwayAfter, HoldsAt, IsAwayAt, LeftOver, OwnTurnAt};
ghost use Rattle.comm_port.specs.RingSteps.{RestsAfter, RestsAt, RingStep, down_at};

use crate::giving::give_up_where;
use crate::paths::ALL_PATHS;
use crate::ram_side::RamSide;
use crate::ring_side::RingSide;
use crate::short::Short;
use crate::waiting::Waiting;
use ring_core::LeaveCause;

/// Leaves because power failed more often than the node left for it.
fn leave_down<R: RingSide>(node: u8, failures: u32, ring: &mut R) -> Result<(), Short>
    requires turn { OwnTurnAt R.RingSide node ring.old }
    requires holds { HoldsAt R.RingSide node ring.old }
    requires more { down_at R.RingSide node ring.old < failures }
    ensures left { OnOk result (LeftOver R.RingSide node (Down failures) ring.old ring.new) }
    ensures away { OnOk result (AwayAfter R.RingSide node ring.old ring.new) }
    ensures step { RingStep R.RingSide node ring.old ring.new }
{
    match ring.leave(node, LeaveCause::Down(failures)) {
        Ok(()) => Ok(()),
        Err(why) => Err(Short::of(why)),
    }
}

/// Asks to come in again where there is power; whether it did. Where memory ran out, nothing was
/// added.
pub(crate) fn come_back<M: RamSide, R: RingSide>(
    node: u8,
    ram: &mut M,
    ring: &mut R,
) -> Result<bool, Short>
    requires turn { OwnTurnAt R.RingSide node ring.old }
    requires away { IsAwayAt R.RingSide node ring.old }
    ensures came { IfOk result
        (Rejoins M.RamSide R.RingSide node ram.old ram.new ring.old ring.new) }
    ensures short { OnErr result
        (AddsNothingOver M.RamSide R.RingSide node ram.old ram.new ring.old ring.new) }
    ensures step { BothStep M.RamSide R.RingSide node ram.old ram.new ring.old ring.new }
{
    if ram.is_off() {
        return Ok(false);
    }
    match ring.join(node) {
        Ok(()) => Ok(true),
        Err(why) => Err(Short::of(why)),
    }
}

/// Leaves because power failed, gives up each call that waits, and asks to come in again where
/// there is power; whether it did.
pub(crate) fn go_down<M: RamSide, R: RingSide>(
    node: u8,
    failures: u32,
    waiting: &mut Waiting,
    ram: &mut M,
    ring: &mut R,
) -> Result<bool, Short>
    requires turning { TurningBetween M.RamSide R.RingSide node ram.old ring.old waiting.old }
    requires holds { HoldsAt R.RingSide node ring.old }
    requires rest { RestsAt R.RingSide node ring.old }
    requires more { down_at R.RingSide node ring.old < failures }
    requires counted { HaveFailed M.RamSide failures ram.old }
    ensures rested { OnOk result
        (RestedBetween M.RamSide R.RingSide node ram.new ring.new waiting.new) }
    ensures noticed { OnOk result (failures ≡ down_at R.RingSide node ring.new) }
    ensures rest { OnOk result (RestsAfter R.RingSide node ring.old ring.new) }
    ensures down { IfOk result
        (LeavesDown M.RamSide R.RingSide node failures ram.old ram.new ring.old ring.new) }
    ensures step { BothStep M.RamSide R.RingSide node ram.old ram.new ring.old ring.new }
{
    leave_down(node, failures, ring)?;
    give_up_where(node, waiting, &ALL_PATHS, ram, ring)?;
    let joined = come_back(node, ram, ring)?;
    Ok(joined)
}
