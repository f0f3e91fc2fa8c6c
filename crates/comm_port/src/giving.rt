//! Calls of a controller that are given up, and what is sent before.
ghost use Rattle.std.specs.Prelude.{◌≡◌, ◌<◌, OnOk};
ghost use Rattle.ring_core.specs.Legal.{IsPath};
ghost use Rattle.comm_port.specs.Order.{IsGivingUp};
ghost use Rattle.comm_port.specs.RingSteps.{AddsOver, GivesOnPathOver, GivesWhereOver, HoldsAt};
ghost use Rattle.comm_port.specs.RingSteps.{KeepsInboxOver, MaySendAt, SendsNoMore};
ghost use Rattle.comm_port.specs.BothSteps.{BothStep, GivesUp, GivesUpOn, SendsAllOver};
ghost use Rattle.comm_port.specs.BothSteps.{TurningBetween};

use crate::ram_side::RamSide;
use crate::ring_side::RingSide;
use crate::sending::{give_up_on, send_next};
use crate::short::Short;
use crate::waiting::Waiting;
use mstr_block::MstrResult;
use plant_types::{NETWORK_PATHS, PATH_PLACES};
use ring_core::Heard;

/// Gives up the call that a path waits for, where that is due, and ends it.
pub(crate) fn give_up_path<M: RamSide, R: RingSide>(
    node: u8,
    waiting: &mut Waiting,
    path: u8,
    ram: &mut M,
    ring: &mut R,
) -> Result<(), Short>
    requires path { IsPath path }
    requires turning { TurningBetween M.RamSide R.RingSide node ram.old ring.old waiting.old }
    ensures turning { OnOk result
        (TurningBetween M.RamSide R.RingSide node ram.new ring.new waiting.new) }
    ensures kept { OnOk result (KeepsInboxOver R.RingSide node ring.old ring.new) }
    ensures less { OnOk result (SendsNoMore R.RingSide node ring.old ring.new) }
    ensures ring_adds { OnOk result (AddsOver R.RingSide node IsGivingUp ring.old ring.new) }
    ensures given { OnOk result
        (GivesUpOn M.RamSide R.RingSide node path ram.old ram.new ring.old ring.new) }
    ensures part { OnOk result (GivesOnPathOver R.RingSide node path ring.old ring.new) }
    ensures step { BothStep M.RamSide R.RingSide node ram.old ram.new ring.old ring.new }
{
    let Some(id) = waiting.id_on(path) else {
        return Ok(());
    };
    let Some(word) = give_up_on(id, ring)? else {
        return Ok(());
    };
    let _ = waiting.end(path);
    ram.finish(id, MstrResult::Bad(word))?;
    Ok(())
}

/// Gives up on each chosen path in order where that is due.
pub(crate) fn give_up_where<M: RamSide, R: RingSide>(
    node: u8,
    waiting: &mut Waiting,
    chosen: &[bool; PATH_PLACES],
    ram: &mut M,
    ring: &mut R,
) -> Result<(), Short>
    requires turning { TurningBetween M.RamSide R.RingSide node ram.old ring.old waiting.old }
    ensures turning { OnOk result
        (TurningBetween M.RamSide R.RingSide node ram.new ring.new waiting.new) }
    ensures kept { OnOk result (KeepsInboxOver R.RingSide node ring.old ring.new) }
    ensures less { OnOk result (SendsNoMore R.RingSide node ring.old ring.new) }
    ensures ring_adds { OnOk result (AddsOver R.RingSide node IsGivingUp ring.old ring.new) }
    ensures given { OnOk result
        (GivesUp M.RamSide R.RingSide node chosen.now ram.old ram.new ring.old ring.new) }
    ensures part { OnOk result (GivesWhereOver R.RingSide node chosen.now ring.old ring.new) }
    ensures step { BothStep M.RamSide R.RingSide node ram.old ram.new ring.old ring.new }
{
    for path in NETWORK_PATHS {
        if !chosen[path as usize] {
            continue;
        }
        give_up_path(node, waiting, path, ram, ring)?;
    }
    Ok(())
}

/// Sends until the outbox is empty. A Request of this turn that failed is given up at once; those
/// of earlier turns are not in the outbox.
pub(crate) fn send_all<M: RamSide, R: RingSide>(
    node: u8,
    waiting: &mut Waiting,
    posted: &[bool; PATH_PLACES],
    ram: &mut M,
    ring: &mut R,
) -> Result<(), Short>
    requires turning { TurningBetween M.RamSide R.RingSide node ram.old ring.old waiting.old }
    requires holds { HoldsAt R.RingSide node ring.old }
    requires wait { 0 < (R.side ring.old).net.answer }
    requires may { MaySendAt R.RingSide node posted.now ring.old }
    ensures turning { OnOk result
        (TurningBetween M.RamSide R.RingSide node ram.new ring.new waiting.new) }
    ensures kept { OnOk result (KeepsInboxOver R.RingSide node ring.old ring.new) }
    ensures sent { OnOk result
        (SendsAllOver M.RamSide R.RingSide node ram.old ram.new ring.old ring.new) }
    ensures step { BothStep M.RamSide R.RingSide node ram.old ram.new ring.old ring.new }
{
    while let Some(heard) = send_next(node, ring)? {
        if heard == Heard::Acked {
            continue;
        }
        give_up_where(node, waiting, posted, ram, ring)?;
    }
    Ok(())
}
