//! A controller that has left still starts calls: each ends at once.
ghost use Rattle.std.specs.Prelude.{◌≡◌, ◌<◌, ◌+◌, length, OnOk};
ghost use Rattle.comm_port.specs.Visiting.{WaitsFor};
ghost use Rattle.comm_port.specs.BothSteps.{BothStep, GivesUpCall, Owes, TurningBetween};
ghost use Rattle.comm_port.specs.BothSteps.{Visits, Voids};
ghost use Rattle.comm_port.specs.RingSteps.{GivesCallOver, HasLeftAfter, HasLeftAt, RestsAfter};
ghost use Rattle.comm_port.specs.RingSteps.{RestsAt, WaitAsBefore};

use crate::asking::give_up_now;
use crate::calling::make_call;
use crate::ram_side::RamSide;
use crate::ring_side::RingSide;
use crate::short::Short;
use crate::waiting::Waiting;
use controller_core::{Call, CallKind};
use mstr_block::{CallId, MstrResult};
use std::alloc::Global;

/// Gives up a call that waits, while others are still to be made.
fn give_up_between<M: RamSide, R: RingSide>(
    node: u8,
    waiting: &mut Waiting,
    calls: &[Call],
    next: usize,
    id: CallId,
    ram: &mut M,
    ring: &mut R,
) -> Result<(), Short>
    requires owing { Owes M.RamSide R.RingSide node calls.now next ram.old ring.old waiting.old }
    requires waits { WaitsFor node id (R.known ring.old) }
    requires gone { HasLeftAt R.RingSide node ring.old }
    ensures owing { OnOk result
        (Owes M.RamSide R.RingSide node calls.now next ram.new ring.new waiting.new) }
    ensures given { OnOk result
        (GivesUpCall M.RamSide R.RingSide node id ram.old ram.new ring.old ring.new) }
    ensures part { OnOk result (GivesCallOver R.RingSide node id ring.old ring.new) }
    ensures step { BothStep M.RamSide R.RingSide node ram.old ram.new ring.old ring.new }
{
    let _ = calls;
    let _ = next;
    let word = give_up_now(id, ring)?;
    let _ = waiting.end(id.path);
    ram.finish(id, MstrResult::Bad(word))?;
    Ok(())
}

/// Makes the call at a place, and ends it at once.
fn end_call<M: RamSide, R: RingSide>(
    alloc: Global,
    node: u8,
    waiting: &mut Waiting,
    calls: &[Call],
    at: usize,
    ram: &mut M,
    ring: &mut R,
) -> Result<(), Short>
    requires within { at < length calls.now }
    requires owing { Owes M.RamSide R.RingSide node calls.now at ram.old ring.old waiting.old }
    requires gone { HasLeftAt R.RingSide node ring.old }
    requires rest { RestsAt R.RingSide node ring.old }
    ensures owing { OnOk result
        (Owes M.RamSide R.RingSide node calls.now (at + 1) ram.new ring.new waiting.new) }
    ensures gone { OnOk result (HasLeftAfter R.RingSide node ring.old ring.new) }
    ensures rest { OnOk result (RestsAfter R.RingSide node ring.old ring.new) }
    ensures ended { OnOk result
        (Voids M.RamSide R.RingSide node calls.now at ram.old ram.new ring.old ring.new) }
    ensures as_before { OnOk result (WaitAsBefore R.RingSide node ring.old ring.new) }
    ensures step { BothStep M.RamSide R.RingSide node ram.old ram.new ring.old ring.new }
{
    make_call(alloc, node, waiting, calls, at, ram, ring)?;
    let call = &calls[at];
    match &call.kind {
        CallKind::Net { .. } => {
            give_up_between(node, waiting, calls, at + 1, call.id, ram, ring)?;
            Ok(())
        }
        CallKind::Local(_) => Ok(()),
    }
}

/// Collects what the controller started, makes each call in order and ends it at once.
pub(crate) fn visit<M: RamSide, R: RingSide>(
    alloc: Global,
    node: u8,
    waiting: &mut Waiting,
    ram: &mut M,
    ring: &mut R,
) -> Result<(), Short>
    requires turning { TurningBetween M.RamSide R.RingSide node ram.old ring.old waiting.old }
    requires gone { HasLeftAt R.RingSide node ring.old }
    requires rest { RestsAt R.RingSide node ring.old }
    ensures turning { OnOk result
        (TurningBetween M.RamSide R.RingSide node ram.new ring.new waiting.new) }
    ensures rest { OnOk result (RestsAfter R.RingSide node ring.old ring.new) }
    ensures visited { OnOk result
        (Visits M.RamSide R.RingSide node ram.old ram.new ring.old ring.new) }
    ensures step { BothStep M.RamSide R.RingSide node ram.old ram.new ring.old ring.new }
{
    if !ram.has_started() {
        return Ok(());
    }
    let calls = ram.collect()?;
    let calls = calls.as_slice();
    for at in 0..calls.len() {
        end_call(alloc, node, waiting, calls, at, ram, ring)?;
    }
    Ok(())
}
