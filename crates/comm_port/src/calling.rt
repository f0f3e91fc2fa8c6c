//! The second part of a controller's turn: the calls that it started are made.
ghost use Rattle.std.specs.Prelude.{◌≡◌, ◌≢◌, ◌<◌, ◌+◌, ◌∷◌, [], length, OnOk, set, Some};
ghost use Rattle.ring_core.specs.Machine.{path_of};
ghost use Rattle.ring_core.specs.declared.path.Await.TheVariants.{Nothing};
ghost use Rattle.ring_core.specs.Legal.{IsPath, IsNextNumber, HasRoom};
ghost use Rattle.ring_core.specs.declared.frame.FrameKind.TheVariants.{Request};
ghost use Rattle.ring_core.specs.declared.entry.RingEntry.TheVariants.{Post};
ghost use Rattle.tied_lists.specs.Calls.{IsOut};
ghost use Rattle.comm_port.specs.Order.{IsCalling};
ghost use Rattle.joint_history.specs.Reading.{items_of};
ghost use Rattle.comm_port.specs.RingSteps.{AddsOver, GrewBy, KeepsInboxOver, OwnTurnAt};
ghost use Rattle.comm_port.specs.RingSteps.{RingStep, node_at};
ghost use Rattle.comm_port.specs.BothSteps.{BothStep, DoesOver, Makes, MakesAll, Owes};
ghost use Rattle.comm_port.specs.BothSteps.{TurningBetween};

use crate::asking::{do_local, post_frame};
use crate::ram_side::RamSide;
use crate::ring_side::RingSide;
use crate::short::Short;
use crate::waiting::Waiting;
use controller_core::{Call, CallKind};
use mstr_block::CallId;
use plant_types::Copied;
use ring_core::{Frame, LocalOp};
use std::alloc::Global;

/// Posts a Request, for which its path waits from then on.
pub(crate) fn post_call<R: RingSide>(
    alloc: Global,
    node: u8,
    waiting: &mut Waiting,
    frame: Frame,
    ring: &mut R,
) -> Result<(), Short>
    requires turn { OwnTurnAt R.RingSide node ring.old }
    requires kind { frame.kind ≡ Request }
    requires own { frame.id.node ≡ node }
    requires to { frame.to ≢ node }
    requires path { IsPath frame.id.path }
    requires next { IsNextNumber (node_at R.RingSide node ring.old) Request frame.id }
    requires free { (path_of (node_at R.RingSide node ring.old) frame.id.path).awaits ≡ Nothing }
    ensures grew { OnOk result (GrewBy R.RingSide node (Post node frame ∷ []) ring.old ring.new) }
    ensures kept { OnOk result (KeepsInboxOver R.RingSide node ring.old ring.new) }
    ensures waits { OnOk result (waiting.new ≡ set waiting.old frame.id.path (Some frame)) }
    ensures step { RingStep R.RingSide node ring.old ring.new }
{
    let kept = frame.copied(alloc)?;
    post_frame(node, frame, ring)?;
    waiting.keep(kept);
    Ok(())
}

/// Does a call at home, and ends it.
fn do_call<M: RamSide, R: RingSide>(
    node: u8,
    id: CallId,
    op: LocalOp,
    ram: &mut M,
    ring: &mut R,
) -> Result<(), Short>
    requires turn { OwnTurnAt R.RingSide node ring.old }
    requires room { HasRoom op }
    requires out { IsOut (items_of (M.known ram.old)) id }
    ensures did { OnOk result
        (DoesOver M.RamSide R.RingSide node id op ram.old ram.new ring.old ring.new) }
    ensures kept { OnOk result (KeepsInboxOver R.RingSide node ring.old ring.new) }
    ensures step { BothStep M.RamSide R.RingSide node ram.old ram.new ring.old ring.new }
{
    let outcome = do_local(node, id, op, ring)?;
    ram.finish(id, outcome)?;
    Ok(())
}

/// Makes the call at a place.
pub(crate) fn make_call<M: RamSide, R: RingSide>(
    alloc: Global,
    node: u8,
    waiting: &mut Waiting,
    calls: &[Call],
    at: usize,
    ram: &mut M,
    ring: &mut R,
) -> Result<(), Short>
    requires within { at < length calls.now }
    requires owing { Owes M.RamSide R.RingSide node calls.now at ram.old ring.old waiting.old }
    ensures owing { OnOk result
        (Owes M.RamSide R.RingSide node calls.now (at + 1) ram.new ring.new waiting.new) }
    ensures kept { OnOk result (KeepsInboxOver R.RingSide node ring.old ring.new) }
    ensures ring_adds { OnOk result (AddsOver R.RingSide node (IsCalling node) ring.old ring.new) }
    ensures made { OnOk result
        (Makes M.RamSide R.RingSide node calls.now at ram.old ram.new ring.old ring.new) }
    ensures step { BothStep M.RamSide R.RingSide node ram.old ram.new ring.old ring.new }
{
    let call = &calls[at];
    match &call.kind {
        CallKind::Net { route, pdu } => {
            let frame = Frame::request(call.id, *route, pdu.copied(alloc)?);
            post_call(alloc, node, waiting, frame, ring)?;
        }
        CallKind::Local(op) => do_call(node, call.id, op.copied(alloc)?, ram, ring)?,
    }
    Ok(())
}

/// Collects what the controller started, and makes each call in order.
pub(crate) fn make_calls<M: RamSide, R: RingSide>(
    alloc: Global,
    node: u8,
    waiting: &mut Waiting,
    ram: &mut M,
    ring: &mut R,
) -> Result<(), Short>
    requires turning { TurningBetween M.RamSide R.RingSide node ram.old ring.old waiting.old }
    ensures turning { OnOk result
        (TurningBetween M.RamSide R.RingSide node ram.new ring.new waiting.new) }
    ensures kept { OnOk result (KeepsInboxOver R.RingSide node ring.old ring.new) }
    ensures ring_adds { OnOk result (AddsOver R.RingSide node (IsCalling node) ring.old ring.new) }
    ensures made { OnOk result
        (MakesAll M.RamSide R.RingSide node ram.old ram.new ring.old ring.new) }
    ensures step { BothStep M.RamSide R.RingSide node ram.old ram.new ring.old ring.new }
{
    if !ram.has_started() {
        return Ok(());
    }
    let calls = ram.collect()?;
    let calls = calls.as_slice();
    for at in 0..calls.len() {
        make_call(alloc, node, waiting, calls, at, ram, ring)?;
    }
    Ok(())
}
