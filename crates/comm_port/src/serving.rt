//! The first part of a controller's turn: what came is taken and answered.
ghost use Rattle.std.specs.Prelude.{◌≡◌, [], true, false, OnOk};
ghost use Rattle.ring_core.specs.Statistics.{is_for_stats};
ghost use Rattle.comm_port.specs.Order.{IsServing};
ghost use Rattle.comm_port.specs.RingSteps.{AddsOver, HoldsAt, IsNoBridgeAt, KeepsInboxOver};
ghost use Rattle.comm_port.specs.RingSteps.{RingStep, inbox_after};
ghost use Rattle.comm_port.specs.BothSteps.{BothStep, Meets, RamStep, ServesAll};
ghost use Rattle.comm_port.specs.BothSteps.{TakingBetween, TurningBetween};

use crate::ram_side::RamSide;
use crate::replies::{post_reply, tell_statistics};
use crate::ring_side::RingSide;
use crate::short::Short;
use crate::taking::take_next;
use crate::waiting::Waiting;
use ring_core::{Frame, FrameKind};
use std::alloc::Global;
use tied_lists::result_of;

/// Ends the call that a Reply is to.
fn end_call<M: RamSide, R: RingSide>(
    node: u8,
    waiting: &mut Waiting,
    reply: &Frame,
    ram: &mut M,
    ring: &R,
) -> Result<(), Short>
    requires taking { TakingBetween M.RamSide R.RingSide node reply.now ram.old ring.now
        waiting.old }
    requires kind { reply.now.kind ≡ FrameKind.Reply }
    ensures turning { OnOk result
        (TurningBetween M.RamSide R.RingSide node ram.new ring.now waiting.new) }
    ensures served { OnOk result
        (Meets M.RamSide R.RingSide node reply.now ram.old ram.new ring.now ring.now) }
    ensures step { RamStep M.RamSide ram.old ram.new }
{
    let ask = waiting.end(reply.id.path).unwrap();
    ram.finish(reply.id, result_of(&ask.pdu, &reply.pdu))?;
    Ok(())
}

/// Has the controller answer a Request, and posts its Reply; none where it has no power.
fn answer_request<M: RamSide, R: RingSide>(
    node: u8,
    waiting: &Waiting,
    request: &Frame,
    ram: &mut M,
    ring: &mut R,
) -> Result<(), Short>
    requires taking { TakingBetween M.RamSide R.RingSide node request.now ram.old ring.old
        waiting.now }
    requires kind { request.now.kind ≡ FrameKind.Request }
    requires plain { is_for_stats request.now ≡ false }
    ensures turning { OnOk result
        (TurningBetween M.RamSide R.RingSide node ram.new ring.new waiting.now) }
    ensures kept { OnOk result (KeepsInboxOver R.RingSide node ring.old ring.new) }
    ensures ring_adds { OnOk result (AddsOver R.RingSide node (IsServing node) ring.old ring.new) }
    ensures served { OnOk result
        (Meets M.RamSide R.RingSide node request.now ram.old ram.new ring.old ring.new) }
    ensures step { BothStep M.RamSide R.RingSide node ram.old ram.new ring.old ring.new }
{
    if let Some(reply) = ram.peer(request.id, &request.pdu)? {
        post_reply(node, request.id, reply, ring)?;
    }
    Ok(())
}

/// Tells a request for statistics.
fn answer_port<M: RamSide, R: RingSide>(
    alloc: Global,
    node: u8,
    waiting: &Waiting,
    request: &Frame,
    ram: &M,
    ring: &mut R,
) -> Result<(), Short>
    requires taking { TakingBetween M.RamSide R.RingSide node request.now ram.now ring.old
        waiting.now }
    requires kind { request.now.kind ≡ FrameKind.Request }
    requires stats { is_for_stats request.now ≡ true }
    ensures turning { OnOk result
        (TurningBetween M.RamSide R.RingSide node ram.now ring.new waiting.now) }
    ensures kept { OnOk result (KeepsInboxOver R.RingSide node ring.old ring.new) }
    ensures ring_adds { OnOk result (AddsOver R.RingSide node (IsServing node) ring.old ring.new) }
    ensures served { OnOk result
        (Meets M.RamSide R.RingSide node request.now ram.now ram.now ring.old ring.new) }
    ensures step { RingStep R.RingSide node ring.old ring.new }
{
    tell_statistics(alloc, node, request, ring)?;
    Ok(())
}

/// What is due to a frame that was taken.
#[tactic(auto, using(tied_lists::proofs::Growth::adds_none))]
fn serve<M: RamSide, R: RingSide>(
    alloc: Global,
    node: u8,
    waiting: &mut Waiting,
    frame: &Frame,
    ram: &mut M,
    ring: &mut R,
) -> Result<(), Short>
    requires taking { TakingBetween M.RamSide R.RingSide node frame.now ram.old ring.old
        waiting.old }
    ensures turning { OnOk result
        (TurningBetween M.RamSide R.RingSide node ram.new ring.new waiting.new) }
    ensures kept { OnOk result (KeepsInboxOver R.RingSide node ring.old ring.new) }
    ensures ring_adds { OnOk result (AddsOver R.RingSide node (IsServing node) ring.old ring.new) }
    ensures served { OnOk result
        (Meets M.RamSide R.RingSide node frame.now ram.old ram.new ring.old ring.new) }
    ensures step { BothStep M.RamSide R.RingSide node ram.old ram.new ring.old ring.new }
{
    match frame.kind {
        FrameKind::Reply => end_call(node, waiting, frame, ram, ring)?,
        FrameKind::Request => {
            if frame.is_for_stats() {
                answer_port(alloc, node, waiting, frame, ram, ring)?;
            } else {
                answer_request(node, waiting, frame, ram, ring)?;
            }
        }
    }
    Ok(())
}

/// Takes until the inbox is empty. A Request is answered, a Reply ends its call.
pub(crate) fn serve_inbox<M: RamSide, R: RingSide>(
    alloc: Global,
    node: u8,
    waiting: &mut Waiting,
    ram: &mut M,
    ring: &mut R,
) -> Result<(), Short>
    requires turning { TurningBetween M.RamSide R.RingSide node ram.old ring.old waiting.old }
    requires holds { HoldsAt R.RingSide node ring.old }
    requires no_bridge { IsNoBridgeAt R.RingSide node ring.old }
    ensures turning { OnOk result
        (TurningBetween M.RamSide R.RingSide node ram.new ring.new waiting.new) }
    ensures holds { OnOk result (HoldsAt R.RingSide node ring.new) }
    ensures ring_adds { OnOk result (AddsOver R.RingSide node (IsServing node) ring.old ring.new) }
    ensures served { OnOk result
        (ServesAll M.RamSide R.RingSide node ram.old ram.new ring.old ring.new) }
    ensures empty { OnOk result (inbox_after R.RingSide node ring.old ring.new ≡ []) }
    ensures step { BothStep M.RamSide R.RingSide node ram.old ram.new ring.old ring.new }
{
    while let Some(frame) = take_next(node, ring)? {
        serve(alloc, node, waiting, &frame, ram, ring)?;
    }
    Ok(())
}
