//! The first part of an end's turn: what came is taken and served.
ghost use Rattle.std.specs.Prelude.{◌≡◌, [], true, false, OnOk};
ghost use Rattle.ring_core.specs.Statistics.{is_for_stats};
ghost use Rattle.comm_port.specs.Order.{IsServing};
ghost use Rattle.comm_port.specs.RingSteps.{AddsOver, HoldsAt, KeepsInboxOver, inbox_after};
ghost use Rattle.bridge_port.specs.EndSteps.{EndStep, Meets, ServesAll, TakingBetween};
ghost use Rattle.bridge_port.specs.EndSteps.{TurningBetween};

use crate::bridge_side::BridgeSide;
use bridge_relay::RelayResult;
use comm_port::{RingSide, Short, take_next, tell_statistics};
use ring_core::{Frame, FrameKind};
use std::alloc::Global;

/// Ends the call that a Reply is to.
fn end_call<B: BridgeSide, R: RingSide>(
    side: u8,
    reply: Frame,
    bridge: &mut B,
    ring: &R,
) -> Result<(), Short>
    requires taking { TakingBetween B.BridgeSide R.RingSide side reply bridge.old ring.now }
    requires kind { reply.kind ≡ FrameKind.Reply }
    ensures turning { OnOk result
        (TurningBetween B.BridgeSide R.RingSide side bridge.new ring.now) }
    ensures served { OnOk result
        (Meets B.BridgeSide R.RingSide side reply bridge.old bridge.new ring.now ring.now) }
    ensures step { EndStep B.BridgeSide R.RingSide side bridge.old bridge.new ring.now ring.now }
{
    bridge.finish(side, reply.id, RelayResult::Reply(reply.pdu))?;
    Ok(())
}

/// Has the bridge take a Request.
fn accept_request<B: BridgeSide, R: RingSide>(
    side: u8,
    request: &Frame,
    bridge: &mut B,
    ring: &R,
) -> Result<(), Short>
    requires taking { TakingBetween B.BridgeSide R.RingSide side request.now bridge.old ring.now }
    requires kind { request.now.kind ≡ FrameKind.Request }
    requires plain { is_for_stats request.now ≡ false }
    ensures turning { OnOk result
        (TurningBetween B.BridgeSide R.RingSide side bridge.new ring.now) }
    ensures served { OnOk result
        (Meets B.BridgeSide R.RingSide side request.now bridge.old bridge.new ring.now ring.now) }
    ensures step { EndStep B.BridgeSide R.RingSide side bridge.old bridge.new ring.now ring.now }
{
    bridge.accept(side, request.id, request.rest, &request.pdu)?;
    Ok(())
}

/// Answers a Request for statistics, of which the bridge knows nothing.
fn answer_port<B: BridgeSide, R: RingSide>(
    alloc: Global,
    side: u8,
    request: &Frame,
    bridge: &B,
    ring: &mut R,
) -> Result<(), Short>
    requires taking { TakingBetween B.BridgeSide R.RingSide side request.now bridge.now ring.old }
    requires kind { request.now.kind ≡ FrameKind.Request }
    requires stats { is_for_stats request.now ≡ true }
    ensures turning { OnOk result
        (TurningBetween B.BridgeSide R.RingSide side bridge.now ring.new) }
    ensures kept { OnOk result (KeepsInboxOver R.RingSide side ring.old ring.new) }
    ensures ring_adds { OnOk result (AddsOver R.RingSide side (IsServing side) ring.old ring.new) }
    ensures served { OnOk result
        (Meets B.BridgeSide R.RingSide side request.now bridge.now bridge.now ring.old ring.new) }
    ensures step { EndStep B.BridgeSide R.RingSide side bridge.now bridge.now ring.old ring.new }
{
    tell_statistics(alloc, side, request, ring)?;
    Ok(())
}

/// What is due to a frame that was taken.
fn serve<B: BridgeSide, R: RingSide>(
    alloc: Global,
    side: u8,
    frame: Frame,
    bridge: &mut B,
    ring: &mut R,
) -> Result<(), Short>
    requires taking { TakingBetween B.BridgeSide R.RingSide side frame bridge.old ring.old }
    ensures turning { OnOk result
        (TurningBetween B.BridgeSide R.RingSide side bridge.new ring.new) }
    ensures kept { OnOk result (KeepsInboxOver R.RingSide side ring.old ring.new) }
    ensures ring_adds { OnOk result (AddsOver R.RingSide side (IsServing side) ring.old ring.new) }
    ensures served { OnOk result
        (Meets B.BridgeSide R.RingSide side frame bridge.old bridge.new ring.old ring.new) }
    ensures step { EndStep B.BridgeSide R.RingSide side bridge.old bridge.new ring.old ring.new }
{
    match frame.kind {
        FrameKind::Reply => end_call(side, frame, bridge, ring),
        FrameKind::Request => {
            if frame.is_for_stats() {
                answer_port(alloc, side, &frame, bridge, ring)
            } else {
                accept_request(side, &frame, bridge, ring)
            }
        }
    }
}

/// Takes until the inbox is empty. A Request is accepted, a Reply ends its call.
pub(crate) fn serve_inbox<B: BridgeSide, R: RingSide>(
    alloc: Global,
    side: u8,
    bridge: &mut B,
    ring: &mut R,
) -> Result<(), Short>
    requires turning { TurningBetween B.BridgeSide R.RingSide side bridge.old ring.old }
    requires holds { HoldsAt R.RingSide side ring.old }
    ensures turning { OnOk result
        (TurningBetween B.BridgeSide R.RingSide side bridge.new ring.new) }
    ensures holds { OnOk result (HoldsAt R.RingSide side ring.new) }
    ensures ring_adds { OnOk result (AddsOver R.RingSide side (IsServing side) ring.old ring.new) }
    ensures served { OnOk result
        (ServesAll B.BridgeSide R.RingSide side bridge.old bridge.new ring.old ring.new) }
    ensures empty { OnOk result (inbox_after R.RingSide side ring.old ring.new ≡ []) }
    ensures step { EndStep B.BridgeSide R.RingSide side bridge.old bridge.new ring.old ring.new }
{
    while let Some(frame) = take_next(side, ring)? {
        serve(alloc, side, frame, bridge, ring)?;
    }
    Ok(())
}
