//! Replies to the Requests of others: what the controller or host says, and the port's statistics.
ghost use Rattle.std.specs.Prelude.{◌≡◌, ◌≢◌, ◌∷◌, [], true, OnOk, IfOk, Some};
ghost use Rattle.modbus_pdu.specs.Spelling.{IsReplyInRange, reply_bytes};
ghost use Rattle.ring_core.specs.Legal.{HasRoom};
ghost use Rattle.ring_core.specs.declared.entry.RingEntry.TheVariants.{Post};
ghost use Rattle.ring_core.specs.Statistics.{is_stats};
ghost use Rattle.tied_lists.specs.Items.{request_of};
ghost use Rattle.comm_port.specs.Replies.{reply_frame};
ghost use Rattle.comm_port.specs.RingSteps.{GrewBy, KeepsInboxOver, OwnTurnAt, RingStep};
ghost use Rattle.comm_port.specs.RingSteps.{TellsOver};
ghost use Rattle.modbus_pdu.specs.declared.reply.Reply.TheVariants as replies;

use crate::asking::{do_local, post_frame};
use crate::ring_side::RingSide;
use crate::short::Short;
use modbus_pdu::{Reply, encode_reply};
use mstr_block::CallId;
use plant_types::{Pdu, Route, Words};
use ring_core::{Frame, FrameKind, GET_STATISTICS, LocalOp};
use std::alloc::{AllocError, Global};

fn reply_frame(id: CallId, pdu: Pdu) -> Frame
    ensures { result ≡ reply_frame id pdu }
{
    Frame {
        kind: FrameKind::Reply,
        to: id.node,
        rest: Route::of(&[]),
        id,
        pdu,
    }
}

/// Posts a Reply to another node's call.
pub fn post_reply<R: RingSide>(node: u8, id: CallId, pdu: Pdu, ring: &mut R) -> Result<(), Short>
    requires turn { OwnTurnAt R.RingSide node ring.old }
    requires other { id.node ≢ node }
    ensures grew { OnOk result
        (GrewBy R.RingSide node (Post node (reply_frame id pdu) ∷ []) ring.old ring.new) }
    ensures kept { OnOk result (KeepsInboxOver R.RingSide node ring.old ring.new) }
    ensures step { RingStep R.RingSide node ring.old ring.new }
{
    post_frame(node, reply_frame(id, pdu), ring)?;
    Ok(())
}

/// What the port does for a request for statistics.
fn operation_for(request: &Pdu) -> LocalOp
    requires { is_stats request.now ≡ true }
    ensures asked { request_of result ≡ Some request.now }
    ensures room { HasRoom result }
{
    if request.bytes() == &GET_STATISTICS[..] {
        LocalOp::RemoteGet
    } else {
        LocalOp::RemoteClear
    }
}

/// The reply that tells twenty words of statistics, or none after a clear.
fn statistics_reply(alloc: Global, words: &[u16]) -> Result<Pdu, AllocError>
    requires { IsReplyInRange (replies.Stats words.now) }
    ensures { IfOk result (λ pdu. pdu ≡ reply_bytes (replies.Stats words.now)) }
{
    let words = Words::of(alloc, words)?;
    encode_reply(alloc, &Reply::Stats { words })
}

/// Answers another node's request for statistics.
pub fn tell_statistics<R: RingSide>(
    alloc: Global,
    node: u8,
    request: &Frame,
    ring: &mut R,
) -> Result<(), Short>
    requires turn { OwnTurnAt R.RingSide node ring.old }
    requires other { request.now.id.node ≢ node }
    requires stats { is_stats request.now.pdu ≡ true }
    ensures told { OnOk result (TellsOver R.RingSide node request.now ring.old ring.new) }
    ensures kept { OnOk result (KeepsInboxOver R.RingSide node ring.old ring.new) }
    ensures step { RingStep R.RingSide node ring.old ring.new }
{
    let op = operation_for(&request.pdu);
    let result = do_local(node, request.id, op, ring)?;
    let pdu = statistics_reply(alloc, result.words_told())?;
    post_reply(node, request.id, pdu, ring)?;
    Ok(())
}
