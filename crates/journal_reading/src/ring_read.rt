//! The lines of the ring that are read back.
ghost use Rattle.std.specs.Prelude.{◌≡◌};
ghost use Rattle.ring_core.specs.declared.entry.LeaveCause.TheVariants.{Down};
ghost use Rattle.ring_core.specs.declared.entry.RingEntry.TheVariants as ring;
ghost use Rattle.journal_reading.specs.Reading.{Reads, read_as, read_id, read_long, read_pair};
ghost use Rattle.journal_reading.specs.Reading.{read_small};
ghost use Rattle.journal_reading.specs.ReadLines.{got_reply, got_request, read_bare_cause};
ghost use Rattle.journal_reading.specs.ReadLines.{read_cause, read_done, read_give_up, read_onward};
ghost use Rattle.journal_reading.specs.ReadLines.{read_posted, read_got, read_heard, read_leave};
ghost use Rattle.journal_reading.specs.ReadLines.{read_local, read_named, read_pass, read_post};
ghost use Rattle.journal_reading.specs.ReadLines.{sent_reply, sent_request, read_ring_entry};
ghost use Rattle.journal_reading.specs.ReadLines.{read_send, read_sent, read_take, target_of};

use crate::calls_read::{read_named, read_op, read_result};
use crate::cutting::{LineFault, behind, cut, is_text, parted, read_id, read_long, read_small};
use crate::routes_read::{read_route, read_way};
use crate::words_read::{read_hex_word, read_hex_words, read_pdu};
use mstr_block::CallId;
use plant_types::{Pdu, Route, Words};
use ring_core::{Frame, FrameKind, Heard, LeaveCause, RingEntry};
use std::alloc::Global;

/// A Request that is posted, with its route.
#[tactic(auto, unfolding(crate::specs::ReadLines::read_posted))]
fn read_sent_request(alloc: Global, text: &[u8]) -> Result<Frame, LineFault>
    ensures { Reads (λ frame. frame) result (read_as sent_request read_posted text.now) }
{
    let (id, behind) = cut(text, b' ')?;
    let id = read_id(id)?;
    let (route, pdu) = cut(behind, b' ')?;
    let (to, rest) = read_way(alloc, route)?;
    let pdu = read_pdu(alloc, pdu)?;
    let kind = FrameKind::Request;
    Ok(Frame {
        kind,
        to,
        rest,
        id,
        pdu,
    })
}

/// A Reply goes to the node that asked.
fn read_sent_reply(alloc: Global, text: &[u8]) -> Result<Frame, LineFault>
    ensures { Reads (λ frame. frame) result (read_as sent_reply read_named text.now) }
{
    let (id, pdu) = read_named(alloc, text)?;
    let kind = FrameKind::Reply;
    let to = id.node;
    let rest = Route::of(&[]);
    Ok(Frame {
        kind,
        to,
        rest,
        id,
        pdu,
    })
}

#[tactic(auto, unfolding(crate::specs::ReadLines::read_sent))]
fn read_sent(alloc: Global, text: &[u8]) -> Result<Frame, LineFault>
    ensures { Reads (λ frame. frame) result (read_sent text.now) }
{
    if let Some(rest) = behind(text, "Q ") {
        return read_sent_request(alloc, rest);
    }
    if let Some(rest) = behind(text, "R ") {
        return read_sent_reply(alloc, rest);
    }
    Err(LineFault::Wrong)
}

/// The bytes of a Request that is taken, and the route on which it is still to go.
#[tactic(auto, unfolding(crate::specs::ReadLines::read_onward))]
fn read_onward(alloc: Global, text: &[u8]) -> Result<(Pdu, Route), LineFault>
    ensures { Reads (λ parts. parts) result (read_onward text.now) }
{
    match parted(text, b' ') {
        Some((pdu, rest)) => {
            let pdu = read_pdu(alloc, pdu)?;
            let rest = read_route(alloc, rest)?;
            Ok((pdu, rest))
        }
        None => {
            let pdu = read_pdu(alloc, text)?;
            Ok((pdu, Route::of(&[])))
        }
    }
}

/// What was taken, but for its target: its kind, its name, its bytes, and where it is still to go.
type Got = (FrameKind, CallId, Pdu, Route);

fn read_got_request(alloc: Global, text: &[u8]) -> Result<Got, LineFault>
    ensures { Reads (λ got. (got.0, (got.1, (got.2, got.3)))) result
        (read_as got_request (read_pair read_id read_onward 32) text.now) }
{
    let (id, behind) = cut(text, b' ')?;
    let id = read_id(id)?;
    let (pdu, rest) = read_onward(alloc, behind)?;
    Ok((FrameKind::Request, id, pdu, rest))
}

fn read_got_reply(alloc: Global, text: &[u8]) -> Result<Got, LineFault>
    ensures { Reads (λ got. (got.0, (got.1, (got.2, got.3)))) result
        (read_as got_reply read_named text.now) }
{
    let (id, pdu) = read_named(alloc, text)?;
    Ok((FrameKind::Reply, id, pdu, Route::of(&[])))
}

#[tactic(auto, unfolding(crate::specs::ReadLines::read_got))]
fn read_got(alloc: Global, text: &[u8]) -> Result<Got, LineFault>
    ensures { Reads (λ got. (got.0, (got.1, (got.2, got.3)))) result (read_got text.now) }
{
    if let Some(rest) = behind(text, "Q ") {
        return read_got_request(alloc, rest);
    }
    if let Some(rest) = behind(text, "R ") {
        return read_got_reply(alloc, rest);
    }
    Err(LineFault::Wrong)
}

/// A Request is taken by its target, and a Reply goes to the node that asked.
fn target_of(kind: FrameKind, node: u8, id: CallId) -> u8
    ensures { result ≡ target_of kind node id }
{
    match kind {
        FrameKind::Request => node,
        FrameKind::Reply => id.node,
    }
}

#[tactic(auto, unfolding(crate::specs::ReadLines::read_heard))]
fn read_heard(text: &[u8]) -> Result<Heard, LineFault>
    ensures { Reads (λ heard. heard) result (read_heard text.now) }
{
    if is_text(text, "A") {
        Ok(Heard::Acked)
    } else if is_text(text, "S") {
        Ok(Heard::Silent)
    } else if is_text(text, "B") {
        Ok(Heard::Busy)
    } else {
        Err(LineFault::Wrong)
    }
}

/// The causes that are a letter alone.
fn read_bare_cause(text: &[u8]) -> Result<LeaveCause, LineFault>
    ensures { Reads (λ cause. cause) result (read_bare_cause text.now) }
{
    if is_text(text, "E") {
        Ok(LeaveCause::Ended)
    } else if is_text(text, "S") {
        Ok(LeaveCause::Spent)
    } else {
        Err(LineFault::Wrong)
    }
}

fn read_down(text: &[u8]) -> Result<LeaveCause, LineFault>
    ensures { Reads (λ cause. cause) result
        (read_as (λ number. Down number) read_long text.now) }
{
    let number = read_long(text)?;
    Ok(LeaveCause::Down(number))
}

#[tactic(auto, unfolding(crate::specs::ReadLines::read_cause))]
fn read_cause(text: &[u8]) -> Result<LeaveCause, LineFault>
    ensures { Reads (λ cause. cause) result (read_cause text.now) }
{
    match behind(text, "D") {
        Some(number) => read_down(number),
        None => read_bare_cause(text),
    }
}

#[tactic(auto, unfolding(crate::specs::ReadLines::read_done))]
fn read_done(text: &[u8]) -> Result<bool, LineFault>
    ensures { Reads (λ done. done) result (read_done text.now) }
{
    if is_text(text, "1") {
        Ok(true)
    } else if is_text(text, "0") {
        Ok(false)
    } else {
        Err(LineFault::Wrong)
    }
}

fn read_post(alloc: Global, text: &[u8]) -> Result<RingEntry, LineFault>
    ensures { Reads (λ entry. entry) result (read_post text.now) }
{
    let (node, frame) = cut(text, b' ')?;
    let node = read_small(node)?;
    let frame = read_sent(alloc, frame)?;
    Ok(RingEntry::Post { node, frame })
}

fn read_send(text: &[u8]) -> Result<RingEntry, LineFault>
    ensures { Reads (λ entry. entry) result (read_send text.now) }
{
    let (node, heard) = cut(text, b' ')?;
    let node = read_small(node)?;
    let heard = read_heard(heard)?;
    Ok(RingEntry::Send { node, heard })
}

fn read_take(alloc: Global, text: &[u8]) -> Result<RingEntry, LineFault>
    ensures { Reads (λ entry. entry) result (read_take text.now) }
{
    let (node, frame) = cut(text, b' ')?;
    let node = read_small(node)?;
    let (kind, id, pdu, rest) = read_got(alloc, frame)?;
    let to = target_of(kind, node, id);
    let frame = Frame {
        kind,
        to,
        rest,
        id,
        pdu,
    };
    Ok(RingEntry::Take { node, frame })
}

fn read_local(alloc: Global, text: &[u8]) -> Result<RingEntry, LineFault>
    ensures { Reads (λ entry. entry) result (read_local text.now) }
{
    let (node, rest) = cut(text, b' ')?;
    let node = read_small(node)?;
    let (id, rest) = cut(rest, b' ')?;
    let id = read_id(id)?;
    let (op, outcome) = cut(rest, b' ')?;
    let op = read_op(alloc, op)?;
    let outcome = read_result(alloc, outcome)?;
    Ok(RingEntry::Local {
        node,
        id,
        op,
        result: outcome,
    })
}

fn read_give_up(alloc: Global, text: &[u8]) -> Result<RingEntry, LineFault>
    ensures { Reads (λ entry. entry) result (read_give_up text.now) }
{
    let (id, word) = cut(text, b' ')?;
    let id = read_id(id)?;
    let word = read_hex_word(alloc, word)?;
    Ok(RingEntry::GiveUp { id, word })
}

fn read_pass(alloc: Global, text: &[u8]) -> Result<RingEntry, LineFault>
    ensures { Reads (λ entry. entry) result (read_pass text.now) }
{
    let (node, rest) = cut(text, b' ')?;
    let node = read_small(node)?;
    let (done, words) = cut(rest, b' ')?;
    let done = read_done(done)?;
    let words = read_hex_words(alloc, words)?;
    let words = Words::of(alloc, words.as_slice())?;
    Ok(RingEntry::Pass { node, done, words })
}

fn read_leave(text: &[u8]) -> Result<RingEntry, LineFault>
    ensures { Reads (λ entry. entry) result (read_leave text.now) }
{
    let (node, cause) = cut(text, b' ')?;
    let node = read_small(node)?;
    let cause = read_cause(cause)?;
    Ok(RingEntry::Leave { node, cause })
}

fn read_join(text: &[u8]) -> Result<RingEntry, LineFault>
    ensures { Reads (λ entry. entry) result
        (read_as (λ node. ring.Join node) read_small text.now) }
{
    let node = read_small(text)?;
    Ok(RingEntry::Join { node })
}

/// The entry of the ring that a line tells.
#[tactic(auto, unfolding(crate::specs::ReadLines::read_ring_entry))]
pub fn read_ring_entry(alloc: Global, line: &[u8]) -> Result<RingEntry, LineFault>
    ensures { Reads (λ entry. entry) result (read_ring_entry line.now) }
{
    if let Some(rest) = behind(line, "PO ") {
        return read_post(alloc, rest);
    }
    if let Some(rest) = behind(line, "SE ") {
        return read_send(rest);
    }
    if let Some(rest) = behind(line, "TA ") {
        return read_take(alloc, rest);
    }
    if let Some(rest) = behind(line, "LO ") {
        return read_local(alloc, rest);
    }
    if let Some(rest) = behind(line, "GU ") {
        return read_give_up(alloc, rest);
    }
    if let Some(rest) = behind(line, "PA ") {
        return read_pass(alloc, rest);
    }
    if let Some(rest) = behind(line, "LE ") {
        return read_leave(rest);
    }
    if let Some(rest) = behind(line, "JN ") {
        return read_join(rest);
    }
    Err(LineFault::Wrong)
}
