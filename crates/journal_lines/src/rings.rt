//! The lines of a ring's entries.
ghost use Rattle.std.specs.Prelude.{codes, ◌≡◌, ◌++◌, OnOk, string_bytes};
ghost use Rattle.std.specs.Fmt.{decimal};
ghost use Rattle.std.specs.List.{flat_map};
ghost use Rattle.ring_core.specs.Words.{frame_route};
ghost use Rattle.journal_lines.specs.Fields.{call_result_text, hex_bytes, hex_words, id_text};
ghost use Rattle.journal_lines.specs.Fields.{op_text, route_text};
ghost use Rattle.journal_lines.specs.Lines.{done_text, got_text, heard_text, named_text};
ghost use Rattle.journal_lines.specs.Lines.{onward_text, request_text, ring_line, sent_text};

use crate::fields::{HexWord, Name, push_bytes, push_op, push_result, push_way, push_words};
use mstr_block::{CallId, MstrResult};
use plant_types::Route;
use ring_core::{Frame, FrameKind, Heard, LeaveCause, LocalOp, RingEntry};
use std::alloc::AllocError;
use std::fmt::Write;

fn heard_text(heard: Heard) -> &'static str
    ensures { result.now ≡ heard_text heard }
{
    match heard {
        Heard::Acked => "A",
        Heard::Silent => "S",
        Heard::Busy => "B",
    }
}

fn done_text(done: bool) -> &'static str
    ensures { result.now ≡ done_text done }
{
    if done { "1" } else { "0" }
}

fn push_named(text: &mut String, letter: &str, frame: &Frame) -> Result<(), AllocError>
    ensures { OnOk result (string_bytes text.new ≡ string_bytes text.old
        ++ named_text letter.now frame.now) }
{
    let id = Name(frame.id);
    write!(text, "{letter} {id} ")?;
    push_bytes(text, frame.pdu.bytes())
}

fn push_sent_request(text: &mut String, frame: &Frame) -> Result<(), AllocError>
    ensures { OnOk result (string_bytes text.new ≡ string_bytes text.old
        ++ request_text frame.now.id (frame_route frame.now) frame.now.pdu) }
{
    let id = Name(frame.id);
    write!(text, "Q {id} ")?;
    push_way(text, frame.to, frame.rest)?;
    text.push_str(" ")?;
    push_bytes(text, frame.pdu.bytes())
}

fn push_sent(text: &mut String, frame: &Frame) -> Result<(), AllocError>
    ensures { OnOk result (string_bytes text.new ≡ string_bytes text.old
        ++ sent_text frame.now.kind frame.now) }
{
    match frame.kind {
        FrameKind::Request => push_sent_request(text, frame),
        FrameKind::Reply => push_named(text, "R", frame),
    }
}

fn push_onward(text: &mut String, rest: Route) -> Result<(), AllocError>
    ensures { OnOk result (string_bytes text.new ≡ string_bytes text.old ++ onward_text rest) }
{
    match rest.split_first() {
        Some((to, rest)) => {
            text.push_str(" ")?;
            push_way(text, to, rest)
        }
        None => Ok(()),
    }
}

fn push_got(text: &mut String, frame: &Frame) -> Result<(), AllocError>
    ensures { OnOk result (string_bytes text.new ≡ string_bytes text.old
        ++ got_text frame.now.kind frame.now) }
{
    match frame.kind {
        FrameKind::Request => {
            push_named(text, "Q", frame)?;
            push_onward(text, frame.rest)
        }
        FrameKind::Reply => push_named(text, "R", frame),
    }
}

fn push_post(text: &mut String, node: u8, frame: &Frame) -> Result<(), AllocError>
    ensures { OnOk result (string_bytes text.new ≡ string_bytes text.old
        ++ ring_line (RingEntry.Post node frame.now)) }
{
    write!(text, "PO {node} ")?;
    push_sent(text, frame)?;
    text.push_str("\n")
}

fn push_take(text: &mut String, node: u8, frame: &Frame) -> Result<(), AllocError>
    ensures { OnOk result (string_bytes text.new ≡ string_bytes text.old
        ++ ring_line (RingEntry.Take node frame.now)) }
{
    write!(text, "TA {node} ")?;
    push_got(text, frame)?;
    text.push_str("\n")
}

fn push_local(
    text: &mut String,
    node: u8,
    id: CallId,
    op: &LocalOp,
    outcome: &MstrResult,
) -> Result<(), AllocError>
    ensures { OnOk result (string_bytes text.new ≡ string_bytes text.old
        ++ ring_line (RingEntry.Local node id op.now outcome.now)) }
{
    let id = Name(id);
    write!(text, "LO {node} {id} ")?;
    push_op(text, op)?;
    text.push_str(" ")?;
    push_result(text, outcome)?;
    text.push_str("\n")
}

fn push_give_up(text: &mut String, id: CallId, word: u16) -> Result<(), AllocError>
    ensures { OnOk result (string_bytes text.new ≡ string_bytes text.old
        ++ ring_line (RingEntry.GiveUp id word)) }
{
    let id = Name(id);
    let word = HexWord(word);
    write!(text, "GU {id} {word}\n")
}

fn push_pass(text: &mut String, node: u8, done: bool, words: &[u16]) -> Result<(), AllocError>
    ensures { OnOk result (string_bytes text.new ≡ string_bytes text.old
        ++ ring_line (RingEntry.Pass node done words.now)) }
{
    let done = done_text(done);
    write!(text, "PA {node} {done} ")?;
    push_words(text, words)?;
    text.push_str("\n")
}

fn push_leave(text: &mut String, node: u8, cause: LeaveCause) -> Result<(), AllocError>
    ensures { OnOk result (string_bytes text.new ≡ string_bytes text.old
        ++ ring_line (RingEntry.Leave node cause)) }
{
    match cause {
        LeaveCause::Ended => write!(text, "LE {node} E\n"),
        LeaveCause::Spent => write!(text, "LE {node} S\n"),
        LeaveCause::Down(number) => write!(text, "LE {node} D{number}\n"),
    }
}

fn push_entry(text: &mut String, entry: &RingEntry) -> Result<(), AllocError>
    ensures { OnOk result (string_bytes text.new ≡ string_bytes text.old ++ ring_line entry.now) }
{
    match entry {
        RingEntry::Post { node, frame } => push_post(text, *node, frame),
        RingEntry::Send { node, heard } => {
            let heard = heard_text(*heard);
            write!(text, "SE {node} {heard}\n")
        }
        RingEntry::Take { node, frame } => push_take(text, *node, frame),
        RingEntry::Local {
            node,
            id,
            op,
            result,
        } => push_local(text, *node, *id, op, result),
        RingEntry::GiveUp { id, word } => push_give_up(text, *id, *word),
        RingEntry::Pass { node, done, words } => push_pass(text, *node, *done, words.words()),
        RingEntry::Leave { node, cause } => push_leave(text, *node, *cause),
        RingEntry::Join { node } => write!(text, "JN {node}\n"),
    }
}

/// The lines of a ring's entries, each with its line feed.
pub fn push_ring_lines(text: &mut String, entries: &[RingEntry]) -> Result<(), AllocError>
    ensures { OnOk result (string_bytes text.new ≡ string_bytes text.old
        ++ flat_map ring_line entries.now) }
{
    for entry in entries.iter() {
        push_entry(text, entry)?;
    }
    Ok(())
}
