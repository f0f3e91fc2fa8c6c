//! The lines of a controller's entries.
ghost use Rattle.std.specs.Prelude.{codes, ◌≡◌, ◌++◌, OnOk, string_bytes};
ghost use Rattle.std.specs.List.{flat_map};
ghost use Rattle.journal_lines.specs.Lines.{call_text, controller_line, kind_text, peer_line};
ghost use Rattle.std.specs.Fmt.{decimal};
ghost use Rattle.journal_lines.specs.Fields.{call_result_text, hex_bytes, hex_words, id_text};
ghost use Rattle.journal_lines.specs.Fields.{route_text};

use crate::fields::{Name, push_bytes, push_op, push_result, push_route, push_words};
use controller_core::{Call, CallKind, Entry};
use mstr_block::{CallId, MstrResult};
use plant_types::Pdu;
use std::alloc::AllocError;
use std::fmt::Write;

fn push_kind(text: &mut String, kind: &CallKind) -> Result<(), AllocError>
    ensures { OnOk result (string_bytes text.new ≡ string_bytes text.old ++ kind_text kind.now) }
{
    match kind {
        CallKind::Net { route, pdu } => {
            push_route(text, *route)?;
            text.push_str(":")?;
            push_bytes(text, pdu.bytes())
        }
        CallKind::Local(op) => push_op(text, op),
    }
}

fn push_call(text: &mut String, call: &Call) -> Result<(), AllocError>
    ensures { OnOk result (string_bytes text.new ≡ string_bytes text.old ++ call_text call.now) }
{
    let id = Name(call.id);
    write!(text, " {id}=")?;
    push_kind(text, &call.kind)
}

fn push_calls(text: &mut String, calls: &[Call]) -> Result<(), AllocError>
    ensures { OnOk result (string_bytes text.new ≡ string_bytes text.old
        ++ flat_map call_text calls.now) }
{
    for call in calls.iter() {
        push_call(text, call)?;
    }
    Ok(())
}

fn push_collect(text: &mut String, calls: &[Call]) -> Result<(), AllocError>
    ensures { OnOk result (string_bytes text.new ≡ string_bytes text.old
        ++ (codes "L" ++ flat_map call_text calls.now ++ codes "\n")) }
{
    text.push_str("L")?;
    push_calls(text, calls)?;
    text.push_str("\n")
}

fn push_output(text: &mut String, row: u16, words: &[u16]) -> Result<(), AllocError>
    ensures { OnOk result (string_bytes text.new ≡ string_bytes text.old
        ++ (codes "O " ++ decimal row ++ codes " " ++ hex_words words.now ++ codes "\n")) }
{
    write!(text, "O {row} ")?;
    push_words(text, words)?;
    text.push_str("\n")
}

pub(crate) fn push_peer(
    text: &mut String,
    id: CallId,
    request: &Pdu,
    reply: &Pdu,
) -> Result<(), AllocError>
    ensures { OnOk result (string_bytes text.new ≡ string_bytes text.old
        ++ peer_line id request.now reply.now) }
{
    let id = Name(id);
    write!(text, "P {id} ")?;
    push_bytes(text, request.bytes())?;
    text.push_str(" ")?;
    push_bytes(text, reply.bytes())?;
    text.push_str("\n")
}

fn push_off(text: &mut String, id: CallId, request: &Pdu) -> Result<(), AllocError>
    ensures { OnOk result (string_bytes text.new ≡ string_bytes text.old
        ++ (codes "N " ++ id_text id ++ codes " " ++ hex_bytes request.now ++ codes "\n")) }
{
    let id = Name(id);
    write!(text, "N {id} ")?;
    push_bytes(text, request.bytes())?;
    text.push_str("\n")
}

fn push_finish(text: &mut String, id: CallId, outcome: &MstrResult) -> Result<(), AllocError>
    ensures { OnOk result (string_bytes text.new ≡ string_bytes text.old
        ++ (codes "F " ++ id_text id ++ codes " " ++ call_result_text outcome.now ++ codes "\n")) }
{
    let id = Name(id);
    write!(text, "F {id} ")?;
    push_result(text, outcome)?;
    text.push_str("\n")
}

fn push_entry(text: &mut String, entry: &Entry) -> Result<(), AllocError>
    ensures { OnOk result (string_bytes text.new ≡ string_bytes text.old
        ++ controller_line entry.now) }
{
    match entry {
        Entry::Begin => text.push_str("B\n"),
        Entry::Input(row) => write!(text, "I {row}\n"),
        Entry::Solve(row) => write!(text, "S {row}\n"),
        Entry::Output { row, words } => push_output(text, *row, words.words()),
        Entry::End => text.push_str("E\n"),
        Entry::Fail => text.push_str("X\n"),
        Entry::Dark => text.push_str("K\n"),
        Entry::Collect(calls) => push_collect(text, calls.as_slice()),
        Entry::Peer { id, request, reply } => push_peer(text, *id, request, reply),
        Entry::Off { id, request } => push_off(text, *id, request),
        Entry::Finish { id, result } => push_finish(text, *id, result),
    }
}

/// The lines of a controller's entries, each with its line feed.
pub fn push_controller_lines(text: &mut String, entries: &[Entry]) -> Result<(), AllocError>
    ensures { OnOk result (string_bytes text.new ≡ string_bytes text.old
        ++ flat_map controller_line entries.now) }
{
    for entry in entries.iter() {
        push_entry(text, entry)?;
    }
    Ok(())
}
