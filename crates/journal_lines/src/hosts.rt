//! The lines of a host's entries.
ghost use Rattle.std.specs.Prelude.{codes, ◌≡◌, ◌++◌, OnOk, string_bytes};
ghost use Rattle.std.specs.List.{flat_map};
ghost use Rattle.journal_lines.specs.Fields.{hex_bytes, id_text, route_text};
ghost use Rattle.journal_lines.specs.Lines.{answer_text, host_line, request_text};

use crate::controllers::push_peer;
use crate::fields::{HexWord, Name, push_bytes, push_route};
use host_port::{HostEntry, HostResult};
use mstr_block::CallId;
use plant_types::{Pdu, Route};
use std::alloc::AllocError;
use std::fmt::Write;

fn push_outcome(text: &mut String, outcome: &HostResult) -> Result<(), AllocError>
    ensures { OnOk result (string_bytes text.new ≡ string_bytes text.old
        ++ answer_text outcome.now) }
{
    match outcome {
        HostResult::Reply(pdu) => {
            text.push_str("R ")?;
            push_bytes(text, pdu.bytes())
        }
        HostResult::Bad(word) => {
            let word = HexWord(*word);
            write!(text, "B {word}")
        }
    }
}

fn push_ask(text: &mut String, id: CallId, route: Route, pdu: &Pdu) -> Result<(), AllocError>
    ensures { OnOk result (string_bytes text.new ≡ string_bytes text.old
        ++ (request_text id route pdu.now ++ codes "\n")) }
{
    let id = Name(id);
    write!(text, "Q {id} ")?;
    push_route(text, route)?;
    text.push_str(" ")?;
    push_bytes(text, pdu.bytes())?;
    text.push_str("\n")
}

fn push_answer(text: &mut String, id: CallId, outcome: &HostResult) -> Result<(), AllocError>
    ensures { OnOk result (string_bytes text.new ≡ string_bytes text.old
        ++ (codes "A " ++ id_text id ++ codes " " ++ answer_text outcome.now ++ codes "\n")) }
{
    let id = Name(id);
    write!(text, "A {id} ")?;
    push_outcome(text, outcome)?;
    text.push_str("\n")
}

fn push_entry(text: &mut String, entry: &HostEntry) -> Result<(), AllocError>
    ensures { OnOk result (string_bytes text.new ≡ string_bytes text.old ++ host_line entry.now) }
{
    match entry {
        HostEntry::Ask { id, route, pdu } => push_ask(text, *id, *route, pdu),
        HostEntry::Answer { id, result } => push_answer(text, *id, result),
        HostEntry::Served { id, request, reply } => push_peer(text, *id, request, reply),
    }
}

/// The lines of a host's entries, each with its line feed.
pub fn push_host_lines(text: &mut String, entries: &[HostEntry]) -> Result<(), AllocError>
    ensures { OnOk result (string_bytes text.new ≡ string_bytes text.old
        ++ flat_map host_line entries.now) }
{
    for entry in entries.iter() {
        push_entry(text, entry)?;
    }
    Ok(())
}
