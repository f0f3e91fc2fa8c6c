//! The lines of a bridge's entries.
ghost use Rattle.std.specs.Prelude.{codes, ◌≡◌, ◌++◌, OnOk, string_bytes};
ghost use Rattle.std.specs.List.{flat_map};
ghost use Rattle.bridge_relay.specs.declared.entry.BridgeEntry.TheVariants as bridge_entries;
ghost use Rattle.journal_lines.specs.Lines.{bridge_line, relay_text};

use crate::fields::{HexWord, Name, push_bytes, push_route, push_route_or_dash};
use bridge_relay::{BridgeEntry, RelayResult};
use mstr_block::CallId;
use plant_types::{Pdu, Route};
use std::alloc::AllocError;
use std::fmt::Write;

fn push_relay(text: &mut String, outcome: &RelayResult) -> Result<(), AllocError>
    ensures { OnOk result (string_bytes text.new ≡ string_bytes text.old
        ++ relay_text outcome.now) }
{
    match outcome {
        RelayResult::Reply(pdu) => {
            text.push_str("R ")?;
            push_bytes(text, pdu.bytes())
        }
        RelayResult::Bad(word) => {
            let word = HexWord(*word);
            write!(text, "B {word}")
        }
    }
}

fn push_accept(
    text: &mut String,
    side: u8,
    id: CallId,
    route: Route,
    request: &Pdu,
) -> Result<(), AllocError>
    ensures { OnOk result (string_bytes text.new ≡ string_bytes text.old
        ++ bridge_line (bridge_entries.Accept side id route request.now)) }
{
    let id = Name(id);
    write!(text, "T {side} {id} ")?;
    push_route_or_dash(text, route)?;
    text.push_str(" ")?;
    push_bytes(text, request.bytes())?;
    text.push_str("\n")
}

fn push_forward(
    text: &mut String,
    side: u8,
    old: CallId,
    id: CallId,
    route: Route,
    request: &Pdu,
) -> Result<(), AllocError>
    ensures { OnOk result (string_bytes text.new ≡ string_bytes text.old
        ++ bridge_line (bridge_entries.Forward side old id route request.now)) }
{
    let old = Name(old);
    let id = Name(id);
    write!(text, "U {side} {old} {id} ")?;
    push_route(text, route)?;
    text.push_str(" ")?;
    push_bytes(text, request.bytes())?;
    text.push_str("\n")
}

fn push_finish(
    text: &mut String,
    side: u8,
    id: CallId,
    outcome: &RelayResult,
) -> Result<(), AllocError>
    ensures { OnOk result (string_bytes text.new ≡ string_bytes text.old
        ++ bridge_line (bridge_entries.Finish side id outcome.now)) }
{
    let id = Name(id);
    write!(text, "A {side} {id} ")?;
    push_relay(text, outcome)?;
    text.push_str("\n")
}

fn push_back(text: &mut String, side: u8, id: CallId, reply: &Pdu) -> Result<(), AllocError>
    ensures { OnOk result (string_bytes text.new ≡ string_bytes text.old
        ++ bridge_line (bridge_entries.Back side id reply.now)) }
{
    let id = Name(id);
    write!(text, "V {side} {id} ")?;
    push_bytes(text, reply.bytes())?;
    text.push_str("\n")
}

fn push_entry(text: &mut String, entry: &BridgeEntry) -> Result<(), AllocError>
    ensures { OnOk result (string_bytes text.new ≡ string_bytes text.old ++ bridge_line entry.now) }
{
    match entry {
        BridgeEntry::Accept {
            side,
            id,
            route,
            request,
        } => push_accept(text, *side, *id, *route, request),
        BridgeEntry::Forward {
            side,
            old,
            id,
            route,
            request,
        } => push_forward(text, *side, *old, *id, *route, request),
        BridgeEntry::Finish { side, id, result } => push_finish(text, *side, *id, result),
        BridgeEntry::Back { side, id, reply } => push_back(text, *side, *id, reply),
        BridgeEntry::Gone { side } => write!(text, "G {side}\n"),
    }
}

/// The lines of a bridge's entries, each with its line feed.
pub fn push_bridge_lines(text: &mut String, entries: &[BridgeEntry]) -> Result<(), AllocError>
    ensures { OnOk result (string_bytes text.new ≡ string_bytes text.old
        ++ flat_map bridge_line entries.now) }
{
    for entry in entries.iter() {
        push_entry(text, entry)?;
    }
    Ok(())
}
