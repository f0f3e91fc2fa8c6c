//! The lines of controllers and hosts that are read back.
ghost use Rattle.std.specs.Prelude.{◌≡◌};
ghost use Rattle.controller_core.specs.declared.entry.Entry.TheVariants as entries;
ghost use Rattle.host_port.specs.declared.entry.HostResult.TheVariants as host_results;
ghost use Rattle.journal_reading.specs.Reading.{Reads, read_as, read_pdu, read_word, read_hex_word};
ghost use Rattle.journal_reading.specs.ReadLines.{read_answer, read_ask, read_bare_entry};
ghost use Rattle.journal_reading.specs.ReadLines.{read_calls, read_entry, read_finish};
ghost use Rattle.journal_reading.specs.ReadLines.{read_host_entry, read_host_served, read_outcome};
ghost use Rattle.journal_reading.specs.ReadLines.{read_output, read_off, read_peer};

use crate::calls_read::{read_asked, read_calls, read_named, read_result, read_served};
use crate::cutting::{LineFault, behind, cut, is_text, read_id, read_word};
use crate::words_read::{read_block, read_hex_word, read_pdu};
use controller_core::Entry;
use host_port::{HostEntry, HostResult};
use std::alloc::Global;

fn read_input(text: &[u8]) -> Result<Entry, LineFault>
    ensures { Reads (λ entry. entry) result
        (read_as (λ row. entries.Input row) read_word text.now) }
{
    let row = read_word(text)?;
    Ok(Entry::Input(row))
}

fn read_solve(text: &[u8]) -> Result<Entry, LineFault>
    ensures { Reads (λ entry. entry) result
        (read_as (λ row. entries.Solve row) read_word text.now) }
{
    let row = read_word(text)?;
    Ok(Entry::Solve(row))
}

fn read_output(alloc: Global, text: &[u8]) -> Result<Entry, LineFault>
    ensures { Reads (λ entry. entry) result (read_output text.now) }
{
    let (row, words) = cut(text, b' ')?;
    let row = read_word(row)?;
    let words = read_block(alloc, words)?;
    Ok(Entry::Output { row, words })
}

fn read_collect(alloc: Global, text: &[u8]) -> Result<Entry, LineFault>
    ensures { Reads (λ entry. entry) result
        (read_as (λ calls. entries.Collect calls) read_calls text.now) }
{
    let calls = read_calls(alloc, text)?;
    Ok(Entry::Collect(calls))
}

fn read_peer(alloc: Global, text: &[u8]) -> Result<Entry, LineFault>
    ensures { Reads (λ entry. entry) result (read_peer text.now) }
{
    let (id, request, reply) = read_served(alloc, text)?;
    Ok(Entry::Peer { id, request, reply })
}

fn read_off(alloc: Global, text: &[u8]) -> Result<Entry, LineFault>
    ensures { Reads (λ entry. entry) result (read_off text.now) }
{
    let (id, request) = read_named(alloc, text)?;
    Ok(Entry::Off { id, request })
}

fn read_finish(alloc: Global, text: &[u8]) -> Result<Entry, LineFault>
    ensures { Reads (λ entry. entry) result (read_finish text.now) }
{
    let (id, outcome) = cut(text, b' ')?;
    let id = read_id(id)?;
    let outcome = read_result(alloc, outcome)?;
    Ok(Entry::Finish {
        id,
        result: outcome,
    })
}

/// The lines that are a letter alone.
fn read_bare_entry(line: &[u8]) -> Result<Entry, LineFault>
    ensures { Reads (λ entry. entry) result (read_bare_entry line.now) }
{
    if is_text(line, "B") {
        Ok(Entry::Begin)
    } else if is_text(line, "E") {
        Ok(Entry::End)
    } else if is_text(line, "X") {
        Ok(Entry::Fail)
    } else if is_text(line, "K") {
        Ok(Entry::Dark)
    } else {
        Err(LineFault::Wrong)
    }
}

/// The event of a controller that a line tells.
#[tactic(auto, unfolding(crate::specs::ReadLines::read_entry))]
pub fn read_entry(alloc: Global, line: &[u8]) -> Result<Entry, LineFault>
    ensures { Reads (λ entry. entry) result (read_entry line.now) }
{
    if let Some(row) = behind(line, "I ") {
        return read_input(row);
    }
    if let Some(row) = behind(line, "S ") {
        return read_solve(row);
    }
    if let Some(rest) = behind(line, "O ") {
        return read_output(alloc, rest);
    }
    if let Some(calls) = behind(line, "L ") {
        return read_collect(alloc, calls);
    }
    if let Some(rest) = behind(line, "P ") {
        return read_peer(alloc, rest);
    }
    if let Some(rest) = behind(line, "N ") {
        return read_off(alloc, rest);
    }
    if let Some(rest) = behind(line, "F ") {
        return read_finish(alloc, rest);
    }
    read_bare_entry(line)
}

fn read_reply(alloc: Global, text: &[u8]) -> Result<HostResult, LineFault>
    ensures { Reads (λ outcome. outcome) result
        (read_as (λ pdu. host_results.Reply pdu) read_pdu text.now) }
{
    let pdu = read_pdu(alloc, text)?;
    Ok(HostResult::Reply(pdu))
}

fn read_refusal(alloc: Global, text: &[u8]) -> Result<HostResult, LineFault>
    ensures { Reads (λ outcome. outcome) result
        (read_as (λ word. host_results.Bad word) read_hex_word text.now) }
{
    let word = read_hex_word(alloc, text)?;
    Ok(HostResult::Bad(word))
}

#[tactic(auto, unfolding(crate::specs::ReadLines::read_outcome))]
fn read_outcome(alloc: Global, text: &[u8]) -> Result<HostResult, LineFault>
    ensures { Reads (λ outcome. outcome) result (read_outcome text.now) }
{
    if let Some(pdu) = behind(text, "R ") {
        return read_reply(alloc, pdu);
    }
    if let Some(word) = behind(text, "B ") {
        return read_refusal(alloc, word);
    }
    Err(LineFault::Wrong)
}

fn read_ask(alloc: Global, text: &[u8]) -> Result<HostEntry, LineFault>
    ensures { Reads (λ entry. entry) result (read_ask text.now) }
{
    let (id, route, pdu) = read_asked(alloc, text)?;
    Ok(HostEntry::Ask { id, route, pdu })
}

fn read_answer(alloc: Global, text: &[u8]) -> Result<HostEntry, LineFault>
    ensures { Reads (λ entry. entry) result (read_answer text.now) }
{
    let (id, outcome) = cut(text, b' ')?;
    let id = read_id(id)?;
    let outcome = read_outcome(alloc, outcome)?;
    Ok(HostEntry::Answer {
        id,
        result: outcome,
    })
}

fn read_host_served(alloc: Global, text: &[u8]) -> Result<HostEntry, LineFault>
    ensures { Reads (λ entry. entry) result (read_host_served text.now) }
{
    let (id, request, reply) = read_served(alloc, text)?;
    Ok(HostEntry::Served { id, request, reply })
}

/// The event of a host that a line tells.
#[tactic(auto, unfolding(crate::specs::ReadLines::read_host_entry))]
pub fn read_host_entry(alloc: Global, line: &[u8]) -> Result<HostEntry, LineFault>
    ensures { Reads (λ entry. entry) result (read_host_entry line.now) }
{
    if let Some(rest) = behind(line, "Q ") {
        return read_ask(alloc, rest);
    }
    if let Some(rest) = behind(line, "A ") {
        return read_answer(alloc, rest);
    }
    if let Some(rest) = behind(line, "P ") {
        return read_host_served(alloc, rest);
    }
    Err(LineFault::Wrong)
}
