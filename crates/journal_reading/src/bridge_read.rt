//! The lines of a bridge that are read back.
ghost use Rattle.std.specs.Prelude.{◌≡◌};
ghost use Rattle.bridge_relay.specs.declared.entry.BridgeEntry.TheVariants as bridge_entries;
ghost use Rattle.bridge_relay.specs.declared.entry.RelayResult.TheVariants as relay_results;
ghost use Rattle.journal_reading.specs.Reading.{Reads, read_as, read_hex_word, read_pdu};
ghost use Rattle.journal_reading.specs.Reading.{read_small};
ghost use Rattle.journal_reading.specs.ReadLines.{read_accept, read_back, read_bridge_entry};
ghost use Rattle.journal_reading.specs.ReadLines.{read_forward, read_relay, read_relayed};

use crate::calls_read::{read_asked, read_coming, read_named};
use crate::cutting::{LineFault, behind, cut, read_id, read_small};
use crate::words_read::{read_hex_word, read_pdu};
use bridge_relay::{BridgeEntry, RelayResult};
use std::alloc::Global;

fn read_reply(alloc: Global, text: &[u8]) -> Result<RelayResult, LineFault>
    ensures { Reads (λ outcome. outcome) result
        (read_as (λ pdu. relay_results.Reply pdu) read_pdu text.now) }
{
    let pdu = read_pdu(alloc, text)?;
    Ok(RelayResult::Reply(pdu))
}

fn read_refusal(alloc: Global, text: &[u8]) -> Result<RelayResult, LineFault>
    ensures { Reads (λ outcome. outcome) result
        (read_as (λ word. relay_results.Bad word) read_hex_word text.now) }
{
    let word = read_hex_word(alloc, text)?;
    Ok(RelayResult::Bad(word))
}

#[tactic(auto, unfolding(crate::specs::ReadLines::read_relay))]
fn read_relay(alloc: Global, text: &[u8]) -> Result<RelayResult, LineFault>
    ensures { Reads (λ outcome. outcome) result (read_relay text.now) }
{
    if let Some(pdu) = behind(text, "R ") {
        return read_reply(alloc, pdu);
    }
    if let Some(word) = behind(text, "B ") {
        return read_refusal(alloc, word);
    }
    Err(LineFault::Wrong)
}

fn read_accept(alloc: Global, text: &[u8]) -> Result<BridgeEntry, LineFault>
    ensures { Reads (λ entry. entry) result (read_accept text.now) }
{
    let (side, rest) = cut(text, b' ')?;
    let side = read_small(side)?;
    let (id, route, request) = read_coming(alloc, rest)?;
    Ok(BridgeEntry::Accept {
        side,
        id,
        route,
        request,
    })
}

fn read_forward(alloc: Global, text: &[u8]) -> Result<BridgeEntry, LineFault>
    ensures { Reads (λ entry. entry) result (read_forward text.now) }
{
    let (side, rest) = cut(text, b' ')?;
    let side = read_small(side)?;
    let (old, rest) = cut(rest, b' ')?;
    let old = read_id(old)?;
    let (id, route, request) = read_asked(alloc, rest)?;
    Ok(BridgeEntry::Forward {
        side,
        old,
        id,
        route,
        request,
    })
}

fn read_relayed(alloc: Global, text: &[u8]) -> Result<BridgeEntry, LineFault>
    ensures { Reads (λ entry. entry) result (read_relayed text.now) }
{
    let (side, rest) = cut(text, b' ')?;
    let side = read_small(side)?;
    let (id, outcome) = cut(rest, b' ')?;
    let id = read_id(id)?;
    let outcome = read_relay(alloc, outcome)?;
    Ok(BridgeEntry::Finish {
        side,
        id,
        result: outcome,
    })
}

fn read_back(alloc: Global, text: &[u8]) -> Result<BridgeEntry, LineFault>
    ensures { Reads (λ entry. entry) result (read_back text.now) }
{
    let (side, rest) = cut(text, b' ')?;
    let side = read_small(side)?;
    let (id, reply) = read_named(alloc, rest)?;
    Ok(BridgeEntry::Back { side, id, reply })
}

fn read_gone(text: &[u8]) -> Result<BridgeEntry, LineFault>
    ensures { Reads (λ entry. entry) result
        (read_as (λ side. bridge_entries.Gone side) read_small text.now) }
{
    let side = read_small(text)?;
    Ok(BridgeEntry::Gone { side })
}

/// The event of a bridge that a line tells.
#[tactic(auto, unfolding(crate::specs::ReadLines::read_bridge_entry))]
pub fn read_bridge_entry(alloc: Global, line: &[u8]) -> Result<BridgeEntry, LineFault>
    ensures { Reads (λ entry. entry) result (read_bridge_entry line.now) }
{
    if let Some(rest) = behind(line, "T ") {
        return read_accept(alloc, rest);
    }
    if let Some(rest) = behind(line, "U ") {
        return read_forward(alloc, rest);
    }
    if let Some(rest) = behind(line, "A ") {
        return read_relayed(alloc, rest);
    }
    if let Some(rest) = behind(line, "V ") {
        return read_back(alloc, rest);
    }
    if let Some(side) = behind(line, "G ") {
        return read_gone(side);
    }
    Err(LineFault::Wrong)
}
