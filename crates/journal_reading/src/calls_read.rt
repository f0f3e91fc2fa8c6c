//! Calls, operations and results that are read back.
ghost use Rattle.std.specs.Prelude.{◌≡◌};
ghost use Rattle.mstr_block.specs.declared.call.MstrResult.TheVariants.{Bad, Good};
ghost use Rattle.journal_reading.specs.Reading.{Reads, read_block, read_as, read_small, read_word};
ghost use Rattle.journal_reading.specs.Reading.{read_hex_word, read_hex_words};
ghost use Rattle.journal_reading.specs.ReadLines.{read_asked, read_call, read_calls, read_coming};
ghost use Rattle.journal_reading.specs.ReadLines.{read_get_global, read_kind, read_put_global};
ghost use Rattle.journal_reading.specs.ReadLines.{read_local_kind, read_named, read_net_kind};
ghost use Rattle.journal_reading.specs.ReadLines.{read_op, read_own_op, read_result, read_served};

use crate::cutting::{
    LineFault, behind, cut, has_digit_first, is_text, parted, read_id, read_small, read_word,
};
use crate::routes_read::{read_route, read_route_or_dash};
use crate::words_read::{read_block, read_hex_word, read_hex_words, read_pdu};
use controller_core::{Call, CallKind};
use mstr_block::{CallId, MstrResult};
use plant_types::{List, Pdu, Route, Words};
use ring_core::LocalOp;
use std::alloc::Global;

fn read_get_global(text: &[u8]) -> Result<LocalOp, LineFault>
    ensures { Reads (λ op. op) result (read_get_global text.now) }
{
    let (node, length) = cut(text, b':')?;
    let node = read_small(node)?;
    let length = read_word(length)?;
    Ok(LocalOp::GetGlobal { node, length })
}

fn read_put_global(alloc: Global, text: &[u8]) -> Result<LocalOp, LineFault>
    ensures { Reads (λ op. op) result (read_put_global text.now) }
{
    let words = read_hex_words(alloc, text)?;
    let words = Words::of(alloc, words.as_slice())?;
    Ok(LocalOp::PutGlobal(words))
}

/// What is asked of the own port for the own station.
#[tactic(auto, unfolding(crate::specs::ReadLines::read_own_op))]
fn read_own_op(alloc: Global, text: &[u8]) -> Result<LocalOp, LineFault>
    ensures { Reads (λ op. op) result (read_own_op text.now) }
{
    if let Some(words) = behind(text, "PG:") {
        return read_put_global(alloc, words);
    }
    if let Some(rest) = behind(text, "GG:") {
        return read_get_global(rest);
    }
    if is_text(text, "GS") {
        Ok(LocalOp::GetStats)
    } else if is_text(text, "CS") {
        Ok(LocalOp::ClearStats)
    } else {
        Err(LineFault::Wrong)
    }
}

#[tactic(auto, unfolding(crate::specs::ReadLines::read_op))]
pub(crate) fn read_op(alloc: Global, text: &[u8]) -> Result<LocalOp, LineFault>
    ensures { Reads (λ op. op) result (read_op text.now) }
{
    if is_text(text, "RG") {
        Ok(LocalOp::RemoteGet)
    } else if is_text(text, "RC") {
        Ok(LocalOp::RemoteClear)
    } else {
        read_own_op(alloc, text)
    }
}

fn read_good(alloc: Global, text: &[u8]) -> Result<MstrResult, LineFault>
    ensures { Reads (λ outcome. outcome) result
        (read_as (λ words. Good words) read_block text.now) }
{
    let words = read_block(alloc, text)?;
    Ok(MstrResult::Good(words))
}

fn read_bad(alloc: Global, text: &[u8]) -> Result<MstrResult, LineFault>
    ensures { Reads (λ outcome. outcome) result
        (read_as (λ word. Bad word) read_hex_word text.now) }
{
    let word = read_hex_word(alloc, text)?;
    Ok(MstrResult::Bad(word))
}

#[tactic(auto, unfolding(crate::specs::ReadLines::read_result))]
pub(crate) fn read_result(alloc: Global, text: &[u8]) -> Result<MstrResult, LineFault>
    ensures { Reads (λ outcome. outcome) result (read_result text.now) }
{
    if let Some(words) = behind(text, "G ") {
        return read_good(alloc, words);
    }
    if let Some(word) = behind(text, "B ") {
        return read_bad(alloc, word);
    }
    Err(LineFault::Wrong)
}

fn read_net_kind(alloc: Global, text: &[u8]) -> Result<CallKind, LineFault>
    ensures { Reads (λ kind. kind) result (read_net_kind text.now) }
{
    let (route, pdu) = cut(text, b':')?;
    let route = read_route(alloc, route)?;
    let pdu = read_pdu(alloc, pdu)?;
    Ok(CallKind::Net { route, pdu })
}

fn read_local_kind(alloc: Global, text: &[u8]) -> Result<CallKind, LineFault>
    ensures { Reads (λ kind. kind) result (read_local_kind text.now) }
{
    let op = read_own_op(alloc, text)?;
    Ok(CallKind::Local(op))
}

/// What a call is for: a request to another node where it begins with a digit.
#[tactic(auto, unfolding(crate::specs::ReadLines::read_kind))]
fn read_kind(alloc: Global, text: &[u8]) -> Result<CallKind, LineFault>
    ensures { Reads (λ kind. kind) result (read_kind text.now) }
{
    if has_digit_first(text) {
        read_net_kind(alloc, text)
    } else {
        read_local_kind(alloc, text)
    }
}

#[tactic(auto, unfolding(crate::specs::ReadLines::read_call))]
fn read_call(alloc: Global, text: &[u8]) -> Result<Call, LineFault>
    ensures { Reads (λ call. call) result (read_call text.now) }
{
    let (id, kind) = cut(text, b'=')?;
    let id = read_id(id)?;
    let kind = read_kind(alloc, kind)?;
    Ok(Call { id, kind })
}

/// Calls, separated by one space.
pub(crate) fn read_calls(alloc: Global, text: &[u8]) -> Result<List<Call>, LineFault>
    ensures { Reads (λ calls. calls) result (read_calls text.now) }
{
    let mut calls = List::new(alloc);
    let mut rest = text;
    loop {
        match parted(rest, b' ') {
            Some((piece, behind)) => {
                let call = read_call(alloc, piece)?;
                calls.push(call)?;
                rest = behind;
            }
            None => {
                let last = read_call(alloc, rest)?;
                calls.push(last)?;
                return Ok(calls);
            }
        }
    }
}

/// A request of another node and the reply to it, under the name of the call.
#[tactic(auto, unfolding(crate::specs::ReadLines::read_served))]
pub(crate) fn read_served(alloc: Global, text: &[u8]) -> Result<(CallId, Pdu, Pdu), LineFault>
    ensures { Reads (λ served. (served.0, (served.1, served.2))) result (read_served text.now) }
{
    let (id, rest) = cut(text, b' ')?;
    let id = read_id(id)?;
    let (request, reply) = cut(rest, b' ')?;
    let request = read_pdu(alloc, request)?;
    let reply = read_pdu(alloc, reply)?;
    Ok((id, request, reply))
}

/// A request to another node, with its name and its route.
#[tactic(auto, unfolding(crate::specs::ReadLines::read_asked))]
pub(crate) fn read_asked(alloc: Global, text: &[u8]) -> Result<(CallId, Route, Pdu), LineFault>
    ensures { Reads (λ asked. (asked.0, (asked.1, asked.2))) result (read_asked text.now) }
{
    let (id, rest) = cut(text, b' ')?;
    let id = read_id(id)?;
    let (route, pdu) = cut(rest, b' ')?;
    let route = read_route(alloc, route)?;
    let pdu = read_pdu(alloc, pdu)?;
    Ok((id, route, pdu))
}

/// A request that a bridge takes, with its name and what is left of its route.
#[tactic(auto, unfolding(crate::specs::ReadLines::read_coming))]
pub(crate) fn read_coming(alloc: Global, text: &[u8]) -> Result<(CallId, Route, Pdu), LineFault>
    ensures { Reads (λ coming. (coming.0, (coming.1, coming.2))) result (read_coming text.now) }
{
    let (id, rest) = cut(text, b' ')?;
    let id = read_id(id)?;
    let (route, pdu) = cut(rest, b' ')?;
    let route = read_route_or_dash(alloc, route)?;
    let pdu = read_pdu(alloc, pdu)?;
    Ok((id, route, pdu))
}

/// A request or a reply, with its name.
#[tactic(auto, unfolding(crate::specs::ReadLines::read_named))]
pub(crate) fn read_named(alloc: Global, text: &[u8]) -> Result<(CallId, Pdu), LineFault>
    ensures { Reads (λ named. named) result (read_named text.now) }
{
    let (id, pdu) = cut(text, b' ')?;
    let id = read_id(id)?;
    let pdu = read_pdu(alloc, pdu)?;
    Ok((id, pdu))
}
