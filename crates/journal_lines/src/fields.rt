//! Numbers, names, words and bytes as a journal has them.
ghost use Rattle.std.specs.List.{flat_map};
ghost use Rattle.std.specs.Prelude.{codes, ◌≡◌, ◌∷◌, ◌++◌, OnOk, Some, string_bytes};
ghost use Rattle.journal_lines.specs.Fields.{hex_byte, hex_bytes, hex_word, hex_words, id_text};
ghost use Rattle.journal_lines.specs.Fields.{behind_point, call_result_text, op_text, route_text};
ghost use Rattle.journal_lines.specs.Fields.{route_or_dash};

use mstr_block::{CallId, MstrResult};
use plant_types::Route;
use ring_core::LocalOp;
use std::alloc::AllocError;
use std::fmt;
use std::fmt::Write;

/// A byte as two hexadecimal digits.
#[derive(Clone, Copy)]
pub(crate) struct HexByte(pub u8);

impl fmt::Display for HexByte {
    ghost output = { λ byte. Some (hex_byte byte.0) };

    fn fmt<W: fmt::Write>(&self, f: &mut fmt::Formatter<W>) -> fmt::Result {
        let first = self.0 / 16;
        let second = self.0 % 16;
        write!(f, "{first:x}{second:x}")
    }
}

/// A word as four hexadecimal digits.
#[derive(Clone, Copy)]
pub(crate) struct HexWord(pub u16);

impl fmt::Display for HexWord {
    ghost output = { λ word. Some (hex_word word.0) };

    fn fmt<W: fmt::Write>(&self, f: &mut fmt::Formatter<W>) -> fmt::Result {
        let first = self.0 / 4096;
        let second = self.0 / 256 % 16;
        let third = self.0 / 16 % 16;
        let fourth = self.0 % 16;
        write!(f, "{first:x}{second:x}{third:x}{fourth:x}")
    }
}

/// The name of a call.
#[derive(Clone, Copy)]
pub(crate) struct Name(pub CallId);

impl fmt::Display for Name {
    ghost output = { λ name. Some (id_text name.0) };

    fn fmt<W: fmt::Write>(&self, f: &mut fmt::Formatter<W>) -> fmt::Result {
        let node = self.0.node;
        let path = self.0.path;
        let seq = self.0.seq;
        write!(f, "{node}.{path}.{seq}")
    }
}

pub(crate) fn push_bytes(text: &mut String, bytes: &[u8]) -> Result<(), AllocError>
    ensures { OnOk result (string_bytes text.new ≡ string_bytes text.old ++ hex_bytes bytes.now) }
{
    for byte in bytes.iter() {
        let digits = HexByte(*byte);
        write!(text, "{digits}")?;
    }
    Ok(())
}

/// Words one after another.
fn push_each_word(text: &mut String, words: &[u16]) -> Result<(), AllocError>
    ensures { OnOk result (string_bytes text.new ≡ string_bytes text.old
        ++ flat_map hex_word words.now) }
{
    for word in words.iter() {
        let digits = HexWord(*word);
        write!(text, "{digits}")?;
    }
    Ok(())
}

pub(crate) fn push_words(text: &mut String, words: &[u16]) -> Result<(), AllocError>
    ensures { OnOk result (string_bytes text.new ≡ string_bytes text.old ++ hex_words words.now) }
{
    if words.is_empty() {
        text.push_str("-")
    } else {
        push_each_word(text, words)
    }
}

/// Addresses, each after a point.
fn push_behind(text: &mut String, addresses: &[u8]) -> Result<(), AllocError>
    ensures { OnOk result (string_bytes text.new ≡ string_bytes text.old
        ++ flat_map behind_point addresses.now) }
{
    for address in addresses.iter() {
        write!(text, ".{address}")?;
    }
    Ok(())
}

/// A route by its first address and those after it.
pub(crate) fn push_way(text: &mut String, to: u8, rest: Route) -> Result<(), AllocError>
    ensures { OnOk result (string_bytes text.new ≡ string_bytes text.old
        ++ route_text (to ∷ rest)) }
{
    write!(text, "{to}")?;
    push_behind(text, rest.addresses())?;
    Ok(())
}

pub(crate) fn push_route(text: &mut String, route: Route) -> Result<(), AllocError>
    ensures { OnOk result (string_bytes text.new ≡ string_bytes text.old ++ route_text route) }
{
    match route.split_first() {
        Some((to, rest)) => push_way(text, to, rest),
        None => Ok(()),
    }
}

/// A route, or the dash that stands for none.
pub(crate) fn push_route_or_dash(text: &mut String, route: Route) -> Result<(), AllocError>
    ensures { OnOk result (string_bytes text.new ≡ string_bytes text.old ++ route_or_dash route) }
{
    match route.split_first() {
        Some((to, rest)) => push_way(text, to, rest),
        None => text.push_str("-"),
    }
}

pub(crate) fn push_op(text: &mut String, op: &LocalOp) -> Result<(), AllocError>
    ensures { OnOk result (string_bytes text.new ≡ string_bytes text.old ++ op_text op.now) }
{
    match op {
        LocalOp::GetStats => text.push_str("GS"),
        LocalOp::ClearStats => text.push_str("CS"),
        LocalOp::PutGlobal(words) => {
            text.push_str("PG:")?;
            push_words(text, words.words())
        }
        LocalOp::GetGlobal { node, length } => write!(text, "GG:{node}:{length}"),
        LocalOp::RemoteGet => text.push_str("RG"),
        LocalOp::RemoteClear => text.push_str("RC"),
    }
}

pub(crate) fn push_result(text: &mut String, outcome: &MstrResult) -> Result<(), AllocError>
    ensures { OnOk result (string_bytes text.new ≡ string_bytes text.old
        ++ call_result_text outcome.now) }
{
    match outcome {
        MstrResult::Good(words) => {
            text.push_str("G ")?;
            push_words(text, words.words())
        }
        MstrResult::Bad(word) => {
            let word = HexWord(*word);
            write!(text, "B {word}")
        }
    }
}
