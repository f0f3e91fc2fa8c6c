//! The words that ask what a controller never comes to.
ghost use Rattle.std.specs.Prelude.{◌≡◌, IfOk, codes, map, string_bytes};
ghost use Rattle.command_words.specs.Arguments.{HasAsked, HasDepth, HasQuestion};
ghost use Rattle.command_words.specs.Nevers.{discrete_kind, discrete_numbered, discrete_of};
ghost use Rattle.command_words.specs.Nevers.{question_of};
ghost use Rattle.command_words.specs.Words.{AskNever, ReadsJust, SpellsBehind};

use crate::arguments::{matches_of, number_among, number_in};
use crate::words::{ADDRESS_LIMIT, Command, Question};
use cell_text::reference_number;
use clap::{Arg, ArgMatches};
use plant_types::{MOST_SCANS, Ref, RefKind};
use std::alloc::{AllocError, Global};

/// The kind of a coil and of an input, by the first digit of the reference.
fn discrete_kind(digit: u8) -> Option<RefKind>
    ensures { result ≡ discrete_kind digit }
{
    match digit {
        b'0' => Some(RefKind::Coil),
        b'1' => Some(RefKind::Input),
        _ => None,
    }
}

/// A coil or an input has a number from 1 on.
fn discrete_numbered(kind: RefKind, number: u16) -> Option<Ref>
    ensures { result ≡ discrete_numbered kind number }
{
    if 1 <= number {
        Some(Ref { kind, number })
    } else {
        None
    }
}

/// The coil or input that a word of five digits stands for.
fn discrete_of(word: &[u8]) -> Option<Ref>
    ensures { result ≡ discrete_of word.now }
{
    let [first, ..] = word else {
        return None;
    };
    let kind = discrete_kind(*first)?;
    let number = reference_number(word)?;
    discrete_numbered(kind, number)
}

/// What a word asks.
fn question_of(word: &str) -> Option<Question>
    ensures { result ≡ question_of word.now }
{
    if word == "STOP" {
        return Some(Question::Stop);
    }
    match discrete_of(word.as_bytes()) {
        Some(at) => Some(Question::On(at)),
        None => None,
    }
}

/// What is asked, as the value of an argument.
fn question_among(matches: &ArgMatches) -> Option<Question>
    ensures { ReadsJust (HasQuestion matches.now) result }
{
    question_of(matches.get_str("REF")?)
}

/// A depth as the value of an argument, or none where the argument has no value.
pub(crate) fn depth_among(matches: &ArgMatches) -> Option<Option<u32>>
    ensures { ReadsJust (HasDepth matches.now) result }
{
    match matches.get_str("D") {
        Some(word) => match number_in(word, MOST_SCANS) {
            Some(depth) => Some(Some(depth)),
            None => None,
        },
        None => Some(None),
    }
}

/// A node, what is asked, and a depth or none, as the values of three arguments.
fn asked_among(matches: &ArgMatches) -> Option<(u32, Question, Option<u32>)>
    ensures { ReadsJust (HasAsked matches.now) result }
{
    let node = number_among(matches, "K", ADDRESS_LIMIT)?;
    let asked = question_among(matches)?;
    let depth = depth_among(matches)?;
    Some((node, asked, depth))
}

/// Of which node the words ask, what they ask, and to which depth.
fn asked_of(
    alloc: Global,
    words: &[String],
) -> Result<Option<(u32, Question, Option<u32>)>, AllocError>
    ensures { IfOk result (ReadsJust (AskNever (map string_bytes words.now))) }
{
    let command = clap::Command::new(alloc, "asked")
        .no_binary_name(true)
        .disable_help_flag(true)
        .arg(Arg::new(alloc, "K").required(true))?
        .arg(Arg::new(alloc, "REF").required(true))?
        .arg(Arg::new(alloc, "D"))?;
    let Some(matches) = matches_of(command, words)? else {
        return Ok(None);
    };
    Ok(asked_among(&matches))
}

/// What the words after its name ask that a controller never comes to.
pub(crate) fn never_behind(alloc: Global, behind: &[String]) -> Result<Option<Command>, AllocError>
    ensures { IfOk result
        (ReadsJust (SpellsBehind (codes "never") (map string_bytes behind.now))) }
{
    match asked_of(alloc, behind)? {
        Some((node, asked, depth)) => Ok(Some(Command::Never {
            node: node as u8,
            asked,
            depth,
        })),
        None => Ok(None),
    }
}
