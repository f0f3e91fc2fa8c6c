//! The words behind the command word, which `clap` reads as the values of positional arguments.
ghost use Rattle.std.specs.Prelude.{◌≡◌, ◌↔◌, ◌<◌, ◌^◌, ℕ, true, IfOk, IsTrue, map, string_bytes};
ghost use Rattle.std.specs.Fmt.{decimal};
ghost use Rattle.clap.specs.Words.{app_of, is_simple_and_free};
ghost use Rattle.command_words.specs.Arguments.{HasNumeral, HasNumeralAndScans, HasTaken};
ghost use Rattle.command_words.specs.Words.{AreNumberAndScans, AreScans, IsNumeralTo, ReadsJust};

use clap::error::ErrorKind;
use clap::{Arg, ArgMatches, Command};
use itoa::Buffer;
use plant_types::MOST_SCANS;
use std::alloc::{AllocError, Global};

fn is_decimal(word: &str, number: u32) -> bool
    ensures { IsTrue result ↔ (word.now ≡ decimal number) }
{
    Buffer::new().format(number) == word
}

/// A number in decimal digits, with no sign and no leading zero.
fn number_of(word: &str) -> Option<u32>
    ensures { (number : ℕ) → number < 2 ^ 32
        → (result ≡ Some number) ↔ (word.now ≡ decimal number) }
{
    match word.parse::<u32>() {
        Ok(number) if is_decimal(word, number) => Some(number),
        _ => None,
    }
}

/// A number from 1 to a largest.
pub(crate) fn number_in(word: &str, most: u32) -> Option<u32>
    ensures { ReadsJust (IsNumeralTo most word.now) result }
{
    match number_of(word) {
        Some(number) if 1 <= number && number <= most => Some(number),
        _ => None,
    }
}

/// What a command makes of the words, or `None` where it refuses them.
pub(crate) fn matches_of<'a>(
    command: Command<'a>,
    words: &'a [String],
) -> Result<Option<ArgMatches<'a>>, AllocError>
    requires { is_simple_and_free (app_of command) ≡ true }
    ensures { IfOk result (HasTaken (app_of command.entry) (map string_bytes words.entry.now)) }
{
    match command.try_get_matches_from(words) {
        Ok(matches) => Ok(Some(matches)),
        Err(error) => match error.kind() {
            ErrorKind::OutOfMemory => Err(AllocError),
            _ => Ok(None),
        },
    }
}

/// A number from 1 to a largest, as the value of an argument.
pub(crate) fn number_among(matches: &ArgMatches, id: &str, most: u32) -> Option<u32>
    ensures { ReadsJust (HasNumeral matches.now id.now most) result }
{
    number_in(matches.get_str(id)?, most)
}

/// How many scans the words ask for.
pub fn scans_of(alloc: Global, words: &[String]) -> Result<Option<u32>, AllocError>
    ensures { IfOk result (ReadsJust (AreScans (map string_bytes words.now))) }
{
    let command = Command::new(alloc, "scans")
        .no_binary_name(true)
        .disable_help_flag(true)
        .arg(Arg::new(alloc, "N").required(true))?;
    let Some(matches) = matches_of(command, words)? else {
        return Ok(None);
    };
    Ok(number_among(&matches, "N", MOST_SCANS))
}

/// A number from 1 to a largest and a number of scans, as the values of two arguments.
fn both_among(matches: &ArgMatches, most: u32) -> Option<(u32, u32)>
    ensures { ReadsJust (HasNumeralAndScans matches.now most) result }
{
    match number_among(matches, "K", most) {
        Some(number) => match number_among(matches, "N", MOST_SCANS) {
            Some(scans) => Some((number, scans)),
            None => None,
        },
        None => None,
    }
}

/// Which number from 1 to a largest the words ask for, and how many scans.
pub fn number_and_scans_of(
    alloc: Global,
    words: &[String],
    most: u32,
) -> Result<Option<(u32, u32)>, AllocError>
    ensures { IfOk result (ReadsJust (AreNumberAndScans most (map string_bytes words.now))) }
{
    let command = Command::new(alloc, "numbers")
        .no_binary_name(true)
        .disable_help_flag(true)
        .arg(Arg::new(alloc, "K").required(true))?
        .arg(Arg::new(alloc, "N").required(true))?;
    let Some(matches) = matches_of(command, words)? else {
        return Ok(None);
    };
    Ok(both_among(&matches, most))
}
