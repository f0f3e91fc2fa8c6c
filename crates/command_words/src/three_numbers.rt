//! Three numbers behind the command word.
ghost use Rattle.std.specs.Prelude.{IfOk, map, string_bytes};
ghost use Rattle.command_words.specs.Arguments.{HasNumeralAndTwoScans};
ghost use Rattle.command_words.specs.Words.{AreNumberAndTwoScans, ReadsJust};

use crate::arguments::{matches_of, number_among};
use clap::{Arg, ArgMatches, Command};
use plant_types::MOST_SCANS;
use std::alloc::{AllocError, Global};

/// A number from 1 to a largest and two numbers of scans, as the values of three arguments.
fn three_among(matches: &ArgMatches, most: u32) -> Option<(u32, u32, u32)>
    ensures { ReadsJust (HasNumeralAndTwoScans matches.now most) result }
{
    let number = number_among(matches, "K", most)?;
    let first = number_among(matches, "F", MOST_SCANS)?;
    let scans = number_among(matches, "N", MOST_SCANS)?;
    Some((number, first, scans))
}

/// Which number from 1 to a largest the words ask for, and two numbers of scans.
pub(crate) fn number_and_two_scans_of(
    alloc: Global,
    words: &[String],
    most: u32,
) -> Result<Option<(u32, u32, u32)>, AllocError>
    ensures { IfOk result (ReadsJust (AreNumberAndTwoScans most (map string_bytes words.now))) }
{
    let command = Command::new(alloc, "three")
        .no_binary_name(true)
        .disable_help_flag(true)
        .arg(Arg::new(alloc, "K").required(true))?
        .arg(Arg::new(alloc, "F").required(true))?
        .arg(Arg::new(alloc, "N").required(true))?;
    let Some(matches) = matches_of(command, words)? else {
        return Ok(None);
    };
    Ok(three_among(&matches, most))
}
