//! The words that ask for a primary and its standby.
ghost use Rattle.std.specs.Prelude.{◌≡◌, IfOk, codes, map, string_bytes};
ghost use Rattle.command_words.specs.Standbys.{standby_from};
ghost use Rattle.command_words.specs.Words.{ReadsJust, SpellsBehind};

use crate::three_numbers::number_and_two_scans_of;
use crate::words::{ADDRESS_LIMIT, Command};
use std::alloc::{AllocError, Global};

/// The command of a pair, in which the primary fails after no later scan than the last.
fn standby_from(node: u8, fail: u32, scans: u32) -> Option<Command>
    ensures { result ≡ standby_from node fail scans }
{
    if fail <= scans {
        Some(Command::Standby { node, fail, scans })
    } else {
        None
    }
}

/// A primary and its standby, with the numbers that the words after their name ask for.
pub(crate) fn standby_behind(
    alloc: Global,
    behind: &[String],
) -> Result<Option<Command>, AllocError>
    ensures { IfOk result
        (ReadsJust (SpellsBehind (codes "standby") (map string_bytes behind.now))) }
{
    match number_and_two_scans_of(alloc, behind, ADDRESS_LIMIT)? {
        Some((node, fail, scans)) => Ok(standby_from(node as u8, fail, scans)),
        None => Ok(None),
    }
}
