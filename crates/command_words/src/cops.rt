//! The words that ask for a word exchange.
ghost use Rattle.std.specs.Prelude.{◌≡◌, IfOk, codes, map, string_bytes};
ghost use Rattle.command_words.specs.Words.{ReadsJust, SpellsBehind};

use crate::arguments::scans_of;
use crate::words::Command;
use std::alloc::{AllocError, Global};

/// A word exchange, with the number of scans that the words behind its name ask for.
pub(crate) fn cop_behind(alloc: Global, behind: &[String]) -> Result<Option<Command>, AllocError>
    ensures { IfOk result
        (ReadsJust (SpellsBehind (codes "cop") (map string_bytes behind.now))) }
{
    match scans_of(alloc, behind)? {
        Some(scans) => Ok(Some(Command::Cop { scans })),
        None => Ok(None),
    }
}
