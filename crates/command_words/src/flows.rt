//! The words that ask what conducted.
ghost use Rattle.std.specs.Prelude.{◌≡◌, IfOk, codes, map, string_bytes};
ghost use Rattle.command_words.specs.Flows.{flow_from};
ghost use Rattle.command_words.specs.Words.{ReadsJust, SpellsBehind};

use crate::arguments::number_and_scans_of;
use crate::words::Command;
use plant_types::MOST_SCANS;
use std::alloc::{AllocError, Global};

/// The command of two scans, of which the first is not behind the last.
fn flow_from(first: u32, last: u32) -> Option<Command>
    ensures { result ≡ flow_from first last }
{
    if first <= last {
        Some(Command::Flow { first, last })
    } else {
        None
    }
}

/// What conducted, from one scan to another that the words behind its name ask for.
pub(crate) fn flow_behind(alloc: Global, behind: &[String]) -> Result<Option<Command>, AllocError>
    ensures { IfOk result
        (ReadsJust (SpellsBehind (codes "flow") (map string_bytes behind.now))) }
{
    match number_and_scans_of(alloc, behind, MOST_SCANS)? {
        Some((first, last)) => Ok(flow_from(first, last)),
        None => Ok(None),
    }
}
