//! The words that ask whether two controllers do the same.
ghost use Rattle.std.specs.Prelude.{◌≡◌, IfOk, codes, map, string_bytes};
ghost use Rattle.command_words.specs.Arguments.{HasNodeAndDepth};
ghost use Rattle.command_words.specs.Words.{AskSame, ReadsJust, SpellsBehind};

use crate::arguments::{matches_of, number_among};
use crate::nevers::depth_among;
use crate::words::{ADDRESS_LIMIT, Command};
use clap::{Arg, ArgMatches};
use std::alloc::{AllocError, Global};

/// A node, and a depth or none, as the values of two arguments.
fn node_and_depth_among(matches: &ArgMatches) -> Option<(u32, Option<u32>)>
    ensures { ReadsJust (HasNodeAndDepth matches.now) result }
{
    let node = number_among(matches, "K", ADDRESS_LIMIT)?;
    let depth = depth_among(matches)?;
    Some((node, depth))
}

/// Of which node the words ask, and to which depth.
fn node_and_depth_of(
    alloc: Global,
    words: &[String],
) -> Result<Option<(u32, Option<u32>)>, AllocError>
    ensures { IfOk result (ReadsJust (AskSame (map string_bytes words.now))) }
{
    let command = clap::Command::new(alloc, "same")
        .no_binary_name(true)
        .disable_help_flag(true)
        .arg(Arg::new(alloc, "K").required(true))?
        .arg(Arg::new(alloc, "D"))?;
    let Some(matches) = matches_of(command, words)? else {
        return Ok(None);
    };
    Ok(node_and_depth_among(&matches))
}

/// Two controllers that are to do the same, with the node and the depth behind the name.
pub(crate) fn same_behind(alloc: Global, behind: &[String]) -> Result<Option<Command>, AllocError>
    ensures { IfOk result
        (ReadsJust (SpellsBehind (codes "same") (map string_bytes behind.now))) }
{
    match node_and_depth_of(alloc, behind)? {
        Some((node, depth)) => Ok(Some(Command::Same {
            node: node as u8,
            depth,
        })),
        None => Ok(None),
    }
}
