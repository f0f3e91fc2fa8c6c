//! How many entries of a sort there are.
ghost use Rattle.std.specs.Prelude.{◌≡◌};
ghost use Rattle.std.specs.List.{count_by};
ghost use Rattle.joint_history.specs.Complete.{is_pass};
ghost use Rattle.joint_history.specs.Nets.{entries_of_rings};
ghost use Rattle.summary_text.specs.Summary.{entries_that, is_bad, is_counted, is_good};

use controller_core::Entry;
use joint_history::{ControllerLog, RingLog};
use mstr_block::MstrResult;
use ring_core::RingEntry;

/// What is counted of the entries of controllers.
#[derive(Clone, Copy)]
pub enum Counted {
    Solves,
    Peers,
    Good,
    Bad,
}

fn is_good(entry: &Entry) -> bool
    ensures { result ≡ is_good entry.now }
{
    match entry {
        Entry::Finish { result, .. } => matches!(result, MstrResult::Good(_)),
        _ => false,
    }
}

fn is_bad(entry: &Entry) -> bool
    ensures { result ≡ is_bad entry.now }
{
    match entry {
        Entry::Finish { result, .. } => matches!(result, MstrResult::Bad(_)),
        _ => false,
    }
}

fn is_counted(counted: Counted, entry: &Entry) -> bool
    ensures { result ≡ is_counted counted entry.now }
{
    match counted {
        Counted::Solves => matches!(entry, Entry::Solve(_)),
        Counted::Peers => matches!(entry, Entry::Peer { .. }),
        Counted::Good => is_good(entry),
        Counted::Bad => is_bad(entry),
    }
}

fn count_in(counted: Counted, entries: &[Entry]) -> usize
    ensures { result ≡ count_by (is_counted counted) entries.now }
{
    entries
        .iter()
        .filter(|entry| is_counted(counted, entry))
        .count()
}

/// How many entries of all controllers are counted so.
pub fn entries_that(counted: Counted, logs: &[ControllerLog]) -> u128
    ensures { result ≡ entries_that (is_counted counted) logs.now }
{
    let mut total = 0;
    for log in logs {
        total += count_in(counted, log.entries.as_slice()) as u128;
    }
    total
}

fn is_pass(entry: &RingEntry) -> bool
    ensures { result ≡ is_pass entry.now }
{
    matches!(entry, RingEntry::Pass { .. })
}

fn passes_in(entries: &[RingEntry]) -> usize
    ensures { result ≡ count_by is_pass entries.now }
{
    entries.iter().filter(|entry| is_pass(entry)).count()
}

/// How many times the token of any ring was passed on.
pub fn passes_of(rings: &[RingLog]) -> u128
    ensures { result ≡ count_by is_pass (entries_of_rings rings.now) }
{
    let mut total = 0;
    for ring in rings {
        total += passes_in(ring.entries.as_slice()) as u128;
    }
    total
}
