//! Whether an end of a bridge is gone in its bridge's list, and left its ring quietly.
ghost use Rattle.std.specs.Prelude.{◌≡◌, ◌↔◌, Contains, IsTrue};
ghost use Rattle.joint_history.specs.Complete.{LeavesQuietly};
ghost use Rattle.list_courses.specs.Leaving.{MayFollow, is_quiet, row_left, row_next, row_noted};
ghost use Rattle.list_courses.specs.Leaving.{row_passed};
ghost use Rattle.station_laws.specs.Picked.{AreWithin, picked};

use crate::completing::is_ended;
use bridge_relay::BridgeEntry;
use ring_core::{FrameKind, LeaveCause, RingEntry};

/// The unbroken row of done Passes that stands last, and whether its node was quiet since the
/// first of them.
#[derive(Clone, Copy)]
enum Row {
    /// There is none.
    Broken,
    Quiet,
    Loud,
    /// Its node left after a quiet one, as all was done.
    Left,
}

/// Whether a node asks nothing and gives nothing up by an entry.
fn is_quiet(entry: &RingEntry) -> bool
    ensures { result ≡ is_quiet entry.now }
{
    match entry {
        RingEntry::Post { frame, .. } => matches!(frame.kind, FrameKind::Reply),
        RingEntry::GiveUp { .. } => false,
        RingEntry::Local { node, id, .. } => id.node != *node,
        _ => true,
    }
}

/// The row after a Pass.
fn row_passed(row: Row, done: bool) -> Row
    ensures { result ≡ row_passed row done }
{
    match (row, done) {
        (Row::Left, _) => Row::Left,
        (_, false) => Row::Broken,
        (Row::Broken, true) => Row::Quiet,
        (_, true) => row,
    }
}

/// The row after a Leave as all was done.
fn row_left(row: Row) -> Row
    ensures { result ≡ row_left row }
{
    match row {
        Row::Quiet => Row::Left,
        _ => row,
    }
}

/// The row after any other entry.
fn row_noted(row: Row, quiet: bool) -> Row
    ensures { result ≡ row_noted row quiet }
{
    match row {
        Row::Quiet if !quiet => Row::Loud,
        _ => row,
    }
}

/// The row after one entry more.
fn row_next(row: Row, entry: &RingEntry) -> Row
    ensures { result ≡ row_next row entry.now }
{
    match entry {
        RingEntry::Pass { done, .. } => row_passed(row, *done),
        RingEntry::Leave {
            cause: LeaveCause::Ended,
            ..
        } => row_left(row),
        _ => row_noted(row, is_quiet(entry)),
    }
}

/// Whether an entry may follow on a row: after a loud one no Leave as all was done, and after
/// such a Leave what is quiet.
fn may_follow(row: Row, entry: &RingEntry) -> bool
    ensures { IsTrue result ↔ MayFollow row entry.now }
{
    match row {
        Row::Loud => !is_ended(entry),
        Row::Left => is_quiet(entry),
        Row::Broken | Row::Quiet => true,
    }
}

/// Whether a node was quiet, where it left as all was done, from the first of the done Passes on
/// that stand in an unbroken row before, and stayed so after its Leave.
pub fn leaves_quietly(ring: &[RingEntry], places: &[usize]) -> bool
    requires { AreWithin ring.now places.now }
    ensures { IsTrue result ↔ LeavesQuietly (picked ring.now places.now) }
{
    let mut row = Row::Broken;
    for place in places {
        let entry = &ring[*place];
        if !may_follow(row, entry) {
            return false;
        }
        row = row_next(row, entry);
    }
    true
}

/// Whether an entry says that an end is gone.
fn says_gone(entry: &BridgeEntry, side: u8) -> bool
    ensures { IsTrue result ↔ (entry.now ≡ BridgeEntry.Gone side) }
{
    match entry {
        BridgeEntry::Gone { side: near } => *near == side,
        _ => false,
    }
}

/// Whether an end is gone in its bridge's list.
pub fn has_gone(entries: &[BridgeEntry], side: u8) -> bool
    ensures { IsTrue result ↔ Contains entries.now (BridgeEntry.Gone side) }
{
    for entry in entries {
        if says_gone(entry, side) {
            return true;
        }
    }
    false
}
