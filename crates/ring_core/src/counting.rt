//! The counters of all stations.
ghost use Rattle.std.specs.Prelude.{◌≡◌, ◌==◌, ◌<◌, length, ◌∷◌, [], true, IfSome};
ghost use Rattle.std.specs.FinMap.{contains_key};
ghost use Rattle.ring_core.specs.Scratch.{counts, arrival_notes, local_counts, owner_event};
ghost use Rattle.ring_core.specs.Kept.{stats_at, noted_at, noted_all, book_put, book_left};
ghost use Rattle.ring_core.specs.Legal.{HasRoom};
ghost use Rattle.station_stats.specs.Counts.StatNote.{Cleared};
ghost use Rattle.station_stats.specs.Counts.{stats_words};

use crate::arrival::{Fell, arrival_event};
use crate::entry::{LeaveCause, LocalOp};
use global_data::GlobalBook;
use mstr_block::CallId;
use station_stats::{StatEvent, Stats};

// A station counts an event.
pub(crate) fn count(stats: &mut Vec<Stats>, node: u8, event: StatEvent)
    requires { node < length stats.old.items }
    ensures { stats.new.items ≡ noted_at stats.old.items (counts node event) }
{
    stats[node as usize].note(event);
}

// A station counts from zero on.
pub(crate) fn clear(stats: &mut Vec<Stats>, node: u8)
    requires { node < length stats.old.items }
    ensures { stats.new.items ≡ noted_at stats.old.items (record { node = node; what = Cleared }) }
{
    stats[node as usize].clear();
}

// The target of a frame, a station where the frame came to it, counts what became of it.
pub(crate) fn count_arrival(stats: &mut Vec<Stats>, to: u8, fell: Option<Fell>)
    requires { IfSome fell (λ _. to < length stats.old.items) }
    ensures { stats.new.items ≡ noted_all stats.old.items (arrival_notes to fell) }
{
    if let Some(fell) = fell {
        if let Some(event) = arrival_event(fell) {
            count(stats, to, event);
        }
    }
}

fn owner_event(own: bool) -> StatEvent
    ensures { result ≡ owner_event own }
{
    if own {
        StatEvent::OwnLocal
    } else {
        StatEvent::OtherLocal
    }
}

// A station counts a Local, or a clear clears.
pub(crate) fn count_local(stats: &mut Vec<Stats>, node: u8, id: CallId, op: &LocalOp)
    requires { node < length stats.old.items }
    ensures { stats.new.items ≡ noted_at stats.old.items (local_counts node id op.now) }
{
    match op {
        LocalOp::ClearStats | LocalOp::RemoteClear => clear(stats, node),
        _ => count(stats, node, owner_event(id.node == node)),
    }
}

// The statistics words of a station.
pub(crate) fn station_words(stats: &[Stats], node: u8, members: u16, passed: u16) -> [u16; 20]
    requires { node < length stats.now }
    ensures { result ≡ stats_words (stats_at stats.now node) members passed }
{
    stats[node as usize].words(members, passed)
}

// A PutGlobal puts its words.
pub(crate) fn put_global(book: &mut GlobalBook, node: u8, op: &LocalOp)
    requires member { contains_key book.old node ≡ true }
    requires room { HasRoom op.now }
    ensures { book.new ≡ book_put book.old node op.now }
{
    if let LocalOp::PutGlobal(words) = op {
        book.put(node, words.words());
    }
}

// Who leaves as its power fails has put and passed nothing.
pub(crate) fn lose_words(book: &mut GlobalBook, node: u8, cause: LeaveCause)
    requires { contains_key book.old node ≡ true }
    ensures { book.new ≡ book_left book.old node cause }
{
    if let LeaveCause::Down(_) = cause {
        book.put(node, &[]);
        book.heard(node);
    }
}
