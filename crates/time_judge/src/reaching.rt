//! How far a station's list and the ring's are in time.
ghost use Rattle.std.specs.Prelude.{◌≡◌, ◌<◌, IfOk, OnOk, List, Bool, map, drop, length};
ghost use Rattle.std.specs.List.{AllByRecursion as Each};
ghost use Rattle.ring_core.specs.Words.{maker};
ghost use Rattle.one_order.specs.Fronts.{places_of, entries_at, next_of};
ghost use Rattle.time_judge.specs.Counts.{no_entry, requests_after, answers_next};
ghost use Rattle.time_judge.specs.Reaching.{AreInTimeUpTo, IsNotedNext, IsDoneNext, MayPost};

use crate::answering::{Walk, walk_on};
use crate::counts::{
    DoneCounts, NotedCounts, StationItem, answer_on, are_caused, deed_counted, take_on,
};
use ring_core::RingEntry;
use std::alloc::{AllocError, Global};

/// So many entries of a station's list, and those before this place of the ring.
#[derive(Clone, Copy)]
pub(crate) struct Reached {
    pub entries: usize,
    pub place: usize,
}

// The counts after the station's next entry, if that has its cause.
fn noted_next<E: StationItem>(
    noted: NotedCounts,
    done: DoneCounts,
    may: usize,
    left: &[E],
) -> Result<Option<NotedCounts>, AllocError>
    ensures { IfOk result (λ found. (answers requests : List Bool)
        → MayPost noted done answers requests may
        → IsNotedNext noted done answers requests (map E.entry left.now) found) }
{
    match left {
        [] => Ok(None),
        [entry, ..] => {
            let next = entry.counted(noted)?;
            Ok(if are_caused(next, done, may) {
                Some(next)
            } else {
                None
            })
        }
    }
}

// The station's answers after its next entry.
fn answers_on<E: StationItem>(answers: &mut Vec<bool>, left: &[E]) -> Result<(), AllocError>
    ensures { OnOk result (answers.new.items
        ≡ answers_next answers.old.items (map E.entry left.now)) }
{
    match left {
        [] => Ok(()),
        [entry, ..] => answer_on(answers, entry),
    }
}

// What stands after the first.
fn rest_of<T>(list: &[T]) -> &[T]
    ensures { result.now ≡ drop 1 list.now }
{
    match list {
        [] => list,
        [_, rest @ ..] => rest,
    }
}

// The counts after the node's next entry on the ring, if that has its cause.
fn done_next(
    noted: NotedCounts,
    done: DoneCounts,
    may: usize,
    ring: &[RingEntry],
    due: &[usize],
) -> Result<Option<DoneCounts>, AllocError>
    requires { Each (λ place. place < length ring.now) due.now }
    ensures { IfOk result (λ found. (answers requests : List Bool)
        → MayPost noted done answers requests may
        → IsDoneNext noted done answers requests (entries_at no_entry ring.now due.now) found) }
{
    match due {
        [] => Ok(None),
        [place, ..] => {
            let next = deed_counted(done, &ring[*place])?;
            Ok(if are_caused(noted, next, may) {
                Some(next)
            } else {
                None
            })
        }
    }
}

// The Requests that were taken after the node's next entry.
fn requests_on(
    requests: &mut Vec<bool>,
    ring: &[RingEntry],
    due: &[usize],
) -> Result<(), AllocError>
    requires { Each (λ place. place < length ring.now) due.now }
    ensures { OnOk result (requests.new.items
        ≡ requests_after requests.old.items (entries_at no_entry ring.now due.now)) }
{
    match due {
        [] => Ok(()),
        [place, ..] => take_on(requests, &ring[*place]),
    }
}

// The place of the next entry; the end of the ring where none is left.
fn next_place(ring: &[RingEntry], due: &[usize]) -> usize
    ensures { result ≡ next_of (length ring.now) due.now }
{
    match due {
        [] => ring.len(),
        [place, ..] => *place,
    }
}

/// How far they are in time, where these are the places of the station's node. Takes time in
/// proportion to both, and memory in proportion to the Requests that were taken.
pub(crate) fn how_far<E: StationItem>(
    alloc: Global,
    node: u8,
    entries: &[E],
    ring: &[RingEntry],
    places: &[usize],
) -> Result<Reached, AllocError>
    requires { places.now ≡ places_of maker node ring.now }
    ensures { IfOk result (λ reached. AreInTimeUpTo node (map E.entry entries.now) ring.now
        reached.entries reached.place) }
{
    let mut noted = NotedCounts::none();
    let mut done = DoneCounts::none();
    let mut answers = Vec::new(alloc);
    let mut requests = Vec::new(alloc);
    let mut walk = Walk::none();
    let mut left = entries;
    let mut due = places;
    'walk: loop {
        walk = walk_on(walk, &requests, &answers, done.answered_port);
        if let Some(next) = noted_next(noted, done, walk.ready, left)? {
            noted = next;
            answers_on(&mut answers, left)?;
            left = rest_of(left);
        } else if let Some(next) = done_next(noted, done, walk.ready, ring, due)? {
            done = next;
            requests_on(&mut requests, ring, due)?;
            due = rest_of(due);
        } else {
            return Ok(Reached {
                entries: entries.len() - left.len(),
                place: next_place(ring, due),
            });
        }
    }
}
