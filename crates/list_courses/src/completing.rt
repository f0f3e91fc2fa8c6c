//! Whether a node was done on the ring.
ghost use Rattle.std.specs.Prelude.{◌≡◌, ◌↔◌, ◌≤◌, Bool, List, [], IfOk, IsTrue};
ghost use Rattle.std.specs.List.{list_any};
ghost use Rattle.joint_history.specs.Complete.{IsOfDone};
ghost use Rattle.tied_lists.specs.Items.{last_from};
ghost use Rattle.list_courses.specs.Completing.{EachAllows, HasNoticed, HostAllows, HostFits};
ghost use Rattle.list_courses.specs.Completing.{IsInHold, IsShort, NodeAllows, NodeFits, due_count};
ghost use Rattle.list_courses.specs.Completing.{first_given, is_ended, left_given, one_due};
ghost use Rattle.list_courses.specs.Completing.{passed_next, posted_next, progress_next};
ghost use Rattle.list_courses.specs.Completing.{progress_of, rest_given, taken_next};
ghost use Rattle.station_laws.specs.Picked.{AreWithin, picked};
ghost use Rattle.station_laws.specs.Taking.{entry_taken, frame_taken};

use crate::replying::Given;
use plant_types::HostPlan;
use ring_core::{Frame, FrameKind, LeaveCause, RingEntry};
use station_laws::downs;
use std::alloc::{AllocError, Global};
use std::collections::VecDeque;

/// What a node has done so far.
#[derive(Clone, Copy, Drop)]
pub(crate) struct Progress {
    passes: u64,
    asked: u64,
    replied: u64,
    /// How many Replies are due for what it took.
    due: u64,
    /// Whether it has said that it is done.
    is_done: bool,
}

fn no_progress() -> Progress
    ensures { (given : List Bool) → result ≡ progress_of given [] }
{
    Progress {
        passes: 0,
        asked: 0,
        replied: 0,
        due: 0,
        is_done: false,
    }
}

fn posted(mut progress: Progress, kind: FrameKind) -> Progress
    requires { IsShort progress }
    ensures { result ≡ posted_next progress kind }
{
    match kind {
        FrameKind::Request => progress.asked += 1,
        FrameKind::Reply => progress.replied += 1,
    }
    progress
}

/// How many Replies the next answer of a station makes due.
fn due_next(given: &mut Given) -> u64
    ensures due { result ≡ one_due (first_given given.old.items) }
    ensures left { given.new.items ≡ rest_given given.old.items }
{
    match given.pop_front() {
        Some(false) => 0,
        _ => 1,
    }
}

/// How many Replies a Request makes due: one where it is for the port.
fn due_for(given: &mut Given, frame: &Frame) -> u64
    ensures due { result ≡ due_count (frame_taken frame.now) given.old.items }
    ensures left { given.new.items ≡ left_given (frame_taken frame.now) given.old.items }
{
    match frame.kind {
        FrameKind::Reply => 0,
        FrameKind::Request => {
            if frame.is_for_stats() {
                1
            } else {
                due_next(given)
            }
        }
    }
}

fn passed(mut progress: Progress, done: bool) -> Progress
    requires { IsShort progress }
    ensures { result ≡ passed_next progress done }
{
    progress.passes += 1;
    progress.is_done = progress.is_done || done;
    progress
}

fn took(mut progress: Progress, due: u64) -> Progress
    requires short { IsShort progress }
    requires due { due ≤ 1 }
    ensures { result ≡ taken_next progress due }
{
    progress.due += due;
    progress
}

/// What a node has done after an entry, with these answers left before and after it.
fn next(progress: Progress, given: &mut Given, entry: &RingEntry) -> Progress
    requires { IsShort progress }
    ensures next { result ≡ progress_next given.old.items progress entry.now }
    ensures left { given.new.items ≡ left_given (entry_taken entry.now) given.old.items }
{
    match entry {
        RingEntry::Post { frame, .. } => posted(progress, frame.kind),
        RingEntry::Take { frame, .. } => took(progress, due_for(given, frame)),
        RingEntry::Pass { done, .. } => passed(progress, *done),
        _ => progress,
    }
}

/// Whether a node that is done may make an entry.
fn is_of_done(entry: &RingEntry) -> bool
    ensures { IsTrue result ↔ IsOfDone entry.now }
{
    match entry {
        RingEntry::Post { frame, .. } => frame.kind == FrameKind::Reply,
        RingEntry::GiveUp { .. } => false,
        RingEntry::Local { node, id, .. } => id.node != *node,
        RingEntry::Pass { done, .. } => *done,
        _ => true,
    }
}

/// Whether an entry fits what its node has done: it passes the token on only once it has posted all
/// Replies that are due, and what it does fits a node that is done, if it is.
fn fits(progress: Progress, entry: &RingEntry) -> bool
    ensures { IsTrue result ↔ NodeFits progress entry.now }
{
    if progress.is_done && !is_of_done(entry) {
        return false;
    }
    match entry {
        RingEntry::Pass { .. } => progress.replied == progress.due,
        _ => true,
    }
}

/// Whether all entries of a node fit, whose station's answers have replies or not.
pub fn all_fit(ring: &[RingEntry], places: &[usize], mut given: Given) -> bool
    requires { AreWithin ring.now places.now }
    ensures { IsTrue result ↔ EachAllows (NodeAllows given.items) (picked ring.now places.now) }
{
    let mut progress = no_progress();
    for place in places {
        let entry = &ring[*place];
        if !fits(progress, entry) {
            return false;
        }
        progress = next(progress, &mut given, entry);
    }
    true
}

/// Whether an entry leaves as all was done.
pub(crate) fn is_ended(entry: &RingEntry) -> bool
    ensures { result ≡ is_ended entry.now }
{
    matches!(
        entry,
        RingEntry::Leave {
            cause: LeaveCause::Ended,
            ..
        }
    )
}

/// Whether a node has left as all was done.
fn has_ended(ring: &[RingEntry], places: &[usize]) -> bool
    requires { AreWithin ring.now places.now }
    ensures { result ≡ list_any is_ended (picked ring.now places.now) }
{
    for place in places {
        if is_ended(&ring[*place]) {
            return true;
        }
    }
    false
}

/// The last of some numbers; 0 for none.
fn last_of(numbers: &[u32]) -> u32
    ensures { result ≡ last_from 0 numbers.now }
{
    let mut last = 0;
    for number in numbers {
        last = *number;
    }
    last
}

/// Whether a node that left as all was done had noticed so many power failures.
pub fn notices(
    alloc: Global,
    ring: &[RingEntry],
    places: &[usize],
    fails: usize,
) -> Result<bool, AllocError>
    requires { AreWithin ring.now places.now }
    ensures { IfOk result
        (λ all. IsTrue all ↔ HasNoticed fails (picked ring.now places.now)) }
{
    if !has_ended(ring, places) {
        return Ok(true);
    }
    let downs = downs(alloc, ring, places)?;
    Ok(fails == last_of(downs.as_slice()) as usize)
}

/// Whether a request comes no sooner than its hold.
fn is_in_hold(plan: &HostPlan, progress: Progress) -> bool
    requires { IsShort progress }
    ensures { IsTrue result ↔ IsInHold plan.now progress }
{
    match plan.requests.as_slice().get(progress.asked as usize) {
        None => true,
        Some(ask) => u64::from(ask.hold) <= 1 + progress.passes,
    }
}

/// Whether an entry fits what its host has done: it asks nothing too early, and is done only once
/// it has asked all.
fn host_fits(plan: &HostPlan, progress: Progress, entry: &RingEntry) -> bool
    requires { IsShort progress }
    ensures { IsTrue result ↔ HostFits plan.now progress entry.now }
{
    match entry {
        RingEntry::Post { frame, .. } => {
            frame.kind == FrameKind::Reply || is_in_hold(plan, progress)
        }
        RingEntry::Pass { done, .. } => {
            !*done || progress.asked == plan.requests.as_slice().len() as u64
        }
        _ => true,
    }
}

/// Whether all entries of a host fit.
pub fn all_fit_host(alloc: Global, plan: &HostPlan, ring: &[RingEntry], places: &[usize]) -> bool
    requires { AreWithin ring.now places.now }
    ensures { IsTrue result ↔ EachAllows (HostAllows plan.now) (picked ring.now places.now) }
{
    let mut progress = no_progress();
    let mut given = VecDeque::new(alloc);
    for place in places {
        let entry = &ring[*place];
        if !host_fits(plan, progress, entry) {
            return false;
        }
        progress = next(progress, &mut given, entry);
    }
    true
}
