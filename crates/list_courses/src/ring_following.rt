//! Following a ring's list, by the calls of a ring that keeps none.
ghost use Rattle.std.specs.Prelude.{◌≡◌, ◌↔◌, ◌<◌, None, All, IfOk, IsTrue, length};
ghost use Rattle.ring_core.specs.Legal.{HasRoom, IsLegalRing};
ghost use Rattle.ring_core.specs.Machine.{addresses};
ghost use Rattle.ring_core.specs.Bare.{IsBehind};
ghost use Rattle.ring_core.specs.declared.entry.RingEntry.TheVariants as entries;
ghost use Rattle.list_courses.specs.Courses.{FollowedTo};
ghost use Rattle.list_courses.specs.RingFollowing.{RingFollowed};

use compared_items::{same_frame, same_result, same_words};
use mstr_block::{CallId, MstrResult};
use plant_types::{Copied, GLOBAL_LIMIT, NetPlan, Words};
use ring_core::{BareRing, Frame, Heard, LeaveCause, LocalOp, RingEntry, is_from, is_path};
use std::alloc::{AllocError, Global};

fn follow_post(
    alloc: Global,
    ring: &mut BareRing,
    past: &[RingEntry],
    node: u8,
    frame: &Frame,
) -> Result<bool, AllocError>
    requires { IsBehind past.now ring.old }
    ensures { IfOk result
        (RingFollowed past.now ring.old (entries.Post node frame.now) ring.new) }
{
    if !ring.is_member(past, node) || !is_from(node, frame) {
        return Ok(false);
    }
    if !ring.is_next(past, node, frame.kind, frame.id) {
        return Ok(false);
    }
    if ring.post_no(past, node, frame).is_some() {
        return Ok(false);
    }
    ring.post(past, node, frame.copied(alloc)?)?;
    Ok(true)
}

fn follow_send(
    ring: &mut BareRing,
    past: &[RingEntry],
    node: u8,
    heard: Heard,
) -> Result<bool, AllocError>
    requires { IsBehind past.now ring.old }
    ensures { IfOk result (RingFollowed past.now ring.old (entries.Send node heard) ring.new) }
{
    if !ring.is_member(past, node) || ring.turn_no(past, node).is_some() {
        return Ok(false);
    }
    let Some(frame) = ring.head(past, node)? else {
        return Ok(false);
    };
    let told = ring.send(past, node, frame)?;
    Ok(told == heard)
}

fn follow_take(
    ring: &mut BareRing,
    past: &[RingEntry],
    node: u8,
    frame: &Frame,
) -> Result<bool, AllocError>
    requires { IsBehind past.now ring.old }
    ensures { IfOk result
        (RingFollowed past.now ring.old (entries.Take node frame.now) ring.new) }
{
    if !ring.is_member(past, node) || ring.turn_no(past, node).is_some() {
        return Ok(false);
    }
    match ring.take(past, node) {
        Some(first) => Ok(same_frame(&first, frame)),
        None => Ok(false),
    }
}

fn has_room(op: &LocalOp) -> bool
    ensures { IsTrue result ↔ HasRoom op.now }
{
    match op {
        LocalOp::PutGlobal(words) => words.words().len() <= usize::from(GLOBAL_LIMIT),
        _ => true,
    }
}

fn follow_local(
    ring: &mut BareRing,
    past: &[RingEntry],
    node: u8,
    id: CallId,
    op: &LocalOp,
    outcome: &MstrResult,
) -> bool
    requires { IsBehind past.now ring.old }
    ensures { RingFollowed past.now ring.old (entries.Local node id op.now outcome.now) ring.new
        result }
{
    if !ring.is_member(past, node) || !has_room(op) {
        return false;
    }
    if ring.free_no(past, node).is_some() {
        return false;
    }
    if !same_result(&ring.local_result(past, node, op), outcome) {
        return false;
    }
    ring.local(past, node, id, op, outcome);
    true
}

fn follow_give_up(ring: &mut BareRing, past: &[RingEntry], id: CallId, word: u16) -> bool
    requires { IsBehind past.now ring.old }
    ensures { RingFollowed past.now ring.old (entries.GiveUp id word) ring.new result }
{
    if !ring.is_member(past, id.node) || !is_path(id.path) {
        return false;
    }
    if ring.give_up_no(past, id).is_some() || ring.word_of(past, id) != word {
        return false;
    }
    ring.give_up(past, id, word);
    true
}

fn follow_pass(
    ring: &mut BareRing,
    past: &[RingEntry],
    node: u8,
    done: bool,
    words: &Words,
) -> Result<bool, AllocError>
    requires { IsBehind past.now ring.old }
    ensures { IfOk result
        (RingFollowed past.now ring.old (entries.Pass node done words.now) ring.new) }
{
    if !ring.is_member(past, node) || ring.pass_no(past, node).is_some() {
        return Ok(false);
    }
    let waiting = ring.waiting(past, node)?;
    if !same_words(&waiting, words) {
        return Ok(false);
    }
    ring.pass(past, node, done, words);
    Ok(true)
}

fn follow_leave(ring: &mut BareRing, past: &[RingEntry], node: u8, cause: LeaveCause) -> bool
    requires { IsBehind past.now ring.old }
    ensures { RingFollowed past.now ring.old (entries.Leave node cause) ring.new result }
{
    if !ring.is_member(past, node) || ring.leave_no(past, node, cause).is_some() {
        return false;
    }
    ring.leave(past, node, cause);
    true
}

fn follow_join(ring: &mut BareRing, past: &[RingEntry], node: u8) -> bool
    requires { IsBehind past.now ring.old }
    ensures { RingFollowed past.now ring.old (entries.Join node) ring.new result }
{
    if !ring.is_member(past, node) || ring.join_no(past, node).is_some() {
        return false;
    }
    ring.join(past, node);
    true
}

/// Makes the call of an entry after these entries, and answers whether the ring says the same.
/// Where the answer is false, the entry isn't legal here.
fn follow(
    alloc: Global,
    ring: &mut BareRing,
    past: &[RingEntry],
    entry: &RingEntry,
) -> Result<bool, AllocError>
    requires { IsBehind past.now ring.old }
    ensures { IfOk result (RingFollowed past.now ring.old entry.now ring.new) }
{
    match entry {
        RingEntry::Post { node, frame } => follow_post(alloc, ring, past, *node, frame),
        RingEntry::Send { node, heard } => follow_send(ring, past, *node, *heard),
        RingEntry::Take { node, frame } => follow_take(ring, past, *node, frame),
        RingEntry::Local {
            node,
            id,
            op,
            result,
        } => Ok(follow_local(ring, past, *node, *id, op, result)),
        RingEntry::GiveUp { id, word } => Ok(follow_give_up(ring, past, *id, *word)),
        RingEntry::Pass { node, done, words } => follow_pass(ring, past, *node, *done, words),
        RingEntry::Leave { node, cause } => Ok(follow_leave(ring, past, *node, *cause)),
        RingEntry::Join { node } => Ok(follow_join(ring, past, *node)),
    }
}

/// Makes the events of a ring's list by a ring of its own, as far as they may follow.
pub fn follow_ring(
    alloc: Global,
    plan: &NetPlan,
    entries: &[RingEntry],
) -> Result<Option<usize>, AllocError>
    requires members { All (λ m. m < addresses) plan.now.members }
    requires fates { 0 < length plan.now.fates }
    ensures { IfOk result (FollowedTo (IsLegalRing plan.now) entries.now) }
{
    let mut ring = BareRing::new(alloc, plan)?;
    for place in 0..entries.len() {
        if !follow(alloc, &mut ring, &entries[..place], &entries[place])? {
            return Ok(Some(place));
        }
    }
    Ok(None)
}
