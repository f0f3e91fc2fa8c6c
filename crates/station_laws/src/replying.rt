//! The third law: a station's replies are its answers, in the order in which it took the requests.
ghost use Rattle.std.specs.Prelude.{◌≡◌, ◌++◌, ◌∷◌, [], IfOk, OnOk};
ghost use Rattle.modbus_pdu.specs.Bytes.{words_bytes};
ghost use Rattle.std.specs.List.{cons_option};
ghost use Rattle.tied_lists.specs.Items.{answered_of, due_reply, port_answers};
ghost use Rattle.tied_lists.specs.Items.{replied_by, replied_of, replies_in, reply_of};
ghost use Rattle.joint_history.specs.Reading.{host_items_of, items_of};
ghost use Rattle.station_laws.specs.Readings.{answer_in, host_answer_in, replies_if};
ghost use Rattle.station_laws.specs.Picked.{AreWithin, picked};
ghost use Rattle.station_laws.specs.Taking.{DueNext, due_at, due_behind, entry_taken, frame_taken};

use crate::differing::Same;
use compared_items::same_bytes;
use controller_core::Entry;
use host_port::HostEntry;
use mstr_block::{CallId, MstrResult};
use plant_types::{Copied, Pdu};
use ring_core::{Frame, FrameKind, RingEntry};
use std::alloc::{AllocError, Global};
use std::collections::VecDeque;
use std::marker::Model;

/// A reply, or none where the answer is missing.
#[derive(Drop)]
pub(crate) struct Replying {
    id: CallId,
    reply: Option<Pdu>,
}

impl Model for Replying {
    ghost use Rattle.tied_lists.specs.Items.{Item};

    ghost Value = { Item };

    ghost view = { λ r. (r.id, r.reply) };
}

impl Same for Replying {
    fn is_same(&self, other: &Self) -> bool {
        self.id == other.id && same_bytes(&self.reply, &other.reply)
    }
}

fn add_reply(alloc: Global, list: &mut Vec<Replying>, entry: &RingEntry) -> Result<(), AllocError>
    ensures { OnOk result
        (list.new.items ≡ list.old.items ++ cons_option (replied_of entry.now) []) }
{
    let RingEntry::Post { frame, .. } = entry else {
        return Ok(());
    };
    if let FrameKind::Request = frame.kind {
        return Ok(());
    }
    let reply = frame.pdu.copied(alloc)?;
    list.push(Replying {
        id: frame.id,
        reply: Some(reply),
    })?;
    Ok(())
}

/// The Replies that a node posted.
pub(crate) fn replied(
    alloc: Global,
    ring: &[RingEntry],
    places: &[usize],
) -> Result<Vec<Replying>, AllocError>
    requires { AreWithin ring.now places.now }
    ensures { IfOk result (λ list. list.items ≡ replied_by (picked ring.now places.now)) }
{
    let mut list = Vec::new(alloc);
    for place in places {
        add_reply(alloc, &mut list, &ring[*place])?;
    }
    Ok(list)
}

/// The replies of answers, in their order: none where a request came without power.
pub(crate) type Replies = VecDeque<Option<Pdu>>;

/// One more answer.
fn push(list: &mut Replies, reply: Option<Pdu>) -> Result<(), AllocError>
    ensures { OnOk result (list.new.items ≡ list.old.items ++ reply ∷ []) }
{
    match list.push_back(reply) {
        Ok(()) => Ok(()),
        Err(_) => Err(AllocError),
    }
}

fn add_answer(alloc: Global, list: &mut Replies, entry: &Entry) -> Result<(), AllocError>
    ensures { OnOk result (list.new.items
        ≡ list.old.items ++ replies_if (answer_in entry.now)) }
{
    match entry {
        Entry::Peer { reply, .. } => push(list, Some(reply.copied(alloc)?)),
        Entry::Off { .. } => push(list, None),
        _ => Ok(()),
    }
}

/// The replies that a controller gave.
pub(crate) fn answers(alloc: Global, entries: &[Entry]) -> Result<Replies, AllocError>
    ensures { IfOk result (λ list. list.items ≡ replies_in (items_of entries.now).answers) }
{
    let mut list = VecDeque::new(alloc);
    for entry in entries {
        add_answer(alloc, &mut list, entry)?;
    }
    Ok(list)
}

fn add_host_answer(alloc: Global, list: &mut Replies, entry: &HostEntry) -> Result<(), AllocError>
    ensures { OnOk result (list.new.items
        ≡ list.old.items ++ replies_if (host_answer_in entry.now)) }
{
    match entry {
        HostEntry::Served { reply, .. } => push(list, Some(reply.copied(alloc)?)),
        _ => Ok(()),
    }
}

/// The replies that a host gave.
pub(crate) fn host_answers(alloc: Global, entries: &[HostEntry]) -> Result<Replies, AllocError>
    ensures { IfOk result
        (λ list. list.items ≡ replies_in (host_items_of entries.now).answers) }
{
    let mut list = VecDeque::new(alloc);
    for entry in entries {
        add_host_answer(alloc, &mut list, entry)?;
    }
    Ok(list)
}

fn push_words(bytes: &mut Vec<u8>, words: &[u16]) -> Result<(), AllocError>
    ensures { OnOk result (bytes.new.items ≡ bytes.old.items ++ words_bytes words.now) }
{
    for word in words {
        bytes.push((*word / 256) as u8)?;
        bytes.push((*word % 256) as u8)?;
    }
    Ok(())
}

/// The reply that tells what an operation for another node came to.
pub(crate) fn reply_of(alloc: Global, outcome: &MstrResult) -> Result<Pdu, AllocError>
    ensures { IfOk result (λ pdu. pdu ≡ reply_of outcome.now) }
{
    let words = outcome.words_told();
    let operation = if words.is_empty() { 4 } else { 3 };
    let mut bytes = Vec::from_array(alloc, [8, 0, 21, 0, operation])?;
    push_words(&mut bytes, words)?;
    // A block's words and these five are no more than a PDU has.
    match Pdu::of(alloc, bytes.as_slice())? {
        Some(pdu) => Ok(pdu),
        None => Err(AllocError),
    }
}

fn add_port_answer(alloc: Global, list: &mut Replies, entry: &RingEntry) -> Result<(), AllocError>
    ensures { OnOk result (list.new.items
        ≡ list.old.items ++ replies_if (answered_of entry.now)) }
{
    let RingEntry::Local {
        node,
        id,
        result,
        ..
    } = entry
    else {
        return Ok(());
    };
    if id.node == *node {
        return Ok(());
    }
    push(list, Some(reply_of(alloc, result)?))
}

fn port_answers(alloc: Global, ring: &[RingEntry], places: &[usize]) -> Result<Replies, AllocError>
    requires { AreWithin ring.now places.now }
    ensures { IfOk result (λ list. list.items
        ≡ replies_in (port_answers (picked ring.now places.now))) }
{
    let mut list = VecDeque::new(alloc);
    for place in places {
        add_port_answer(alloc, &mut list, &ring[*place])?;
    }
    Ok(list)
}

/// Adds the Reply that an answer makes due: none where there was no power, and one that nobody can
/// post where the answer is missing.
fn push_due(
    list: &mut Vec<Replying>,
    id: CallId,
    answer: Option<Option<Pdu>>,
) -> Result<(), AllocError>
    ensures { OnOk result (list.new.items
        ≡ list.old.items ++ cons_option (due_reply id answer) []) }
{
    let reply = match answer {
        None => None,
        Some(None) => return Ok(()),
        Some(reply) => reply,
    };
    list.push(Replying { id, reply })?;
    Ok(())
}

/// What is due to a frame that was taken: what the next answer of its sort makes due.
fn add_due_to(
    list: &mut Vec<Replying>,
    peers: &mut Replies,
    locals: &mut Replies,
    frame: &Frame,
) -> Result<(), AllocError>
    ensures { OnOk result (DueNext (frame_taken frame.now)
        list.old.items peers.old.items locals.old.items
        list.new.items peers.new.items locals.new.items) }
{
    if let FrameKind::Reply = frame.kind {
        return Ok(());
    }
    let answer = if frame.is_for_stats() {
        locals.pop_front()
    } else {
        peers.pop_front()
    };
    push_due(list, frame.id, answer)
}

fn add_due(
    list: &mut Vec<Replying>,
    peers: &mut Replies,
    locals: &mut Replies,
    entry: &RingEntry,
) -> Result<(), AllocError>
    ensures { OnOk result (DueNext (entry_taken entry.now)
        list.old.items peers.old.items locals.old.items
        list.new.items peers.new.items locals.new.items) }
{
    match entry {
        RingEntry::Take { frame, .. } => add_due_to(list, peers, locals, frame),
        _ => Ok(()),
    }
}

/// The Replies that are due of a node, by what its station and its port answered.
fn due_of(
    alloc: Global,
    ring: &[RingEntry],
    places: &[usize],
    mut peers: Replies,
    mut locals: Replies,
) -> Result<Vec<Replying>, AllocError>
    requires { AreWithin ring.now places.now }
    ensures { IfOk result
        (λ list. list.items ≡ due_at ring.now places.now peers.items locals.items) }
{
    let mut list = Vec::new(alloc);
    for place in places {
        add_due(&mut list, &mut peers, &mut locals, &ring[*place])?;
    }
    Ok(list)
}

/// The Replies that are due of a node, by what its station answered.
pub(crate) fn due(
    alloc: Global,
    ring: &[RingEntry],
    places: &[usize],
    peers: Replies,
) -> Result<Vec<Replying>, AllocError>
    requires { AreWithin ring.now places.now }
    ensures { IfOk result
        (λ list. list.items ≡ due_behind peers.items (picked ring.now places.now)) }
{
    let locals = port_answers(alloc, ring, places)?;
    due_of(alloc, ring, places, peers, locals)
}
