//! The fourth law: what a station's calls ended with is what came of them on the ring.
ghost use Rattle.std.specs.Prelude.{◌≡◌, ◌↔◌, ◌++◌, [], IfOk, IsTrue, OnOk, map};
ghost use Rattle.std.specs.Option.{option_map};
ghost use Rattle.tied_lists.specs.Items.{asked_of, ended_at_home, ended_by, kind_of_sort};
ghost use Rattle.tied_lists.specs.Items.{outcome_of_word};
ghost use Rattle.joint_history.specs.Bridges.{relay_outcome, side_items};
ghost use Rattle.joint_history.specs.Reading.{called_of, host_items_of, items_of, outcome_of};
ghost use Rattle.joint_history.specs.Reading.{sort_of};
ghost use Rattle.station_laws.specs.Endings.{NotesAsk, NotesCalls, NotesKind, frame_end};
ghost use Rattle.station_laws.specs.Endings.{host_told_ends, kind_at, reply_outcome, ring_end_with};
ghost use Rattle.station_laws.specs.Endings.{ring_ends, side_told_ends, told_ends};
ghost use Rattle.station_laws.specs.Kinds.{kind_as, outcome_as, station_of};
ghost use Rattle.station_laws.specs.Named.{value_of_call};
ghost use Rattle.station_laws.specs.Readings.{calls_in, host_calls_in, side_calls_in};
ghost use Rattle.station_laws.specs.Picked.{AreWithin, picked};

use crate::by_call::ByCall;
use crate::differing::Same;
use bridge_relay::{BridgeEntry, RelayResult};
use compared_items::same_result;
use controller_core::{Call, CallKind, Entry};
use host_port::{HostEntry, HostResult};
use mstr_block::{CallId, MstrResult};
use plant_types::{Copied, Pdu};
use reply_laws::{NO_RESULT, result_of};
use ring_core::{Frame, FrameKind, LocalOp, RingEntry};
use std::alloc::{AllocError, Global};
use std::marker::Model;

/// What a station is.
#[derive(Clone, Copy, Debug, Drop, PartialEq, Eq)]
pub(crate) enum Sort {
    Controller,
    Host,
    Bridge,
}

/// The kind of a call.
#[derive(Drop)]
pub(crate) enum EndKind {
    Net,
    Home(LocalOp),
}

/// What a call came to.
#[derive(Drop)]
pub(crate) enum Outcome {
    Came(MstrResult),
    Replied(Pdu),
    Lacked(u16),
}

/// The end of a call, and its kind, if the station made it.
#[derive(Drop)]
pub(crate) struct Ending {
    id: CallId,
    kind: Option<EndKind>,
    outcome: Outcome,
}

impl Model for Ending {
    ghost use Rattle.std.specs.Option.{option_map};
    ghost use Rattle.tied_lists.specs.Items.{Ended};

    ghost Value = { Ended };

    ghost use Rattle.station_laws.specs.Kinds.{kind_as, outcome_as};

    ghost view = { λ e. record {
      id = e.id;
      kind = option_map kind_as e.kind;
      outcome = outcome_as e.outcome;
    } };
}

fn same_kind(one: &EndKind, other: &EndKind) -> bool
    ensures { IsTrue result ↔ (kind_as one.now ≡ kind_as other.now) }
{
    match one {
        EndKind::Net => matches!(other, EndKind::Net),
        EndKind::Home(op) => match other {
            EndKind::Home(done) => op.is_same(done),
            EndKind::Net => false,
        },
    }
}

fn same_kinds(one: &Option<EndKind>, other: &Option<EndKind>) -> bool
    ensures { IsTrue result ↔ (option_map kind_as one.now ≡ option_map kind_as other.now) }
{
    match one {
        None => other.is_none(),
        Some(kind) => match other {
            Some(another) => same_kind(kind, another),
            None => false,
        },
    }
}

fn same_outcome(one: &Outcome, other: &Outcome) -> bool
    ensures { IsTrue result ↔ (outcome_as one.now ≡ outcome_as other.now) }
{
    match one {
        Outcome::Came(result) => match other {
            Outcome::Came(another) => same_result(result, another),
            _ => false,
        },
        Outcome::Replied(pdu) => match other {
            Outcome::Replied(another) => pdu.bytes() == another.bytes(),
            _ => false,
        },
        Outcome::Lacked(word) => match other {
            Outcome::Lacked(another) => *word == *another,
            _ => false,
        },
    }
}

impl Same for Ending {
    fn is_same(&self, other: &Self) -> bool {
        self.id == other.id
            && same_kinds(&self.kind, &other.kind)
            && same_outcome(&self.outcome, &other.outcome)
    }
}

impl Copied for EndKind {
    fn copied(&self, alloc: Global) -> Result<Self, AllocError> {
        match self {
            EndKind::Net => Ok(EndKind::Net),
            EndKind::Home(op) => Ok(EndKind::Home(op.copied(alloc)?)),
        }
    }
}

/// The kind that a call was made with.
fn kind_of(alloc: Global, kind: &CallKind) -> Result<EndKind, AllocError>
    ensures { IfOk result (λ made. kind_as made ≡ kind_of_sort (sort_of kind.now)) }
{
    match kind {
        CallKind::Net { .. } => Ok(EndKind::Net),
        CallKind::Local(op) => Ok(EndKind::Home(op.copied(alloc)?)),
    }
}

/// Notes the kind of a call, if its name is new.
fn note_kind(kinds: &mut ByCall<EndKind>, id: CallId, kind: EndKind) -> Result<(), AllocError>
    ensures { OnOk result (NotesKind kinds.old id (kind_as kind) kinds.new) }
{
    if kinds.get(id).is_some() {
        return Ok(());
    }
    kinds.put(id, kind)
}

fn note_calls(alloc: Global, kinds: &mut ByCall<EndKind>, calls: &[Call]) -> Result<(), AllocError>
    ensures { OnOk result (NotesCalls kinds.old (map called_of calls.now) kinds.new) }
{
    for call in calls {
        note_kind(kinds, call.id, kind_of(alloc, &call.kind)?)?;
    }
    Ok(())
}

/// The kind of a call of this name, if there was one.
fn known_kind(
    alloc: Global,
    kinds: &ByCall<EndKind>,
    id: CallId,
) -> Result<Option<EndKind>, AllocError>
    ensures { IfOk result (λ kind. option_map kind_as kind ≡ kind_at kinds.now id) }
{
    match kinds.get(id) {
        None => Ok(None),
        Some(kind) => Ok(Some(kind.copied(alloc)?)),
    }
}

/// Notes the calls of an entry, and the end that it tells.
fn add_end(
    alloc: Global,
    kinds: &mut ByCall<EndKind>,
    list: &mut Vec<Ending>,
    entry: &Entry,
) -> Result<(), AllocError>
    ensures kinds { OnOk result (NotesCalls kinds.old (calls_in entry.now) kinds.new) }
    ensures ends { OnOk result (list.new.items
        ≡ list.old.items ++ told_ends kinds.old entry.now) }
{
    match entry {
        Entry::Collect(calls) => note_calls(alloc, kinds, calls.as_slice()),
        Entry::Finish { id, result } => {
            let kind = known_kind(alloc, kinds, *id)?;
            let outcome = Outcome::Came(result.copied(alloc)?);
            list.push(Ending {
                id: *id,
                kind,
                outcome,
            })?;
            Ok(())
        }
        _ => Ok(()),
    }
}

/// The ends that a controller tells.
pub(crate) fn ends(alloc: Global, entries: &[Entry]) -> Result<Vec<Ending>, AllocError>
    ensures { IfOk result (λ list. list.items ≡ (items_of entries.now).ends) }
{
    let mut kinds = ByCall::new(alloc);
    let mut list = Vec::new(alloc);
    for entry in entries {
        add_end(alloc, &mut kinds, &mut list, entry)?;
    }
    Ok(list)
}

fn outcome_of(alloc: Global, told: &HostResult) -> Result<Outcome, AllocError>
    ensures { IfOk result (λ outcome. outcome_as outcome ≡ outcome_of told.now) }
{
    match told {
        HostResult::Reply(pdu) => Ok(Outcome::Replied(pdu.copied(alloc)?)),
        HostResult::Bad(word) => Ok(Outcome::Lacked(*word)),
    }
}

fn add_host_end(
    alloc: Global,
    kinds: &mut ByCall<EndKind>,
    list: &mut Vec<Ending>,
    entry: &HostEntry,
) -> Result<(), AllocError>
    ensures kinds { OnOk result (NotesCalls kinds.old (host_calls_in entry.now) kinds.new) }
    ensures ends { OnOk result (list.new.items
        ≡ list.old.items ++ host_told_ends kinds.old entry.now) }
{
    match entry {
        HostEntry::Ask { id, .. } => note_kind(kinds, *id, EndKind::Net),
        HostEntry::Answer { id, result } => {
            let kind = known_kind(alloc, kinds, *id)?;
            let outcome = outcome_of(alloc, result)?;
            list.push(Ending {
                id: *id,
                kind,
                outcome,
            })?;
            Ok(())
        }
        HostEntry::Served { .. } => Ok(()),
    }
}

/// The ends that a host tells.
pub(crate) fn host_ends(alloc: Global, entries: &[HostEntry]) -> Result<Vec<Ending>, AllocError>
    ensures { IfOk result (λ list. list.items ≡ (host_items_of entries.now).ends) }
{
    let mut kinds = ByCall::new(alloc);
    let mut list = Vec::new(alloc);
    for entry in entries {
        add_host_end(alloc, &mut kinds, &mut list, entry)?;
    }
    Ok(list)
}

fn outcome_of_relay(alloc: Global, told: &RelayResult) -> Result<Outcome, AllocError>
    ensures { IfOk result (λ outcome. outcome_as outcome ≡ relay_outcome told.now) }
{
    match told {
        RelayResult::Reply(pdu) => Ok(Outcome::Replied(pdu.copied(alloc)?)),
        RelayResult::Bad(word) => Ok(Outcome::Lacked(*word)),
    }
}

/// Notes the call that an end of a bridge made by an entry.
fn note_side_call(
    kinds: &mut ByCall<EndKind>,
    side: u8,
    entry: &BridgeEntry,
) -> Result<(), AllocError>
    ensures { OnOk result (NotesCalls kinds.old (side_calls_in side entry.now) kinds.new) }
{
    match entry {
        BridgeEntry::Forward { side: near, id, .. } if *near == side => {
            note_kind(kinds, *id, EndKind::Net)
        }
        _ => Ok(()),
    }
}

/// Adds the end that an entry tells of a call of an end of a bridge.
fn add_side_end(
    alloc: Global,
    kinds: &ByCall<EndKind>,
    side: u8,
    list: &mut Vec<Ending>,
    entry: &BridgeEntry,
) -> Result<(), AllocError>
    ensures { OnOk result (list.new.items
        ≡ list.old.items ++ side_told_ends side kinds.now entry.now) }
{
    let BridgeEntry::Finish {
        side: near,
        id,
        result,
    } = entry
    else {
        return Ok(());
    };
    if *near == side {
        let kind = known_kind(alloc, kinds, *id)?;
        let outcome = outcome_of_relay(alloc, result)?;
        list.push(Ending {
            id: *id,
            kind,
            outcome,
        })?;
    }
    Ok(())
}

/// The ends that a bridge's list tells for one of its ends.
pub(crate) fn side_ends(
    alloc: Global,
    side: u8,
    entries: &[BridgeEntry],
) -> Result<Vec<Ending>, AllocError>
    ensures { IfOk result (λ list. list.items ≡ (side_items side entries.now).ends) }
{
    let mut kinds = ByCall::new(alloc);
    let mut list = Vec::new(alloc);
    for entry in entries {
        add_side_end(alloc, &kinds, side, &mut list, entry)?;
        note_side_call(&mut kinds, side, entry)?;
    }
    Ok(list)
}

/// What a reply comes to, by the request that it answers, if that was posted.
fn outcome_of_reply(
    alloc: Global,
    sort: Sort,
    asked: &ByCall<Pdu>,
    id: CallId,
    reply: &Pdu,
) -> Result<Outcome, AllocError>
    ensures { IfOk result
        (λ outcome. outcome_as outcome ≡ reply_outcome sort asked.now id reply.now) }
{
    match sort {
        Sort::Host | Sort::Bridge => Ok(Outcome::Replied(reply.copied(alloc)?)),
        Sort::Controller => match asked.get(id) {
            None => Ok(Outcome::Came(MstrResult::Bad(NO_RESULT))),
            Some(request) => Ok(Outcome::Came(result_of(request, reply))),
        },
    }
}

fn outcome_of_word(sort: Sort, word: u16) -> Outcome
    ensures { outcome_as result ≡ outcome_of_word (station_of sort) word }
{
    match sort {
        Sort::Host | Sort::Bridge => Outcome::Lacked(word),
        Sort::Controller => Outcome::Came(MstrResult::Bad(word)),
    }
}

/// What a frame that was taken ends.
fn end_of_frame(
    alloc: Global,
    sort: Sort,
    asked: &ByCall<Pdu>,
    frame: &Frame,
) -> Result<Option<Ending>, AllocError>
    ensures { IfOk result (λ end. end ≡ frame_end sort asked.now frame.now) }
{
    if let FrameKind::Request = frame.kind {
        return Ok(None);
    }
    let outcome = outcome_of_reply(alloc, sort, asked, frame.id, &frame.pdu)?;
    Ok(Some(Ending {
        id: frame.id,
        kind: Some(EndKind::Net),
        outcome,
    }))
}

/// What an operation of the port ends: the call of the own station that asked for it.
fn end_at_home(
    alloc: Global,
    node: u8,
    id: CallId,
    op: &LocalOp,
    given: &MstrResult,
) -> Result<Option<Ending>, AllocError>
    ensures { IfOk result (λ end. end ≡ ended_at_home node id op.now given.now) }
{
    if id.node != node {
        return Ok(None);
    }
    let kind = EndKind::Home(op.copied(alloc)?);
    let outcome = Outcome::Came(given.copied(alloc)?);
    Ok(Some(Ending {
        id,
        kind: Some(kind),
        outcome,
    }))
}

/// What an entry of the ring ends, by what was asked before it.
fn end_of(
    alloc: Global,
    sort: Sort,
    asked: &ByCall<Pdu>,
    entry: &RingEntry,
) -> Result<Option<Ending>, AllocError>
    ensures { IfOk result
        (λ end. end ≡ ring_end_with (station_of sort) (value_of_call asked.now) entry.now) }
{
    match entry {
        RingEntry::Take { frame, .. } => end_of_frame(alloc, sort, asked, frame),
        RingEntry::Local {
            node,
            id,
            op,
            result,
        } => end_at_home(alloc, *node, *id, op, result),
        RingEntry::GiveUp { id, word } => Ok(Some(Ending {
            id: *id,
            kind: Some(EndKind::Net),
            outcome: outcome_of_word(sort, *word),
        })),
        _ => Ok(None),
    }
}

/// Notes what an entry of the ring asks.
fn note_ask(alloc: Global, asked: &mut ByCall<Pdu>, entry: &RingEntry) -> Result<(), AllocError>
    ensures { OnOk result (NotesAsk asked.old (asked_of entry.now) asked.new) }
{
    let RingEntry::Post { frame, .. } = entry else {
        return Ok(());
    };
    match frame.kind {
        FrameKind::Reply => Ok(()),
        FrameKind::Request => asked.put(frame.id, frame.pdu.copied(alloc)?),
    }
}

fn add_met(
    alloc: Global,
    sort: Sort,
    asked: &mut ByCall<Pdu>,
    list: &mut Vec<Ending>,
    entry: &RingEntry,
) -> Result<(), AllocError>
    ensures asked { OnOk result (NotesAsk asked.old (asked_of entry.now) asked.new) }
    ensures ends { OnOk result
        (list.new.items ≡ list.old.items ++ ring_ends sort asked.old entry.now) }
{
    if let Some(end) = end_of(alloc, sort, asked, entry)? {
        list.push(end)?;
    }
    note_ask(alloc, asked, entry)
}

/// The ends that a node's entries on the ring give its station.
pub(crate) fn met(
    alloc: Global,
    sort: Sort,
    ring: &[RingEntry],
    places: &[usize],
) -> Result<Vec<Ending>, AllocError>
    requires { AreWithin ring.now places.now }
    ensures { IfOk result (λ list. list.items
        ≡ ended_by (station_of sort) [] (picked ring.now places.now)) }
{
    let mut asked = ByCall::new(alloc);
    let mut list = Vec::new(alloc);
    for place in places {
        add_met(alloc, sort, &mut asked, &mut list, &ring[*place])?;
    }
    Ok(list)
}
