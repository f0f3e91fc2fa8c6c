//! The second law: what a station and its port answered is what was taken for each.
ghost use Rattle.std.specs.Prelude.{◌≡◌, ◌++◌, [], true, false, Some, IfOk, OnOk, map};
ghost use Rattle.tied_lists.specs.Items.{answered_of, request_of};
ghost use Rattle.joint_history.specs.Bridges.{side_items};
ghost use Rattle.joint_history.specs.Reading.{host_items_of, items_of};
ghost use Rattle.station_laws.specs.Bound.{port_items, sorted, sorted_answer, sorted_answers};
ghost use Rattle.station_laws.specs.Bound.{sorted_taken, taken_in_order, taken_places};
ghost use Rattle.station_laws.specs.Readings.{answer_in, host_answer_in, side_answer_in};
ghost use Rattle.station_laws.specs.Picked.{AreWithin, picked};
ghost use Rattle.station_laws.specs.Taking.{entry_taken, frame_taken};

use crate::differing::Same;
use bridge_relay::BridgeEntry;
use compared_items::same_bytes;
use controller_core::Entry;
use host_port::HostEntry;
use mstr_block::CallId;
use plant_types::{Copied, Pdu, Route};
use ring_core::{CLEAR_STATISTICS, Frame, FrameKind, GET_STATISTICS, LocalOp, RingEntry};
use std::alloc::{AllocError, Global};
use std::marker::Model;

/// A request that was answered or taken, if there can be one, and whether it is for the port.
#[derive(Drop)]
pub(crate) struct Served {
    statistics: bool,
    id: CallId,
    /// The addresses after the station, to which the request was still to go.
    rest: Route,
    request: Option<Pdu>,
}

impl Model for Served {
    ghost use Rattle.station_laws.specs.Bound.{Sorted};

    ghost Value = { Sorted };

    ghost view = { λ s. record {
      statistics = s.statistics;
      item = record { id = s.id; rest = s.rest; request = s.request };
    } };
}

impl Same for Served {
    fn is_same(&self, other: &Self) -> bool {
        self.statistics == other.statistics
            && self.id == other.id
            && self.rest.addresses() == other.rest.addresses()
            && same_bytes(&self.request, &other.request)
    }
}

fn serving(
    alloc: Global,
    statistics: bool,
    id: CallId,
    rest: Route,
    request: &Pdu,
) -> Result<Served, AllocError>
    ensures { IfOk result (λ made. made
        ≡ sorted statistics (record { id = id; rest = rest; request = Some request.now })) }
{
    Ok(Served {
        statistics,
        id,
        rest,
        request: Some(request.copied(alloc)?),
    })
}

/// A request that a controller or a host answered: it goes no further.
fn served_here(alloc: Global, id: CallId, request: &Pdu) -> Result<Served, AllocError>
    ensures { IfOk result (λ made. made
        ≡ sorted false (record { id = id; rest = []; request = Some request.now })) }
{
    serving(alloc, false, id, Route::of(&[]), request)
}

fn add_answer(alloc: Global, list: &mut Vec<Served>, entry: &Entry) -> Result<(), AllocError>
    ensures { OnOk result
        (list.new.items ≡ list.old.items ++ sorted_answers false (answer_in entry.now)) }
{
    match entry {
        Entry::Peer { id, request, .. } | Entry::Off { id, request } => {
            list.push(served_here(alloc, *id, request)?)?;
            Ok(())
        }
        _ => Ok(()),
    }
}

/// What a controller answered.
pub(crate) fn answered(alloc: Global, entries: &[Entry]) -> Result<Vec<Served>, AllocError>
    ensures { IfOk result (λ list. list.items
        ≡ map (sorted_answer false) (items_of entries.now).answers) }
{
    let mut list = Vec::new(alloc);
    for entry in entries {
        add_answer(alloc, &mut list, entry)?;
    }
    Ok(list)
}

fn add_host_answer(
    alloc: Global,
    list: &mut Vec<Served>,
    entry: &HostEntry,
) -> Result<(), AllocError>
    ensures { OnOk result
        (list.new.items ≡ list.old.items ++ sorted_answers false (host_answer_in entry.now)) }
{
    match entry {
        HostEntry::Served { id, request, .. } => {
            list.push(served_here(alloc, *id, request)?)?;
            Ok(())
        }
        _ => Ok(()),
    }
}

/// What a host answered.
pub(crate) fn host_answered(alloc: Global, entries: &[HostEntry]) -> Result<Vec<Served>, AllocError>
    ensures { IfOk result (λ list. list.items
        ≡ map (sorted_answer false) (host_items_of entries.now).answers) }
{
    let mut list = Vec::new(alloc);
    for entry in entries {
        add_host_answer(alloc, &mut list, entry)?;
    }
    Ok(list)
}

fn add_side_answer(
    alloc: Global,
    side: u8,
    list: &mut Vec<Served>,
    entry: &BridgeEntry,
) -> Result<(), AllocError>
    ensures { OnOk result
        (list.new.items ≡ list.old.items ++ sorted_answers false (side_answer_in side entry.now)) }
{
    let BridgeEntry::Accept {
        side: near,
        id,
        route,
        request,
    } = entry
    else {
        return Ok(());
    };
    if *near == side {
        list.push(serving(alloc, false, *id, *route, request)?)?;
    }
    Ok(())
}

/// What an end of a bridge accepted.
pub(crate) fn side_answered(
    alloc: Global,
    side: u8,
    entries: &[BridgeEntry],
) -> Result<Vec<Served>, AllocError>
    ensures { IfOk result (λ list. list.items
        ≡ map (sorted_answer false) (side_items side entries.now).answers) }
{
    let mut list = Vec::new(alloc);
    for entry in entries {
        add_side_answer(alloc, side, &mut list, entry)?;
    }
    Ok(list)
}

/// The request that an operation of the port answers, if it answers one.
fn request_of(alloc: Global, op: &LocalOp) -> Result<Option<Pdu>, AllocError>
    ensures { IfOk result (λ request. request ≡ request_of op.now) }
{
    match op {
        LocalOp::RemoteGet => Pdu::of(alloc, &GET_STATISTICS[..]),
        LocalOp::RemoteClear => Pdu::of(alloc, &CLEAR_STATISTICS[..]),
        _ => Ok(None),
    }
}

fn add_port_answer(
    alloc: Global,
    list: &mut Vec<Served>,
    entry: &RingEntry,
) -> Result<(), AllocError>
    ensures { OnOk result
        (list.new.items ≡ list.old.items ++ sorted_answers true (answered_of entry.now)) }
{
    let RingEntry::Local { node, id, op, .. } = entry else {
        return Ok(());
    };
    if id.node == *node {
        return Ok(());
    }
    let request = request_of(alloc, op)?;
    list.push(Served {
        statistics: true,
        id: *id,
        rest: Route::of(&[]),
        request,
    })?;
    Ok(())
}

/// Adds what a node's port answered.
pub(crate) fn add_port_answers(
    alloc: Global,
    list: &mut Vec<Served>,
    ring: &[RingEntry],
    places: &[usize],
) -> Result<(), AllocError>
    requires { AreWithin ring.now places.now }
    ensures { OnOk result
        (list.new.items ≡ list.old.items ++ port_items (picked ring.now places.now)) }
{
    for place in places {
        add_port_answer(alloc, list, &ring[*place])?;
    }
    Ok(())
}

fn add_taken_frame(
    alloc: Global,
    statistics: bool,
    list: &mut Vec<Served>,
    frame: &Frame,
) -> Result<(), AllocError>
    ensures { OnOk result
        (list.new.items ≡ list.old.items ++ sorted_taken statistics (frame_taken frame.now)) }
{
    if let FrameKind::Reply = frame.kind {
        return Ok(());
    }
    if frame.is_for_stats() != statistics {
        return Ok(());
    }
    let made = serving(alloc, statistics, frame.id, frame.rest, &frame.pdu)?;
    list.push(made)?;
    Ok(())
}

fn add_taken(
    alloc: Global,
    statistics: bool,
    list: &mut Vec<Served>,
    entry: &RingEntry,
) -> Result<(), AllocError>
    ensures { OnOk result
        (list.new.items ≡ list.old.items ++ sorted_taken statistics (entry_taken entry.now)) }
{
    match entry {
        RingEntry::Take { frame, .. } => add_taken_frame(alloc, statistics, list, frame),
        _ => Ok(()),
    }
}

/// Adds the requests that a node took for its port, or those for the others.
pub(crate) fn add_all_taken(
    alloc: Global,
    statistics: bool,
    list: &mut Vec<Served>,
    ring: &[RingEntry],
    places: &[usize],
) -> Result<(), AllocError>
    requires { AreWithin ring.now places.now }
    ensures { OnOk result
        (list.new.items ≡ list.old.items ++ taken_places statistics ring.now places.now) }
{
    for place in places {
        add_taken(alloc, statistics, list, &ring[*place])?;
    }
    Ok(())
}

/// What a node took, first for its station and then for its port.
pub(crate) fn taken_in_order(
    alloc: Global,
    ring: &[RingEntry],
    places: &[usize],
) -> Result<Vec<Served>, AllocError>
    requires { AreWithin ring.now places.now }
    ensures { IfOk result (λ list. list.items
        ≡ taken_in_order (picked ring.now places.now)) }
{
    let mut list = Vec::new(alloc);
    add_all_taken(alloc, false, &mut list, ring, places)?;
    add_all_taken(alloc, true, &mut list, ring, places)?;
    Ok(list)
}
