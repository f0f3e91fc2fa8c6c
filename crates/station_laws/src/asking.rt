//! The first law: what a station asked on the ring is what its calls ask.
ghost use Rattle.std.specs.Prelude.{◌≡◌, ◌↔◌, ◌++◌, [], ◌+◌, None, IfOk, IfSome, OnOk, IsTrue};
ghost use Rattle.std.specs.Prelude.{filter_map, map};
ghost use Rattle.std.specs.List.{cons_option};
ghost use Rattle.tied_lists.specs.Items.{asked_by, asked_of, net_ask};
ghost use Rattle.joint_history.specs.Bridges.{side_items};
ghost use Rattle.joint_history.specs.Reading.{called_of, host_items_of, items_of};
ghost use Rattle.station_laws.specs.Readings.{calls_in, host_calls_in, route_by, side_calls_in};
ghost use Rattle.station_laws.specs.Picked.{AreWithin, picked};

use crate::differing::Same;
use bridge_relay::BridgeEntry;
use controller_core::{Call, CallKind, Entry};
use host_port::HostEntry;
use mstr_block::CallId;
use plant_types::{Copied, Pdu, Route};
use ring_core::{FrameKind, RingEntry};
use std::alloc::{AllocError, Global};
use std::marker::Model;

/// A request that a station asks another for.
#[derive(Drop)]
pub(crate) struct Asking {
    id: CallId,
    /// The first address of its route, and those after it; none where it has no address.
    way: Option<(u8, Route)>,
    pdu: Pdu,
}

impl Model for Asking {
    ghost use Rattle.tied_lists.specs.Items.{Asked};
    ghost use Rattle.station_laws.specs.Readings.{route_by};

    ghost Value = { Asked };

    ghost view = { λ a. record { id = a.id; route = route_by a.way; pdu = a.pdu } };
}

/// Whether two routes are one, each by its first address and those after it, or none.
fn same_way(one: &Option<(u8, Route)>, other: &Option<(u8, Route)>) -> bool
    ensures { IsTrue result ↔ (route_by one.now ≡ route_by other.now) }
{
    match one {
        None => other.is_none(),
        Some((to, rest)) => match other {
            None => false,
            Some((another, others)) => *to == *another && rest.addresses() == others.addresses(),
        },
    }
}

impl Same for Asking {
    fn is_same(&self, other: &Self) -> bool {
        self.id == other.id
            && same_way(&self.way, &other.way)
            && self.pdu.bytes() == other.pdu.bytes()
    }
}

fn add_posted(alloc: Global, list: &mut Vec<Asking>, entry: &RingEntry) -> Result<(), AllocError>
    ensures { OnOk result
        (list.new.items ≡ list.old.items ++ cons_option (asked_of entry.now) []) }
{
    let RingEntry::Post { frame, .. } = entry else {
        return Ok(());
    };
    if let FrameKind::Reply = frame.kind {
        return Ok(());
    }
    let pdu = frame.pdu.copied(alloc)?;
    list.push(Asking {
        id: frame.id,
        way: Some((frame.to, frame.rest)),
        pdu,
    })?;
    Ok(())
}

/// What was asked on the ring.
pub(crate) fn asked(
    alloc: Global,
    ring: &[RingEntry],
    places: &[usize],
) -> Result<Vec<Asking>, AllocError>
    requires { AreWithin ring.now places.now }
    ensures { IfOk result (λ list. list.items ≡ asked_by (picked ring.now places.now)) }
{
    let mut list = Vec::new(alloc);
    for place in places {
        add_posted(alloc, &mut list, &ring[*place])?;
    }
    Ok(list)
}

/// What a call asks by a route.
fn ask_along(alloc: Global, id: CallId, route: Route, pdu: &Pdu) -> Result<Asking, AllocError>
    ensures { IfOk result (λ made. made ≡ record { id = id; route = route; pdu = pdu.now }) }
{
    Ok(Asking {
        id,
        way: route.split_first(),
        pdu: pdu.copied(alloc)?,
    })
}

fn add_call(alloc: Global, list: &mut Vec<Asking>, call: &Call) -> Result<(), AllocError>
    ensures { OnOk result (list.new.items
        ≡ list.old.items ++ cons_option (net_ask (called_of call.now)) []) }
{
    match &call.kind {
        CallKind::Net { route, pdu } => {
            list.push(ask_along(alloc, call.id, *route, pdu)?)?;
            Ok(())
        }
        CallKind::Local(_) => Ok(()),
    }
}

fn add_calls(alloc: Global, list: &mut Vec<Asking>, calls: &[Call]) -> Result<(), AllocError>
    ensures { OnOk result (list.new.items
        ≡ list.old.items ++ filter_map net_ask (map called_of calls.now)) }
{
    for call in calls {
        add_call(alloc, list, call)?;
    }
    Ok(())
}

fn add_entry(alloc: Global, list: &mut Vec<Asking>, entry: &Entry) -> Result<(), AllocError>
    ensures { OnOk result (list.new.items
        ≡ list.old.items ++ filter_map net_ask (calls_in entry.now)) }
{
    match entry {
        Entry::Collect(calls) => add_calls(alloc, list, calls.as_slice()),
        _ => Ok(()),
    }
}

/// What a controller's calls ask.
pub(crate) fn called(alloc: Global, entries: &[Entry]) -> Result<Vec<Asking>, AllocError>
    ensures { IfOk result
        (λ list. list.items ≡ filter_map net_ask (items_of entries.now).calls) }
{
    let mut list = Vec::new(alloc);
    for entry in entries {
        add_entry(alloc, &mut list, entry)?;
    }
    Ok(list)
}

fn add_host_entry(
    alloc: Global,
    list: &mut Vec<Asking>,
    entry: &HostEntry,
) -> Result<(), AllocError>
    ensures { OnOk result (list.new.items
        ≡ list.old.items ++ filter_map net_ask (host_calls_in entry.now)) }
{
    match entry {
        HostEntry::Ask { id, route, pdu } => {
            list.push(ask_along(alloc, *id, *route, pdu)?)?;
            Ok(())
        }
        _ => Ok(()),
    }
}

/// What a host asks.
pub(crate) fn host_called(alloc: Global, entries: &[HostEntry]) -> Result<Vec<Asking>, AllocError>
    ensures { IfOk result
        (λ list. list.items ≡ filter_map net_ask (host_items_of entries.now).calls) }
{
    let mut list = Vec::new(alloc);
    for entry in entries {
        add_host_entry(alloc, &mut list, entry)?;
    }
    Ok(list)
}

fn add_side_entry(
    alloc: Global,
    side: u8,
    list: &mut Vec<Asking>,
    entry: &BridgeEntry,
) -> Result<(), AllocError>
    ensures { OnOk result (list.new.items
        ≡ list.old.items ++ filter_map net_ask (side_calls_in side entry.now)) }
{
    let BridgeEntry::Forward {
        side: near,
        id,
        route,
        request,
        ..
    } = entry
    else {
        return Ok(());
    };
    if *near == side {
        list.push(ask_along(alloc, *id, *route, request)?)?;
    }
    Ok(())
}

/// What an end of a bridge asks.
pub(crate) fn side_called(
    alloc: Global,
    side: u8,
    entries: &[BridgeEntry],
) -> Result<Vec<Asking>, AllocError>
    ensures { IfOk result
        (λ list. list.items ≡ filter_map net_ask (side_items side entries.now).calls) }
{
    let mut list = Vec::new(alloc);
    for entry in entries {
        add_side_entry(alloc, side, &mut list, entry)?;
    }
    Ok(list)
}
