//! The first law that is broken, and where.
ghost use Rattle.std.specs.Prelude.{◌≡◌, ◌+◌, ◌^◌, ◌≤◌, ◌↔◌, IfOk, IsErr, flat_map, map};
ghost use Rattle.station_laws.specs.Bound.{bounds_of, controller_bound, host_bound, number_of};
ghost use Rattle.station_laws.specs.Bound.{side_bound, side_bounds};
ghost use Rattle.joint_law.specs.LawEnds.{IsLawsEnd, IsLogEnd, IsLogsEnd, IsNodesEnd};
ghost use Rattle.station_laws.specs.Picked.{AreOfNode};
ghost use Rattle.joint_law.specs.OnRings.{AreOnRings, IsJoined};

use crate::on_rings::{OnRings, entries_of, own_on_each};
use crate::verdict::Spot;
use joint_history::{BridgeLog, ControllerLog, HostLog, Joint, RingLog, noted_copied};
use plant_types::{ADDRESSES, List};
use ring_core::RingEntry;
use station_laws::{Law, controller_breaks, host_breaks, side_breaks};
use std::alloc::{AllocError, Global};

fn number_of(law: Law) -> u8
    ensures { result ≡ number_of law }
{
    match law {
        Law::Asks => 1,
        Law::Answers => 2,
        Law::Replies => 3,
        Law::Ends => 4,
        Law::Downs => 5,
    }
}

/// Where the controller of a log breaks a law, if it is the one of this node.
fn log_breaks(
    alloc: Global,
    law: Law,
    ring: &[RingEntry],
    places: &[usize],
    node: u8,
    log: &ControllerLog,
) -> Result<Option<usize>, AllocError>
    requires { AreOfNode ring.now node places.now }
    ensures { IfOk result (IsLogEnd law node (controller_bound ring.now log.now)) }
{
    if log.node != node {
        return Ok(None);
    }
    controller_breaks(alloc, law, log.entries.as_slice(), ring, places)
}

fn logs_break(
    alloc: Global,
    law: Law,
    ring: &[RingEntry],
    places: &[usize],
    node: u8,
    logs: &[ControllerLog],
) -> Result<Option<usize>, AllocError>
    requires { AreOfNode ring.now node places.now }
    ensures { IfOk result (IsLogsEnd law node (map (controller_bound ring.now) logs.now)) }
{
    for log in logs {
        if let Some(place) = log_breaks(alloc, law, ring, places, node, log)? {
            return Ok(Some(place));
        }
    }
    Ok(None)
}

fn host_log_breaks(
    alloc: Global,
    law: Law,
    ring: &[RingEntry],
    places: &[usize],
    node: u8,
    log: &HostLog,
) -> Result<Option<usize>, AllocError>
    requires { AreOfNode ring.now node places.now }
    ensures { IfOk result (IsLogEnd law node (host_bound ring.now log.now)) }
{
    if log.node != node {
        return Ok(None);
    }
    host_breaks(alloc, law, log.entries.as_slice(), ring, places)
}

fn host_logs_break(
    alloc: Global,
    law: Law,
    ring: &[RingEntry],
    places: &[usize],
    node: u8,
    logs: &[HostLog],
) -> Result<Option<usize>, AllocError>
    requires { AreOfNode ring.now node places.now }
    ensures { IfOk result (IsLogsEnd law node (map (host_bound ring.now) logs.now)) }
{
    for log in logs {
        if let Some(place) = host_log_breaks(alloc, law, ring, places, node, log)? {
            return Ok(Some(place));
        }
    }
    Ok(None)
}

/// Where an end of the bridge of a log breaks a law, if it is the one of this node.
fn side_log_breaks(
    alloc: Global,
    law: Law,
    ring: &[RingEntry],
    places: &[usize],
    node: u8,
    log: &BridgeLog,
    side: u8,
) -> Result<Option<usize>, AllocError>
    requires { AreOfNode ring.now node places.now }
    ensures { IfOk result (IsLogEnd law node (side_bound ring.now log.now side)) }
{
    if side != node {
        return Ok(None);
    }
    side_breaks(alloc, law, side, log.entries.as_slice(), ring, places)
}

/// Where one of its ends does, the left one first.
fn bridge_log_breaks(
    alloc: Global,
    law: Law,
    ring: &[RingEntry],
    places: &[usize],
    node: u8,
    log: &BridgeLog,
) -> Result<Option<usize>, AllocError>
    requires { AreOfNode ring.now node places.now }
    ensures { IfOk result (IsLogsEnd law node (side_bounds ring.now log.now)) }
{
    let left = side_log_breaks(alloc, law, ring, places, node, log, log.left)?;
    if left.is_some() {
        return Ok(left);
    }
    side_log_breaks(alloc, law, ring, places, node, log, log.right)
}

fn bridge_logs_break(
    alloc: Global,
    law: Law,
    ring: &[RingEntry],
    places: &[usize],
    node: u8,
    logs: &[BridgeLog],
) -> Result<Option<usize>, AllocError>
    requires { AreOfNode ring.now node places.now }
    ensures { IfOk result (IsLogsEnd law node (flat_map (side_bounds ring.now) logs.now)) }
{
    for log in logs {
        if let Some(place) = bridge_log_breaks(alloc, law, ring, places, node, log)? {
            return Ok(Some(place));
        }
    }
    Ok(None)
}

/// Where the station or the end of a bridge of a node breaks a law.
fn node_breaks(
    alloc: Global,
    law: Law,
    joint: &Joint,
    on: OnRings,
    node: u8,
) -> Result<Option<usize>, AllocError>
    requires { AreOnRings joint.now on }
    ensures { IfOk result (IsLogsEnd law node (bounds_of joint.now)) }
{
    let of = entries_of(on, node);
    let logs = joint.controllers.as_slice();
    if let Some(place) = logs_break(alloc, law, of.ring, of.places, node, logs)? {
        return Ok(Some(place));
    }
    let host_logs = joint.hosts.as_slice();
    if let Some(place) = host_logs_break(alloc, law, of.ring, of.places, node, host_logs)? {
        return Ok(Some(place));
    }
    let bridge_logs = joint.bridges.as_slice();
    bridge_logs_break(alloc, law, of.ring, of.places, node, bridge_logs)
}

/// A place, counted from 1. A spot has no number above 2^32 - 1; for such a place the answer is
/// that memory ran out.
pub(crate) fn number(place: usize) -> Result<u32, AllocError>
    ensures number { IfOk result (λ number. number ≡ place + 1) }
    ensures wants { IsErr result ↔ (2 ^ 32 ≤ place + 1) }
{
    if place >= u32::MAX as usize {
        return Err(AllocError);
    }
    Ok(place as u32 + 1)
}

/// The first node that breaks a law.
fn law_spot(alloc: Global, law: Law, joint: &Joint, on: OnRings) -> Result<Option<Spot>, AllocError>
    requires { AreOnRings joint.now on }
    ensures { IfOk result (IsNodesEnd law (bounds_of joint.now)) }
{
    for node in 0..ADDRESSES {
        if let Some(place) = node_breaks(alloc, law, joint, on, node)? {
            let place = number(place)?;
            return Ok(Some(Spot::Law {
                law: number_of(law),
                node,
                place,
            }));
        }
    }
    Ok(None)
}

/// The first law that is broken, each over all nodes.
pub(crate) fn laws_spot(
    alloc: Global,
    joint: &Joint,
    on: OnRings,
) -> Result<Option<Spot>, AllocError>
    requires { AreOnRings joint.now on }
    ensures { IfOk result (IsLawsEnd (bounds_of joint.now)) }
{
    let asks = law_spot(alloc, Law::Asks, joint, on)?;
    if asks.is_some() {
        return Ok(asks);
    }
    let answers = law_spot(alloc, Law::Answers, joint, on)?;
    if answers.is_some() {
        return Ok(answers);
    }
    let replies = law_spot(alloc, Law::Replies, joint, on)?;
    if replies.is_some() {
        return Ok(replies);
    }
    let ends = law_spot(alloc, Law::Ends, joint, on)?;
    if ends.is_some() {
        return Ok(ends);
    }
    law_spot(alloc, Law::Downs, joint, on)
}

/// The rings as one: a copy of the entries of all, one ring after the other.
fn joined(alloc: Global, rings: &[RingLog]) -> Result<List<RingLog>, AllocError>
    ensures { IfOk result (IsJoined rings.now) }
{
    let mut joined = List::new(alloc);
    joined.push(RingLog {
        network: 0,
        entries: noted_copied(alloc, rings)?,
    })?;
    Ok(joined)
}

/// The first law between the lists that is broken, each over all nodes, whether each list by itself
/// is legal or not; None exactly where all are kept. Since a node may then have noted something on
/// several rings, they are read as one.
pub fn broken_law(alloc: Global, joint: &Joint) -> Result<Option<Spot>, AllocError>
    ensures { IfOk result (IsLawsEnd (bounds_of joint.now)) }
{
    let joined = joined(alloc, joint.rings.as_slice())?;
    let rings = joined.as_slice();
    let own = own_on_each(alloc, rings)?;
    laws_spot(
        alloc,
        joint,
        OnRings {
            rings,
            own: own.as_slice(),
        },
    )
}
