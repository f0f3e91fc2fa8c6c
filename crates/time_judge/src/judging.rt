//! Whether a joint history is in time.
ghost use Rattle.std.specs.Prelude.{◌≡◌, IfOk, map};
ghost use Rattle.ring_core.specs.Words.{maker};
ghost use Rattle.one_order.specs.Fronts.{places_of};
ghost use Rattle.entry_causes.specs.Joint.{controller_log, host_log, logs_of};
ghost use Rattle.joint_history.specs.Nets.{noted_on_rings};
ghost use Rattle.own_places.specs.Places.{ArePlaces};
ghost use Rattle.time_judge.specs.Judging.{IsStandstill, IsFirstStandstill};

use crate::counts::StationItem;
use crate::reaching::how_far;
use joint_history::{ControllerLog, HostLog, Joint, noted_copied};
use own_places::OwnPlaces;
use ring_core::RingEntry;
use std::alloc::{AllocError, Global};

/// Where a station is not in time: its next entry, and its node's next one on the ring, wait for
/// each other, whatever is put first. This project's own.
#[derive(Clone, Copy, Debug, PartialEq, Eq)]
pub struct Standstill {
    /// The station's address.
    pub node: u8,
    /// How many entries of its list come before that; all of them where only the ring's waits.
    pub entries: usize,
    /// How many entries of the rings do, one ring after the other; all of them where only the
    /// station's waits.
    pub place: usize,
}

fn station_standstill<E: StationItem>(
    alloc: Global,
    node: u8,
    entries: &[E],
    ring: &[RingEntry],
    places: &[usize],
) -> Result<Option<Standstill>, AllocError>
    requires { places.now ≡ places_of maker node ring.now }
    ensures { IfOk result (IsStandstill ring.now
        (record { node = node; entries = map E.entry entries.now })) }
{
    let reached = how_far(alloc, node, entries, ring, places)?;
    if reached.entries == entries.len() && reached.place == ring.len() {
        Ok(None)
    } else {
        Ok(Some(Standstill {
            node,
            entries: reached.entries,
            place: reached.place,
        }))
    }
}

fn controllers_standstill(
    alloc: Global,
    logs: &[ControllerLog],
    ring: &[RingEntry],
    own: &OwnPlaces,
) -> Result<Option<Standstill>, AllocError>
    requires { ArePlaces ring.now own.now }
    ensures { IfOk result (IsFirstStandstill ring.now (map controller_log logs.now)) }
{
    for log in logs {
        let places = own.places(log.node);
        let entries = log.entries.as_slice();
        if let Some(at) = station_standstill(alloc, log.node, entries, ring, places)? {
            return Ok(Some(at));
        }
    }
    Ok(None)
}

fn hosts_standstill(
    alloc: Global,
    logs: &[HostLog],
    ring: &[RingEntry],
    own: &OwnPlaces,
) -> Result<Option<Standstill>, AllocError>
    requires { ArePlaces ring.now own.now }
    ensures { IfOk result (IsFirstStandstill ring.now (map host_log logs.now)) }
{
    for host in logs {
        let places = own.places(host.node);
        let entries = host.entries.as_slice();
        if let Some(at) = station_standstill(alloc, host.node, entries, ring, places)? {
            return Ok(Some(at));
        }
    }
    Ok(None)
}

// The same of all stations, the controllers before the hosts.
fn joint_standstill(
    alloc: Global,
    joint: &Joint,
    ring: &[RingEntry],
) -> Result<Option<Standstill>, AllocError>
    ensures { IfOk result (IsFirstStandstill ring.now (logs_of joint.now)) }
{
    let own = OwnPlaces::of(alloc, ring)?;
    let controllers = joint.controllers.as_slice();
    if let Some(at) = controllers_standstill(alloc, controllers, ring, &own)? {
        return Ok(Some(at));
    }
    hosts_standstill(alloc, joint.hosts.as_slice(), ring, &own)
}

/// The first station, the controllers before the hosts, that is not in time with its node, and
/// where; none where all are. Takes time in proportion to all entries, and copies those of the
/// rings where there is more than one ring.
pub fn first_standstill(alloc: Global, joint: &Joint) -> Result<Option<Standstill>, AllocError>
    ensures { IfOk result (IsFirstStandstill (noted_on_rings joint.now) (logs_of joint.now)) }
{
    match joint.rings.as_slice() {
        [] => joint_standstill(alloc, joint, &[]),
        [ring] => joint_standstill(alloc, joint, ring.entries.as_slice()),
        rings => {
            let noted = noted_copied(alloc, rings)?;
            joint_standstill(alloc, joint, noted.as_slice())
        }
    }
}
