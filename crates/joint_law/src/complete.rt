//! The first node of which a station or an end of a bridge was not done.
ghost use Rattle.std.specs.Prelude.{◌≡◌, ◌↔◌, ℕ, true, length, All, IfOk, IsTrue};
ghost use Rattle.plant_types.specs.Plans.{IsPlant};
ghost use Rattle.joint_history.specs.JointLaws.{IsLegalJoint};
ghost use Rattle.joint_law.specs.AllComplete.{AreControllersDoneOn, AreEndsDoneOn};
ghost use Rattle.joint_law.specs.AllComplete.{AreHostNodesDoneOn, IsControllerDoneOn, IsEndDoneOn};
ghost use Rattle.joint_law.specs.AllComplete.{IsFirstIncomplete, IsFollowed, IsHostNodeDoneOn};
ghost use Rattle.joint_law.specs.AllComplete.{IsNodeDone, IsOutBy, IsStandingOf, own_entries};
ghost use Rattle.joint_law.specs.AllComplete.{powered_from};
ghost use Rattle.joint_law.specs.Spots.{IsCompleteAt};
ghost use Rattle.joint_law.specs.OnRings.{AreOnRings, ArePlacesOn, IsOnOne};
ghost use Rattle.joint_history.specs.Nets.{entries_of_rings};
ghost use Rattle.station_laws.specs.Picked.{AreWithin};

use crate::on_rings::{OnRings, entries_of};
use bridge_relay::BridgeEntry;
use controller_core::Entry;
use joint_history::{BridgeLog, ControllerLog, HostLog, Joint};
use list_courses::{
    Given, all_fit, all_fit_host, answers_given, count_scans, has_gone, host_answers_given,
    leaves_quietly, notices, side_ends_each_call, status_by,
};
use plant_types::{ADDRESSES, HostPlan, Plant};
use ring_core::{NodeStatus, RingEntry};
use station_laws::count_fails;
use std::alloc::{AllocError, Global};

/// What following all lists has shown: which controllers and hosts were done.
#[derive(Clone, Copy)]
pub(crate) struct Followed<'a> {
    pub done: &'a [bool],
    pub hosts_done: &'a [bool],
}

/// A node on the ring of its network: its entries there, and where it stands after them.
#[derive(Clone, Copy)]
struct Standing<'a> {
    ring: &'a [RingEntry],
    places: &'a [usize],
    node: u8,
    status: NodeStatus,
}

/// Whether a node was done on the ring, whose station's answers have replies or not, and which lost
/// its power so often.
fn node_is_done(alloc: Global, on: Standing, given: Given, fails: usize) -> Result<bool, AllocError>
    requires { AreWithin on.ring.now on.places.now }
    ensures { IfOk result (λ done. IsTrue done
        ↔ IsNodeDone given.items fails (own_entries on.entry)) }
{
    if !all_fit(on.ring, on.places, given) {
        return Ok(false);
    }
    notices(alloc, on.ring, on.places, fails)
}

/// Whether there is power after these entries.
fn is_powered(entries: &[Entry]) -> bool
    ensures { result ≡ powered_from true entries.now }
{
    let mut powered = true;
    for entry in entries {
        match entry {
            Entry::Begin => powered = true,
            Entry::Fail => powered = false,
            _ => {}
        }
    }
    powered
}

fn is_gone(status: NodeStatus) -> bool
    ensures { IsTrue result ↔ (status ≡ NodeStatus.Gone) }
{
    matches!(status, NodeStatus::Gone)
}

/// Whether a controller with these entries is out of the ring: its node is gone, or is away, all
/// scans are gone and there is no power.
fn is_out(status: NodeStatus, scans: u32, entries: &[Entry]) -> bool
    ensures { IsTrue result ↔ IsOutBy scans status entries.now }
{
    match status {
        NodeStatus::Gone => true,
        NodeStatus::Away => count_scans(entries) == scans as usize && !is_powered(entries),
        NodeStatus::In | NodeStatus::Asking => false,
    }
}

/// Whether a controller was done, and its node on the ring, if it is the one of this log.
fn controller_is_done(
    alloc: Global,
    on: Standing,
    scans: u32,
    log: &ControllerLog,
    is_done: bool,
) -> Result<bool, AllocError>
    requires { AreWithin on.ring.now on.places.now }
    ensures { IfOk result
        (λ done. IsTrue done ↔ IsControllerDoneOn scans on.entry log.now is_done) }
{
    if log.node != on.node {
        return Ok(true);
    }
    let entries = log.entries.as_slice();
    if !is_done || !is_out(on.status, scans, entries) {
        return Ok(false);
    }
    let given = answers_given(alloc, entries)?;
    node_is_done(alloc, on, given, count_fails(entries))
}

/// Whether the controllers of a node were done.
fn controllers_are_done(
    alloc: Global,
    on: Standing,
    scans: u32,
    logs: &[ControllerLog],
    done: &[bool],
) -> Result<bool, AllocError>
    requires places { AreWithin on.ring.now on.places.now }
    requires done { length done.now ≡ length logs.now }
    ensures { IfOk result
        (λ all. IsTrue all ↔ AreControllersDoneOn scans on.entry logs.now done.now) }
{
    for at in 0..logs.len() {
        if !controller_is_done(alloc, on, scans, &logs[at], done[at])? {
            return Ok(false);
        }
    }
    Ok(true)
}

/// Whether a host was done, and its node on the ring, if it is the one of this log.
fn host_is_done(
    alloc: Global,
    on: Standing,
    plan: &HostPlan,
    log: &HostLog,
    is_done: bool,
) -> Result<bool, AllocError>
    requires { AreWithin on.ring.now on.places.now }
    ensures { IfOk result
        (λ done. IsTrue done ↔ IsHostNodeDoneOn plan.now on.entry log.now is_done) }
{
    if log.node != on.node {
        return Ok(true);
    }
    if !is_done || !is_gone(on.status) {
        return Ok(false);
    }
    if !all_fit_host(alloc, plan, on.ring, on.places) {
        return Ok(false);
    }
    let given = host_answers_given(alloc, log.entries.as_slice())?;
    node_is_done(alloc, on, given, 0)
}

/// Whether the hosts of a node were done.
fn hosts_are_done(
    alloc: Global,
    on: Standing,
    plans: &[HostPlan],
    logs: &[HostLog],
    done: &[bool],
) -> Result<bool, AllocError>
    requires places { AreWithin on.ring.now on.places.now }
    requires plans { length plans.now ≡ length logs.now }
    requires done { length done.now ≡ length logs.now }
    ensures { IfOk result
        (λ all. IsTrue all ↔ AreHostNodesDoneOn plans.now on.entry logs.now done.now) }
{
    for at in 0..logs.len() {
        if !host_is_done(alloc, on, &plans[at], &logs[at], done[at])? {
            return Ok(false);
        }
    }
    Ok(true)
}

/// Whether an end of a bridge was done, if it is the one of this node: each call that it sent on
/// has ended, and it left for good, in its bridge's list and on the ring, where it was quiet
/// before and stayed so.
fn end_is_done(
    alloc: Global,
    on: Standing,
    entries: &[BridgeEntry],
    side: u8,
) -> Result<bool, AllocError>
    requires { AreWithin on.ring.now on.places.now }
    ensures { IfOk result (λ done. IsTrue done ↔ IsEndDoneOn on.entry entries.now side) }
{
    if side != on.node {
        return Ok(true);
    }
    if !is_gone(on.status) || !has_gone(entries, side) {
        return Ok(false);
    }
    if !leaves_quietly(on.ring, on.places) {
        return Ok(false);
    }
    side_ends_each_call(alloc, side, entries)
}

/// Whether both ends of a bridge were done, the left one first.
fn bridge_is_done(alloc: Global, on: Standing, log: &BridgeLog) -> Result<bool, AllocError>
    requires { AreWithin on.ring.now on.places.now }
    ensures { IfOk result (λ done. IsTrue done ↔ AreEndsDoneOn on.entry log.now) }
{
    let entries = log.entries.as_slice();
    if !end_is_done(alloc, on, entries, log.left)? {
        return Ok(false);
    }
    end_is_done(alloc, on, entries, log.right)
}

/// Whether the ends of bridges of a node were done.
fn bridges_are_done(alloc: Global, on: Standing, logs: &[BridgeLog]) -> Result<bool, AllocError>
    requires { AreWithin on.ring.now on.places.now }
    ensures { IfOk result (λ all. IsTrue all ↔ All (AreEndsDoneOn on.entry) logs.now) }
{
    for log in logs {
        if !bridge_is_done(alloc, on, log)? {
            return Ok(false);
        }
    }
    Ok(true)
}

/// A node on the ring of its network.
fn standing_of<'a>(on: OnRings<'a>, node: u8) -> Standing<'a>
    requires places { ArePlacesOn on.rings.now on.own.now }
    requires one { IsOnOne node on.rings.now }
    ensures { IsStandingOf (entries_of_rings on.entry.rings.now) node result }
{
    let of = entries_of(on, node);
    Standing {
        ring: of.ring,
        places: of.places,
        node,
        status: status_by(of.ring, of.places),
    }
}

/// Whether the stations and the ends of bridges of a node were done.
fn are_done(
    alloc: Global,
    plant: &Plant,
    joint: &Joint,
    on_rings: OnRings,
    scans: u32,
    followed: Followed,
    node: u8,
) -> Result<bool, AllocError>
    requires sound { IsPlant plant.now }
    requires legal { IsLegalJoint plant.now scans joint.now }
    requires on_rings { AreOnRings joint.now on_rings }
    requires followed { IsFollowed plant.now scans joint.now followed }
    ensures { IfOk result (λ done. IsTrue done ↔ IsCompleteAt plant.now scans joint.now node) }
{
    let on = standing_of(on_rings, node);
    let logs = joint.controllers.as_slice();
    if !controllers_are_done(alloc, on, scans, logs, followed.done)? {
        return Ok(false);
    }
    let plans = plant.hosts.as_slice();
    let host_logs = joint.hosts.as_slice();
    if !hosts_are_done(alloc, on, plans, host_logs, followed.hosts_done)? {
        return Ok(false);
    }
    bridges_are_done(alloc, on, joint.bridges.as_slice())
}

/// The first node of which a station or an end of a bridge was not done.
pub(crate) fn first_incomplete(
    alloc: Global,
    plant: &Plant,
    joint: &Joint,
    on_rings: OnRings,
    scans: u32,
    followed: Followed,
) -> Result<Option<u8>, AllocError>
    requires sound { IsPlant plant.now }
    requires legal { IsLegalJoint plant.now scans joint.now }
    requires on_rings { AreOnRings joint.now on_rings }
    requires followed { IsFollowed plant.now scans joint.now followed }
    ensures { IfOk result (IsFirstIncomplete plant.now scans joint.now) }
{
    for node in 0..ADDRESSES {
        if !are_done(alloc, plant, joint, on_rings, scans, followed, node)? {
            return Ok(Some(node));
        }
    }
    Ok(None)
}
