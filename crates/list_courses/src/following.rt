//! Following the lists of controllers, hosts and bridges.
ghost use Rattle.std.specs.Prelude.{◌≡◌, ◌↔◌, ◌+◌, [], None, count_by, IfOk, IfSome, IsTrue};
ghost use Rattle.plant_types.specs.Plans.{IsBridgePlan, IsHostPlan};
ghost use Rattle.bridge_relay.specs.Legal.{IsBridgeHistory};
ghost use Rattle.controller_core.specs.Controller.{IsLegal};
ghost use Rattle.controller_core.specs.Machine.{IsRunnable};
ghost use Rattle.host_port.specs.Legal.{IsHostHistory};
ghost use Rattle.joint_history.specs.Complete.{ControllerIsComplete, is_scan_end};
ghost use Rattle.joint_history.specs.JointLaws.{fixed_of};
ghost use Rattle.list_courses.specs.Courses.{FollowedTo, HasFollowed, IsControllerCourse};
ghost use Rattle.list_courses.specs.Courses.{IsHostCourse, IsLegalCourse};

use crate::ended::{ends_each_call, host_ends_each_call};
use bridge_relay::{Bridge, BridgeEntry};
use controller_core::{Controller, Entry, Notes, notes_ask_no_scans};
use host_port::{Host, HostEntry};
use plant_types::{BridgePlan, ControllerPlan, HostPlan, NetPlan, Plant};
use std::alloc::{AllocError, Global};

/// How a station's list goes.
#[derive(Clone, Copy, Drop)]
pub enum Course {
    /// The entry, counted from 0, makes it illegal.
    Breaks(usize),
    /// It is legal, and its station was done, or not.
    Whole(bool),
}

/// How a controller's list goes, with what the controller noted.
#[derive(Drop)]
pub enum ControllerCourse {
    /// The entry, counted from 0, makes it illegal.
    Breaks(usize),
    /// It is legal, and its controller was done, or not, and noted this of its panel.
    Whole { is_done: bool, notes: Notes },
}

/// Makes the events of a list, as far as they may follow.
fn follow_entries(
    controller: &mut Controller,
    entries: &[Entry],
) -> Result<Option<usize>, AllocError>
    requires { controller.old.history ≡ [] }
    ensures legal { IfOk result (FollowedTo (IsLegal controller.old.fixed) entries.now) }
    ensures history { IfOk result (λ first. first ≡ None
        → controller.new.history ≡ entries.now) }
    ensures fixed { controller.new.fixed ≡ controller.old.fixed }
{
    let _ = controller.history();
    for place in 0..entries.len() {
        if !controller.follow(&entries[place])? {
            return Ok(Some(place));
        }
    }
    Ok(None)
}

/// How many scans are gone.
pub fn count_scans(entries: &[Entry]) -> usize
    ensures { result ≡ count_by is_scan_end entries.now }
{
    entries
        .iter()
        .filter(|entry| matches!(entry, Entry::End | Entry::Fail | Entry::Dark))
        .count()
}

/// Whether a controller that made these events was done.
fn is_done(
    alloc: Global,
    controller: &Controller,
    scans: u32,
    entries: &[Entry],
) -> Result<bool, AllocError>
    requires history { controller.now.history ≡ entries.now }
    requires scans { controller.now.fixed.scans ≡ scans }
    ensures { IfOk result (λ done. IsTrue done
        ↔ ControllerIsComplete controller.now.fixed entries.now) }
{
    if controller.has_started() {
        return Ok(false);
    }
    if controller.stop_code() == 0 && count_scans(entries) != scans as usize {
        return Ok(false);
    }
    ends_each_call(alloc, entries)
}

/// How a list goes that a controller follows from its start.
fn follow_to_end(
    alloc: Global,
    controller: &mut Controller,
    scans: u32,
    entries: &[Entry],
) -> Result<Course, AllocError>
    requires history { controller.old.history ≡ [] }
    requires scans { controller.old.fixed.scans ≡ scans }
    ensures course { IfOk result (IsLegalCourse controller.old.fixed entries.now) }
    ensures history { IfOk result (HasFollowed entries.now controller.new.history) }
    ensures fixed { controller.new.fixed ≡ controller.old.fixed }
{
    match follow_entries(controller, entries)? {
        Some(place) => Ok(Course::Breaks(place)),
        None => Ok(Course::Whole(is_done(alloc, controller, scans, entries)?)),
    }
}

/// How the list of a controller of a plant goes.
pub fn controller_course(
    alloc: Global,
    plant: &Plant,
    scans: u32,
    plan: &ControllerPlan,
    entries: &[Entry],
) -> Result<ControllerCourse, AllocError>
    requires { IsRunnable (fixed_of plant.now scans plan.now) }
    ensures { IfOk result (IsControllerCourse plant.now scans plan.now entries.now) }
{
    notes_ask_no_scans();
    let (scan_time, watchdog) = (plant.scan_time, plant.watchdog);
    let mut controller = Controller::new(alloc, plan, scan_time, watchdog, scans)?;
    let course = follow_to_end(alloc, &mut controller, scans, entries);
    let (_, notes) = controller.into_parts();
    match course? {
        Course::Breaks(place) => Ok(ControllerCourse::Breaks(place)),
        Course::Whole(is_done) => Ok(ControllerCourse::Whole { is_done, notes }),
    }
}

fn follow_host_entries(host: &mut Host, entries: &[HostEntry]) -> Result<Option<usize>, AllocError>
    requires { host.old.history ≡ [] }
    ensures { IfOk result (FollowedTo (IsHostHistory host.old.plan) entries.now) }
{
    let _ = host.history();
    for place in 0..entries.len() {
        if !host.follow(&entries[place])? {
            return Ok(Some(place));
        }
    }
    Ok(None)
}

/// Makes the events of a list by a host of its own, as far as they may follow.
fn follow_host(
    alloc: Global,
    net: &NetPlan,
    plan: &HostPlan,
    entries: &[HostEntry],
) -> Result<Option<usize>, AllocError>
    requires { IsHostPlan plan.now }
    ensures { IfOk result (FollowedTo (IsHostHistory plan.now) entries.now) }
{
    let mut host = Host::new(alloc, plan, net)?;
    follow_host_entries(&mut host, entries)
}

/// How the list of a host of a plant goes.
pub fn host_course(
    alloc: Global,
    net: &NetPlan,
    plan: &HostPlan,
    entries: &[HostEntry],
) -> Result<Course, AllocError>
    requires { IsHostPlan plan.now }
    ensures { IfOk result (IsHostCourse plan.now entries.now) }
{
    match follow_host(alloc, net, plan, entries)? {
        Some(place) => Ok(Course::Breaks(place)),
        None => Ok(Course::Whole(host_ends_each_call(alloc, entries)?)),
    }
}

fn follow_bridge_entries(
    bridge: &mut Bridge,
    entries: &[BridgeEntry],
) -> Result<Option<usize>, AllocError>
    requires { bridge.old.history ≡ [] }
    ensures { IfOk result (FollowedTo (IsBridgeHistory bridge.old.plan) entries.now) }
{
    let _ = bridge.history();
    for place in 0..entries.len() {
        if !bridge.follow(&entries[place])? {
            return Ok(Some(place));
        }
    }
    Ok(None)
}

/// Makes the events of a list by a bridge of its own, as far as they may follow.
pub fn follow_bridge(
    alloc: Global,
    plan: &BridgePlan,
    entries: &[BridgeEntry],
) -> Result<Option<usize>, AllocError>
    requires { IsBridgePlan plan.now }
    ensures { IfOk result (FollowedTo (IsBridgeHistory plan.now) entries.now) }
{
    let mut bridge = Bridge::new(alloc, plan)?;
    follow_bridge_entries(&mut bridge, entries)
}
