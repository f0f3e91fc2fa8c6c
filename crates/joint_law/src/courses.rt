//! How the lists of all controllers go, of all hosts, of all bridges and of all rings.
ghost use Rattle.std.specs.Prelude.{IfOk};
ghost use Rattle.plant_types.specs.Plans.{IsPlant};
ghost use Rattle.joint_law.specs.Spots.{AreLegalBridgeLogs, AreLegalHostLogs, AreLegalLogs};
ghost use Rattle.joint_law.specs.Spots.{CanBeJudged, HasSections};
ghost use Rattle.joint_law.specs.AllCourses.{BridgesEnd, ControllersEnd, HostsEnd, RingsEnd};

use controller_core::Notes;
use joint_history::Joint;
use list_courses::{
    ControllerCourse, Course, controller_course, follow_bridge, follow_ring, host_course,
};
use plant_types::{List, Plant};
use std::alloc::{AllocError, Global};

/// How the lists of all controllers go.
#[derive(Drop)]
pub(crate) enum ControllerCourses {
    /// The first that breaks off, and the entry, counted from 0, that makes it illegal.
    Breaks {
        node: u8,
        place: usize,
    },
    /// All are legal, and each controller was done, or not, and noted something of its panel.
    Whole {
        done: List<bool>,
        notes: List<Notes>,
    },
}

/// How the lists of all hosts go.
#[derive(Drop)]
pub(crate) enum HostCourses {
    /// The first that breaks off, and the entry, counted from 0, that makes it illegal.
    Breaks { node: u8, place: usize },
    /// All are legal, and each host was done, or not.
    Whole(List<bool>),
}

/// How the lists of all bridges go.
#[derive(Clone, Copy, Drop)]
pub(crate) enum BridgeCourses {
    /// The first that breaks off, and the entry, counted from 0, that makes it illegal.
    Breaks { left: u8, place: usize },
    /// All are legal.
    Whole,
}

/// How the lists of all rings go.
#[derive(Clone, Copy, Drop)]
pub(crate) enum RingCourses {
    /// The first that breaks off, and the entry, counted from 0, that makes it illegal.
    Breaks { network: u8, place: usize },
    /// All are legal.
    Whole,
}

/// Follows the list of each controller.
pub(crate) fn controllers_course(
    alloc: Global,
    plant: &Plant,
    joint: &Joint,
    scans: u32,
) -> Result<ControllerCourses, AllocError>
    requires judged { CanBeJudged plant.now scans }
    requires sections { HasSections plant.now joint.now }
    ensures { IfOk result (ControllersEnd plant.now scans joint.now) }
{
    let plans = plant.controllers.as_slice();
    let logs = joint.controllers.as_slice();
    let mut done = List::new(alloc);
    let mut notes = List::new(alloc);
    for at in 0..plans.len() {
        let entries = logs[at].entries.as_slice();
        match controller_course(alloc, plant, scans, &plans[at], entries)? {
            ControllerCourse::Breaks(place) => {
                let node = logs[at].node;
                return Ok(ControllerCourses::Breaks { node, place });
            }
            ControllerCourse::Whole {
                is_done,
                notes: noted,
            } => {
                done.push(is_done)?;
                notes.push(noted)?;
            }
        }
    }
    Ok(ControllerCourses::Whole { done, notes })
}

/// Follows the list of each host.
pub(crate) fn hosts_course(
    alloc: Global,
    plant: &Plant,
    joint: &Joint,
    scans: u32,
) -> Result<HostCourses, AllocError>
    requires judged { CanBeJudged plant.now scans }
    requires sections { HasSections plant.now joint.now }
    requires controllers { AreLegalLogs plant.now scans joint.now }
    ensures { IfOk result (HostsEnd plant.now scans joint.now) }
{
    let plans = plant.hosts.as_slice();
    let logs = joint.hosts.as_slice();
    let mut done = List::new(alloc);
    for at in 0..plans.len() {
        let plan = &plans[at];
        let entries = logs[at].entries.as_slice();
        match host_course(alloc, plant.own_net(plan.node), plan, entries)? {
            Course::Breaks(place) => {
                let node = logs[at].node;
                return Ok(HostCourses::Breaks { node, place });
            }
            Course::Whole(is_done) => done.push(is_done)?,
        }
    }
    Ok(HostCourses::Whole(done))
}

/// Follows the list of each bridge.
pub(crate) fn bridges_course(
    alloc: Global,
    plant: &Plant,
    joint: &Joint,
    scans: u32,
) -> Result<BridgeCourses, AllocError>
    requires sound { IsPlant plant.now }
    requires sections { HasSections plant.now joint.now }
    requires controllers { AreLegalLogs plant.now scans joint.now }
    requires hosts { AreLegalHostLogs plant.now joint.now }
    ensures { IfOk result (BridgesEnd plant.now scans joint.now) }
{
    let plans = plant.bridges.as_slice();
    let logs = joint.bridges.as_slice();
    for at in 0..plans.len() {
        let entries = logs[at].entries.as_slice();
        if let Some(place) = follow_bridge(alloc, &plans[at], entries)? {
            let left = logs[at].left;
            return Ok(BridgeCourses::Breaks { left, place });
        }
    }
    Ok(BridgeCourses::Whole)
}

/// Follows the list of each ring.
pub(crate) fn rings_course(
    alloc: Global,
    plant: &Plant,
    joint: &Joint,
    scans: u32,
) -> Result<RingCourses, AllocError>
    requires sound { IsPlant plant.now }
    requires sections { HasSections plant.now joint.now }
    requires controllers { AreLegalLogs plant.now scans joint.now }
    requires hosts { AreLegalHostLogs plant.now joint.now }
    requires bridges { AreLegalBridgeLogs plant.now joint.now }
    ensures { IfOk result (RingsEnd plant.now scans joint.now) }
{
    let plans = plant.nets.as_slice();
    let logs = joint.rings.as_slice();
    for at in 0..plans.len() {
        let entries = logs[at].entries.as_slice();
        if let Some(place) = follow_ring(alloc, &plans[at], entries)? {
            let network = logs[at].network;
            return Ok(RingCourses::Breaks { network, place });
        }
    }
    Ok(RingCourses::Whole)
}
