//! The judge.
ghost use Rattle.std.specs.Prelude.{◌≡◌, ◌+◌, ◌↔◌, IfOk};
ghost use Rattle.plant_types.specs.Plans.{IsPlant};
ghost use Rattle.joint_history.specs.JointLaws.{IsLegalJoint};
ghost use Rattle.route_laws.specs.Effects.{EffectsAreRight};
ghost use Rattle.joint_law.specs.AllComplete.{IsFollowed};
ghost use Rattle.joint_law.specs.AllCourses.{AreDone, AreHostsDone, AreWholeCourses};
ghost use Rattle.joint_law.specs.Judgements.{HasNotes, IsJudgement, verdict_of};
ghost use Rattle.joint_law.specs.Spots.{AreLegalBridgeLogs, AreLegalHostLogs, AreLegalLogs};
ghost use Rattle.joint_law.specs.Spots.{CanBeJudged, HasSections, IsFirstSpot, IsVerdict};
ghost use Rattle.joint_law.specs.Spots.{IsWholeRun};

use crate::complete::{Followed, first_incomplete};
use crate::courses::{
    BridgeCourses, ControllerCourses, HostCourses, RingCourses, bridges_course, controllers_course,
    hosts_course, rings_course,
};
use crate::law_spots::{laws_spot, number};
use crate::on_rings::{OnRings, own_on_each};
use crate::sections::has_sections;
use crate::verdict::{Judgement, Spot, Verdict};
use controller_core::{Notes, fronts_are_legal};
use joint_history::Joint;
use plant_types::{List, Plant};
use route_laws::effects_are_right;
use std::alloc::{AllocError, Global};

/// The spot of the entry of a bridge at a place, counted from 0.
fn bridge_spot(left: u8, place: usize) -> Result<Spot, AllocError>
    ensures { IfOk result (λ spot. spot ≡ Spot.Bridge left (place + 1)) }
{
    let entry = number(place)?;
    Ok(Spot::Bridge { left, entry })
}

/// The spot of the entry of a network's ring at a place, counted from 0.
fn ring_spot(network: u8, place: usize) -> Result<Spot, AllocError>
    ensures { IfOk result (λ spot. spot ≡ Spot.Ring network (place + 1)) }
{
    let entry = number(place)?;
    Ok(Spot::Ring { network, entry })
}

/// The first spot of legal lists: a law between them that is broken, or a node of which a station
/// or an end of a bridge was not done.
fn spot_from_laws(
    alloc: Global,
    plant: &Plant,
    joint: &Joint,
    scans: u32,
    followed: Followed,
) -> Result<Option<Spot>, AllocError>
    requires sound { IsPlant plant.now }
    requires legal { IsLegalJoint plant.now scans joint.now }
    requires followed { IsFollowed plant.now scans joint.now followed }
    ensures { IfOk result (IsFirstSpot plant.now scans joint.now) }
{
    let rings = joint.rings.as_slice();
    let own = own_on_each(alloc, rings)?;
    let on = OnRings {
        rings,
        own: own.as_slice(),
    };
    if let Some(spot) = laws_spot(alloc, joint, on)? {
        return Ok(Some(spot));
    }
    match first_incomplete(alloc, plant, joint, on, scans, followed)? {
        Some(node) => Ok(Some(Spot::Incomplete(node))),
        None => Ok(None),
    }
}

/// The first spot of legal lists of all stations and bridges: in a ring's list, or after those.
fn spot_from_rings(
    alloc: Global,
    plant: &Plant,
    joint: &Joint,
    scans: u32,
    done: &List<bool>,
    hosts_done: &List<bool>,
) -> Result<Option<Spot>, AllocError>
    requires sound { IsPlant plant.now }
    requires sections { HasSections plant.now joint.now }
    requires legal { AreLegalLogs plant.now scans joint.now }
    requires hosts_legal { AreLegalHostLogs plant.now joint.now }
    requires bridges_legal { AreLegalBridgeLogs plant.now joint.now }
    requires done { AreDone plant.now scans joint.now done.now }
    requires hosts { AreHostsDone plant.now joint.now hosts_done.now }
    ensures { IfOk result (IsFirstSpot plant.now scans joint.now) }
{
    match rings_course(alloc, plant, joint, scans)? {
        RingCourses::Breaks { network, place } => {
            let spot = ring_spot(network, place)?;
            Ok(Some(spot))
        }
        RingCourses::Whole => {
            let followed = Followed {
                done: done.as_slice(),
                hosts_done: hosts_done.as_slice(),
            };
            spot_from_laws(alloc, plant, joint, scans, followed)
        }
    }
}

/// The first spot of legal lists of all stations: in a bridge's list, or after those.
fn spot_from_bridges(
    alloc: Global,
    plant: &Plant,
    joint: &Joint,
    scans: u32,
    done: &List<bool>,
    hosts_done: &List<bool>,
) -> Result<Option<Spot>, AllocError>
    requires sound { IsPlant plant.now }
    requires sections { HasSections plant.now joint.now }
    requires legal { AreLegalLogs plant.now scans joint.now }
    requires hosts_legal { AreLegalHostLogs plant.now joint.now }
    requires done { AreDone plant.now scans joint.now done.now }
    requires hosts { AreHostsDone plant.now joint.now hosts_done.now }
    ensures { IfOk result (IsFirstSpot plant.now scans joint.now) }
{
    match bridges_course(alloc, plant, joint, scans)? {
        BridgeCourses::Breaks { left, place } => {
            let spot = bridge_spot(left, place)?;
            Ok(Some(spot))
        }
        BridgeCourses::Whole => spot_from_rings(alloc, plant, joint, scans, done, hosts_done),
    }
}

/// The first spot of legal lists of the controllers: in a host's list, or after those.
fn spot_from_hosts(
    alloc: Global,
    plant: &Plant,
    joint: &Joint,
    scans: u32,
    done: &List<bool>,
) -> Result<Option<Spot>, AllocError>
    requires judged { CanBeJudged plant.now scans }
    requires sections { HasSections plant.now joint.now }
    requires legal { AreLegalLogs plant.now scans joint.now }
    requires done { AreDone plant.now scans joint.now done.now }
    ensures { IfOk result (IsFirstSpot plant.now scans joint.now) }
{
    match hosts_course(alloc, plant, joint, scans)? {
        HostCourses::Breaks { node, place } => {
            let entry = number(place)?;
            Ok(Some(Spot::Host { node, entry }))
        }
        HostCourses::Whole(hosts_done) => {
            spot_from_bridges(alloc, plant, joint, scans, done, &hosts_done)
        }
    }
}

/// Judges lists of which those of the controllers are legal.
fn judge_others(
    alloc: Global,
    plant: &Plant,
    joint: &Joint,
    scans: u32,
    done: &List<bool>,
    notes: List<Notes>,
) -> Result<Judgement, AllocError>
    requires judged { CanBeJudged plant.now scans }
    requires sections { HasSections plant.now joint.now }
    requires controllers { AreWholeCourses plant.now scans joint.now done.now notes }
    ensures { IfOk result (IsJudgement plant.now scans joint.now) }
{
    match spot_from_hosts(alloc, plant, joint, scans, done)? {
        Some(spot) => Ok(Judgement::Illegal(spot)),
        None => Ok(Judgement::Legal(notes)),
    }
}

/// Judges lists of a plant's stations.
fn judge_stations(
    alloc: Global,
    plant: &Plant,
    joint: &Joint,
    scans: u32,
) -> Result<Judgement, AllocError>
    requires judged { CanBeJudged plant.now scans }
    requires sections { HasSections plant.now joint.now }
    ensures { IfOk result (IsJudgement plant.now scans joint.now) }
{
    match controllers_course(alloc, plant, joint, scans)? {
        ControllerCourses::Breaks { node, place } => {
            let entry = number(place)?;
            Ok(Judgement::Illegal(Spot::Controller { node, entry }))
        }
        ControllerCourses::Whole { done, notes } => {
            judge_others(alloc, plant, joint, scans, &done, notes)
        }
    }
}

/// Judges a joint history.
fn judge_lists(
    alloc: Global,
    plant: &Plant,
    joint: &Joint,
    scans: u32,
) -> Result<Judgement, AllocError>
    requires { CanBeJudged plant.now scans }
    ensures { IfOk result (IsJudgement plant.now scans joint.now) }
{
    if !has_sections(plant, joint) {
        return Ok(Judgement::Illegal(Spot::Sections));
    }
    judge_stations(alloc, plant, joint, scans)
}

/// Judges a joint history as `judge` does. Where it is Legal it hands over what each controller
/// noted of its panel, so that nobody need follow the lists again. Takes time and memory in
/// proportion to the history.
pub fn judge_noted(
    alloc: Global,
    plant: &Plant,
    joint: &Joint,
    scans: u32,
) -> Result<Judgement, AllocError>
    requires { CanBeJudged plant.now scans }
    ensures verdict { IfOk result
        (λ made. IsVerdict plant.now scans joint.now (verdict_of made)) }
    ensures exact { IfOk result
        (λ made. (verdict_of made ≡ Verdict.Legal) ↔ IsWholeRun plant.now scans joint.now) }
    ensures effects { IfOk result
        (λ made. verdict_of made ≡ Verdict.Legal → EffectsAreRight joint.now) }
    ensures notes { IfOk result (HasNotes plant.now joint.now) }
{
    fronts_are_legal();
    effects_are_right();
    judge_lists(alloc, plant, joint, scans)
}

/// Judges a joint history: Legal where its lists are those of the plant's stations, bridges and
/// networks, legal for so many scans, keep the laws between them and are complete; else it names
/// the first spot. Where it is Legal each call takes effect at its target at most once, and once if
/// it reports success. Takes time and memory in proportion to the history.
pub fn judge(alloc: Global, plant: &Plant, joint: &Joint, scans: u32) -> Result<Verdict, AllocError>
    requires { CanBeJudged plant.now scans }
    ensures verdict { IfOk result (IsVerdict plant.now scans joint.now) }
    ensures exact { IfOk result
        (λ verdict. (verdict ≡ Verdict.Legal) ↔ IsWholeRun plant.now scans joint.now) }
    ensures effects { IfOk result
        (λ verdict. verdict ≡ Verdict.Legal → EffectsAreRight joint.now) }
{
    match judge_noted(alloc, plant, joint, scans)? {
        Judgement::Legal(_) => Ok(Verdict::Legal),
        Judgement::Illegal(spot) => Ok(Verdict::Illegal(spot)),
    }
}
