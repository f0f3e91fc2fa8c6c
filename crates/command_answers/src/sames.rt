//! What is due where it is asked whether two controllers do the same.
ghost use Rattle.std.specs.Prelude.{◌≡◌, IfOk, None, true};
ghost use Rattle.controller_core.specs.Machine.{IsRunnable};
ghost use Rattle.field_machine.specs.Alone.{is_alone};
ghost use Rattle.field_pair.specs.Alike.{IsFirstDifference};
ghost use Rattle.field_search.specs.Covered.{IsAlone};
ghost use Rattle.joint_history.specs.JointLaws.{fixed_of};
ghost use Rattle.joint_history.specs.Runnable.{CanRunPlant};
ghost use Rattle.plant_loader.specs.Plant.{plant_of};
ghost use Rattle.command_answers.specs.Due.{IsBeside, IsBesideAlone, IsBesideAt, IsCompared};
ghost use Rattle.command_answers.specs.Due.{IsSameDue, as_due, new_not_alone, no_new_controller};
ghost use Rattle.command_answers.specs.Due.{no_old_controller, not_alike, plan_at, refused_new};

use crate::answered::Answer;
use crate::nevers::not_alone;
use crate::sessions::plan_at;
use crate::status::Status;
use field_machine::is_alone;
use field_pair::{Difference, first_difference};
use plant_loader::{LoadEnd, Version, load};
use plant_types::{ControllerPlan, Place, Plant, PlantFault};
use same_text::{SameEnd, same_answer};
use std::alloc::{AllocError, Global};

/// The line that names a fault of the new plant and its place, with the status Refused.
fn refused_new(alloc: Global, fault: PlantFault, place: Place) -> Result<Answer, AllocError>
    ensures { IfOk result (λ answer. as_due answer ≡ refused_new (fault, place)) }
{
    let text = format!(in alloc; "refused {fault} new {place}\n")?;
    Ok(Answer {
        status: Status::Refused,
        text: text.into_bytes(),
    })
}

/// The line that the old plant has no controller with the node, with the status Refused.
fn no_old_controller(alloc: Global) -> Result<Answer, AllocError>
    ensures { IfOk result (λ answer. as_due answer ≡ no_old_controller) }
{
    let text = String::from_str(alloc, "refused 17 NoController same\n")?;
    Ok(Answer {
        status: Status::Refused,
        text: text.into_bytes(),
    })
}

/// The line that the new plant has no controller with the node, with the status Refused.
fn no_new_controller(alloc: Global) -> Result<Answer, AllocError>
    ensures { IfOk result (λ answer. as_due answer ≡ no_new_controller) }
{
    let text = String::from_str(alloc, "refused 17 NoController new same\n")?;
    Ok(Answer {
        status: Status::Refused,
        text: text.into_bytes(),
    })
}

/// The line that the new controller has power rows or message blocks, with the status Refused.
fn new_not_alone(alloc: Global, node: u8) -> Result<Answer, AllocError>
    ensures { IfOk result (λ answer. as_due answer ≡ new_not_alone node) }
{
    let text = format!(in alloc; "refused 19 NotAlone new controller {node}\n")?;
    Ok(Answer {
        status: Status::Refused,
        text: text.into_bytes(),
    })
}

/// The line of the first thing in which two controllers differ, with the status Refused.
fn not_alike(alloc: Global, difference: Difference) -> Result<Answer, AllocError>
    ensures { IfOk result (λ answer. as_due answer ≡ not_alike difference) }
{
    let text = match difference {
        Difference::Panel => String::from_str(alloc, "refused 21 NotAlike panel\n")?,
        Difference::ScanTime => String::from_str(alloc, "refused 21 NotAlike scan_time\n")?,
        Difference::Drop(number) => format!(in alloc; "refused 21 NotAlike drop {number}\n")?,
    };
    Ok(Answer {
        status: Status::Refused,
        text: text.into_bytes(),
    })
}

/// What is found of two controllers that take one field.
fn found_answer(
    alloc: Global,
    plant: &Plant,
    new_plant: &Plant,
    old: &ControllerPlan,
    new: &ControllerPlan,
    depth: Option<u32>,
) -> Result<Answer, AllocError>
    requires old_runs { IsRunnable (fixed_of plant.now 1 old.now) }
    requires new_runs { IsRunnable (fixed_of new_plant.now 1 new.now) }
    requires old_alone { IsAlone old.now }
    requires new_alone { IsAlone new.now }
    requires alike { IsFirstDifference old.now new.now plant.now.scan_time
        new_plant.now.scan_time None }
    ensures { IfOk result (λ answer. IsCompared None (fixed_of plant.now 1 old.now)
        (fixed_of new_plant.now 1 new.now) depth (as_due answer)) }
{
    let (old_watchdog, new_watchdog) = (plant.watchdog, new_plant.watchdog);
    let scan_time = plant.scan_time;
    match same_answer(
        alloc,
        old,
        new,
        scan_time,
        old_watchdog,
        new_watchdog,
        depth,
    )? {
        SameEnd::Same(text) => Ok(Answer {
            status: Status::Ok,
            text,
        }),
        SameEnd::Differ(text) => Ok(Answer {
            status: Status::Found,
            text,
        }),
    }
}

/// The answer for two controllers that are alone.
fn compared_answer(
    alloc: Global,
    plant: &Plant,
    new_plant: &Plant,
    old: &ControllerPlan,
    new: &ControllerPlan,
    depth: Option<u32>,
) -> Result<Answer, AllocError>
    requires old_runs { IsRunnable (fixed_of plant.now 1 old.now) }
    requires new_runs { IsRunnable (fixed_of new_plant.now 1 new.now) }
    requires old_alone { IsAlone old.now }
    requires new_alone { IsAlone new.now }
    ensures { IfOk result (λ answer. IsBeside (fixed_of plant.now 1 old.now)
        (fixed_of new_plant.now 1 new.now) depth (as_due answer)) }
{
    let (old_time, new_time) = (plant.scan_time, new_plant.scan_time);
    match first_difference(alloc, old, new, old_time, new_time)? {
        Some(difference) => not_alike(alloc, difference),
        None => found_answer(alloc, plant, new_plant, old, new, depth),
    }
}

/// The answer for a controller of an old plant and one of a new plant.
fn beside_answer(
    alloc: Global,
    plant: &Plant,
    new_plant: &Plant,
    old: &ControllerPlan,
    new: &ControllerPlan,
    depth: Option<u32>,
) -> Result<Answer, AllocError>
    requires old_runs { IsRunnable (fixed_of plant.now 1 old.now) }
    requires new_runs { IsRunnable (fixed_of new_plant.now 1 new.now) }
    ensures { IfOk result (λ answer. IsBesideAlone (is_alone old.now) (is_alone new.now)
        (fixed_of plant.now 1 old.now) (fixed_of new_plant.now 1 new.now) depth
        (as_due answer)) }
{
    if !is_alone(old) {
        return not_alone(alloc, old.node);
    }
    if !is_alone(new) {
        return new_not_alone(alloc, new.node);
    }
    compared_answer(alloc, plant, new_plant, old, new, depth)
}

/// The answer for a node of an old plant and of a new one.
fn same_at(
    alloc: Global,
    node: u8,
    depth: Option<u32>,
    plant: &Plant,
    new_plant: &Plant,
) -> Result<Answer, AllocError>
    requires old { CanRunPlant plant.now }
    requires new { CanRunPlant new_plant.now }
    ensures { IfOk result (λ answer. IsBesideAt (plan_at node plant.now.controllers)
        (plan_at node new_plant.now.controllers) plant.now new_plant.now depth (as_due answer)) }
{
    match plan_at(plant.controllers.as_slice(), node) {
        Some(old) => match plan_at(new_plant.controllers.as_slice(), node) {
            Some(new) => beside_answer(alloc, plant, new_plant, old, new, depth),
            None => no_new_controller(alloc),
        },
        None => no_old_controller(alloc),
    }
}

/// The answer to whether two controllers do the same, with an old plant that is accepted and the
/// file of a new one.
pub(crate) fn answer_same(
    alloc: Global,
    node: u8,
    depth: Option<u32>,
    plant: &Plant,
    file: &[u8],
) -> Result<Answer, AllocError>
    requires plant { CanRunPlant plant.now }
    ensures { IfOk result (λ answer.
        IsSameDue node depth plant.now (plant_of Version.Two file.now) (as_due answer)) }
{
    match load(alloc, Version::Two, file) {
        Ok(new_plant) => same_at(alloc, node, depth, plant, &new_plant),
        Err(LoadEnd::Refused(fault, place)) => refused_new(alloc, fault, place),
        Err(LoadEnd::NoMemory) => Err(AllocError),
    }
}
