//! What is due where it is asked what a controller never comes to.
ghost use Rattle.std.specs.Prelude.{◌≡◌, IfOk, Some, true};
ghost use Rattle.plant_types.specs.Checks.{sizes_of};
ghost use Rattle.controller_core.specs.Machine.{IsRunnable};
ghost use Rattle.field_machine.specs.Alone.{is_alone};
ghost use Rattle.field_machine.specs.Asked.{CanBeAsked, can_ask};
ghost use Rattle.field_search.specs.Covered.{IsAlone};
ghost use Rattle.joint_history.specs.JointLaws.{fixed_of};
ghost use Rattle.joint_history.specs.Runnable.{CanRunPlant};
ghost use Rattle.command_answers.specs.Due.{IsNeverDue, IsSearched, as_due, asked_of, plan_at};
ghost use Rattle.command_answers.specs.Due.{never_no_controller, no_reference, not_alone};

use crate::answered::Answer;
use crate::sessions::plan_at;
use crate::status::Status;
use command_words::Question;
use field_machine::{Asked, can_be_asked, is_alone};
use never_text::{NeverEnd, never_answer};
use plant_types::{ControllerPlan, Plant};
use std::alloc::{AllocError, Global};

/// What a word asks, as the search of a field takes it.
fn asked_of(question: Question) -> Asked
    ensures { result ≡ asked_of question }
{
    match question {
        Question::On(at) => Asked::On(at),
        Question::Stop => Asked::Stopped,
    }
}

/// The line that there is no controller with the node, with the status Refused.
fn never_no_controller(alloc: Global) -> Result<Answer, AllocError>
    ensures { IfOk result (λ answer. as_due answer ≡ never_no_controller) }
{
    let text = String::from_str(alloc, "refused 17 NoController never\n")?;
    Ok(Answer {
        status: Status::Refused,
        text: text.into_bytes(),
    })
}

/// The line that the controller has power rows or message blocks, with the status Refused.
pub(crate) fn not_alone(alloc: Global, node: u8) -> Result<Answer, AllocError>
    ensures { IfOk result (λ answer. as_due answer ≡ not_alone node) }
{
    let text = format!(in alloc; "refused 19 NotAlone controller {node}\n")?;
    Ok(Answer {
        status: Status::Refused,
        text: text.into_bytes(),
    })
}

/// The line that the controller does not have the reference, with the status Refused.
fn no_reference(alloc: Global) -> Result<Answer, AllocError>
    ensures { IfOk result (λ answer. as_due answer ≡ no_reference) }
{
    let text = String::from_str(alloc, "refused 20 NoReference never\n")?;
    Ok(Answer {
        status: Status::Refused,
        text: text.into_bytes(),
    })
}

/// What a search of the field of a controller finds that is alone and can be asked.
fn found_answer(
    alloc: Global,
    plant: &Plant,
    plan: &ControllerPlan,
    asked: Asked,
    depth: Option<u32>,
) -> Result<Answer, AllocError>
    requires runs { IsRunnable (fixed_of plant.now 1 plan.now) }
    requires alone { IsAlone plan.now }
    requires asked { CanBeAsked (sizes_of plan.now) asked }
    ensures { IfOk result (λ answer.
        IsSearched true true (fixed_of plant.now 1 plan.now) asked depth (as_due answer)) }
{
    let (scan_time, watchdog) = (plant.scan_time, plant.watchdog);
    match never_answer(alloc, plan, scan_time, watchdog, asked, depth)? {
        NeverEnd::Holds(text) => Ok(Answer {
            status: Status::Ok,
            text,
        }),
        NeverEnd::Fails(text) => Ok(Answer {
            status: Status::Found,
            text,
        }),
    }
}

/// The answer to a question about a controller of a plant.
fn search_answer(
    alloc: Global,
    plant: &Plant,
    plan: &ControllerPlan,
    asked: Asked,
    depth: Option<u32>,
) -> Result<Answer, AllocError>
    requires runs { IsRunnable (fixed_of plant.now 1 plan.now) }
    ensures { IfOk result (λ answer. IsSearched (is_alone plan.now)
        (can_ask (sizes_of plan.now) asked) (fixed_of plant.now 1 plan.now) asked depth
        (as_due answer)) }
{
    if !is_alone(plan) {
        return not_alone(alloc, plan.node);
    }
    if !can_be_asked(plan, asked) {
        return no_reference(alloc);
    }
    found_answer(alloc, plant, plan, asked, depth)
}

/// The answer to what a controller never comes to with a plant that is accepted.
pub(crate) fn answer_never(
    alloc: Global,
    node: u8,
    asked: Question,
    depth: Option<u32>,
    plant: &Plant,
) -> Result<Answer, AllocError>
    requires plant { CanRunPlant plant.now }
    ensures { IfOk result (λ answer.
        IsNeverDue (plan_at node plant.now.controllers) (asked_of asked) depth plant.now
        (as_due answer)) }
{
    match plan_at(plant.controllers.as_slice(), node) {
        Some(plan) => search_answer(alloc, plant, plan, asked_of(asked), depth),
        None => never_no_controller(alloc),
    }
}
