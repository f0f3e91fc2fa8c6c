//! What is due for a session.
ghost use Rattle.std.specs.Prelude.{◌≡◌, ◌<◌, ◌^◌, IfOk, Some, length, option_map};
ghost use Rattle.controller_core.specs.Machine.{IsRunnable};
ghost use Rattle.joint_history.specs.JointLaws.{fixed_of};
ghost use Rattle.joint_history.specs.Runnable.{CanRunPlant};
ghost use Rattle.command_words.specs.Words.{IsNumberOfScans};
ghost use Rattle.command_answers.specs.Due.{IsDueWith, IsSessionDue, as_due, no_controller};
ghost use Rattle.command_answers.specs.Due.{plan_at};

use crate::answered::Answer;
use crate::status::Status;
use command_words::Command;
use panel_session::run_session;
use plant_types::{ControllerPlan, Plant};
use std::alloc::{AllocError, Global};

/// The plan with this node, if there is one.
pub(crate) fn plan_at(plans: &[ControllerPlan], node: u8) -> Option<&ControllerPlan>
    ensures { option_map (λ plan. plan.now) result ≡ plan_at node plans.now }
{
    plans.iter().find(|plan| plan.node == node)
}

/// The line that there is no controller with the node, with the status Refused.
pub(crate) fn no_controller(alloc: Global) -> Result<Answer, AllocError>
    ensures { IfOk result (λ answer. as_due answer ≡ no_controller) }
{
    let text = String::from_str(alloc, "refused 17 NoController session\n")?;
    Ok(Answer {
        status: Status::Refused,
        text: text.into_bytes(),
    })
}

/// The session of a controller of a plant.
fn bench_answer(
    alloc: Global,
    plant: &Plant,
    scans: u32,
    plan: &ControllerPlan,
    port: &[u8],
) -> Result<Answer, AllocError>
    requires scans { IsNumberOfScans scans }
    requires runs { IsRunnable (fixed_of plant.now scans plan.now) }
    requires short { length port.now < 2 ^ 32 }
    ensures { IfOk result (λ answer.
        IsSessionDue (Some plan.now) scans plant.now port.now (as_due answer)) }
{
    let (scan_time, watchdog) = (plant.scan_time, plant.watchdog);
    let session = run_session(alloc, plan, scan_time, watchdog, scans, port)?;
    Ok(Answer {
        status: Status::Ok,
        text: session.text,
    })
}

/// The answer to a session with a plant that is accepted.
pub(crate) fn answer_session(
    alloc: Global,
    node: u8,
    scans: u32,
    plant: &Plant,
    port: &[u8],
) -> Result<Answer, AllocError>
    requires scans { IsNumberOfScans scans }
    requires plant { CanRunPlant plant.now }
    requires short { length port.now < 2 ^ 32 }
    ensures { IfOk result (λ answer.
        IsDueWith (Command.Session node scans) plant.now port.now (as_due answer)) }
{
    match plan_at(plant.controllers.as_slice(), node) {
        Some(plan) => bench_answer(alloc, plant, scans, plan, port),
        None => no_controller(alloc),
    }
}
