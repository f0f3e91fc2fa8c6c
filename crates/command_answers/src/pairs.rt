//! What is due for a primary and its standby.
ghost use Rattle.std.specs.Prelude.{◌<◌, ◌^◌, Contains, IfOk, Some, length};
ghost use Rattle.controller_core.specs.Machine.{IsRunnable};
ghost use Rattle.plant_types.specs.Plans.{IsFromTo, IsNetPlan, net_of};
ghost use Rattle.joint_history.specs.JointLaws.{fixed_of};
ghost use Rattle.joint_history.specs.Runnable.{CanRunPlant};
ghost use Rattle.command_words.specs.Words.{IsCommandInRange};
ghost use Rattle.command_answers.specs.Due.{IsDueWith, IsPairDue, as_due};

use crate::answered::Answer;
use crate::sessions::{no_controller, plan_at};
use crate::status::Status;
use command_words::Command;
use plant_types::{ControllerPlan, Plant};
use standby_pair::pair_run;
use std::alloc::{AllocError, Global};

/// What a controller of a plant writes as a primary that fails after a scan, and as its standby.
fn pair_answer(
    alloc: Global,
    plant: &Plant,
    fail: u32,
    scans: u32,
    plan: &ControllerPlan,
    port: &[u8],
) -> Result<Answer, AllocError>
    requires fails { IsFromTo 1 scans fail }
    requires runs { IsRunnable (fixed_of plant.now scans plan.now) }
    requires net { IsNetPlan (net_of plant.now plan.now.node) }
    requires member { Contains (net_of plant.now plan.now.node).members plan.now.node }
    requires short { length port.now < 2 ^ 32 }
    ensures { IfOk result (λ answer.
        IsPairDue (Some plan.now) fail scans plant.now port.now (as_due answer)) }
{
    let fates = plant.own_net(plan.node).fates.as_slice();
    let (scan_time, watchdog) = (plant.scan_time, plant.watchdog);
    let end = pair_run(alloc, plan, scan_time, watchdog, fates, port, fail, scans)?;
    Ok(Answer {
        status: Status::Ok,
        text: end.into_text().into_vec(),
    })
}

/// The answer to a primary and its standby with a plant that is accepted.
pub(crate) fn answer_standby(
    alloc: Global,
    node: u8,
    fail: u32,
    scans: u32,
    plant: &Plant,
    port: &[u8],
) -> Result<Answer, AllocError>
    requires command { IsCommandInRange (Command.Standby node fail scans) }
    requires plant { CanRunPlant plant.now }
    requires short { length port.now < 2 ^ 32 }
    ensures { IfOk result (λ answer.
        IsDueWith (Command.Standby node fail scans) plant.now port.now (as_due answer)) }
{
    match plan_at(plant.controllers.as_slice(), node) {
        Some(plan) => pair_answer(alloc, plant, fail, scans, plan, port),
        None => no_controller(alloc),
    }
}
