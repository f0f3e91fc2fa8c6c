//! What controllers noted, by their logs: their events are made again, one after another.
ghost use Rattle.std.specs.Prelude.{◌≡◌, [], length, IfOk, OnOk, map};
ghost use Rattle.std.specs.List.{AllByRecursion, zip};
ghost use Rattle.controller_core.specs.Controller.{IsLegal};
ghost use Rattle.controller_core.specs.Following.{MayFollow};
ghost use Rattle.joint_history.specs.Noted.{notes_by_log};
ghost use Rattle.panel_text.specs.Panel.{CanShow, HasMade};

use controller_core::{Controller, Entry, Notes, fronts_are_legal};
use joint_history::ControllerLog;
use plant_types::{ControllerPlan, MOST_SCANS, Plant};
use std::alloc::{AllocError, Global};

/// Makes an event again.
fn make_again(controller: &mut Controller, entry: &Entry) -> Result<(), AllocError>
    requires { MayFollow controller.old entry.now }
    ensures { OnOk result (HasMade entry.now controller.old controller.new) }
{
    controller.follow(entry)?;
    Ok(())
}

/// Makes all events of a log again.
fn follow_all(controller: &mut Controller, entries: &[Entry]) -> Result<(), AllocError>
    requires fresh { controller.old.history ≡ [] }
    requires legal { IsLegal controller.old.fixed entries.now }
    ensures fixed { OnOk result (controller.new.fixed ≡ controller.old.fixed) }
    ensures history { OnOk result (controller.new.history ≡ entries.now) }
{
    fronts_are_legal();
    for entry in entries {
        make_again(controller, entry)?;
    }
    Ok(())
}

/// What a controller noted, by its log.
fn notes_by_log(
    alloc: Global,
    plant: &Plant,
    plan: &ControllerPlan,
    log: &ControllerLog,
) -> Result<Notes, AllocError>
    requires { CanShow plant.now (plan.now, log.now) }
    ensures { IfOk result (λ notes. notes ≡ notes_by_log plant.now (plan.now, log.now)) }
{
    let (scan_time, watchdog) = (plant.scan_time, plant.watchdog);
    let mut controller = Controller::new(alloc, plan, scan_time, watchdog, MOST_SCANS)?;
    follow_all(&mut controller, log.entries.as_slice())?;
    let (_, notes) = controller.into_parts();
    Ok(notes)
}

/// What each controller of a plant noted, by its log.
pub(crate) fn notes_by_logs(
    alloc: Global,
    plant: &Plant,
    logs: &[ControllerLog],
) -> Result<Vec<Notes>, AllocError>
    requires count { length logs.now ≡ length plant.now.controllers }
    requires logs { AllByRecursion (CanShow plant.now) (zip plant.now.controllers logs.now) }
    ensures { IfOk result (λ notes. notes.items
        ≡ map (notes_by_log plant.now) (zip plant.now.controllers logs.now)) }
{
    let plans = plant.controllers.as_slice();
    let mut notes = Vec::new(alloc);
    for (at, log) in logs.iter().enumerate() {
        notes.push(notes_by_log(alloc, plant, &plans[at], log)?)?;
    }
    Ok(notes)
}
