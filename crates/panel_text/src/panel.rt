//! The panel of a plant.
ghost use Rattle.std.specs.Prelude.{◌≡◌, ◌++◌, IfOk, OnOk, map, string_bytes};
ghost use Rattle.std.specs.List.{AllByRecursion, flat_map};
ghost use Rattle.joint_history.specs.JointLaws.{IsLegalJoint, most_scans};
ghost use Rattle.joint_history.specs.Noted.{notes_in};
ghost use Rattle.joint_history.specs.Runnable.{CanRunPlant};
ghost use Rattle.panel_text.specs.Hosts.{host_lines};
ghost use Rattle.panel_text.specs.Panel.{IsHostLog, panel};

use crate::following::notes_by_logs;
use crate::hosts::push_host;
use crate::scans::push_scans;
use controller_core::{Notes, notes_tell_the_lines};
use joint_history::{HostLog, Joint};
use panel_line::{Reading, readings_of};
use plant_types::{ControllerPlan, Plant};
use std::alloc::{AllocError, Global};

/// The references of each controller's panel, as they are written. The only error is that memory ran
/// out.
pub fn panels_of(alloc: Global, plans: &[ControllerPlan]) -> Result<Vec<Vec<Reading>>, AllocError>
    ensures { IfOk result (λ panels.
        map (λ panel. panel.items) panels.items ≡ map (λ plan. plan.panel) plans.now) }
{
    let mut panels = Vec::new(alloc);
    for plan in plans {
        panels.push(readings_of(alloc, plan.panel.as_slice())?)?;
    }
    Ok(panels)
}

/// Adds the lines of each host.
fn push_hosts(alloc: Global, text: &mut String, logs: &[HostLog]) -> Result<(), AllocError>
    requires { AllByRecursion IsHostLog logs.now }
    ensures { OnOk result (string_bytes text.new ≡ string_bytes text.old
        ++ flat_map (λ log. host_lines log.node log.entries) logs.now) }
{
    for log in logs {
        push_host(alloc, text, log.node, log.entries.as_slice())?;
    }
    Ok(())
}

/// The panel of a plant by what its hosts noted in their lists, and by what its controllers noted
/// of their panels, one after another in rising address; no scan is made again. The text is that
/// of `panel_text`.
pub fn panel_from_notes(
    alloc: Global,
    plant: &Plant,
    joint: &Joint,
    notes: &[Notes],
) -> Result<Vec<u8>, AllocError>
    requires joint { IsLegalJoint plant.now most_scans joint.now }
    requires notes { notes.now ≡ notes_in plant.now joint.now }
    ensures { IfOk result (λ text. text.items ≡ panel plant.now joint.now) }
{
    notes_tell_the_lines();
    let plans = plant.controllers.as_slice();
    let panels = panels_of(alloc, plans)?;
    let mut text = String::new(alloc);
    push_scans(&mut text, plans, panels.as_slice(), notes)?;
    push_hosts(alloc, &mut text, joint.hosts.as_slice())?;
    Ok(text.into_bytes())
}

/// The panel of a plant by what its stations noted: scan by scan a line of each controller in
/// rising address, with the values of its panel or the code with which it stopped; and then a
/// line of each request of each host, with the reply or the error word in hexadecimal digits.
/// A request that came to nothing yet has no line. The scans are made again, as the lists of the
/// controllers say.
pub fn panel_text(alloc: Global, plant: &Plant, joint: &Joint) -> Result<Vec<u8>, AllocError>
    requires plant { CanRunPlant plant.now }
    requires joint { IsLegalJoint plant.now most_scans joint.now }
    ensures { IfOk result (λ text. text.items ≡ panel plant.now joint.now) }
{
    let notes = notes_by_logs(alloc, plant, joint.controllers.as_slice())?;
    panel_from_notes(alloc, plant, joint, notes.as_slice())
}
