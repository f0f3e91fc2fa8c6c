//! The lines of several controllers, scan by scan.
ghost use Rattle.std.specs.Prelude.{◌≡◌, ◌++◌, OnOk, fold, length, map, max, string_bytes};
ghost use Rattle.panel_text.specs.Scans.{by_scan, lines_noted, runs_noted, scan_lines};

use crate::lines::{lines_noted, push_line};
use controller_core::Notes;
use panel_line::Reading;
use plant_types::ControllerPlan;
use std::alloc::AllocError;

/// How many scans the longest run has.
fn longest(notes: &[Notes]) -> usize
    ensures { result ≡ fold max 0 (map lines_noted notes.now) }
{
    notes
        .iter()
        .fold(0, |most, of_one| most.max(lines_noted(of_one)))
}

/// Adds the lines of a scan, counted from 0: that of each controller that came so far.
fn push_scan(
    text: &mut String,
    scan: usize,
    plans: &[ControllerPlan],
    panels: &[Vec<Reading>],
    notes: &[Notes],
) -> Result<(), AllocError>
    requires count { length notes.now ≡ length plans.now }
    requires panels { map (λ panel. panel.items) panels.now ≡ map (λ plan. plan.panel) plans.now }
    ensures { OnOk result (string_bytes text.new ≡ string_bytes text.old
        ++ scan_lines (runs_noted plans.now notes.now) scan) }
{
    for (at, plan) in plans.iter().enumerate() {
        push_line(text, scan, plan, panels[at].as_slice(), &notes[at])?;
    }
    Ok(())
}

/// Adds the lines of all scans: of each scan that of each controller that came so far, by what it
/// noted. The only error is that memory ran out.
pub fn push_scans(
    text: &mut String,
    plans: &[ControllerPlan],
    panels: &[Vec<Reading>],
    notes: &[Notes],
) -> Result<(), AllocError>
    requires count { length notes.now ≡ length plans.now }
    requires panels { map (λ panel. panel.items) panels.now ≡ map (λ plan. plan.panel) plans.now }
    ensures { OnOk result (string_bytes text.new ≡ string_bytes text.old
        ++ by_scan (runs_noted plans.now notes.now)) }
{
    for scan in 0..longest(notes) {
        push_scan(text, scan, plans, panels, notes)?;
    }
    Ok(())
}
