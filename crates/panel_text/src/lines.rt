//! The panel lines of a controller, by what it noted.
ghost use Rattle.std.specs.Prelude.{◌≡◌, ◌++◌, [], get_or, OnOk, string_bytes};
ghost use Rattle.controller_core.specs.NotedLines.{noted_lines};
ghost use Rattle.panel_text.specs.Scans.{lines_noted};

use controller_core::Notes;
use panel_line::{Reading, push_gone, push_stopped, values_from};
use plant_types::ControllerPlan;
use scan_order::power_in;
use std::alloc::AllocError;

/// How many lines a controller has.
pub(crate) fn lines_noted(notes: &Notes) -> usize
    ensures { result ≡ lines_noted notes.now }
{
    let gone = notes.gone as usize;
    if notes.stop == 0 { gone } else { gone + 1 }
}

/// Adds the line of a scan, which is counted from 0, if the controller came so far.
pub(crate) fn push_line(
    text: &mut String,
    scan: usize,
    plan: &ControllerPlan,
    readings: &[Reading],
    notes: &Notes,
) -> Result<(), AllocError>
    requires { readings.now ≡ plan.now.panel }
    ensures { OnOk result (string_bytes text.new ≡ string_bytes text.old
        ++ get_or (noted_lines plan.now notes.now) scan []) }
{
    let gone = notes.gone as usize;
    if scan < gone {
        let number = scan as u32 + 1;
        let is_off = power_in(plan, number).ends_off();
        let values = values_from(notes.values.as_slice(), scan, readings.len());
        return push_gone(text, number, plan.node, is_off, readings, values);
    }
    let lines = lines_noted(notes);
    if scan < lines {
        return push_stopped(text, scan + 1, plan.node, notes.stop);
    }
    Ok(())
}
