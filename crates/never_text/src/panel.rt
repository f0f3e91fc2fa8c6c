//! The panel lines of a run.
ghost use Rattle.std.specs.Prelude.{◌≡◌, ◌<◌, ◌++◌, OnOk, string_bytes};
ghost use Rattle.std.specs.List.{flat_map, range_with_len};
ghost use Rattle.never_text.specs.Lines.{shown_line};

use field_machine::Shown;
use panel_line::{Reading, push_gone, push_stopped, readings_of, values_from};
use plant_types::ControllerPlan;
use std::alloc::{AllocError, Global};

/// Adds the line of a scan, which is counted from 0, of so many.
fn push_line(
    text: &mut String,
    node: u8,
    readings: &[Reading],
    shown: &Shown,
    scans: u32,
    scan: u32,
) -> Result<(), AllocError>
    requires { scan < scans }
    ensures { OnOk result (string_bytes text.new ≡ string_bytes text.old
        ++ shown_line node readings.now shown.now scans scan) }
{
    if shown.stop != 0 && scan + 1 == scans {
        return push_stopped(text, scans as usize, node, shown.stop);
    }
    let values = values_from(shown.values.as_slice(), scan as usize, readings.len());
    push_gone(text, scan + 1, node, false, readings, values)
}

/// Adds the lines of so many scans, by what their run shows.
pub(crate) fn push_panel(
    alloc: Global,
    text: &mut String,
    plan: &ControllerPlan,
    shown: &Shown,
    scans: u32,
) -> Result<(), AllocError>
    ensures { OnOk result (string_bytes text.new ≡ string_bytes text.old
        ++ flat_map (shown_line plan.now.node plan.now.panel shown.now scans)
        (range_with_len 0 scans)) }
{
    let readings = readings_of(alloc, plan.panel.as_slice())?;
    for scan in 0..scans {
        push_line(text, plan.node, readings.as_slice(), shown, scans, scan)?;
    }
    Ok(())
}
