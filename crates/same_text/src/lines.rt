//! The lines of two runs that are told apart.
ghost use Rattle.std.specs.Prelude.{◌≡◌, ◌++◌, OnOk, string_bytes};
ghost use Rattle.field_pair.specs.Same.{listed};
ghost use Rattle.same_text.specs.Texts.{brought_lines, end_line};

use field_pair::{Exchange, PanelEnd};
use never_text::push_scan;
use panel_line::{push_gone, push_stopped, readings_of};
use plant_types::ControllerPlan;
use std::alloc::{AllocError, Global};

/// Adds the lines of the input exchanges of scans.
pub(crate) fn push_brought(text: &mut String, brought: &[Vec<Exchange>]) -> Result<(), AllocError>
    ensures { OnOk result (string_bytes text.new ≡ string_bytes text.old
        ++ brought_lines (listed brought.now)) }
{
    for (index, exchanges) in brought.iter().enumerate() {
        push_scan(text, index + 1, exchanges.as_slice())?;
    }
    Ok(())
}

/// Adds the panel line of a scan, by what the panel shows at its end.
pub(crate) fn push_end(
    alloc: Global,
    text: &mut String,
    plan: &ControllerPlan,
    end: &PanelEnd,
    scan: u32,
) -> Result<(), AllocError>
    ensures { OnOk result (string_bytes text.new ≡ string_bytes text.old
        ++ end_line plan.now end.now scan) }
{
    if end.stop != 0 {
        return push_stopped(text, scan as usize, plan.node, end.stop);
    }
    let readings = readings_of(alloc, plan.panel.as_slice())?;
    let values = end.values.as_slice();
    push_gone(text, scan, plan.node, false, readings.as_slice(), values)
}
