//! The calls of a controller that nobody answers.
ghost use Rattle.std.specs.Prelude.{◌≡◌, OnErr, OnOk};
ghost use Rattle.panel_session.specs.Scanning.{after_calls, HasBegunGivingUp};

use controller_core::{Controller, calls_follow};
use ladder_solver::segments_keep_calls;
use mstr_block::{MstrResult, NOBODY_THERE, calls_are_taken_in_order, stays_table};
use std::alloc::AllocError;

/// Collects the calls that were started, if there are any, and ends each.
pub(crate) fn give_up_calls(controller: &mut Controller) -> Result<(), AllocError>
    ensures ok { OnOk result (controller.new ≡ after_calls controller.old) }
    ensures err { OnErr result (HasBegunGivingUp controller.old controller.new) }
{
    if !controller.has_started() {
        return Ok(());
    }
    segments_keep_calls();
    calls_are_taken_in_order();
    stays_table();
    calls_follow();
    let calls = controller.collect()?;
    for call in calls.as_slice() {
        controller.finish(call.id, MstrResult::Bad(NOBODY_THERE))?;
    }
    Ok(())
}
