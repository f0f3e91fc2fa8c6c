//! The answer to whether two controllers do the same.
ghost use Rattle.std.specs.Prelude.{◌≡◌, IfOk};
ghost use Rattle.controller_core.specs.Controller.{fixed_with};
ghost use Rattle.controller_core.specs.Machine.{IsRunnable};
ghost use Rattle.field_pair.specs.FieldMachine.{IsAlone};
ghost use Rattle.field_pair.specs.SideRuns.{TakeOneField};
ghost use Rattle.same_text.specs.Due.{IsSameDue};
ghost use Rattle.same_text.specs.Texts.{found_text};

use crate::lines::{push_brought, push_end};
use field_pair::{Apart, FoundPair, search_pair};
use never_text::{holds_text, limit_of, push_head, scan_count};
use plant_types::ControllerPlan;
use scan_order::kept_power_stays;
use std::alloc::{AllocError, Global};

/// What was found of all runs of two controllers side by side, with its text. This project's own.
#[derive(Drop)]
pub enum SameEnd {
    /// They do the same. The text is one line, `holds K`, or `holds K to D` with a depth; K counts
    /// pairs of states.
    Same(Vec<u8>),
    /// They are told apart after some scan. The text has a line `fails S`, a line `I <scan> <drop>
    /// <row>` for each input exchange of scans 1 to S, and the panel lines of scan S, the old
    /// controller's before the new one's. Rows are those of the old one's scripts. In a scan that
    /// stops a controller, exchanges that were due after the stop have their lines too.
    Differ(Vec<u8>),
}

/// The text where two controllers are told apart.
fn apart_text(
    alloc: Global,
    old: &ControllerPlan,
    new: &ControllerPlan,
    apart: &Apart,
) -> Result<Vec<u8>, AllocError>
    ensures { IfOk result (λ text. text.items ≡ found_text old.now new.now apart.now) }
{
    let brought = apart.brought.as_slice();
    let scans = scan_count(brought)?;
    let mut text = String::new(alloc);
    push_head(&mut text, scans)?;
    push_brought(&mut text, brought)?;
    push_end(alloc, &mut text, old, &apart.old, scans)?;
    push_end(alloc, &mut text, new, &apart.new, scans)?;
    Ok(text.into_bytes())
}

/// Looks at all runs of two controllers side by side, or at those of so many scans: whether they do
/// the same, and the text. A run that is told may be longer than a plant file lets one be.
pub fn same_answer(
    alloc: Global,
    old: &ControllerPlan,
    new: &ControllerPlan,
    scan_time: u32,
    old_watchdog: u32,
    new_watchdog: u32,
    depth: Option<u32>,
) -> Result<SameEnd, AllocError>
    requires old_runs { IsRunnable (fixed_with old.now scan_time old_watchdog 1) }
    requires new_runs { IsRunnable (fixed_with new.now scan_time new_watchdog 1) }
    requires old_alone { IsAlone old.now }
    requires new_alone { IsAlone new.now }
    requires panels { old.now.panel ≡ new.now.panel }
    requires drops { TakeOneField old.now.drops new.now.drops }
    ensures { IfOk result (IsSameDue (fixed_with old.now scan_time old_watchdog 1)
        (fixed_with new.now scan_time new_watchdog 1) depth) }
{
    kept_power_stays();
    let limit = limit_of(depth);
    match search_pair(
        alloc,
        old,
        new,
        scan_time,
        old_watchdog,
        new_watchdog,
        limit,
    )? {
        FoundPair::Same { pairs } => Ok(SameEnd::Same(holds_text(alloc, pairs, depth)?)),
        FoundPair::Differ(apart) => {
            let text = apart_text(alloc, old, new, &apart)?;
            Ok(SameEnd::Differ(text))
        }
    }
}
