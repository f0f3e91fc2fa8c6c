//! Two controllers put side by side.
ghost use Rattle.std.specs.Prelude.{◌≡◌, IfOk};
ghost use Rattle.controller_core.specs.Controller.{fixed_with};
ghost use Rattle.controller_core.specs.Machine.{IsRunnable};
ghost use Rattle.side_runs.specs.FieldSearch.{IsAlone};
ghost use Rattle.side_runs.specs.Laws.{with_drops};
ghost use Rattle.field_pair.specs.Pair.{IsPair};

use crate::exchanges::{choices_of_both, reads_of, ways_of};
use crate::pair::Pair;
use controller_core::Fixed;
use field_machine::{Asked, Field};
use plant_types::{ControllerPlan, Copied, Ref};
use std::alloc::{AllocError, Global};

/// The fixed part of a controller with the drops of a plan.
pub(crate) fn fixed_beside(
    alloc: Global,
    plan: &ControllerPlan,
    drops: &ControllerPlan,
    scan_time: u32,
    watchdog: u32,
) -> Result<Fixed, AllocError>
    ensures { IfOk result (λ fixed.
        fixed ≡ with_drops drops.now.drops (fixed_with plan.now scan_time watchdog 1)) }
{
    let mut plan = plan.copied(alloc)?;
    plan.drops = drops.drops.copied(alloc)?;
    Ok(Fixed {
        plan,
        scan_time,
        watchdog,
        scans: 1,
    })
}

/// A copy of the references of a panel.
fn panel_of(alloc: Global, plan: &ControllerPlan) -> Result<Vec<Ref>, AllocError>
    ensures { IfOk result (λ panel. panel.items ≡ plan.now.panel) }
{
    Vec::from_slice(alloc, plan.panel.as_slice())
}

/// The fields of two controllers, whose drops are those of the old one.
pub(crate) fn pair_of(alloc: Global, old: Fixed, new: Fixed) -> Result<Pair, AllocError>
    requires old_runs { IsRunnable old }
    requires new_runs { IsRunnable new }
    requires old_alone { IsAlone old.plan }
    requires new_alone { IsAlone new.plan }
    requires drops { new.plan.drops ≡ old.plan.drops }
    requires panels { old.plan.panel ≡ new.plan.panel }
    ensures old { IfOk result (λ pair. pair.old.fixed ≡ old) }
    ensures new { IfOk result (λ pair. pair.new.fixed ≡ new) }
    ensures pair { IfOk result IsPair }
{
    let choices = choices_of_both(alloc, &old.plan, &new.plan)?;
    let moves = ways_of(alloc, choices.as_slice())?;
    let old_reads = reads_of(alloc, &old.plan)?;
    let new_reads = reads_of(alloc, &new.plan)?;
    let panel = panel_of(alloc, &old.plan)?;
    let old = Field::new(alloc, old, Asked::Stopped)?;
    let new = Field::new(alloc, new, Asked::Stopped)?;
    let size = old.key_size();
    Ok(Pair {
        old,
        new,
        choices,
        moves,
        old_reads,
        new_reads,
        size,
        panel,
    })
}
