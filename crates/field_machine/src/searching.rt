//! What a search of a field finds.
ghost use Rattle.std.specs.Prelude.{IfOk};
ghost use Rattle.plant_types.specs.Checks.{sizes_of};
ghost use Rattle.controller_core.specs.Controller.{fixed_with};
ghost use Rattle.controller_core.specs.Machine.{IsRunnable};
ghost use Rattle.field_search.specs.Covered.{IsAlone};
ghost use Rattle.field_machine.specs.Asked.{CanBeAsked};
ghost use Rattle.field_machine.specs.Never.{IsFoundIn};

use crate::asked::Asked;
use crate::field::Field;
use crate::narrowed::Narrowed;
use crate::work::Work;
use controller_core::Fixed;
use field_search::{covers_hold_in_the_field, covers_reach_all, paths_are_runs};
use plant_types::{ControllerPlan, Copied};
use state_space::{Answer, explore};
use std::alloc::{AllocError, Global};

/// What a search of all runs of a field found. This project's own.
#[derive(Drop)]
pub enum Found {
    /// It is never so. No two of so many states are alike in what can matter, and for each of them a
    /// run comes to a state that is alike it in that.
    Holds { states: usize },
    /// It is so behind as many scans as there are here, in which the field brings rows in these ways,
    /// and behind no fewer.
    Fails { ways: Vec<usize> },
}

/// Looks at all runs of the field of a controller that is alone, or at those of so many scans.
pub fn search_field(
    alloc: Global,
    plan: &ControllerPlan,
    scan_time: u32,
    watchdog: u32,
    asked: Asked,
    limit: Option<usize>,
) -> Result<Found, AllocError>
    requires runs { IsRunnable (fixed_with plan.now scan_time watchdog 1) }
    requires alone { IsAlone plan.now }
    requires asked { CanBeAsked (sizes_of plan.now) asked }
    ensures { IfOk result (IsFoundIn (fixed_with plan.now scan_time watchdog 1) asked limit) }
{
    let fixed = Fixed {
        plan: plan.copied(alloc)?,
        scan_time,
        watchdog,
        scans: 1,
    };
    let mut work = Work::new(alloc, &fixed.plan)?;
    let field = Field::new(alloc, fixed, asked)?;
    let narrowed = Narrowed::new(alloc, field)?;
    covers_hold_in_the_field();
    covers_reach_all();
    paths_are_runs();
    match explore(alloc, &narrowed, &mut work, limit)? {
        Answer::Holds { states } => Ok(Found::Holds { states }),
        Answer::Fails { path } => Ok(Found::Fails { ways: path }),
    }
}
