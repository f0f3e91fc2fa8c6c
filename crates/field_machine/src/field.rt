//! The field of a controller that is alone.
ghost use Rattle.std.specs.Prelude.{◌≡◌, ◌%◌, true, IfOk};
ghost use Rattle.plant_types.specs.Checks.{sizes_of};
ghost use Rattle.controller_core.specs.Machine.{IsRunnable};
ghost use Rattle.field_search.specs.Covered.{IsAlone};
ghost use Rattle.field_machine.specs.Asked.{can_ask, CanBeAsked};

use crate::asked::Asked;
use crate::choices::{choices_of, product};
use crate::counters::counters_of;
use controller_core::Fixed;
use ladder_solver::BlockPlace;
use plant_types::{ControllerPlan, Copied};
use std::alloc::{AllocError, Global};
use traffic_cop::Cop;

/// A controller that is alone, with all that its field may bring, and what it is asked. This
/// project's own.
pub struct Field {
    pub(crate) fixed: Fixed,
    pub(crate) cop: Cop,
    /// How many rows the field has for each row of the order of solve.
    pub(crate) choices: Vec<u32>,
    /// In how many ways it can bring rows in a scan.
    pub(crate) moves: usize,
    pub(crate) counters: Vec<BlockPlace>,
    pub(crate) asked: Asked,
    ghost whole_coils: { fixed.plan.coils % 16 ≡ 0 },
    ghost whole_inputs: { fixed.plan.inputs % 16 ≡ 0 },
    ghost asks: { can_ask (sizes_of fixed.plan) asked ≡ true },
}

impl Drop for Field {
    fn drop(self) {
        let Field {
            fixed: _,
            cop: _,
            choices: _,
            moves: _,
            counters: _,
            asked: _,
        } = self;
    }
}

impl Field {
    ghost use Rattle.field_machine.specs.Field.{IsField};

    /// The field of a plan that is alone.
    pub fn new(alloc: Global, fixed: Fixed, asked: Asked) -> Result<Field, AllocError>
        requires runs { IsRunnable fixed }
        requires alone { IsAlone fixed.plan }
        requires asked { CanBeAsked (sizes_of fixed.plan) asked }
        ensures fixed { IfOk result (λ field. field.fixed ≡ fixed) }
        ensures asked { IfOk result (λ field. field.asked ≡ asked) }
        ensures field { IfOk result IsField }
    {
        let cop = Cop::new(alloc, fixed.plan.drops.as_slice())?;
        let choices = choices_of(alloc, &fixed.plan)?;
        let moves = product(choices.as_slice())?;
        let counters = counters_of(alloc, fixed.plan.segments.as_slice())?;
        Ok(Field {
            fixed,
            cop,
            choices,
            moves,
            counters,
            asked,
        })
    }
}
