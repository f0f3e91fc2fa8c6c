//! How many rows the field has for the exchanges of a scan.
ghost use Rattle.std.specs.Prelude.{◌≡◌, IfOk, Some};
ghost use Rattle.field_runs.specs.Told.{rows_in};
ghost use Rattle.field_machine.specs.Choices.{choices_for, choices_of, product};

use plant_types::{ControllerPlan, IoDrop, ScriptRow};
use std::alloc::{AllocError, Global};

/// How many rows a script has; one, of zeros, where it is empty.
fn rows_in(script: &[ScriptRow]) -> Result<u32, AllocError>
    ensures { IfOk result (λ many. many ≡ rows_in script.now) }
{
    match u32::try_from(script.len().max(1)) {
        Ok(many) => Ok(many),
        Err(_) => Err(AllocError),
    }
}

/// How many rows the field has for a drop.
fn rows_for(drops: &[IoDrop], number: u8) -> Result<u32, AllocError>
    ensures { IfOk result (λ many. many ≡ choices_for drops.now (Some number)) }
{
    for drop in drops {
        if drop.number == number {
            return rows_in(drop.script.as_slice());
        }
    }
    Ok(1)
}

/// How many rows the field has for the drop that a row of the order of solve reads.
pub fn choices_for(drops: &[IoDrop], input: Option<u8>) -> Result<u32, AllocError>
    ensures { IfOk result (λ many. many ≡ choices_for drops.now input) }
{
    match input {
        Some(number) => rows_for(drops, number),
        None => Ok(1),
    }
}

/// How many rows the field has for each row of the order of solve.
pub(crate) fn choices_of(alloc: Global, plan: &ControllerPlan) -> Result<Vec<u32>, AllocError>
    ensures { IfOk result (λ choices. choices.items ≡ choices_of plan.now) }
{
    let mut choices = Vec::new(alloc);
    for row in plan.orders.as_slice() {
        choices.push(choices_for(plan.drops.as_slice(), row.input)?)?;
    }
    Ok(choices)
}

/// In how many ways the field can bring rows in a scan. Where they cannot be counted, so many states
/// do not fit.
pub fn product(choices: &[u32]) -> Result<usize, AllocError>
    ensures { IfOk result (λ ways. ways ≡ product choices.now) }
{
    let mut ways: usize = 1;
    for many in choices {
        match ways.checked_mul(*many as usize) {
            Some(more) => ways = more,
            None => return Err(AllocError),
        }
    }
    Ok(ways)
}
