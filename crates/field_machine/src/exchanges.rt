//! The input exchanges of a scan, and scripts that bring their rows.
ghost use Rattle.std.specs.Prelude.{◌≡◌, ◌++◌, [], option_map, IfOk, OnOk};
ghost use Rattle.std.specs.List.{cons_option, filter_map};
ghost use Rattle.scan_order.specs.Due.{full_scan};
ghost use Rattle.field_runs.specs.Played.{row_in, script_of, told_in, with_script, with_scripts};
ghost use Rattle.field_machine.specs.Choices.{told_by};
ghost use Rattle.field_machine.specs.Exchanges.{exchange_with, exchanges_of, row_to};
ghost use Rattle.field_machine.specs.Never.{told_in_ways};

use crate::choices::choices_for;
use plant_types::{ControllerPlan, Copied, IoDrop, List, ScriptRow};
use std::alloc::{AllocError, Global};

/// An input exchange: a drop, and the number of the row of its script that the field brings it,
/// counted from 1. This project's own.
#[derive(Clone, Copy, Debug, PartialEq, Eq)]
pub struct Exchange {
    pub drop: u8,
    pub row: u32,
}

/// Adds the exchange with a drop, if there is a drop.
fn push_exchange(
    exchanges: &mut Vec<Exchange>,
    input: Option<u8>,
    row: u32,
) -> Result<(), AllocError>
    ensures { OnOk result (exchanges.new.items ≡ exchanges.old.items
        ++ cons_option (exchange_with input row) []) }
{
    if let Some(drop) = input {
        exchanges.push(Exchange { drop, row })?;
    }
    Ok(())
}

/// The input exchanges of a scan in which the field brings rows in this way.
pub fn exchanges_of(
    alloc: Global,
    plan: &ControllerPlan,
    way: usize,
) -> Result<Vec<Exchange>, AllocError>
    ensures { IfOk result (λ exchanges. exchanges.items
        ≡ exchanges_of plan.now (told_by plan.now (full_scan plan.now) way)) }
{
    let mut exchanges = Vec::new(alloc);
    let mut left = way;
    for row in plan.orders.as_slice() {
        let many = choices_for(plan.drops.as_slice(), row.input)?;
        let many = many as usize;
        push_exchange(&mut exchanges, row.input, (left % many) as u32 + 1)?;
        left /= many;
    }
    Ok(exchanges)
}

/// The row of a script of this number, if it has one.
fn row_at(script: &[ScriptRow], number: u32) -> Option<&ScriptRow>
    ensures { option_map (λ row. row.now) result ≡ row_in script.now number }
{
    script.get((number as usize).saturating_sub(1))
}

/// Adds the row of a script of this number, if it has one.
fn push_row(
    alloc: Global,
    rows: &mut List<ScriptRow>,
    script: &[ScriptRow],
    number: u32,
) -> Result<(), AllocError>
    ensures { OnOk result (rows.new ≡ rows.old ++ cons_option (row_in script.now number) []) }
{
    match row_at(script, number) {
        Some(row) => rows.push(row.copied(alloc)?),
        None => Ok(()),
    }
}

/// Adds the rows of a drop's script that exchanges bring it.
fn add_rows(
    alloc: Global,
    script: &mut List<ScriptRow>,
    drop: &IoDrop,
    exchanges: &[Exchange],
) -> Result<(), AllocError>
    ensures { OnOk result (script.new ≡ script.old
        ++ filter_map (row_in drop.now.script) (filter_map (row_to drop.now.number) exchanges.now)) }
{
    for exchange in exchanges {
        if exchange.drop == drop.number {
            push_row(alloc, script, drop.script.as_slice(), exchange.row)?;
        }
    }
    Ok(())
}

/// A script of the rows that the field brings a drop in these ways; its own where it brings none.
fn script_of(
    alloc: Global,
    plan: &ControllerPlan,
    ways: &[usize],
    drop: &IoDrop,
) -> Result<List<ScriptRow>, AllocError>
    ensures { IfOk result (λ script. script ≡ script_of drop.now.script
        (told_in plan.now drop.now.number (told_in_ways plan.now ways.now))) }
{
    let mut script = List::new(alloc);
    for way in ways {
        let exchanges = exchanges_of(alloc, plan, *way)?;
        add_rows(alloc, &mut script, drop, exchanges.as_slice())?;
    }
    if script.as_slice().is_empty() {
        return drop.script.copied(alloc);
    }
    Ok(script)
}

/// A plan with scripts that bring the rows that the field brings in these ways.
pub fn with_scripts(
    alloc: Global,
    plan: &ControllerPlan,
    ways: &[usize],
) -> Result<ControllerPlan, AllocError>
    ensures { IfOk result (λ played.
        played ≡ with_scripts plan.now (told_in_ways plan.now ways.now)) }
{
    let mut drops = List::new(alloc);
    for drop in plan.drops.as_slice() {
        let script = script_of(alloc, plan, ways, drop)?;
        let modules = drop.modules.copied(alloc)?;
        drops.push(IoDrop {
            number: drop.number,
            modules,
            script,
        })?;
    }
    let mut played = plan.copied(alloc)?;
    played.drops = drops;
    Ok(played)
}
