//! The drops of a controller: their tables.
ghost use Rattle.std.specs.Prelude.{◌≡◌, ◌≤◌, length, map};
ghost use Rattle.toml.specs.View.{table_view};
ghost use Rattle.plant_tables.specs.Given.{tables_in, texts_in};
ghost use Rattle.controller_tables.specs.Orders.{drop_number};
ghost use Rattle.plant_tables.specs.Refusals.{Gives};
ghost use Rattle.controller_tables.specs.Drops.{modules_of, drop_with, drop_behind, drops_of};

use crate::modules::module_of;
use crate::owner::Owner;
use crate::scripts::{or_zeros, rows_of};
use plant_tables::{LoadEnd, TableKind, number_at_key, table_passes, texts_at};
use plant_types::{DROP_LIMIT, IoDrop, List, MODULE_LIMIT, Module, PlantFault, SCRIPT_LIMIT};
use std::alloc::Global;
use toml::Table;
use traffic_cop::{drop_place, has_few_words, module_place};

/// The number of the drop that has this number, where there is one.
#[tactic(auto, unfolding(traffic_cop::specs::Drops::drop_named))]
pub fn drop_number(drops: &[IoDrop], number: u16) -> Option<u8>
    ensures { result ≡ drop_number drops.now number }
{
    for found in drops {
        if u16::from(found.number) == number {
            return Some(found.number);
        }
    }
    None
}

fn modules_of(
    alloc: Global,
    owner: Owner,
    drop: u32,
    texts: &[&str],
) -> Result<List<Module>, LoadEnd>
    requires { length texts.now ≤ MODULE_LIMIT }
    ensures { Gives (λ modules. modules) result
        (modules_of owner drop (texts_in texts.now)) }
{
    let mut modules = List::new(alloc);
    let mut number = 0;
    for text in texts {
        number += 1;
        let place = module_place(owner.position, drop, number);
        let io_module = module_of(owner.sizes, place, text)?;
        modules.push(io_module)?;
    }
    Ok(modules)
}

#[tactic(auto, unfolding(crate::specs::Drops::drop_with))]
fn drop_with(
    alloc: Global,
    owner: Owner,
    place: u32,
    number: u8,
    module_texts: &[&str],
    row_texts: &[&str],
) -> Result<IoDrop, LoadEnd>
    requires modules { length module_texts.now ≤ MODULE_LIMIT }
    requires rows { length row_texts.now ≤ SCRIPT_LIMIT }
    ensures { Gives (λ drop. drop) result (drop_with owner place number
        (texts_in module_texts.now) (texts_in row_texts.now)) }
{
    let modules = modules_of(alloc, owner, place, module_texts)?;
    if !has_few_words(modules.as_slice()) {
        let place = drop_place(owner.position, place);
        return Err(LoadEnd::Refused(PlantFault::TooLarge, place));
    }
    let rows = rows_of(alloc, owner.position, modules.as_slice(), place, row_texts)?;
    let script = or_zeros(alloc, modules.as_slice(), rows)?;
    Ok(IoDrop {
        number,
        modules,
        script,
    })
}

#[tactic(auto, unfolding(crate::specs::Drops::drop_behind))]
fn drop_behind(
    alloc: Global,
    owner: Owner,
    earlier: &[IoDrop],
    position: u32,
    table: &Table,
) -> Result<IoDrop, LoadEnd>
    ensures { Gives (λ drop. drop) result
        (drop_behind owner earlier.now (position, table_view table.now)) }
{
    let place = drop_place(owner.position, position);
    table_passes(place, TableKind::Drop, table)?;
    let number = number_at_key(
        place,
        PlantFault::BadValue,
        "number",
        1,
        DROP_LIMIT as u32,
        table,
    )?;
    let modules = texts_at(alloc, place, MODULE_LIMIT, "modules", table)?;
    let rows = texts_at(alloc, place, SCRIPT_LIMIT, "script", table)?;
    if drop_number(earlier, number as u16).is_some() {
        return Err(LoadEnd::Refused(PlantFault::BadDrop, place));
    }
    drop_with(
        alloc,
        owner,
        position,
        number as u8,
        modules.as_slice(),
        rows.as_slice(),
    )
}

/// The drops of a controller by their tables.
#[tactic(auto, unfolding(plant_tables::specs::InOrder::each_behind))]
pub fn drops_of(alloc: Global, owner: Owner, tables: &[&Table]) -> Result<List<IoDrop>, LoadEnd>
    requires { length tables.now ≤ DROP_LIMIT }
    ensures { Gives (λ drops. drops) result
        (drops_of owner (tables_in tables.now)) }
{
    let mut drops = List::new(alloc);
    let mut position = 0;
    for table in tables {
        position += 1;
        let next = drop_behind(alloc, owner, drops.as_slice(), position, table)?;
        drops.push(next)?;
    }
    Ok(drops)
}
