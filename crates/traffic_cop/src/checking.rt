//! The first test that the drops of a controller do not pass, and its place.
ghost use Rattle.std.specs.Prelude.{◌≡◌, ◌≤◌, ◌<◌, length, is_some};
ghost use Rattle.plant_types.specs.FirstFault.{first_failed, tests_of_each};
ghost use Rattle.traffic_cop.specs.Drops.{drop_named};
ghost use Rattle.traffic_cop.specs.Exchange.{input_total};
ghost use Rattle.traffic_cop.specs.Tests.{module_tests, held_of};
ghost use Rattle.plant_types.specs.PlanTests.{placed};
ghost use Rattle.traffic_cop.specs.DropTests.{drop_place, number_tests};
ghost use Rattle.traffic_cop.specs.DropTests.{placed_module_tests, placed_row_tests, word_tests};
ghost use Rattle.traffic_cop.specs.DropTests.{part_tests, drop_tests, cop_tests};
ghost use Rattle.traffic_cop.specs.DropTests.{CheckedDropsAreReady};

use crate::cop::Cop;
use crate::places::{drop_place, module_place, script_place};
use crate::testing::{fits_row, has_few_words, module_fault};
use plant_types::{
    ControllerPlan, DROP_LIMIT, DROP_WORDS, IoDrop, MODULE_LIMIT, Module, ModuleKind, Place,
    PlantFault, SCRIPT_LIMIT, ScriptRow, Sizes,
};

/// Whether one of these drops has this number.
#[tactic(auto, unfolding(crate::specs::Drops::drop_named))]
fn is_named(drops: &[IoDrop], number: u8) -> bool
    ensures { result ≡ is_some (drop_named drops.now number) }
{
    for found in drops {
        if found.number == number {
            return true;
        }
    }
    false
}

fn check_numbers(earlier: &[IoDrop], drop: &IoDrop) -> Result<(), PlantFault>
    ensures { result ≡ first_failed (number_tests earlier.now drop.now) }
{
    if drop.number < 1 || DROP_LIMIT < usize::from(drop.number) {
        return Err(PlantFault::BadValue);
    }
    if drop.modules.as_slice().len() > MODULE_LIMIT || drop.script.as_slice().len() > SCRIPT_LIMIT {
        return Err(PlantFault::TooLarge);
    }
    if is_named(earlier, drop.number) {
        return Err(PlantFault::BadDrop);
    }
    Ok(())
}

fn held_of(sizes: Sizes, io_module: Module) -> u16
    ensures { result ≡ held_of sizes io_module }
{
    match io_module.kind {
        ModuleKind::In => sizes.inputs,
        ModuleKind::Out => sizes.coils,
        ModuleKind::InWords => sizes.input_registers,
        ModuleKind::OutWords => sizes.registers,
    }
}

#[tactic(auto, unfolding(crate::specs::Tests::module_fault))]
fn test_module(held: u16, io_module: Module) -> Result<(), PlantFault>
    ensures { result ≡ first_failed (module_tests held io_module) }
{
    match module_fault(held, io_module) {
        Some(fault) => Err(fault),
        None => Ok(()),
    }
}

fn check_module(
    sizes: Sizes,
    drop: u32,
    earlier: &[Module],
    io_module: Module,
) -> Result<(), (PlantFault, Place)>
    requires { length earlier.now < MODULE_LIMIT }
    ensures { result ≡ first_failed (placed_module_tests sizes drop earlier.now io_module) }
{
    let place = module_place(1, drop, earlier.len() as u32 + 1);
    place.locate(test_module(held_of(sizes, io_module), io_module))
}

fn check_modules(sizes: Sizes, drop: u32, modules: &[Module]) -> Result<(), (PlantFault, Place)>
    requires { length modules.now ≤ MODULE_LIMIT }
    ensures { result ≡ first_failed (tests_of_each (placed_module_tests sizes drop) modules.now) }
{
    for (i, io_module) in modules.iter().enumerate() {
        check_module(sizes, drop, &modules[..i], *io_module)?;
    }
    Ok(())
}

fn check_row(
    modules: &[Module],
    drop: u32,
    earlier: &[ScriptRow],
    row: &ScriptRow,
) -> Result<(), (PlantFault, Place)>
    requires words { input_total modules.now ≤ DROP_WORDS }
    requires few { length earlier.now < SCRIPT_LIMIT }
    ensures { result ≡ first_failed (placed_row_tests modules.now drop earlier.now row.now) }
{
    if fits_row(modules, row) {
        return Ok(());
    }
    Err((
        PlantFault::BadScript,
        script_place(1, drop, earlier.len() as u32 + 1),
    ))
}

fn check_rows(modules: &[Module], drop: u32, rows: &[ScriptRow]) -> Result<(), (PlantFault, Place)>
    requires words { input_total modules.now ≤ DROP_WORDS }
    requires few { length rows.now ≤ SCRIPT_LIMIT }
    ensures { result ≡ first_failed (tests_of_each (placed_row_tests modules.now drop) rows.now) }
{
    for (i, row) in rows.iter().enumerate() {
        check_row(modules, drop, &rows[..i], row)?;
    }
    Ok(())
}

fn check_words(drop: u32, modules: &[Module]) -> Result<(), (PlantFault, Place)>
    ensures { result ≡ first_failed (placed (drop_place 1 drop) (word_tests modules.now)) }
{
    if has_few_words(modules) {
        Ok(())
    } else {
        Err((PlantFault::TooLarge, drop_place(1, drop)))
    }
}

fn check_parts(sizes: Sizes, position: u32, drop: &IoDrop) -> Result<(), (PlantFault, Place)>
    requires modules { length drop.now.modules ≤ MODULE_LIMIT }
    requires rows { length drop.now.script ≤ SCRIPT_LIMIT }
    ensures { result ≡ first_failed (part_tests sizes position drop.now) }
{
    let modules = drop.modules.as_slice();
    check_modules(sizes, position, modules)?;
    check_words(position, modules)?;
    check_rows(modules, position, drop.script.as_slice())
}

fn check_drop(sizes: Sizes, earlier: &[IoDrop], drop: &IoDrop) -> Result<(), (PlantFault, Place)>
    requires { length earlier.now ≤ 33 }
    ensures { result ≡ first_failed (drop_tests sizes earlier.now drop.now) }
{
    let position = earlier.len() as u32 + 1;
    drop_place(1, position).locate(check_numbers(earlier, drop))?;
    check_parts(sizes, position, drop)
}

fn check_drops(sizes: Sizes, drops: &[IoDrop]) -> Result<(), (PlantFault, Place)>
    ensures { result ≡ first_failed (tests_of_each (drop_tests sizes) drops.now) }
{
    for (i, drop) in drops.iter().enumerate() {
        check_drop(sizes, &drops[..i], drop)?;
    }
    Ok(())
}

impl Cop {
    /// The first fault of the drops of a controller, which counts as the first one. Takes no
    /// memory.
    pub fn check(plan: &ControllerPlan) -> Result<(), (PlantFault, Place)>
        ensures { result ≡ first_failed (cop_tests plan.now) }
    {
        check_drops(plan.sizes(), plan.drops.as_slice())
    }
}

/// Drops that pass their tests are ready for their exchanges, in a plan that passes its own.
pub fn checked_drops_are_ready()
    ensures { CheckedDropsAreReady }
{}
