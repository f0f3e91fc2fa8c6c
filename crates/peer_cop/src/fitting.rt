//! Whether a wire fits a plant.
ghost use Rattle.std.specs.Prelude.{◌≡◌, ◌≤◌, ◌==◌, ◌↔◌, IsTrue, option_map};
ghost use Rattle.std.specs.List.{find};
ghost use Rattle.traffic_cop.specs.Exchange.{output_count, output_total};
ghost use Rattle.peer_cop.specs.Words.{HasWords};
ghost use Rattle.peer_cop.specs.Plants.{CanBeWired, FitsPlant, IsPlantDrop, JoinsDrops};
ghost use Rattle.peer_cop.specs.Plants.{drop_of, plan_of};

use crate::wire::Wire;
use plant_types::{ControllerPlan, DROP_WORDS, IoDrop, Module, ModuleKind, Plant};
use traffic_cop::input_total;

/// The most words of a wire.
const WIRE_LIMIT: u16 = 32;

/// The controller of a node.
fn plan_of(plant: &Plant, node: u8) -> Option<&ControllerPlan>
    ensures { option_map (λ plan. plan.now) result ≡ plan_of plant.now node }
{
    plant
        .controllers
        .as_slice()
        .iter()
        .find(|plan| plan.node == node)
}

/// The first drop of a number.
fn drop_named(drops: &[IoDrop], number: u8) -> Option<&IoDrop>
    ensures { option_map (λ drop. drop.now) result
        ≡ find (λ drop. drop.number == number) drops.now }
{
    drops.iter().find(|drop| drop.number == number)
}

/// The drop of a number that the controller of a node has.
fn drop_of(plant: &Plant, node: u8, number: u8) -> Option<&IoDrop>
    ensures { option_map (λ drop. drop.now) result ≡ drop_of plant.now node number }
{
    match plan_of(plant, node) {
        Some(plan) => drop_named(plan.drops.as_slice(), number),
        None => None,
    }
}

/// How many words a module gives the field.
fn output_count(io_module: Module) -> usize
    ensures { result ≡ output_count io_module }
{
    match io_module.kind {
        ModuleKind::Out => 1,
        ModuleKind::OutWords => usize::from(io_module.count),
        ModuleKind::In | ModuleKind::InWords => 0,
    }
}

/// How many words all modules give the field.
fn output_total(modules: &[Module]) -> usize
    requires { output_total modules.now ≤ DROP_WORDS }
    ensures { result ≡ output_total modules.now }
{
    let mut total = 0;
    for io_module in modules {
        total += output_count(*io_module);
    }
    total
}

/// Whether so many words from one on are among those of a drop.
fn has_words(first: u16, count: u16, total: usize) -> bool
    requires { total ≤ DROP_WORDS }
    ensures { IsTrue result ↔ HasWords first count total }
{
    1 <= first && usize::from(first) + usize::from(count) <= total + 1
}

/// Whether a wire has 1 to 32 words, which one drop takes and the other gives.
fn joins(into: &IoDrop, source: &IoDrop, wire: Wire) -> bool
    requires into { IsPlantDrop into.now }
    requires source { IsPlantDrop source.now }
    ensures { IsTrue result ↔ JoinsDrops into.now source.now wire }
{
    let inputs = input_total(into.modules.as_slice());
    let outputs = output_total(source.modules.as_slice());
    1 <= wire.count
        && wire.count <= WIRE_LIMIT
        && has_words(wire.word, wire.count, inputs)
        && has_words(wire.from_word, wire.count, outputs)
}

/// Whether both nodes of a wire have a controller with the drop, and the wire joins the drops.
pub(crate) fn fits_plant(plant: &Plant, wire: Wire) -> bool
    requires { CanBeWired plant.now }
    ensures { IsTrue result ↔ FitsPlant plant.now wire }
{
    let into = drop_of(plant, wire.node, wire.drop);
    let source = drop_of(plant, wire.from, wire.from_drop);
    match (into, source) {
        (Some(into), Some(source)) => joins(into, source, wire),
        _ => false,
    }
}
