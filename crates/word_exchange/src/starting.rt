//! Readers and wired drops at the start of a word exchange.
ghost use Rattle.std.specs.Prelude.{◌≡◌, ◌≤◌, ◌==◌, IfOk, OnOk, option_map};
ghost use Rattle.std.specs.List.{find, list_any, All};
ghost use Rattle.traffic_cop.specs.Exchange.{output_count, output_total};
ghost use Rattle.peer_cop.specs.Plants.{drop_of, plan_of, CanBeWired, FitsPlant};
ghost use Rattle.word_exchange.specs.Starting.{is_drop_of, AddsWired, AreReadersAtStart};
ghost use Rattle.word_exchange.specs.Starting.{AreWiredAtStart, HasDropAt, IsDropAt, IsReaderAtStart};
ghost use Rattle.word_exchange.specs.Starting.{IsWiredAtStart};

use crate::exchanges::inputs_a_scan;
use crate::feeding::WiredDrop;
use crate::rows::{own_row, row_made};
use crate::running::WireReader;
use crate::sending::Sending;
use crate::sources::sources_of;
use peer_cop::Wire;
use plant_types::{ControllerPlan, DROP_WORDS, IoDrop, List, Module, ModuleKind, Plant, Words};
use std::alloc::{AllocError, Global};
use traffic_cop::input_total;

/// How many words a module gives the field.
fn output_count(io_module: Module) -> usize
    ensures { result ≡ output_count io_module }
{
    match io_module.kind {
        ModuleKind::Out => 1,
        ModuleKind::OutWords => usize::from(io_module.count),
        ModuleKind::In | ModuleKind::InWords => 0,
    }
}

/// How many words all modules give the field.
fn output_total(modules: &[Module]) -> usize
    requires { output_total modules.now ≤ DROP_WORDS }
    ensures { result ≡ output_total modules.now }
{
    let mut total = 0;
    for io_module in modules {
        total += output_count(*io_module);
    }
    total
}

/// The controller of a node.
fn plan_of(plant: &Plant, node: u8) -> Option<&ControllerPlan>
    ensures { option_map (λ plan. plan.now) result ≡ plan_of plant.now node }
{
    plant
        .controllers
        .as_slice()
        .iter()
        .find(|plan| plan.node == node)
}

/// The first drop of a number.
fn drop_named(drops: &[IoDrop], number: u8) -> Option<&IoDrop>
    ensures { option_map (λ drop. drop.now) result
        ≡ find (λ drop. drop.number == number) drops.now }
{
    drops.iter().find(|drop| drop.number == number)
}

/// A drop of a plant, with its controller.
#[derive(Clone, Copy)]
struct PlantDrop<'a> {
    plan: &'a ControllerPlan,
    drop: &'a IoDrop,
}

/// The drop of a number that the controller of a node has.
fn drop_at(plant: &Plant, node: u8, number: u8) -> PlantDrop<'_>
    requires { HasDropAt plant.now node number }
    ensures { IsDropAt plant.now node number result.plan.now result.drop.now }
{
    let Some(plan) = plan_of(plant, node) else {
        unreachable!()
    };
    let Some(drop) = drop_named(plan.drops.as_slice(), number) else {
        unreachable!()
    };
    PlantDrop { plan, drop }
}

/// The reader of the drop from which a wire comes, before anything was read.
fn reader_of<'a>(alloc: Global, plant: &'a Plant, from: Wire) -> Result<WireReader<'a>, AllocError>
    requires wired { CanBeWired plant.now }
    requires fits { FitsPlant plant.now from }
    ensures { IfOk result (IsReaderAtStart plant.now from) }
{
    let found = drop_at(plant, from.from, from.from_drop);
    let zeros = vec![in alloc; 0; output_total(found.drop.modules.as_slice())]?;
    let sending = Sending {
        wire: from,
        latest: Words::of(alloc, zeros.as_slice())?,
        sent: Words::of(alloc, zeros.as_slice())?,
    };
    Ok(WireReader {
        plan: found.plan,
        sending,
        entries: 0,
        ring: 0,
    })
}

/// The readers of the drops from which wires come, before anything was read.
pub(crate) fn readers_of<'a>(
    alloc: Global,
    plant: &'a Plant,
    froms: &[Wire],
) -> Result<Vec<WireReader<'a>>, AllocError>
    requires wired { CanBeWired plant.now }
    requires fit { All (FitsPlant plant.now) froms.now }
    ensures { IfOk result (λ readers. AreReadersAtStart plant.now froms.now readers.items) }
{
    let mut readers = Vec::new(alloc);
    for from in froms {
        readers.push(reader_of(alloc, plant, *from)?)?;
    }
    Ok(readers)
}

/// The wired drop at which a wire ends, with the row with which its script begins.
fn wired_drop<'a>(
    alloc: Global,
    plant: &'a Plant,
    wires: &[Wire],
    froms: &[Wire],
    readers: &[WireReader<'_>],
    wire: Wire,
) -> Result<WiredDrop<'a>, AllocError>
    requires wired { CanBeWired plant.now }
    requires fits { FitsPlant plant.now wire }
    ensures { IfOk result (IsWiredAtStart plant.now wires.now froms.now readers.now wire) }
{
    let found = drop_at(plant, wire.node, wire.drop);
    let total = input_total(found.drop.modules.as_slice());
    let sources = sources_of(alloc, froms, wires, wire.node, wire.drop, total)?;
    let own = own_row(alloc, found.drop, 1)?;
    let mut script = List::new(alloc);
    script.push(row_made(alloc, readers, sources.as_slice(), &own)?)?;
    let inputs = inputs_a_scan(found.plan, wire.drop);
    Ok(WiredDrop {
        plan: found.plan,
        drop: found.drop,
        sources,
        script,
        inputs,
        exchanges: 0,
        entries: 0,
        needed: (inputs as u128).max(1),
    })
}

/// Whether a wired drop is the drop of a number of a node's controller.
pub(crate) fn is_drop_of(node: u8, number: u8, one: &WiredDrop<'_>) -> bool
    ensures { result ≡ is_drop_of node number one.now }
{
    node == one.plan.node && number == one.drop.number
}

/// Whether the drop of a number of a node's controller is among wired drops.
fn is_there(wired: &[WiredDrop<'_>], node: u8, number: u8) -> bool
    ensures { result ≡ list_any (is_drop_of node number) wired.now }
{
    wired.iter().any(|one| is_drop_of(node, number, one))
}

/// Adds the wired drop at which a wire ends, unless it is there.
fn add_wired<'a>(
    alloc: Global,
    plant: &'a Plant,
    wires: &[Wire],
    froms: &[Wire],
    readers: &[WireReader<'_>],
    wire: Wire,
    wired: &mut Vec<WiredDrop<'a>>,
) -> Result<(), AllocError>
    requires wired { CanBeWired plant.now }
    requires fits { FitsPlant plant.now wire }
    ensures { OnOk result (AddsWired plant.now wires.now froms.now readers.now wire
        wired.old.items wired.new.items) }
{
    if is_there(wired.as_slice(), wire.node, wire.drop) {
        return Ok(());
    }
    wired.push(wired_drop(alloc, plant, wires, froms, readers, wire)?)?;
    Ok(())
}

/// The drops at which wires end, with the rows with which their scripts begin.
pub(crate) fn wired_drops<'a>(
    alloc: Global,
    plant: &'a Plant,
    wires: &[Wire],
    froms: &[Wire],
    readers: &[WireReader<'_>],
) -> Result<Vec<WiredDrop<'a>>, AllocError>
    requires wired { CanBeWired plant.now }
    requires fit { All (FitsPlant plant.now) wires.now }
    ensures { IfOk result
        (λ wired. AreWiredAtStart plant.now wires.now froms.now readers.now wired.items) }
{
    let mut wired = Vec::new(alloc);
    for wire in wires {
        add_wired(alloc, plant, wires, froms, readers, *wire, &mut wired)?;
    }
    Ok(wired)
}
