//! A plant whose wired drops have the scripts that were made for them.
ghost use Rattle.std.specs.Prelude.{◌≡◌, IfOk, map, option_map};
ghost use Rattle.std.specs.List.{find};
ghost use Rattle.word_exchange.specs.Scripts.{plan_by, plant_by};
ghost use Rattle.word_exchange.specs.Feeding.{with_script};
ghost use Rattle.word_exchange.specs.Starting.{is_drop_of, rule_of, script_in};

use crate::feeding::WiredDrop;
use crate::starting::is_drop_of;
use plant_types::{ControllerPlan, Copied, IoDrop, List, Plant, ScriptRow};
use std::alloc::{AllocError, Global};

/// The wired drop that is the drop of a number of a node's controller.
fn wired_at<'a, 'b>(wired: &'a [WiredDrop<'b>], node: u8, number: u8) -> Option<&'a WiredDrop<'b>>
    ensures { option_map (λ one. one.now) result ≡ find (is_drop_of node number) wired.now }
{
    wired.iter().find(|one| is_drop_of(node, number, one))
}

/// The script of a drop of a node's controller: that of the wired drop, or its own.
fn script_in<'a>(wired: &'a [WiredDrop<'_>], node: u8, drop: &'a IoDrop) -> &'a List<ScriptRow>
    ensures { result.now ≡ script_in wired.now node drop.now }
{
    match wired_at(wired, node, drop.number) {
        Some(one) => &one.script,
        None => &drop.script,
    }
}

/// A drop of a node's controller, with the script of the wired drop.
fn drop_with(
    alloc: Global,
    wired: &[WiredDrop<'_>],
    node: u8,
    drop: &IoDrop,
) -> Result<IoDrop, AllocError>
    ensures { IfOk result
        (λ made. made ≡ with_script drop.now (script_in wired.now node drop.now)) }
{
    Ok(IoDrop {
        number: drop.number,
        modules: drop.modules.copied(alloc)?,
        script: script_in(wired, node, drop).copied(alloc)?,
    })
}

/// The drops of a node's controller, with the scripts of the wired drops.
fn drops_with(
    alloc: Global,
    wired: &[WiredDrop<'_>],
    node: u8,
    drops: &[IoDrop],
) -> Result<List<IoDrop>, AllocError>
    ensures { IfOk result (λ made. made
        ≡ map (λ drop. with_script drop (script_in wired.now node drop)) drops.now) }
{
    let mut made = List::new(alloc);
    for drop in drops {
        made.push(drop_with(alloc, wired, node, drop)?)?;
    }
    Ok(made)
}

/// A controller, with the scripts of the wired drops.
fn plan_with(
    alloc: Global,
    wired: &[WiredDrop<'_>],
    plan: &ControllerPlan,
) -> Result<ControllerPlan, AllocError>
    ensures { IfOk result (λ made. made ≡ plan_by (rule_of wired.now) plan.now) }
{
    Ok(ControllerPlan {
        node: plan.node,
        network: plan.network,
        coils: plan.coils,
        inputs: plan.inputs,
        input_registers: plan.input_registers,
        registers: plan.registers,
        panel: plan.panel.copied(alloc)?,
        orders: plan.orders.copied(alloc)?,
        power: plan.power.copied(alloc)?,
        drops: drops_with(alloc, wired, plan.node, plan.drops.as_slice())?,
        segments: plan.segments.copied(alloc)?,
    })
}

/// The controllers of a plant, with the scripts of the wired drops.
fn plans_with(
    alloc: Global,
    wired: &[WiredDrop<'_>],
    plans: &[ControllerPlan],
) -> Result<List<ControllerPlan>, AllocError>
    ensures { IfOk result (λ made. made ≡ map (plan_by (rule_of wired.now)) plans.now) }
{
    let mut made = List::new(alloc);
    for plan in plans {
        made.push(plan_with(alloc, wired, plan)?)?;
    }
    Ok(made)
}

/// A plant, with the scripts of the wired drops.
pub(crate) fn plant_with(
    alloc: Global,
    wired: &[WiredDrop<'_>],
    plant: &Plant,
) -> Result<Plant, AllocError>
    ensures { IfOk result (λ made. made ≡ plant_by (rule_of wired.now) plant.now) }
{
    Ok(Plant {
        scan_time: plant.scan_time,
        watchdog: plant.watchdog,
        nets: plant.nets.copied(alloc)?,
        controllers: plans_with(alloc, wired, plant.controllers.as_slice())?,
        hosts: plant.hosts.copied(alloc)?,
        bridges: plant.bridges.copied(alloc)?,
    })
}
