//! The plans of controllers by their tables.
ghost use Rattle.std.specs.Prelude.{◌≡◌, ◌≤◌, ◌==◌, codes, length, map, IfOk};
ghost use Rattle.std.specs.List.{list_any};
ghost use Rattle.toml.specs.View.{table_view};
ghost use Rattle.plant_tables.specs.Given.{tables_in};
ghost use Rattle.plant_tables.specs.Refusals.{Gives};
ghost use Rattle.controller_tables.specs.Stations.{read_arrays, HasFewItems, arrays_at, parts_of};
ghost use Rattle.controller_tables.specs.Stations.{has_controller, controller_behind};
ghost use Rattle.controller_tables.specs.Stations.{controllers_of};

use crate::controller::{panel_of, sizes_at};
use crate::drops::drops_of;
use crate::failures::power_rows_of;
use crate::orders::orders_of;
use crate::owner::Owner;
use crate::pieces::segments_of;
use plant_tables::{
    LoadEnd, NetTable, TableKind, Version, address_at, network_at, table_passes, tables_at,
    texts_at,
};
use plant_types::{
    CONTROLLER_LIMIT, ControllerPlan, DROP_LIMIT, ORDER_LIMIT, PANEL_LIMIT, POWER_LIMIT, Place,
    PlantFault, SEGMENT_LIMIT,
};
use std::alloc::Global;
use toml::Table;

/// The arrays of a controller's table: the texts of its panel, of its orders and of its power rows,
/// and the tables of its drops and of its segments.
struct Arrays<'a> {
    panel: Vec<&'a str>,
    drops: Vec<&'a Table>,
    segments: Vec<&'a Table>,
    orders: Vec<&'a str>,
    power: Vec<&'a str>,
}

impl Drop for Arrays<'_> {
    fn drop(self) {
        let Arrays {
            panel: _,
            drops: _,
            segments: _,
            orders: _,
            power: _,
        } = self;
    }
}

#[tactic(auto, unfolding(crate::specs::Stations::arrays_at))]
fn arrays_at<'a>(alloc: Global, place: Place, table: &'a Table) -> Result<Arrays<'a>, LoadEnd>
    ensures read { Gives read_arrays result (arrays_at place (table_view table.now)) }
    ensures few { IfOk result (λ arrays. HasFewItems arrays) }
{
    let panel = texts_at(alloc, place, PANEL_LIMIT, "panel", table)?;
    let drops = tables_at(alloc, place, DROP_LIMIT, "drop", table)?;
    let segments = tables_at(alloc, place, SEGMENT_LIMIT, "segment", table)?;
    let orders = texts_at(alloc, place, ORDER_LIMIT, "orders", table)?;
    let power = texts_at(alloc, place, POWER_LIMIT, "power", table)?;
    Ok(Arrays {
        panel,
        drops,
        segments,
        orders,
        power,
    })
}

#[tactic(auto, unfolding(crate::specs::Stations::parts_of))]
fn parts_of(alloc: Global, owner: Owner, arrays: &Arrays) -> Result<ControllerPlan, LoadEnd>
    requires { HasFewItems arrays.now }
    ensures { Gives (λ plan. plan) result (parts_of owner (read_arrays arrays.now)) }
{
    let drops = drops_of(alloc, owner, arrays.drops.as_slice())?;
    let segments = segments_of(alloc, owner, arrays.segments.as_slice())?;
    let orders = orders_of(
        alloc,
        owner,
        segments.as_slice(),
        drops.as_slice(),
        arrays.orders.as_slice(),
    )?;
    let power = power_rows_of(alloc, owner, orders.as_slice(), arrays.power.as_slice())?;
    let panel = panel_of(alloc, owner, arrays.panel.as_slice())?;
    Ok(ControllerPlan {
        node: owner.node,
        network: owner.network,
        coils: owner.sizes.coils,
        inputs: owner.sizes.inputs,
        input_registers: owner.sizes.input_registers,
        registers: owner.sizes.registers,
        panel,
        orders,
        power,
        drops,
        segments,
    })
}

/// Whether one of these controllers has this node.
pub fn has_controller(plans: &[ControllerPlan], node: u8) -> bool
    ensures { result ≡ has_controller plans.now node }
{
    plans.iter().any(|plan| plan.node == node)
}

#[tactic(auto, unfolding(crate::specs::Stations::controller_behind))]
fn controller_behind(
    alloc: Global,
    version: Version,
    nets: &[NetTable],
    earlier: &[ControllerPlan],
    position: u32,
    table: &Table,
) -> Result<ControllerPlan, LoadEnd>
    ensures { Gives (λ plan. plan) result
        (controller_behind version nets.now earlier.now (position, table_view table.now)) }
{
    let place = Place::controller(position);
    table_passes(place, TableKind::Controller(version), table)?;
    let node = address_at(place, table)?;
    let named = network_at(version, nets, place, table)?;
    let sizes = sizes_at(place, table)?;
    let arrays = arrays_at(alloc, place, table)?;
    if has_controller(earlier, node) {
        return Err(LoadEnd::Refused(PlantFault::BadNode, place));
    }
    let Some(network) = named else {
        return Err(LoadEnd::Refused(PlantFault::BadNetwork, place));
    };
    let owner = Owner {
        position,
        node,
        network,
        sizes,
    };
    parts_of(alloc, owner, &arrays)
}

/// The controllers of a plant on these networks by their tables, in file order.
#[tactic(auto, unfolding(plant_tables::specs::InOrder::each_behind))]
pub fn controllers_of(
    alloc: Global,
    version: Version,
    nets: &[NetTable],
    tables: &[&Table],
) -> Result<Vec<ControllerPlan>, LoadEnd>
    requires { length tables.now ≤ CONTROLLER_LIMIT }
    ensures { Gives (λ plans. plans.items) result
        (controllers_of version nets.now (tables_in tables.now)) }
{
    let mut plans = Vec::new(alloc);
    let mut position = 0;
    for table in tables {
        position += 1;
        let next = controller_behind(alloc, version, nets, plans.as_slice(), position, table)?;
        if plans.push(next).is_err() {
            return Err(LoadEnd::NoMemory);
        }
    }
    Ok(plans)
}
