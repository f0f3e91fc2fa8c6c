//! The hosts of a plant by their tables.
ghost use Rattle.std.specs.Prelude.{◌≡◌, ◌≤◌, codes, length, map};
ghost use Rattle.toml.specs.View.{table_view};
ghost use Rattle.plant_tables.specs.Given.{tables_in};
ghost use Rattle.plant_tables.specs.Refusals.{Gives};
ghost use Rattle.plant_loader.specs.Hosts.{has_host, host_behind, hosts_of};

use crate::requests::requests_of;
use controller_tables::has_controller;
use plant_tables::{
    LoadEnd, NetTable, TableKind, Version, address_at, host_table_place, network_at, table_passes,
    texts_at,
};
use plant_types::{ControllerPlan, HOST_LIMIT, HostPlan, PlantFault, REQUEST_LIMIT};
use std::alloc::Global;
use toml::Table;

/// Whether one of these hosts has this node.
pub fn has_host(hosts: &[HostPlan], node: u8) -> bool
    ensures { result ≡ has_host hosts.now node }
{
    hosts.iter().any(|host| host.node == node)
}

#[tactic(auto, unfolding(crate::specs::Hosts::host_behind))]
fn host_behind(
    alloc: Global,
    version: Version,
    nets: &[NetTable],
    controllers: &[ControllerPlan],
    earlier: &[HostPlan],
    position: u32,
    table: &Table,
) -> Result<HostPlan, LoadEnd>
    ensures { Gives (λ host. host) result (host_behind version nets.now controllers.now
        earlier.now (position, table_view table.now)) }
{
    let place = host_table_place(position);
    table_passes(place, TableKind::Host(version), table)?;
    let node = address_at(place, table)?;
    let named = network_at(version, nets, place, table)?;
    let texts = texts_at(alloc, place, REQUEST_LIMIT, "requests", table)?;
    if has_controller(controllers, node) || has_host(earlier, node) {
        return Err(LoadEnd::Refused(PlantFault::BadNode, place));
    }
    let Some(network) = named else {
        return Err(LoadEnd::Refused(PlantFault::BadNetwork, place));
    };
    let requests = requests_of(alloc, version, node, position, texts.as_slice())?;
    Ok(HostPlan {
        node,
        network,
        requests,
    })
}

/// The hosts of a plant on these networks by their tables, in file order, beside its controllers.
#[tactic(auto, unfolding(plant_tables::specs::InOrder::each_behind))]
pub fn hosts_of(
    alloc: Global,
    version: Version,
    nets: &[NetTable],
    controllers: &[ControllerPlan],
    tables: &[&Table],
) -> Result<Vec<HostPlan>, LoadEnd>
    requires { length tables.now ≤ HOST_LIMIT }
    ensures { Gives (λ hosts. hosts.items) result
        (hosts_of version nets.now controllers.now (tables_in tables.now)) }
{
    let mut hosts = Vec::new(alloc);
    let mut position = 0;
    for table in tables {
        position += 1;
        let earlier = hosts.as_slice();
        let next = host_behind(alloc, version, nets, controllers, earlier, position, table)?;
        if hosts.push(next).is_err() {
            return Err(LoadEnd::NoMemory);
        }
    }
    Ok(hosts)
}
