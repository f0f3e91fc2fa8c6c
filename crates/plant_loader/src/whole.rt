//! The plant as a whole.
ghost use Rattle.std.specs.Prelude.{◌≡◌, ◌≤◌, length, map};
ghost use Rattle.std.specs.List.{AllByRecursion};
ghost use Rattle.plant_types.specs.Plans.{IsNode};
ghost use Rattle.plant_tables.specs.Net.{read_nets};
ghost use Rattle.plant_tables.specs.Refusals.{Makes};
ghost use Rattle.plant_loader.specs.Rising.{by_node, by_network};
ghost use Rattle.plant_loader.specs.Whole.{has_station, have_stations, net_from, nets_by_number};
ghost use Rattle.plant_loader.specs.Whole.{plant_from};

use crate::addresses::{Address, is_on, nodes_on, station_addresses, with_ends};
use plant_tables::{LoadEnd, NetRules, NetTable, Nets, Refusal, network_place};
use plant_types::{
    BridgePlan, ControllerPlan, HostPlan, List, NET_LIMIT, NetPlan, Plant, PlantFault,
};
use std::alloc::Global;

fn has_station(stations: &[Address], number: u32, net: &NetTable) -> Result<(), Refusal>
    ensures { result ≡ has_station stations.now number net.now }
{
    if is_on(stations, net.number) {
        Ok(())
    } else {
        Err((PlantFault::BadNetwork, network_place(number)))
    }
}

/// Each of these networks has a controller or a host.
pub fn have_stations(stations: &[Address], nets: &[NetTable]) -> Result<(), Refusal>
    requires { length nets.now ≤ NET_LIMIT }
    ensures { result ≡ have_stations stations.now nets.now }
{
    let mut number = 0;
    for net in nets {
        number += 1;
        has_station(stations, number, net)?;
    }
    Ok(())
}

fn controllers_by_node(mut plans: Vec<ControllerPlan>) -> Result<List<ControllerPlan>, LoadEnd>
    requires { AllByRecursion (λ plan. IsNode plan.node) plans.items }
    ensures { Makes result (λ rising. rising ≡ by_node (λ plan. plan.node) plans.items) }
{
    plans.sort_by_key(|plan| plan.node)?;
    Ok(List::from_vec(plans))
}

fn hosts_by_node(mut hosts: Vec<HostPlan>) -> Result<List<HostPlan>, LoadEnd>
    requires { AllByRecursion (λ host. IsNode host.node) hosts.items }
    ensures { Makes result (λ rising. rising ≡ by_node (λ host. host.node) hosts.items) }
{
    hosts.sort_by_key(|host| host.node)?;
    Ok(List::from_vec(hosts))
}

fn bridges_by_left(mut bridges: Vec<BridgePlan>) -> Result<List<BridgePlan>, LoadEnd>
    requires { AllByRecursion (λ bridge. IsNode bridge.left) bridges.items }
    ensures { Makes result (λ rising. rising ≡ by_node (λ bridge. bridge.left) bridges.items) }
{
    bridges.sort_by_key(|bridge| bridge.left)?;
    Ok(List::from_vec(bridges))
}

fn tables_by_number(mut nets: Vec<NetTable>) -> Result<Vec<NetTable>, LoadEnd>
    requires { AllByRecursion (λ net. net.number ≤ NET_LIMIT) nets.items }
    ensures { Makes result (λ rising. rising.items ≡ by_network (λ net. net.number) nets.items) }
{
    nets.sort_by_key(|net| net.number)?;
    Ok(nets)
}

fn net_from(
    alloc: Global,
    rules: NetRules,
    all: &[Address],
    ends: &[Address],
    net: NetTable,
) -> Result<NetPlan, LoadEnd>
    requires all { AllByRecursion IsNode (map (λ at. at.node) all.now) }
    requires ends { AllByRecursion IsNode (map (λ at. at.node) ends.now) }
    ensures { Makes result (λ plan. plan ≡ net_from rules all.now ends.now net) }
{
    let NetTable { number, fates } = net;
    Ok(NetPlan {
        number,
        members: nodes_on(alloc, number, all)?,
        bridges: nodes_on(alloc, number, ends)?,
        fates,
        answer: rules.answer,
        rotations: rules.rotations,
        rounds: rules.rounds,
        holds: rules.holds,
    })
}

/// The networks of a plant with these addresses, rising by number.
fn nets_by_number(
    alloc: Global,
    nets: Nets,
    all: &[Address],
    ends: &[Address],
) -> Result<List<NetPlan>, LoadEnd>
    requires numbers { AllByRecursion (λ net. net.number ≤ NET_LIMIT) nets.tables.items }
    requires all { AllByRecursion IsNode (map (λ at. at.node) all.now) }
    requires ends { AllByRecursion IsNode (map (λ at. at.node) ends.now) }
    ensures { Makes result (λ plans. plans ≡ nets_by_number (read_nets nets) all.now ends.now) }
{
    let Nets { rules, tables } = nets;
    let mut plans = List::new(alloc);
    for net in tables_by_number(tables)? {
        plans.push(net_from(alloc, rules, all, ends, net)?)?;
    }
    Ok(plans)
}

/// The plant of networks, controllers, hosts and bridges in file order.
pub fn plant_from(
    alloc: Global,
    scan_time: u32,
    watchdog: u32,
    nets: Nets,
    controllers: Vec<ControllerPlan>,
    hosts: Vec<HostPlan>,
    bridges: Vec<BridgePlan>,
) -> Result<Plant, LoadEnd>
    requires numbers { AllByRecursion (λ net. net.number ≤ NET_LIMIT) nets.tables.items }
    requires controllers { AllByRecursion (λ plan. IsNode plan.node) controllers.items }
    requires hosts { AllByRecursion (λ host. IsNode host.node) hosts.items }
    requires left { AllByRecursion (λ bridge. IsNode bridge.left) bridges.items }
    requires right { AllByRecursion (λ bridge. IsNode bridge.right) bridges.items }
    ensures { Makes result (λ plant. plant ≡ plant_from scan_time watchdog (read_nets nets)
        controllers.items hosts.items bridges.items) }
{
    let stations = station_addresses(alloc, controllers.as_slice(), hosts.as_slice())?;
    let all = with_ends(stations, bridges.as_slice())?;
    let ends = with_ends(Vec::new(alloc), bridges.as_slice())?;
    let nets = nets_by_number(alloc, nets, all.as_slice(), ends.as_slice())?;
    Ok(Plant {
        scan_time,
        watchdog,
        nets,
        controllers: controllers_by_node(controllers)?,
        hosts: hosts_by_node(hosts)?,
        bridges: bridges_by_left(bridges)?,
    })
}
