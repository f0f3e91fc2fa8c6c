//! Where the stations and the bridges of a plant stand.
ghost use Rattle.std.specs.Prelude.{◌≡◌, ◌++◌, ◌∷◌, [], ◌==◌, map, filter};
ghost use Rattle.std.specs.List.{list_any, AllByRecursion};
ghost use Rattle.plant_types.specs.Plans.{IsNode};
ghost use Rattle.plant_tables.specs.Refusals.{Makes};
ghost use Rattle.plant_loader.specs.Whole.{address_on, station_addresses, end_addresses, nodes_on};
ghost use Rattle.plant_loader.specs.Rising.{by_node};

use plant_tables::LoadEnd;
use plant_types::{BridgePlan, ControllerPlan, HostPlan, List};
use std::alloc::Global;

/// The address of a node on a network.
#[derive(Clone, Copy)]
pub struct Address {
    pub network: u8,
    pub node: u8,
}

fn controller_addresses(alloc: Global, plans: &[ControllerPlan]) -> Result<Vec<Address>, LoadEnd>
    ensures { Makes result (λ addresses. addresses.items
        ≡ map (λ plan. address_on plan.network plan.node) plans.now) }
{
    let mut addresses = Vec::new(alloc);
    for plan in plans {
        let address = Address {
            network: plan.network,
            node: plan.node,
        };
        if addresses.push(address).is_err() {
            return Err(LoadEnd::NoMemory);
        }
    }
    Ok(addresses)
}

/// These addresses, and those of hosts behind them.
fn with_hosts(mut addresses: Vec<Address>, hosts: &[HostPlan]) -> Result<Vec<Address>, LoadEnd>
    ensures { Makes result (λ all. all.items ≡ addresses.items
        ++ map (λ host. address_on host.network host.node) hosts.now) }
{
    for host in hosts {
        let address = Address {
            network: host.network,
            node: host.node,
        };
        if addresses.push(address).is_err() {
            return Err(LoadEnd::NoMemory);
        }
    }
    Ok(addresses)
}

/// The addresses of controllers and of hosts, in file order.
pub fn station_addresses(
    alloc: Global,
    controllers: &[ControllerPlan],
    hosts: &[HostPlan],
) -> Result<Vec<Address>, LoadEnd>
    ensures { Makes result (λ all. all.items ≡ station_addresses controllers.now hosts.now) }
{
    let addresses = controller_addresses(alloc, controllers)?;
    with_hosts(addresses, hosts)
}

/// These addresses, and one more.
fn with_address(mut addresses: Vec<Address>, network: u8, node: u8) -> Result<Vec<Address>, LoadEnd>
    ensures { Makes result (λ all. all.items ≡ addresses.items ++ address_on network node ∷ []) }
{
    if addresses.push(Address { network, node }).is_err() {
        return Err(LoadEnd::NoMemory);
    }
    Ok(addresses)
}

/// These addresses, and those of the ends of bridges behind them.
pub fn with_ends(addresses: Vec<Address>, bridges: &[BridgePlan]) -> Result<Vec<Address>, LoadEnd>
    ensures { Makes result (λ all. all.items ≡ addresses.items ++ end_addresses bridges.now) }
{
    let mut all = addresses;
    for bridge in bridges {
        all = with_address(all, bridge.left_net, bridge.left)?;
        all = with_address(all, bridge.right_net, bridge.right)?;
    }
    Ok(all)
}

/// Whether one of these is on a network.
pub fn is_on(addresses: &[Address], network: u8) -> bool
    ensures { result ≡ list_any (λ at. at.network == network) addresses.now }
{
    addresses.iter().any(|at| at.network == network)
}

/// Whether one of these is that of a node.
pub fn has_node(addresses: &[Address], node: u8) -> bool
    ensures { result ≡ list_any (λ at. at.node == node) addresses.now }
{
    addresses.iter().any(|at| at.node == node)
}

fn nodes_unsorted(alloc: Global, network: u8, addresses: &[Address]) -> Result<Vec<u8>, LoadEnd>
    ensures { Makes result (λ nodes. nodes.items
        ≡ map (λ at. at.node) (filter (λ at. at.network == network) addresses.now)) }
{
    let mut nodes = Vec::new(alloc);
    for at in addresses {
        if at.network == network && nodes.push(at.node).is_err() {
            return Err(LoadEnd::NoMemory);
        }
    }
    Ok(nodes)
}

fn nodes_rising(mut nodes: Vec<u8>) -> Result<List<u8>, LoadEnd>
    requires { AllByRecursion IsNode nodes.items }
    ensures { Makes result (λ rising. rising ≡ by_node (λ node. node) nodes.items) }
{
    nodes.sort_by_key(|node| *node)?;
    Ok(List::from_vec(nodes))
}

/// The nodes on a network among these addresses, rising.
pub fn nodes_on(alloc: Global, network: u8, addresses: &[Address]) -> Result<List<u8>, LoadEnd>
    requires { AllByRecursion IsNode (map (λ at. at.node) addresses.now) }
    ensures { Makes result (λ nodes. nodes ≡ nodes_on network addresses.now) }
{
    nodes_rising(nodes_unsorted(alloc, network, addresses)?)
}
