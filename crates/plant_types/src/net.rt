//! The Modbus Plus networks of a plant, its bridges and its hosts.
ghost use Rattle.std.specs.Prelude.{◌≡◌, true, All, Contains};
ghost use Rattle.std.specs.List.Sorted.{IsStrictlyIncreasing};
ghost use Rattle.plant_types.specs.Plans.{IsNode, IsRouteFrom, is_routed, AreMembers, AreBridges};
ghost use Rattle.plant_types.specs.Plans.{HasNetNumbers, IsNetPlan, IsAskOf, IsHostPlan};

use crate::list::List;
use crate::route::Route;
use crate::words::Pdu;

/// What becomes of one transmission on the ring. This project's own.
#[derive(Clone, Copy, Debug, PartialEq, Eq)]
pub enum Fate {
    /// Delivered.
    D,
    /// Lost.
    L,
    /// Delivered, but its acknowledgement is lost.
    A,
}

/// A network: its members, and how its ring treats them. All but the members is this project's own.
pub struct NetPlan {
    /// 1 to 8; 0 in a plant file of version 1.
    pub number: u8,
    /// At least one node, each 1 to 64, strictly rising.
    pub members: List<u8>,
    /// Those of its members that are ends of bridges, strictly rising.
    pub bridges: List<u8>,
    /// 1 to 1000 letters; the transmissions take them in turn, again and again.
    pub fates: List<Fate>,
    /// After how many own Passes a call without a reply is given up, 2 to 1000.
    pub answer: u32,
    /// Rounds of the token after each scan, 1 to 10.
    pub rotations: u32,
    /// How many Passes in a row every member has to be done before a node leaves, 1 to 100.
    pub rounds: u32,
    /// After how many Passes a node with a budget leaves in any case, 1 to 100,000. A live run has
    /// no budgets.
    pub holds: u32,
}

impl Drop for NetPlan {
    fn drop(self) {
        let NetPlan {
            number: _,
            members: _,
            bridges: _,
            fates: _,
            answer: _,
            rotations: _,
            rounds: _,
            holds: _,
        } = self;
    }
}

/// A request that a host makes. This project's own.
pub struct HostAsk {
    /// The hold of the token from which on it is due, 1 to 10,000.
    pub hold: u32,
    /// The addresses by which it goes, each 1 to 64; the last one is asked. One alone in a plant
    /// file of version 1.
    pub route: Route,
    pub pdu: Pdu,
}

impl Drop for HostAsk {
    fn drop(self) {
        let HostAsk {
            hold: _,
            route: _,
            pdu: _,
        } = self;
    }
}

/// A host: a node that asks others and solves nothing.
pub struct HostPlan {
    /// Its address on the network, 1 to 64.
    pub node: u8,
    /// The number of its network; 0 in a plant file of version 1.
    pub network: u8,
    /// Up to 1000, asked in their order.
    pub requests: List<HostAsk>,
}

impl Drop for HostPlan {
    fn drop(self) {
        let HostPlan {
            node: _,
            network: _,
            requests: _,
        } = self;
    }
}

/// A bridge: one station with an address on each of two networks. This project's own form.
#[derive(Clone, Copy, Debug, PartialEq, Eq)]
pub struct BridgePlan {
    /// The number of the network on its left.
    pub left_net: u8,
    /// Its address there.
    pub left: u8,
    /// The number of the network on its right.
    pub right_net: u8,
    /// Its address there.
    pub right: u8,
}

/// The highest number of a network of nodes.
pub const NET_LIMIT: u8 = 8;

/// The most bridges of a plant. This project's own.
pub const BRIDGE_LIMIT: usize = 16;

/// The highest address of a node.
pub const NODE_LIMIT: u8 = 64;

/// The addresses from 0 on: each node's is below this.
pub const ADDRESSES: u8 = 65;

/// How many paths a node has by the network.
pub const NETWORK_PATH_COUNT: usize = 4;

/// The paths of a node by the network.
pub const NETWORK_PATHS: [u8; NETWORK_PATH_COUNT] = [1, 2, 3, 4];

/// The paths of a node, with path 0 of its own calls.
pub const PATH_PLACES: usize = NETWORK_PATH_COUNT + 1;

/// The most fates of a network, which its transmissions take in turn.
pub const FATE_LIMIT: usize = 1000;

/// The most own Passes after which a call without a reply is given up.
pub const ANSWER_LIMIT: u32 = 1000;

/// The most rounds of the token after a scan.
pub const ROTATION_LIMIT: u32 = 10;

/// The most Passes in a row that every member has to be done before a node leaves.
pub const ROUND_LIMIT: u32 = 100;

/// The most Passes after which a node with a budget leaves in any case.
pub const HOLD_LIMIT: u32 = 100_000;

/// The most requests of a host.
pub const REQUEST_LIMIT: usize = 1000;

/// The last hold of the token from which on a request is due.
pub const DUE_LIMIT: u32 = 10_000;

fn is_node(node: u8) -> bool
    ensures only { result ≡ true → IsNode node }
    ensures all { IsNode node → result ≡ true }
{
    1 <= node && node <= NODE_LIMIT
}

fn are_nodes(nodes: &[u8]) -> bool
    ensures only { result ≡ true → All IsNode nodes.now }
    ensures all { All IsNode nodes.now → result ≡ true }
{
    for at in 0..nodes.len() {
        if !is_node(nodes[at]) {
            return false;
        }
    }
    true
}

fn rise(nodes: &[u8]) -> bool
    ensures only { result ≡ true → IsStrictlyIncreasing nodes.now }
    ensures all { IsStrictlyIncreasing nodes.now → result ≡ true }
{
    for at in 1..nodes.len() {
        if nodes[at - 1] >= nodes[at] {
            return false;
        }
    }
    true
}

fn are_members(nodes: &[u8]) -> bool
    ensures only { result ≡ true → AreMembers nodes.now }
    ensures all { AreMembers nodes.now → result ≡ true }
{
    !nodes.is_empty() && are_nodes(nodes) && rise(nodes)
}

fn is_among(members: &[u8], node: u8) -> bool
    ensures only { result ≡ true → Contains members.now node }
    ensures all { Contains members.now node → result ≡ true }
{
    members.contains(&node)
}

fn are_among(members: &[u8], nodes: &[u8]) -> bool
    ensures only { result ≡ true → All (Contains members.now) nodes.now }
    ensures all { All (Contains members.now) nodes.now → result ≡ true }
{
    for at in 0..nodes.len() {
        if !is_among(members, nodes[at]) {
            return false;
        }
    }
    true
}

fn are_bridges(members: &[u8], nodes: &[u8]) -> bool
    ensures only { result ≡ true → AreBridges members.now nodes.now }
    ensures all { AreBridges members.now nodes.now → result ≡ true }
{
    are_among(members, nodes) && rise(nodes)
}

fn has_net_numbers(net: &NetPlan) -> bool
    ensures only { result ≡ true → HasNetNumbers net.now }
    ensures all { HasNetNumbers net.now → result ≡ true }
{
    net.number <= NET_LIMIT
        && (2..=ANSWER_LIMIT).contains(&net.answer)
        && (1..=ROTATION_LIMIT).contains(&net.rotations)
        && (1..=ROUND_LIMIT).contains(&net.rounds)
        && (1..=HOLD_LIMIT).contains(&net.holds)
}

/// Whether a network can be run: its members are addresses and rise, its ends of bridges are among
/// them and rise, and each of its numbers is in its range.
pub fn is_net_plan(net: &NetPlan) -> bool
    ensures only { result ≡ true → IsNetPlan net.now }
    ensures all { IsNetPlan net.now → result ≡ true }
{
    let members = net.members.as_slice();
    let bridges = net.bridges.as_slice();
    let fates = net.fates.as_slice().len();
    has_net_numbers(net)
        && are_members(members)
        && are_bridges(members, bridges)
        && (1..=FATE_LIMIT).contains(&fates)
}

/// Whether routes may lead over bridges on a network of this number.
pub fn is_routed(network: u8) -> bool
    ensures { result ≡ is_routed network }
{
    network > 0
}

fn is_route_from(routed: bool, own: u8, route: &[u8]) -> bool
    ensures only { result ≡ true → IsRouteFrom routed own route.now }
    ensures all { IsRouteFrom routed own route.now → result ≡ true }
{
    !route.is_empty() && are_nodes(route) && route[0] != own && (routed || route.len() == 1)
}

fn is_ask_of(host: &HostPlan, ask: &HostAsk) -> bool
    ensures only { result ≡ true → IsAskOf host.now ask.now }
    ensures all { IsAskOf host.now ask.now → result ≡ true }
{
    let route = ask.route.addresses();
    1 <= ask.hold
        && ask.hold <= DUE_LIMIT
        && is_route_from(is_routed(host.network), host.node, route)
}

fn are_asks_of(host: &HostPlan, asks: &[HostAsk]) -> bool
    ensures only { result ≡ true → All (IsAskOf host.now) asks.now }
    ensures all { All (IsAskOf host.now) asks.now → result ≡ true }
{
    for at in 0..asks.len() {
        if !is_ask_of(host, &asks[at]) {
            return false;
        }
    }
    true
}

/// Whether a host can be run: it has an address, at most a thousand requests, and each of them is
/// due at a hold in its range and goes by a route to another node.
pub fn is_host_plan(host: &HostPlan) -> bool
    ensures only { result ≡ true → IsHostPlan host.now }
    ensures all { IsHostPlan host.now → result ≡ true }
{
    let requests = host.requests.as_slice();
    is_node(host.node) && requests.len() <= REQUEST_LIMIT && are_asks_of(host, requests)
}
