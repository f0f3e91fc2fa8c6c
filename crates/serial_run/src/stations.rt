//! The stations of a plant and their rings, as a run has them.
ghost use Rattle.std.specs.Prelude.{◌≡◌, ◌≤◌, ◌==◌, IfOk};
ghost use Rattle.std.specs.List.{position};
ghost use Rattle.plant_types.specs.Limits.{most_scans};
ghost use Rattle.traffic_cop.specs.Rows.{IsRunnablePlan};
ghost use Rattle.plant_types.specs.Plans.{IsBridgePlan, IsHostPlan, IsNetPlan, net_of};
ghost use Rattle.ring_core.specs.Legal.{IsMember};
ghost use Rattle.joint_history.specs.Runnable.{CanRunPlant};
ghost use Rattle.serial_run.specs.Turns.{is_end_of};
ghost use Rattle.serial_run.specs.Stations.{Starts, StartsController};
ghost use Rattle.serial_run.specs.Stations.{StartsBridgeSite, StartsHost, StartsRing};
ghost use Rattle.serial_run.specs.Stations.{StartBridges, StartControllers, StartHosts, StartRings};

use bridge_station::BridgeStation;
use comm_port::{CommWorker, HostWorker};
use controller_core::Controller;
use host_port::Host;
use plant_types::{BridgePlan, ControllerPlan, Copied, HostPlan, List, NetPlan, Plant};
use ring_core::Ring;
use std::alloc::{AllocError, Global};

/// A controller, its worker, and whether its node has left the ring and does not ask to come in.
#[derive(Drop)]
pub(crate) struct ControllerStation {
    pub(crate) node: u8,
    pub(crate) network: u8,
    pub(crate) controller: Controller,
    pub(crate) worker: CommWorker,
    pub(crate) left: bool,
}

/// A host, its worker, and whether its node has left the ring.
#[derive(Drop)]
pub(crate) struct HostStation {
    pub(crate) node: u8,
    pub(crate) network: u8,
    pub(crate) host: Host,
    pub(crate) worker: HostWorker,
    pub(crate) left: bool,
}

/// A bridge with the workers of its two ends, and where it stands.
#[derive(Drop)]
pub(crate) struct BridgeSite {
    pub(crate) plan: BridgePlan,
    pub(crate) station: BridgeStation,
}

/// The ring of the network of a number, and the nodes of that network.
#[derive(Drop)]
pub(crate) struct RingStation {
    pub(crate) network: u8,
    pub(crate) members: List<u8>,
    pub(crate) ring: Ring,
}

/// All stations of a plant, all bridges, and the ring of each network, as a run has them. This
/// project's own.
#[derive(Drop)]
pub struct Stations {
    pub(crate) controllers: Vec<ControllerStation>,
    pub(crate) hosts: Vec<HostStation>,
    pub(crate) bridges: Vec<BridgeSite>,
    pub(crate) rings: Vec<RingStation>,
}

fn controller_of(
    alloc: Global,
    plant: &Plant,
    plan: &ControllerPlan,
    scans: u32,
) -> Result<ControllerStation, AllocError>
    requires plant { CanRunPlant plant.now }
    requires runs { IsRunnablePlan plan.now }
    requires net { IsNetPlan (net_of plant.now plan.now.node) }
    requires member { IsMember (net_of plant.now plan.now.node) plan.now.node }
    requires scans { scans ≤ most_scans }
    ensures { IfOk result (StartsController plant.now scans plan.now) }
{
    let (scan_time, watchdog) = (plant.scan_time, plant.watchdog);
    let node = plan.node;
    let controller = Controller::new(alloc, plan, scan_time, watchdog, scans)?;
    let _ = controller.history();
    let worker = CommWorker::new(alloc, node, true)?;
    Ok(ControllerStation {
        node,
        network: plan.network,
        controller,
        worker,
        left: false,
    })
}

fn controllers_of(
    alloc: Global,
    plant: &Plant,
    scans: u32,
) -> Result<Vec<ControllerStation>, AllocError>
    requires plant { CanRunPlant plant.now }
    requires scans { scans ≤ most_scans }
    ensures { IfOk result (λ stations. StartControllers plant.now scans stations.items) }
{
    let mut stations = Vec::new(alloc);
    for plan in plant.controllers.as_slice() {
        stations.push(controller_of(alloc, plant, plan, scans)?)?;
    }
    Ok(stations)
}

fn host_of(alloc: Global, plant: &Plant, plan: &HostPlan) -> Result<HostStation, AllocError>
    requires plant { CanRunPlant plant.now }
    requires sound { IsHostPlan plan.now }
    requires net { IsNetPlan (net_of plant.now plan.now.node) }
    requires member { IsMember (net_of plant.now plan.now.node) plan.now.node }
    ensures { IfOk result (StartsHost plant.now plan.now) }
{
    let net = plant.own_net(plan.node);
    let host = Host::new(alloc, plan, net)?;
    let _ = host.history();
    let worker = HostWorker::new(alloc, plan.node, net, true)?;
    Ok(HostStation {
        node: plan.node,
        network: plan.network,
        host,
        worker,
        left: false,
    })
}

fn hosts_of(alloc: Global, plant: &Plant) -> Result<Vec<HostStation>, AllocError>
    requires plant { CanRunPlant plant.now }
    ensures { IfOk result (λ stations. StartHosts plant.now stations.items) }
{
    let mut stations = Vec::new(alloc);
    for plan in plant.hosts.as_slice() {
        stations.push(host_of(alloc, plant, plan)?)?;
    }
    Ok(stations)
}

fn bridge_of(alloc: Global, plant: &Plant, plan: &BridgePlan) -> Result<BridgeSite, AllocError>
    requires plan { IsBridgePlan plan.now }
    requires left_net { IsNetPlan (net_of plant.now plan.now.left) }
    requires left { IsMember (net_of plant.now plan.now.left) plan.now.left }
    requires right_net { IsNetPlan (net_of plant.now plan.now.right) }
    requires right { IsMember (net_of plant.now plan.now.right) plan.now.right }
    ensures { IfOk result (StartsBridgeSite plant.now plan.now) }
{
    let left_net = plant.own_net(plan.left);
    let right_net = plant.own_net(plan.right);
    let station = BridgeStation::new(alloc, plan, left_net, right_net, true)?;
    Ok(BridgeSite {
        plan: *plan,
        station,
    })
}

fn bridges_of(alloc: Global, plant: &Plant) -> Result<Vec<BridgeSite>, AllocError>
    requires { CanRunPlant plant.now }
    ensures { IfOk result (λ sites. StartBridges plant.now sites.items) }
{
    let mut sites = Vec::new(alloc);
    for plan in plant.bridges.as_slice() {
        sites.push(bridge_of(alloc, plant, plan)?)?;
    }
    Ok(sites)
}

fn ring_of(alloc: Global, net: &NetPlan) -> Result<RingStation, AllocError>
    requires { IsNetPlan net.now }
    ensures { IfOk result (StartsRing net.now) }
{
    let members = net.members.copied(alloc)?;
    let ring = Ring::new(alloc, net)?;
    Ok(RingStation {
        network: net.number,
        members,
        ring,
    })
}

fn rings_of(alloc: Global, plant: &Plant) -> Result<Vec<RingStation>, AllocError>
    requires { CanRunPlant plant.now }
    ensures { IfOk result (λ rings. StartRings plant.now rings.items) }
{
    let mut rings = Vec::new(alloc);
    for net in plant.nets.as_slice() {
        rings.push(ring_of(alloc, net)?)?;
    }
    Ok(rings)
}

impl Stations {
    /// All stations of a plant at their start, before any turn. The only error is that memory ran
    /// out.
    pub fn new(alloc: Global, plant: &Plant, scans: u32) -> Result<Stations, AllocError>
        requires plant { CanRunPlant plant.now }
        requires scans { scans ≤ most_scans }
        ensures { IfOk result (Starts plant.now scans) }
    {
        let controllers = controllers_of(alloc, plant, scans)?;
        let hosts = hosts_of(alloc, plant)?;
        let bridges = bridges_of(alloc, plant)?;
        let rings = rings_of(alloc, plant)?;
        Ok(Stations {
            controllers,
            hosts,
            bridges,
            rings,
        })
    }

    /// The place of the controller of a node.
    pub(crate) fn controller_at(&self, node: u8) -> Option<usize>
        ensures { result ≡ position (λ station. station.node == node) self.now.controllers.items }
    {
        self.controllers
            .iter()
            .position(|station| station.node == node)
    }

    /// The place of the host of a node.
    pub(crate) fn host_at(&self, node: u8) -> Option<usize>
        ensures { result ≡ position (λ station. station.node == node) self.now.hosts.items }
    {
        self.hosts.iter().position(|station| station.node == node)
    }

    /// The place of the bridge of which a node is an end.
    pub(crate) fn bridge_at(&self, node: u8) -> Option<usize>
        ensures { result ≡ position (λ site. is_end_of node site.plan) self.now.bridges.items }
    {
        self.bridges
            .iter()
            .position(|site| site.plan.left == node || site.plan.right == node)
    }

    /// The place of the ring of the network of a number.
    pub(crate) fn ring_at(&self, network: u8) -> Option<usize>
        ensures { result ≡ position (λ station. station.network == network) self.now.rings.items }
    {
        self.rings
            .iter()
            .position(|station| station.network == network)
    }
}
