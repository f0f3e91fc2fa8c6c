//! The stations of a run, each half in a thread where one can be made.
ghost use Rattle.std.specs.Prelude.{◌≡◌, ◌<◌, length};
ghost use Rattle.std.specs.Thread.{IsSync};
ghost use Rattle.plant_types.specs.Plans.{IsBridgePlan, IsHostPlan};
ghost use Rattle.live_workers.specs.Stations.{IsFresh, AreControllersFresh, AreHostsFresh};
ghost use Rattle.live_workers.specs.Stations.{HasRun, HostHasRun, AllRan, AllServed};
ghost use Rattle.live_workers.specs.Stations.{CanRun, CanRunAll, CanServeAll, AreBridgePlans};
ghost use Rattle.live_workers.specs.Stations.{AllCrossed, AreBridgesFresh, BridgeHasRun};
ghost use Rattle.live_workers.specs.Stations.{AreBridgesReady, AreNodesReady};
ghost use Rattle.live_workers.specs.Stations.{IsBridgeFresh, ends_side};

use crate::bridging::run_bridge;
use crate::crews::Run;
use crate::hosting::run_host;
use crate::pairs::run_controller;
use comm_port::RingSide;
use controller_core::Notes;
use gated_sides::{Meet, Outside};
use joint_history::{BridgeLog, ControllerLog, HostLog};
use plant_types::{BridgePlan, ControllerPlan, HostPlan};
use std::sync::Wait;
use std::thread::{Threads, join_mut};
use std::time::Clock;

/// A station: its side of its ring, or both sides of a bridge, and its closed history once it ran
/// to its end.
pub struct Station<G, L> {
    pub ring: G,
    pub log: Option<L>,
}

/// The sides that both ends of a bridge have, each of the ring of its network.
pub struct Ends<G> {
    pub left: G,
    pub right: G,
}

/// The closed history of a controller, and what it noted of its panel.
#[derive(Drop)]
pub struct NotedLog {
    pub log: ControllerLog,
    pub notes: Notes,
}

/// Runs the controllers of these plans, each at the station beside its plan.
#[cycle(controllers)]
pub(crate) fn run_controllers<
    G: RingSide + Outside + Send,
    M: Meet + Sync,
    R: Threads + Wait + Clock + Sync,
>(run: &Run<'_, M, R>, plans: &[ControllerPlan], stations: &mut [Station<G, NotedLog>])
    requires runnable { CanRunAll run.now.plant.now run.now.scans plans.now }
    requires fresh { AreControllersFresh G.side G.known run.now.plant.now plans.now stations.old }
    ensures { AllRan G.side G.known run.now.plant.now run.now.scans plans.now
        stations.old stations.new }
{
    if stations.is_empty() {
        return;
    }
    if stations.len() == 1 {
        run_one(run, &plans[0], &mut stations[0]);
        return;
    }
    let half = stations.len() / 2;
    let (first, second) = plans.split_at(half);
    let (front, back) = stations.split_at_mut(half);
    run_halves(run, first, second, front, back);
}

/// Runs the controller of a plan at its station.
fn run_one<G: RingSide + Outside + Send, M: Meet + Sync, R: Threads + Wait + Clock + Sync>(
    run: &Run<'_, M, R>,
    plan: &ControllerPlan,
    station: &mut Station<G, NotedLog>,
)
    requires runnable { CanRun run.now.plant.now run.now.scans plan.now }
    requires fresh { IsFresh G.side G.known run.now.plant.now plan.now.node station.old }
    ensures ran { HasRun G.known run.now.plant.now run.now.scans plan.now station.new }
    ensures side { G.side station.new.ring ≡ G.side station.old.ring }
{
    match run_controller(run, plan, &mut station.ring) {
        Ok(noted) => station.log = Some(noted),
        Err(_) => run.crew.raise(),
    }
}

#[cycle(controllers)]
fn run_halves<G: RingSide + Outside + Send, M: Meet + Sync, R: Threads + Wait + Clock + Sync>(
    run: &Run<'_, M, R>,
    first: &[ControllerPlan],
    second: &[ControllerPlan],
    front: &mut [Station<G, NotedLog>],
    back: &mut [Station<G, NotedLog>],
)
    requires runnable_first { CanRunAll run.now.plant.now run.now.scans first.now }
    requires runnable_second { CanRunAll run.now.plant.now run.now.scans second.now }
    requires fresh_front { AreControllersFresh G.side G.known run.now.plant.now first.now
        front.old }
    requires fresh_back { AreControllersFresh G.side G.known run.now.plant.now second.now back.old }
    requires shorter { (0 < length front.old) × (0 < length back.old) }
    ensures front { AllRan G.side G.known run.now.plant.now run.now.scans first.now
        front.old front.new }
    ensures back { AllRan G.side G.known run.now.plant.now run.now.scans second.now
        back.old back.new }
{
    join_mut(
        run.rt,
        &mut ||
            requires sync { IsSync R.row × IsSync M.row }
            requires runnable { CanRunAll run.now.plant.now run.now.scans first.now }
            requires fresh { AreControllersFresh G.side G.known run.now.plant.now first.now
                front.now }
            ensures { AllRan G.side G.known run.entry.now.plant.now run.entry.now.scans
                first.entry.now front.entry.now front.exit.now }
        { run_controllers(run, first, front) },
        &mut ||
            requires sync { IsSync R.row × IsSync M.row }
            requires runnable { CanRunAll run.now.plant.now run.now.scans second.now }
            requires fresh { AreControllersFresh G.side G.known run.now.plant.now second.now
                back.now }
            ensures { AllRan G.side G.known run.entry.now.plant.now run.entry.now.scans
                second.entry.now back.entry.now back.exit.now }
        { run_controllers(run, second, back) },
    );
}

/// Runs the hosts of these plans, each at the station beside its plan.
#[cycle(hosts)]
pub(crate) fn run_hosts<
    G: RingSide + Outside + Send,
    M: Meet + Sync,
    R: Threads + Wait + Clock + Sync,
>(run: &Run<'_, M, R>, plans: &[HostPlan], stations: &mut [Station<G, HostLog>])
    requires runnable { CanServeAll plans.now }
    requires fresh { AreHostsFresh G.side G.known run.now.plant.now plans.now stations.old }
    ensures { AllServed G.side G.known run.now.plant.now plans.now stations.old stations.new }
{
    if stations.is_empty() {
        return;
    }
    if stations.len() == 1 {
        serve_one(run, &plans[0], &mut stations[0]);
        return;
    }
    let half = stations.len() / 2;
    let (first, second) = plans.split_at(half);
    let (front, back) = stations.split_at_mut(half);
    run_host_halves(run, first, second, front, back);
}

/// Runs the host of a plan at its station.
fn serve_one<G: RingSide + Outside + Send, M: Meet + Sync, R: Threads + Wait + Clock + Sync>(
    run: &Run<'_, M, R>,
    plan: &HostPlan,
    station: &mut Station<G, HostLog>,
)
    requires runnable { IsHostPlan plan.now }
    requires fresh { IsFresh G.side G.known run.now.plant.now plan.now.node station.old }
    ensures ran { HostHasRun G.known run.now.plant.now plan.now station.new }
    ensures side { G.side station.new.ring ≡ G.side station.old.ring }
{
    match run_host(run, plan, &mut station.ring) {
        Ok(log) => station.log = Some(log),
        Err(_) => run.crew.raise(),
    }
}

#[cycle(hosts)]
fn run_host_halves<G: RingSide + Outside + Send, M: Meet + Sync, R: Threads + Wait + Clock + Sync>(
    run: &Run<'_, M, R>,
    first: &[HostPlan],
    second: &[HostPlan],
    front: &mut [Station<G, HostLog>],
    back: &mut [Station<G, HostLog>],
)
    requires runnable { CanServeAll first.now × CanServeAll second.now }
    requires fresh_front { AreHostsFresh G.side G.known run.now.plant.now first.now front.old }
    requires fresh_back { AreHostsFresh G.side G.known run.now.plant.now second.now back.old }
    requires shorter { (0 < length front.old) × (0 < length back.old) }
    ensures front { AllServed G.side G.known run.now.plant.now first.now front.old front.new }
    ensures back { AllServed G.side G.known run.now.plant.now second.now back.old back.new }
{
    join_mut(
        run.rt,
        &mut ||
            requires sync { IsSync R.row × IsSync M.row }
            requires runnable { CanServeAll first.now }
            requires fresh { AreHostsFresh G.side G.known run.now.plant.now first.now front.now }
            ensures { AllServed G.side G.known run.entry.now.plant.now first.entry.now
                front.entry.now front.exit.now }
        { run_hosts(run, first, front) },
        &mut ||
            requires sync { IsSync R.row × IsSync M.row }
            requires runnable { CanServeAll second.now }
            requires fresh { AreHostsFresh G.side G.known run.now.plant.now second.now back.now }
            ensures { AllServed G.side G.known run.entry.now.plant.now second.entry.now
                back.entry.now back.exit.now }
        { run_hosts(run, second, back) },
    );
}

/// Runs these bridges, each at the station beside its plan.
#[cycle(bridges)]
pub(crate) fn run_bridges<
    G: RingSide + Outside + Send,
    M: Meet + Sync,
    R: Threads + Wait + Clock + Sync,
>(run: &Run<'_, M, R>, plans: &[BridgePlan], stations: &mut [Station<Ends<G>, BridgeLog>])
    requires runnable { AreBridgePlans plans.now }
    requires fresh { AreBridgesFresh G.side G.known run.now.plant.now plans.now stations.old }
    ensures { AllCrossed G.side G.known run.now.plant.now plans.now stations.old stations.new }
{
    if stations.is_empty() {
        return;
    }
    if stations.len() == 1 {
        cross_one(run, &plans[0], &mut stations[0]);
        return;
    }
    let half = stations.len() / 2;
    let (first, second) = plans.split_at(half);
    let (front, back) = stations.split_at_mut(half);
    run_bridge_halves(run, first, second, front, back);
}

/// Runs the bridge of a plan at its station.
fn cross_one<G: RingSide + Outside + Send, M: Meet + Sync, R: Threads + Wait + Clock + Sync>(
    run: &Run<'_, M, R>,
    plan: &BridgePlan,
    station: &mut Station<Ends<G>, BridgeLog>,
)
    requires runnable { IsBridgePlan plan.now }
    requires fresh { IsBridgeFresh G.side G.known run.now.plant.now plan.now station.old }
    ensures ran { BridgeHasRun G.known run.now.plant.now plan.now station.new }
    ensures sides { ends_side G.side station.new.ring ≡ ends_side G.side station.old.ring }
{
    match run_bridge(run, plan, &mut station.ring) {
        Ok(log) => station.log = Some(log),
        Err(_) => run.crew.raise(),
    }
}

#[cycle(bridges)]
fn run_bridge_halves<
    G: RingSide + Outside + Send,
    M: Meet + Sync,
    R: Threads + Wait + Clock + Sync,
>(
    run: &Run<'_, M, R>,
    first: &[BridgePlan],
    second: &[BridgePlan],
    front: &mut [Station<Ends<G>, BridgeLog>],
    back: &mut [Station<Ends<G>, BridgeLog>],
)
    requires runnable { AreBridgePlans first.now × AreBridgePlans second.now }
    requires fresh_front { AreBridgesFresh G.side G.known run.now.plant.now first.now front.old }
    requires fresh_back { AreBridgesFresh G.side G.known run.now.plant.now second.now back.old }
    requires shorter { (0 < length front.old) × (0 < length back.old) }
    ensures front { AllCrossed G.side G.known run.now.plant.now first.now front.old front.new }
    ensures back { AllCrossed G.side G.known run.now.plant.now second.now back.old back.new }
{
    join_mut(
        run.rt,
        &mut ||
            requires sync { IsSync R.row × IsSync M.row }
            requires runnable { AreBridgePlans first.now }
            requires fresh { AreBridgesFresh G.side G.known run.now.plant.now first.now front.now }
            ensures { AllCrossed G.side G.known run.entry.now.plant.now first.entry.now
                front.entry.now front.exit.now }
        { run_bridges(run, first, front) },
        &mut ||
            requires sync { IsSync R.row × IsSync M.row }
            requires runnable { AreBridgePlans second.now }
            requires fresh { AreBridgesFresh G.side G.known run.now.plant.now second.now back.now }
            ensures { AllCrossed G.side G.known run.entry.now.plant.now second.entry.now
                back.entry.now back.exit.now }
        { run_bridges(run, second, back) },
    );
}

/// Runs all controllers and all hosts of a plant.
fn run_nodes<G: RingSide + Outside + Send, M: Meet + Sync, R: Threads + Wait + Clock + Sync>(
    run: &Run<'_, M, R>,
    controllers: &mut [Station<G, NotedLog>],
    hosts: &mut [Station<G, HostLog>],
)
    requires ready { AreNodesReady G.side G.known run.now.plant.now run.now.scans
        controllers.old hosts.old }
    ensures controllers { AllRan G.side G.known run.now.plant.now run.now.scans
        run.now.plant.now.controllers controllers.old controllers.new }
    ensures hosts { AllServed G.side G.known run.now.plant.now run.now.plant.now.hosts
        hosts.old hosts.new }
{
    let plans = run.plant.controllers.as_slice();
    let host_plans = run.plant.hosts.as_slice();
    join_mut(
        run.rt,
        &mut ||
            requires sync { IsSync R.row × IsSync M.row }
            requires runnable { CanRunAll run.now.plant.now run.now.scans plans.now }
            requires fresh { AreControllersFresh G.side G.known run.now.plant.now plans.now
                controllers.now }
            ensures { AllRan G.side G.known run.entry.now.plant.now run.entry.now.scans
                plans.entry.now controllers.entry.now controllers.exit.now }
        { run_controllers(run, plans, controllers) },
        &mut ||
            requires sync { IsSync R.row × IsSync M.row }
            requires runnable { CanServeAll host_plans.now }
            requires fresh { AreHostsFresh G.side G.known run.now.plant.now host_plans.now
                hosts.now }
            ensures { AllServed G.side G.known run.entry.now.plant.now host_plans.entry.now
                hosts.entry.now hosts.exit.now }
        { run_hosts(run, host_plans, hosts) },
    );
}

/// Runs all controllers, all hosts and all bridges of a plant, each at the station beside its plan,
/// in threads where threads can be made. Where a station then has a history, it ran to its end.
pub fn run_all<G: RingSide + Outside + Send, M: Meet + Sync, R: Threads + Wait + Clock + Sync>(
    run: &Run<'_, M, R>,
    controllers: &mut [Station<G, NotedLog>],
    hosts: &mut [Station<G, HostLog>],
    bridges: &mut [Station<Ends<G>, BridgeLog>],
)
    requires nodes { AreNodesReady G.side G.known run.now.plant.now run.now.scans
        controllers.old hosts.old }
    requires bridges { AreBridgesReady G.side G.known run.now.plant.now bridges.old }
    ensures controllers { AllRan G.side G.known run.now.plant.now run.now.scans
        run.now.plant.now.controllers controllers.old controllers.new }
    ensures hosts { AllServed G.side G.known run.now.plant.now run.now.plant.now.hosts
        hosts.old hosts.new }
    ensures bridges { AllCrossed G.side G.known run.now.plant.now run.now.plant.now.bridges
        bridges.old bridges.new }
{
    let plans = run.plant.bridges.as_slice();
    join_mut(
        run.rt,
        &mut ||
            requires sync { IsSync R.row × IsSync M.row }
            requires ready { AreNodesReady G.side G.known run.now.plant.now run.now.scans
                controllers.now hosts.now }
            ensures controllers { AllRan G.side G.known run.entry.now.plant.now run.entry.now.scans
                run.entry.now.plant.now.controllers controllers.entry.now controllers.exit.now }
            ensures hosts { AllServed G.side G.known run.entry.now.plant.now
                run.entry.now.plant.now.hosts hosts.entry.now hosts.exit.now }
        { run_nodes(run, controllers, hosts) },
        &mut ||
            requires sync { IsSync R.row × IsSync M.row }
            requires runnable { AreBridgePlans plans.now }
            requires fresh { AreBridgesFresh G.side G.known run.now.plant.now plans.now
                bridges.now }
            ensures { AllCrossed G.side G.known run.entry.now.plant.now plans.entry.now
                bridges.entry.now bridges.exit.now }
        { run_bridges(run, plans, bridges) },
    );
}
