//! The worker of a host, and the host's closed history.
ghost use Rattle.std.specs.Prelude.{◌≡◌, true, false, IfOk};
ghost use Rattle.plant_types.specs.Plans.{IsHostPlan};
ghost use Rattle.live_workers.specs.Stations.{IsUnused, HostCameToEnd};
ghost use Rattle.live_workers.specs.Talking.{AttendsOn};

use crate::crews::{Crew, Run};
use crate::pauses::Pause;
use comm_port::{HostWorker, RingSide};
use gated_sides::{Meet, Outside};
use host_port::Host;
use joint_history::HostLog;
use plant_types::HostPlan;
use std::alloc::AllocError;
use std::sync::Wait;
use std::time::Clock;
use turn_laws::{host_turns_keep_on, none_is_spent};

/// Makes a hold turn, where the node holds the token; whether it left.
fn take_turn<G: RingSide + Outside>(
    node: u8,
    worker: &mut HostWorker,
    host: &mut Host,
    ring: &mut G,
) -> Result<bool, AllocError>
    requires node { worker.old.node ≡ node }
    requires attends { AttendsOn worker.old host.old (G.side ring.old) (G.known ring.old) false }
    ensures attends { IfOk result
        (AttendsOn worker.new host.new (G.side ring.new) (G.known ring.new)) }
    ensures node { IfOk result (λ left. worker.new.node ≡ node) }
    ensures plan { host.new.plan ≡ host.old.plan }
    ensures ring_same { G.side ring.new ≡ G.side ring.old }
{
    host_turns_keep_on();
    none_is_spent();
    if !ring.may_hold(node) {
        return Ok(false);
    }
    if ring.holder() != node {
        return Ok(false);
    }
    worker.hold_turn(host, ring)
}

/// Makes hold turns until the node has left; whether it came so far.
pub(crate) fn attend<G: RingSide + Outside, R: Wait + Clock>(
    rt: &R,
    crew: &Crew,
    node: u8,
    worker: &mut HostWorker,
    host: &mut Host,
    ring: &mut G,
) -> bool
    requires node { worker.old.node ≡ node }
    requires attends { AttendsOn worker.old host.old (G.side ring.old) (G.known ring.old) false }
    ensures attends { result ≡ true
        → AttendsOn worker.new host.new (G.side ring.new) (G.known ring.new) true }
    ensures plan { host.new.plan ≡ host.old.plan }
    ensures ring_same { G.side ring.new ≡ G.side ring.old }
{
    let mut watch = crew.begin();
    let mut pause = Pause::new();
    for _ in rt.forever() {
        if watch.is_raised() {
            return false;
        }
        match take_turn(node, worker, host, ring) {
            Ok(true) => return true,
            Ok(false) => pause.rest(rt, crew, &mut watch, ring.entries()),
            Err(_) => {
                watch.raise();
                return false;
            }
        }
    }
    unreachable!()
}

/// The history of a host that ran to its end.
pub(crate) fn run_host<G: RingSide + Outside, M: Meet, R: Wait + Clock>(
    run: &Run<'_, M, R>,
    plan: &HostPlan,
    ring: &mut G,
) -> Result<HostLog, AllocError>
    requires plan { IsHostPlan plan.now }
    requires unused { IsUnused run.now.plant.now plan.now.node (G.side ring.old)
        (G.known ring.old) }
    ensures ended { IfOk result
        (λ log. HostCameToEnd run.now.plant.now plan.now log (G.known ring.new)) }
    ensures side { G.side ring.new ≡ G.side ring.old }
{
    let net = run.plant.own_net(plan.node);
    let mut host = Host::new(run.alloc, plan, net)?;
    let mut worker = HostWorker::new(run.alloc, plan.node, net, false)?;
    if !attend(run.rt, run.crew, plan.node, &mut worker, &mut host, ring) {
        return Err(AllocError);
    }
    Ok(HostLog {
        node: plan.node,
        entries: host.into_history(),
    })
}
