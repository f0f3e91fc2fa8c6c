//! The workers of both ends of a bridge, and the bridge's closed history.
ghost use Rattle.std.specs.Prelude.{◌≡◌, true, false, [], IfOk};
ghost use Rattle.std.specs.Thread.{IsSync};
ghost use Rattle.turn_gate.specs.Known.{first_pass};
ghost use Rattle.plant_types.specs.Plans.{IsBridgePlan, net_of};
ghost use Rattle.ring_core.specs.Legal.{IsMember};
ghost use Rattle.live_workers.specs.Bridging.{AreBothBack, AreEndsMembers, TendsAt, TendsOver};
ghost use Rattle.live_workers.specs.Bridging.{bridge_side};
ghost use Rattle.live_workers.specs.Stations.{BridgeCameToEnd, IsUnusedEnd, ends_side};

use crate::crews::Run;
use crate::pauses::Pause;
use crate::stations::Ends;
use bridge_port::{BridgeSide, BridgeWorker};
use bridge_relay::Bridge;
use comm_port::RingSide;
use end_laws::{end_turns_keep_on, end_turns_spend_nothing};
use gated_sides::{BridgeCell, GatedBridge, Meet, Outside};
use joint_history::BridgeLog;
use plant_types::BridgePlan;
use std::alloc::AllocError;
use std::sync::Wait;
use std::thread::{Threads, join_mut};
use std::time::Clock;
use turn_gate::{Gate, Pass};

/// Makes a hold turn, where the end's node holds the token; whether it left.
fn take_turn<B: BridgeSide, G: RingSide + Outside>(
    side: u8,
    worker: &mut BridgeWorker,
    bridge: &mut B,
    ring: &mut G,
) -> Result<bool, AllocError>
    requires worker { worker.old ≡ record { side = side; budget = false } }
    requires tends { TendsOver B.BridgeSide G.RingSide side bridge.old ring.old false }
    ensures tends { IfOk result (TendsOver B.BridgeSide G.RingSide side bridge.new ring.new) }
    ensures worker { worker.new ≡ worker.old }
    ensures bridge_same { B.bridge bridge.new ≡ B.bridge bridge.old }
    ensures ring_same { G.side ring.new ≡ G.side ring.old }
{
    end_turns_keep_on();
    end_turns_spend_nothing();
    if !ring.may_hold(side) {
        return Ok(false);
    }
    if ring.holder() != side {
        return Ok(false);
    }
    worker.hold_turn(bridge, ring)
}

/// Makes hold turns until the end has left; whether it came so far.
fn tend<B: BridgeSide, G: RingSide + Outside, M: Meet, R: Wait + Clock>(
    run: &Run<'_, M, R>,
    worker: &mut BridgeWorker,
    side: u8,
    bridge: &mut B,
    ring: &mut G,
) -> bool
    requires worker { worker.old ≡ record { side = side; budget = false } }
    requires tends { TendsOver B.BridgeSide G.RingSide side bridge.old ring.old false }
    ensures tends { result ≡ true
        → TendsOver B.BridgeSide G.RingSide side bridge.new ring.new true }
    ensures bridge_same { B.bridge bridge.new ≡ B.bridge bridge.old }
    ensures ring_same { G.side ring.new ≡ G.side ring.old }
{
    let mut watch = run.crew.begin();
    let mut pause = Pause::new();
    for _ in run.rt.forever() {
        if watch.is_raised() {
            return false;
        }
        match take_turn(side, worker, bridge, ring) {
            Ok(true) => return true,
            Ok(false) => pause.rest(run.rt, run.crew, &mut watch, ring.entries()),
            Err(_) => {
                watch.raise();
                return false;
            }
        }
    }
    unreachable!()
}

/// Makes a worker without a budget for an end, and runs it; whether the end has left.
fn run_end<B: BridgeSide, G: RingSide + Outside, M: Meet, R: Wait + Clock>(
    run: &Run<'_, M, R>,
    side: u8,
    bridge: &mut B,
    ring: &mut G,
) -> bool
    requires member { IsMember (net_of run.now.plant.now side) side }
    requires tends { TendsOver B.BridgeSide G.RingSide side bridge.old ring.old false }
    ensures tends { result ≡ true
        → TendsOver B.BridgeSide G.RingSide side bridge.new ring.new true }
    ensures bridge_same { B.bridge bridge.new ≡ B.bridge bridge.old }
    ensures ring_same { G.side ring.new ≡ G.side ring.old }
{
    let net = run.plant.own_net(side);
    let Ok(mut worker) = BridgeWorker::new(run.alloc, side, net, false) else {
        run.crew.raise();
        return false;
    };
    tend(run, &mut worker, side, bridge, ring)
}

/// Runs the workers of both ends, each in a thread where one can be made.
fn run_ends<'a, 'b, G: RingSide + Outside + Send, M: Meet + Sync, R: Threads + Wait + Clock + Sync>(
    run: &Run<'_, M, R>,
    plan: &BridgePlan,
    left: &mut GatedBridge<'a, R>,
    right: &mut GatedBridge<'b, R>,
    near: &mut G,
    far: &mut G,
) -> (bool, bool)
    requires members { AreEndsMembers run.now.plant.now plan.now }
    requires left { TendsAt G.RingSide plan.now.left left.old near.old false }
    requires right { TendsAt G.RingSide plan.now.right right.old far.old false }
    ensures left { result.0 ≡ true → TendsAt G.RingSide plan.now.left left.new near.new true }
    ensures right { result.1 ≡ true → TendsAt G.RingSide plan.now.right right.new far.new true }
    ensures left_same { bridge_side left.new ≡ bridge_side left.old }
    ensures right_same { bridge_side right.new ≡ bridge_side right.old }
    ensures near { G.side near.new ≡ G.side near.old }
    ensures far { G.side far.new ≡ G.side far.old }
{
    join_mut(
        run.rt,
        &mut || -> bool
            requires sync { IsSync R.row × IsSync M.row }
            requires member { IsMember (net_of run.now.plant.now plan.now.left) plan.now.left }
            requires tends { TendsAt G.RingSide plan.now.left left.now near.now false }
            ensures tends { result ≡ true
                → TendsAt G.RingSide plan.entry.now.left left.exit.now near.exit.now true }
            ensures same { bridge_side left.exit.now ≡ bridge_side left.entry.now }
            ensures side { G.side near.exit.now ≡ G.side near.entry.now }
        { run_end(run, plan.left, left, near) },
        &mut || -> bool
            requires sync { IsSync R.row × IsSync M.row }
            requires member { IsMember (net_of run.now.plant.now plan.now.right) plan.now.right }
            requires tends { TendsAt G.RingSide plan.now.right right.now far.now false }
            ensures tends { result ≡ true
                → TendsAt G.RingSide plan.entry.now.right right.exit.now far.exit.now true }
            ensures same { bridge_side right.exit.now ≡ bridge_side right.entry.now }
            ensures side { G.side far.exit.now ≡ G.side far.entry.now }
        { run_end(run, plan.right, right, far) },
    )
}

/// Splits two passes off, runs the workers of both ends, and joins the passes.
fn through_gate<G: RingSide + Outside + Send, M: Meet + Sync, R: Threads + Wait + Clock + Sync>(
    run: &Run<'_, M, R>,
    gate: &Gate<BridgeCell>,
    zero: Pass<BridgeCell>,
    plan: &BridgePlan,
    ends: &mut Ends<G>,
) -> (Pass<BridgeCell>, bool)
    requires zero { zero ≡ first_pass gate.now.name }
    requires unused { gate.now.name.opening ≡ [] }
    requires fixed { gate.now.fixed ≡ plan.now }
    requires plan { IsBridgePlan plan.now }
    requires left { IsUnusedEnd run.now.plant.now plan.now.left (G.side ends.old.left)
        (G.known ends.old.left) }
    requires right { IsUnusedEnd run.now.plant.now plan.now.right (G.side ends.old.right)
        (G.known ends.old.right) }
    ensures back { AreBothBack G.RingSide gate.now plan.now ends.new result.0 result.1 }
    ensures sides { ends_side G.side ends.new ≡ ends_side G.side ends.old }
{
    let (zero, one) = gate.split(zero, u32::from(plan.left));
    let (zero, two) = gate.split(zero, u32::from(plan.right));
    let mut left = GatedBridge::new(run.rt, gate, one);
    let mut right = GatedBridge::new(run.rt, gate, two);
    let near = &mut ends.left;
    let far = &mut ends.right;
    let (left_done, right_done) = run_ends(run, plan, &mut left, &mut right, near, far);
    let zero = gate.join(zero, left.into_pass());
    let zero = gate.join(zero, right.into_pass());
    (zero, left_done & right_done)
}

/// The history of a bridge both of whose ends ran behind its gate to their ends.
pub(crate) fn run_bridge<
    G: RingSide + Outside + Send,
    M: Meet + Sync,
    R: Threads + Wait + Clock + Sync,
>(run: &Run<'_, M, R>, plan: &BridgePlan, ends: &mut Ends<G>) -> Result<BridgeLog, AllocError>
    requires plan { IsBridgePlan plan.now }
    requires left { IsUnusedEnd run.now.plant.now plan.now.left (G.side ends.old.left)
        (G.known ends.old.left) }
    requires right { IsUnusedEnd run.now.plant.now plan.now.right (G.side ends.old.right)
        (G.known ends.old.right) }
    ensures ended { IfOk result (λ log. BridgeCameToEnd run.now.plant.now plan.now log
        (G.known ends.new.left) (G.known ends.new.right)) }
    ensures sides { ends_side G.side ends.new ≡ ends_side G.side ends.old }
{
    let bridge = Bridge::new(run.alloc, plan)?;
    let (gate, zero) = Gate::new(run.alloc, BridgeCell::new(bridge))?;
    let (zero, done) = through_gate(run, &gate, zero, plan, ends);
    let bridge = gate.close(zero).into_inner();
    if !done {
        return Err(AllocError);
    }
    Ok(BridgeLog {
        left: plan.left,
        right: plan.right,
        entries: bridge.into_history(),
    })
}
