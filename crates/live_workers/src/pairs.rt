//! The two workers of one controller, and its closed history.
ghost use Rattle.std.specs.Prelude.{◌≡◌, true, false, IfOk};
ghost use Rattle.std.specs.Thread.{IsSync};
ghost use Rattle.turn_gate.specs.Known.{IsPassReady, first_pass};
ghost use Rattle.gated_sides.specs.Cells.{maker_number};
ghost use Rattle.live_workers.specs.Pairs.{IsBack, StaysAt, TalksAt, TalksFirst};
ghost use Rattle.live_workers.specs.Stations.{CanRun, IsUnused, CameNoted};

use crate::crews::Run;
use crate::scanning::scan_all;
use crate::stations::NotedLog;
use crate::talking::{Stage, talk};
use comm_port::{CommWorker, RingSide};
use controller_core::Controller;
use gated_sides::{GatedRam, Meet, Outside, RamCell};
use joint_history::ControllerLog;
use plant_types::ControllerPlan;
use std::alloc::AllocError;
use std::sync::Wait;
use std::thread::{Threads, join_mut};
use std::time::Clock;
use turn_gate::{Gate, Pass};

/// Runs the scan worker and the communication worker, each in a thread where one can be made. Where
/// none can, the first comes last: a worker talks until the scans have ended.
fn run_pair<'a, G: RingSide + Outside + Send, M: Meet + Sync, R: Threads + Wait + Clock + Sync>(
    run: &Run<'_, M, R>,
    gate: &Gate<RamCell>,
    one: &mut Pass<RamCell>,
    worker: &mut CommWorker,
    ram: &mut GatedRam<'a, R>,
    ring: &mut G,
    node: u8,
) -> (bool, bool)
    requires ready { IsPassReady maker_number 1 gate.now.name one.old }
    requires gate { ram.old.gate ≡ gate.now }
    requires node { worker.old.node ≡ node }
    requires talks { TalksAt G.RingSide worker.old ram.old ring.old Stage.There }
    ensures ready { IsPassReady maker_number 1 gate.now.name one.new }
    ensures gate { ram.new.gate ≡ gate.now }
    ensures node { worker.new.node ≡ node }
    ensures talks { result.1 ≡ true → TalksAt G.RingSide worker.new ram.new ring.new Stage.Over }
    ensures side { G.side ring.new ≡ G.side ring.old }
{
    let own = node;
    let (talked, scanned) = join_mut(
        run.rt,
        &mut || -> bool
            requires sync { IsSync R.row × IsSync M.row }
            requires node { worker.now.node ≡ node }
            requires talks { TalksAt G.RingSide worker.now ram.now ring.now Stage.There }
            ensures talks { result ≡ true
                → TalksAt G.RingSide worker.exit.now ram.exit.now ring.exit.now Stage.Over }
            ensures stays { StaysAt worker.entry.now worker.exit.now ram.entry.now ram.exit.now
                (G.side ring.entry.now) (G.side ring.exit.now) }
        { talk(run.rt, run.crew, node, worker, ram, ring) },
        &mut || -> bool
            requires sync { IsSync R.row × IsSync M.row }
            requires ready { IsPassReady maker_number 1 gate.now.name one.now }
            ensures { IsPassReady maker_number 1 gate.entry.now.name one.exit.now }
        { scan_all(run.rt, run.crew, run.meet, gate, one, own) },
    );
    (scanned, talked)
}

/// Splits two passes off, runs the workers, and joins the passes.
fn through_gate<G: RingSide + Outside + Send, M: Meet + Sync, R: Threads + Wait + Clock + Sync>(
    run: &Run<'_, M, R>,
    gate: &Gate<RamCell>,
    zero: Pass<RamCell>,
    worker: &mut CommWorker,
    ring: &mut G,
    node: u8,
) -> (Pass<RamCell>, bool)
    requires zero { zero ≡ first_pass gate.now.name }
    requires node { worker.old.node ≡ node }
    requires talks { TalksFirst G.RingSide worker.old gate.now ring.old }
    ensures back { IsBack gate.now worker.new (G.side ring.new) (G.known ring.new)
        result.0 result.1 }
    ensures node { worker.new.node ≡ node }
    ensures side { G.side ring.new ≡ G.side ring.old }
{
    let (zero, mut one) = gate.split(zero, 1);
    let (zero, two) = gate.split(zero, 2);
    let mut ram = GatedRam::new(run.rt, gate, two);
    let (scanned, talked) = run_pair(run, gate, &mut one, worker, &mut ram, ring, node);
    let zero = gate.join(zero, one);
    let zero = gate.join(zero, ram.into_pass());
    (zero, scanned & talked)
}

/// The history and the notes of a controller that ran behind a gate to its end.
pub(crate) fn run_controller<
    G: RingSide + Outside + Send,
    M: Meet + Sync,
    R: Threads + Wait + Clock + Sync,
>(run: &Run<'_, M, R>, plan: &ControllerPlan, ring: &mut G) -> Result<NotedLog, AllocError>
    requires runnable { CanRun run.now.plant.now run.now.scans plan.now }
    requires unused { IsUnused run.now.plant.now plan.now.node (G.side ring.old)
        (G.known ring.old) }
    ensures ended { IfOk result
        (λ noted. CameNoted run.now.plant.now run.now.scans plan.now noted (G.known ring.new)) }
    ensures side { G.side ring.new ≡ G.side ring.old }
{
    let plant = run.plant;
    let controller = Controller::new(run.alloc, plan, plant.scan_time, plant.watchdog, run.scans)?;
    let mut worker = CommWorker::new(run.alloc, plan.node, false)?;
    let (gate, zero) = Gate::new(run.alloc, RamCell::new(controller))?;
    let (zero, done) = through_gate(run, &gate, zero, &mut worker, ring, plan.node);
    let controller = gate.close(zero).into_inner();
    if !done {
        return Err(AllocError);
    }
    let (entries, notes) = controller.into_parts();
    let log = ControllerLog {
        node: plan.node,
        entries,
    };
    Ok(NotedLog { log, notes })
}
