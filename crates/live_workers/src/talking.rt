//! The communication worker of a controller.
ghost use Rattle.std.specs.Prelude.{◌≡◌, true, IfOk};
ghost use Rattle.live_workers.specs.Talking.{TalksOver, stage_of};

use crate::crews::Crew;
use crate::pauses::Pause;
use comm_port::{CommWorker, RamSide, RingSide, TurnEnd};
use gated_sides::Outside;
use std::alloc::AllocError;
use std::sync::Wait;
use std::time::Clock;
use turn_laws::{
    away_turns_keep_on, leaves_when_ended, none_is_spent, scans_keep_on, somebody_holds,
    turns_end_where, turns_keep_on, visits_collect, visits_keep_on,
};

/// How far a communication worker has come.
#[derive(Clone, Copy, Debug, PartialEq, Eq)]
pub(crate) enum Stage {
    /// Its node is in the ring, or asks to come in.
    There,
    /// Its node left as power failed.
    Away,
    /// Its node is out of the ring for good, and no call is open.
    Over,
}

/// How far the worker has come with a turn that ended so.
fn stage_of(end: TurnEnd) -> Stage
    ensures { result ≡ stage_of end }
{
    match end {
        TurnEnd::Passed | TurnEnd::Asking => Stage::There,
        TurnEnd::Away => Stage::Away,
        TurnEnd::Left => Stage::Over,
    }
}

/// Makes a hold turn, where the node holds the token.
fn take_turn<M: RamSide, G: RingSide + Outside>(
    node: u8,
    worker: &mut CommWorker,
    ram: &mut M,
    ring: &mut G,
) -> Result<Stage, AllocError>
    requires node { worker.old.node ≡ node }
    requires talks { TalksOver M.RamSide G.RingSide worker.old ram.old ring.old Stage.There }
    ensures talks { IfOk result (TalksOver M.RamSide G.RingSide worker.new ram.new ring.new) }
    ensures node { worker.new.node ≡ worker.old.node }
    ensures ram_same { M.side ram.new ≡ M.side ram.old }
    ensures ring_same { G.side ring.new ≡ G.side ring.old }
{
    turns_keep_on();
    turns_end_where();
    leaves_when_ended();
    none_is_spent();
    somebody_holds();
    if !ring.may_hold(node) {
        return Ok(Stage::There);
    }
    if ring.holder() != node {
        return Ok(Stage::There);
    }
    let end = worker.hold_turn(ram, ring)?;
    Ok(stage_of(end))
}

/// Asks to come in again, where there is power. Whether the scans are gone is asked first: asked
/// the other way round the last scan might come in between, and a controller with power would stay
/// away. Where there is none and no scan is left, the calls that are still started are ended.
fn try_back<M: RamSide, G: RingSide + Outside>(
    worker: &mut CommWorker,
    ram: &mut M,
    ring: &mut G,
) -> Result<Stage, AllocError>
    requires talks { TalksOver M.RamSide G.RingSide worker.old ram.old ring.old Stage.Away }
    ensures talks { IfOk result (TalksOver M.RamSide G.RingSide worker.new ram.new ring.new) }
    ensures node { worker.new.node ≡ worker.old.node }
    ensures ram_same { M.side ram.new ≡ M.side ram.old }
    ensures ring_same { G.side ring.new ≡ G.side ring.old }
{
    away_turns_keep_on();
    scans_keep_on();
    turns_end_where();
    visits_keep_on();
    visits_collect();
    none_is_spent();
    let ended = ram.has_ended();
    if worker.away_turn(ram, ring)? {
        return Ok(Stage::There);
    }
    if !ended {
        return Ok(Stage::Away);
    }
    worker.visit_end(ram, ring)?;
    Ok(Stage::Over)
}

/// Goes on from where the worker has come to.
fn go_on<M: RamSide, G: RingSide + Outside>(
    node: u8,
    stage: Stage,
    worker: &mut CommWorker,
    ram: &mut M,
    ring: &mut G,
) -> Result<Stage, AllocError>
    requires node { worker.old.node ≡ node }
    requires talks { TalksOver M.RamSide G.RingSide worker.old ram.old ring.old stage }
    ensures talks { IfOk result (TalksOver M.RamSide G.RingSide worker.new ram.new ring.new) }
    ensures node { worker.new.node ≡ worker.old.node }
    ensures ram_same { M.side ram.new ≡ M.side ram.old }
    ensures ring_same { G.side ring.new ≡ G.side ring.old }
{
    match stage {
        Stage::There => take_turn(node, worker, ram, ring),
        Stage::Away => try_back(worker, ram, ring),
        Stage::Over => Ok(Stage::Over),
    }
}

/// Makes turns until the node is out of the ring for good; whether it came so far. A worker without
/// a budget leaves no call uncollected.
pub(crate) fn talk<M: RamSide, G: RingSide + Outside, R: Wait + Clock>(
    rt: &R,
    crew: &Crew,
    node: u8,
    worker: &mut CommWorker,
    ram: &mut M,
    ring: &mut G,
) -> bool
    requires node { worker.old.node ≡ node }
    requires talks { TalksOver M.RamSide G.RingSide worker.old ram.old ring.old Stage.There }
    ensures talks { result ≡ true
        → TalksOver M.RamSide G.RingSide worker.new ram.new ring.new Stage.Over }
    ensures node { worker.new.node ≡ worker.old.node }
    ensures ram_same { M.side ram.new ≡ M.side ram.old }
    ensures ring_same { G.side ring.new ≡ G.side ring.old }
{
    let mut watch = crew.begin();
    let mut pause = Pause::new();
    let mut stage = Stage::There;
    for _ in rt.forever() {
        if watch.is_raised() {
            return false;
        }
        match go_on(node, stage, worker, ram, ring) {
            Ok(Stage::Over) => return true,
            Ok(next) => {
                stage = next;
                pause.rest(rt, crew, &mut watch, ring.entries());
            }
            Err(_) => {
                watch.raise();
                return false;
            }
        }
    }
    unreachable!()
}
