//! The worker between a controller and the ring.
ghost use Rattle.std.specs.Prelude.{◌≡◌, ◌<◌, OnOk, OnErr, IfOk};
ghost use Rattle.comm_port.specs.BothSteps.{AddsNothingOver, BothStep, Rejoins, HoldsOver};
ghost use Rattle.comm_port.specs.BothSteps.{HoldsTurnBy};
ghost use Rattle.comm_port.specs.BothSteps.{RestedBetween, StandingBetween, TurningBetween, Visits};
ghost use Rattle.comm_port.specs.BothSteps.{WorksOver};
ghost use Rattle.comm_port.specs.RingSteps.{HasLeftAt, HoldsAt, IsAwayAt, IsNoBridgeAt, RestsAfter};
ghost use Rattle.comm_port.specs.RingSteps.{RestsAt, down_at};
ghost use Rattle.comm_port.specs.WholeTurn.{failing_end, working_end};
ghost use Rattle.comm_port.specs.Worker.{IsSameWorker, new_worker};

use crate::calling::make_calls;
use crate::ending::end_turn;
use crate::failing::{come_back, go_down};
use crate::giving::{give_up_where, send_all};
use crate::paths::ALL_PATHS;
use crate::ram_side::RamSide;
use crate::ring_side::RingSide;
use crate::serving::serve_inbox;
use crate::short::Short;
use crate::turn_end::TurnEnd;
use crate::visiting::visit;
use crate::waiting::Waiting;
use std::alloc::{AllocError, Global};
use std::marker::Model;

/// A controller's worker: it keeps the Requests for whose Replies its node waits. A contract sees
/// its node, whether it keeps to a budget of Passes, how many failures it has noticed, and these
/// Requests.
pub struct CommWorker {
    alloc: Global,
    node: u8,
    budget: bool,
    /// How many failures are noticed: the number of the node's latest Leave for one.
    noticed: u32,
    waiting: Waiting,
}

impl Model for CommWorker {
    ghost use Rattle.comm_port.specs.Worker.{WorkerIs};

    ghost Value = { WorkerIs };

    ghost view = { λ w. record {
      node = w.node;
      budget = w.budget;
      noticed = w.noticed;
      waiting = w.waiting;
    } };
}

impl Drop for CommWorker {
    fn drop(self) {
        let CommWorker {
            alloc: _,
            node: _,
            budget: _,
            noticed: _,
            waiting: _,
        } = self;
    }
}

/// One turn in which no failure is unnoticed at first; whether the node left.
fn work<M: RamSide, R: RingSide>(
    alloc: Global,
    node: u8,
    budget: bool,
    noticed: u32,
    waiting: &mut Waiting,
    ram: &mut M,
    ring: &mut R,
) -> Result<bool, Short>
    requires turning { TurningBetween M.RamSide R.RingSide node ram.old ring.old waiting.old }
    requires holds { HoldsAt R.RingSide node ring.old }
    requires no_bridge { IsNoBridgeAt R.RingSide node ring.old }
    requires wait { 0 < (R.side ring.old).net.answer }
    requires rest { RestsAt R.RingSide node ring.old }
    requires noticed { noticed ≡ down_at R.RingSide node ring.old }
    ensures rested { OnOk result
        (RestedBetween M.RamSide R.RingSide node ram.new ring.new waiting.new) }
    ensures noticed { OnOk result (noticed ≡ down_at R.RingSide node ring.new) }
    ensures rest { OnOk result (RestsAfter R.RingSide node ring.old ring.new) }
    ensures worked { IfOk result
        (WorksOver M.RamSide R.RingSide node budget ram.old ram.new ring.old ring.new) }
    ensures step { BothStep M.RamSide R.RingSide node ram.old ram.new ring.old ring.new }
{
    serve_inbox(alloc, node, waiting, ram, ring)?;
    let posted = waiting.free_paths();
    make_calls(alloc, node, waiting, ram, ring)?;
    send_all(node, waiting, &posted, ram, ring)?;
    give_up_where(node, waiting, &ALL_PATHS, ram, ring)?;
    let left = end_turn(node, budget, noticed, waiting, ram, ring)?;
    Ok(left)
}

/// How a turn ended whose node left or not.
fn working_end(left: bool) -> TurnEnd
    ensures { result ≡ working_end left }
{
    if left { TurnEnd::Left } else { TurnEnd::Passed }
}

/// How a turn ended in which power had failed, and the node came back or not.
fn failing_end(joined: bool) -> TurnEnd
    ensures { result ≡ failing_end joined }
{
    if joined {
        TurnEnd::Asking
    } else {
        TurnEnd::Away
    }
}

/// One turn; power that failed since the last one comes first.
fn turn<M: RamSide, R: RingSide>(
    alloc: Global,
    node: u8,
    budget: bool,
    noticed: &mut u32,
    waiting: &mut Waiting,
    ram: &mut M,
    ring: &mut R,
) -> Result<TurnEnd, Short>
    requires turning { TurningBetween M.RamSide R.RingSide node ram.old ring.old waiting.old }
    requires holds { HoldsAt R.RingSide node ring.old }
    requires no_bridge { IsNoBridgeAt R.RingSide node ring.old }
    requires wait { 0 < (R.side ring.old).net.answer }
    requires rest { RestsAt R.RingSide node ring.old }
    requires noticed { noticed.old ≡ down_at R.RingSide node ring.old }
    ensures rested { OnOk result
        (RestedBetween M.RamSide R.RingSide node ram.new ring.new waiting.new) }
    ensures noticed { OnOk result (noticed.new ≡ down_at R.RingSide node ring.new) }
    ensures rest { OnOk result (RestsAfter R.RingSide node ring.old ring.new) }
    ensures held { IfOk result
        (HoldsOver M.RamSide R.RingSide node budget ram.old ram.new ring.old ring.new) }
    ensures step { BothStep M.RamSide R.RingSide node ram.old ram.new ring.old ring.new }
{
    let failures = ram.failures();
    if *noticed < failures {
        let joined = go_down(node, failures, waiting, ram, ring)?;
        *noticed = failures;
        return Ok(failing_end(joined));
    }
    let left = work(alloc, node, budget, *noticed, waiting, ram, ring)?;
    Ok(working_end(left))
}

impl CommWorker {
    /// The worker of a node, none of whose calls waits. Without a budget its turns never leave for
    /// their Passes. Nothing of the ring's plan is kept.
    pub fn new(alloc: Global, node: u8, budget: bool) -> Result<CommWorker, AllocError>
        ensures { IfOk result (λ worker. worker ≡ new_worker node budget) }
    {
        let waiting = Waiting::new(alloc)?;
        Ok(CommWorker {
            alloc,
            node,
            budget,
            noticed: 0,
            waiting,
        })
    }

    /// One hold of the token. Where power failed since the node last left for that, it leaves,
    /// gives up all its calls, and asks to come in again if there is power. Else it takes and
    /// serves, makes the calls that the controller started, sends, gives up what waited for too
    /// long, and leaves or passes on. The node is not the end of a bridge. The only error is that
    /// memory ran out: then the entries made so far stand and both lists are legal as before, but
    /// nothing is said of the laws.
    pub fn hold_turn<M: RamSide, R: RingSide>(
        &mut self,
        ram: &mut M,
        ring: &mut R,
    ) -> Result<TurnEnd, AllocError>
        requires standing { StandingBetween M.RamSide R.RingSide self.old ram.old ring.old }
        requires holds { HoldsAt R.RingSide self.old.node ring.old }
        requires no_bridge { IsNoBridgeAt R.RingSide self.old.node ring.old }
        ensures standing { OnOk result
            (StandingBetween M.RamSide R.RingSide self.new ram.new ring.new) }
        ensures held { IfOk result
            (HoldsTurnBy M.RamSide R.RingSide self.old ram.old ram.new ring.old ring.new) }
        ensures worker { IsSameWorker self.old self.new }
        ensures step { BothStep M.RamSide R.RingSide self.old.node ram.old ram.new ring.old
            ring.new }
    {
        let noticed = &mut self.noticed;
        let waiting = &mut self.waiting;
        match turn(
            self.alloc,
            self.node,
            self.budget,
            noticed,
            waiting,
            ram,
            ring,
        ) {
            Ok(end) => Ok(end),
            Err(Short { .. }) => Err(AllocError),
        }
    }

    /// Where there is power, a node that is away asks to come in again; whether it did. The only
    /// error is that memory ran out: then nothing was added.
    pub fn away_turn<M: RamSide, R: RingSide>(
        &mut self,
        ram: &mut M,
        ring: &mut R,
    ) -> Result<bool, AllocError>
        requires standing { StandingBetween M.RamSide R.RingSide self.old ram.old ring.old }
        requires away { IsAwayAt R.RingSide self.old.node ring.old }
        ensures standing { OnOk result
            (StandingBetween M.RamSide R.RingSide self.new ram.new ring.new) }
        ensures came { IfOk result
            (Rejoins M.RamSide R.RingSide self.old.node ram.old ram.new ring.old ring.new) }
        ensures short { OnErr result (AddsNothingOver M.RamSide R.RingSide self.old.node ram.old
            ram.new ring.old ring.new) }
        ensures worker { self.new ≡ self.old }
        ensures step { BothStep M.RamSide R.RingSide self.old.node ram.old ram.new ring.old
            ring.new }
    {
        let Ok(joined) = come_back(self.node, ram, ring) else {
            return Err(AllocError);
        };
        Ok(joined)
    }

    /// Ends each call that the controller started since its node left; so it does while the node is
    /// away, where no scan is left that could bring power back. The only error is that
    /// memory ran out: then the entries made so far stand and both lists are legal as before, but
    /// nothing is said of the laws.
    pub fn visit_end<M: RamSide, R: RingSide>(
        &mut self,
        ram: &mut M,
        ring: &mut R,
    ) -> Result<(), AllocError>
        requires standing { StandingBetween M.RamSide R.RingSide self.old ram.old ring.old }
        requires left { HasLeftAt R.RingSide self.old.node ring.old }
        ensures standing { OnOk result
            (StandingBetween M.RamSide R.RingSide self.new ram.new ring.new) }
        ensures visited { OnOk result
            (Visits M.RamSide R.RingSide self.old.node ram.old ram.new ring.old ring.new) }
        ensures worker { self.new ≡ record self.old { waiting = self.new.waiting } }
        ensures step { BothStep M.RamSide R.RingSide self.old.node ram.old ram.new ring.old
            ring.new }
    {
        let Ok(()) = visit(self.alloc, self.node, &mut self.waiting, ram, ring) else {
            return Err(AllocError);
        };
        Ok(())
    }
}
