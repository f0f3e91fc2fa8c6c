//! The worker between an end of a bridge and the ring on its side.
ghost use Rattle.std.specs.Prelude.{◌≡◌, ◌<◌, true, false, OnOk, IfOk};
ghost use Rattle.comm_port.specs.RingSteps.{HasLeftAt, HoldsAt, IsHereAt, RestsAt};
ghost use Rattle.bridge_port.specs.EndParts.{is_any_chosen};
ghost use Rattle.bridge_port.specs.EndSteps.{EndStep, HoldsOver, HoldsTurnBy, IsGoneAt, IsOpenAt};
ghost use Rattle.bridge_port.specs.EndSteps.{TiesBetween, TurningBetween};

use crate::bridge_side::BridgeSide;
use crate::calling::{forward_all, give_all_back};
use crate::ending::end_turn;
use crate::giving::{give_up_where, send_all};
use crate::serving::serve_inbox;
use comm_port::{ALL_PATHS, RingSide, Short};
use plant_types::{NetPlan, PATH_PLACES};
use std::alloc::{AllocError, Global};
use std::marker::Model;

/// Whether some path is chosen.
fn is_any_chosen(paths: &[bool; PATH_PLACES]) -> bool
    ensures { result ≡ is_any_chosen paths.now }
{
    paths.iter().any(|chosen| *chosen)
}

/// One hold of the token; whether the node left.
fn turn<B: BridgeSide, R: RingSide>(
    alloc: Global,
    side: u8,
    budget: bool,
    bridge: &mut B,
    ring: &mut R,
) -> Result<bool, Short>
    requires turning { TurningBetween B.BridgeSide R.RingSide side bridge.old ring.old }
    requires holds { HoldsAt R.RingSide side ring.old }
    requires wait { 0 < (R.side ring.old).net.answer }
    requires rest { RestsAt R.RingSide side ring.old }
    ensures ties { OnOk result (TiesBetween B.BridgeSide R.RingSide side bridge.new ring.new) }
    ensures stays { IfOk result (λ left. left ≡ false → IsHereAt R.RingSide side ring.new) }
    ensures is_open { IfOk result (λ left. left ≡ false → IsOpenAt B.BridgeSide side bridge.new) }
    ensures left { IfOk result (λ left. left ≡ true → HasLeftAt R.RingSide side ring.new) }
    ensures gone { IfOk result (λ left. left ≡ true → IsGoneAt B.BridgeSide side bridge.new) }
    ensures held { IfOk result
        (HoldsOver B.BridgeSide R.RingSide side budget bridge.old bridge.new ring.old ring.new) }
    ensures step { EndStep B.BridgeSide R.RingSide side bridge.old bridge.new ring.old ring.new }
{
    serve_inbox(alloc, side, bridge, ring)?;
    give_all_back(side, bridge, ring)?;
    let posted = forward_all(side, bridge, ring)?;
    send_all(side, &posted, bridge, ring)?;
    give_up_where(side, &ALL_PATHS, bridge, ring)?;
    end_turn(side, budget, is_any_chosen(&posted), bridge, ring)
}

/// The communication of one end of a bridge: what its node does with the token. A contract sees the
/// end's address, and whether it keeps to a budget of Passes. This project's own.
#[derive(Drop)]
pub struct BridgeWorker {
    alloc: Global,
    side: u8,
    budget: bool,
}

impl Model for BridgeWorker {
    ghost use Rattle.bridge_port.specs.EndTurns.{BridgeWorkerIs};

    ghost Value = { BridgeWorkerIs };

    ghost view = { λ w. record { side = w.side; budget = w.budget } };
}

impl BridgeWorker {
    /// The worker of the end with this address. With a budget it leaves the ring once its Passes
    /// are spent. Nothing of the ring's plan is kept.
    pub fn new(
        alloc: Global,
        side: u8,
        _: &NetPlan,
        budget: bool,
    ) -> Result<BridgeWorker, AllocError>
        ensures { IfOk result (λ worker. worker ≡ record { side = side; budget = budget }) }
    {
        Ok(BridgeWorker {
            alloc,
            side,
            budget,
        })
    }

    /// One hold of the token: takes and serves what came, gives replies back, sends requests on,
    /// gives up the calls whose time has come, and then leaves the ring or passes the token on.
    /// After a Leave the end gives up all calls that are out, and leaves the bridge for good. The
    /// answer is whether it left. The only error is that memory ran out: then the entries made so
    /// far stand and both lists are legal, but nothing is said of the laws.
    pub fn hold_turn<B: BridgeSide, R: RingSide>(
        &mut self,
        bridge: &mut B,
        ring: &mut R,
    ) -> Result<bool, AllocError>
        requires ties { TiesBetween B.BridgeSide R.RingSide self.old.side bridge.old ring.old }
        requires is_open { IsOpenAt B.BridgeSide self.old.side bridge.old }
        requires holds { HoldsAt R.RingSide self.old.side ring.old }
        ensures ties { OnOk result
            (TiesBetween B.BridgeSide R.RingSide self.old.side bridge.new ring.new) }
        ensures stays { IfOk result
            (λ left. left ≡ false → IsHereAt R.RingSide self.old.side ring.new) }
        ensures is_open { IfOk result
            (λ left. left ≡ false → IsOpenAt B.BridgeSide self.old.side bridge.new) }
        ensures left { IfOk result
            (λ left. left ≡ true → HasLeftAt R.RingSide self.old.side ring.new) }
        ensures gone { IfOk result
            (λ left. left ≡ true → IsGoneAt B.BridgeSide self.old.side bridge.new) }
        ensures held { IfOk result
            (HoldsTurnBy B.BridgeSide R.RingSide self.old bridge.old bridge.new ring.old
            ring.new) }
        ensures worker { self.new ≡ self.old }
        ensures step { EndStep B.BridgeSide R.RingSide self.old.side bridge.old bridge.new
            ring.old ring.new }
    {
        let Ok(left) = turn(self.alloc, self.side, self.budget, bridge, ring) else {
            return Err(AllocError);
        };
        Ok(left)
    }
}
