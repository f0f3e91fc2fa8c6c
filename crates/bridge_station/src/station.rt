//! A bridge with the workers of its two ends, as a run has it.
ghost use Rattle.std.specs.Prelude.{◌≡◌, false, OnOk, IfOk};
ghost use Rattle.plant_types.specs.Plans.{IsBridgePlan, IsNetPlan};
ghost use Rattle.ring_core.specs.Legal.{IsMember};
ghost use Rattle.tied_lists.specs.Waits.{Holds};
ghost use Rattle.end_laws.specs.JointHistory.{IsLegalBridgeLog};
ghost use Rattle.bridge_station.specs.Station.{end_has_left, log_of_bridge};
ghost use Rattle.bridge_station.specs.Stands.{HeldByEnd, MovedByEnd, StandsEnd, StartsBridge};

use crate::end_station::{EndStation, hold_end};
use bridge_relay::Bridge;
use end_laws::{BridgeLog, BridgeWorker};
use plant_types::{BridgePlan, NetPlan};
use ring_core::Ring;
use std::alloc::{AllocError, Global};
use std::marker::Model;

/// A bridge of a run, with the workers of its two ends and whether each has left. A contract sees
/// the bridge, and of each end its worker and whether it has left. This project's own.
#[derive(Drop)]
pub struct BridgeStation {
    plan: BridgePlan,
    bridge: Bridge,
    left: EndStation,
    right: EndStation,
}

impl Model for BridgeStation {
    ghost use Rattle.std.specs.Prelude.{◌≡◌};
    ghost use Rattle.bridge_station.specs.Station.{BridgeStationIs, seen_end};

    ghost Value = { BridgeStationIs };

    ghost view = { λ s. record {
      bridge = s.bridge;
      left = seen_end s.left;
      right = seen_end s.right;
    } };

    ghost invariant = { λ s. s.bridge.plan ≡ s.plan };
}

impl BridgeStation {
    /// A bridge that has done nothing yet, between two networks. With a budget each end leaves its
    /// ring once its Passes are spent.
    pub fn new(
        alloc: Global,
        plan: &BridgePlan,
        left_net: &NetPlan,
        right_net: &NetPlan,
        budget: bool,
    ) -> Result<BridgeStation, AllocError>
        requires plan { IsBridgePlan plan.now }
        requires left_net { IsNetPlan left_net.now }
        requires left { IsMember left_net.now plan.now.left }
        requires right_net { IsNetPlan right_net.now }
        requires right { IsMember right_net.now plan.now.right }
        ensures { IfOk result (StartsBridge plan.now left_net.now right_net.now budget) }
    {
        let bridge = Bridge::new(alloc, plan)?;
        let left = BridgeWorker::new(alloc, plan.left, left_net, budget)?;
        let right = BridgeWorker::new(alloc, plan.right, right_net, budget)?;
        Ok(BridgeStation {
            plan: *plan,
            bridge,
            left: EndStation {
                worker: left,
                left: false,
            },
            right: EndStation {
                worker: right,
                left: false,
            },
        })
    }

    /// Whether the end with this address has left.
    pub fn has_left(&self, side: u8) -> bool
        ensures { result ≡ end_has_left side self.now }
    {
        if side == self.plan.left {
            self.left.left
        } else {
            self.right.left
        }
    }

    /// One hold of the token by the end with this address, on the ring of its network.
    pub fn hold(&mut self, side: u8, ring: &mut Ring) -> Result<(), AllocError>
        requires stands { StandsEnd side self.old ring.old.net ring.old.history }
        requires here { end_has_left side self.old ≡ false }
        requires token { Holds ring.old.net ring.old.history side }
        ensures held { OnOk result (HeldByEnd side self.old self.new ring.old ring.new) }
        ensures moved { MovedByEnd side self.old self.new ring.old ring.new }
    {
        let _ = self.bridge.history();
        if side == self.plan.left {
            hold_end(side, &mut self.bridge, &mut self.left, ring)
        } else {
            hold_end(side, &mut self.bridge, &mut self.right, ring)
        }
    }

    /// The log of the bridge; takes no memory.
    pub fn into_log(self) -> BridgeLog
        ensures log { result ≡ log_of_bridge self }
        ensures legal { IsLegalBridgeLog self.bridge.plan result }
    {
        BridgeLog {
            left: self.plan.left,
            right: self.plan.right,
            entries: self.bridge.into_history(),
        }
    }
}
