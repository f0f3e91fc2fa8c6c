//! The passes of the rings are dealt to the nodes of plans, and gathered from them.
ghost use Rattle.std.specs.Prelude.{◌≡◌, ◌<◌, true, [], All, OnOk, length, map, flat_map};
ghost use Rattle.std.specs.Prelude.{vec_len, vec_capacity};
ghost use Rattle.std.specs.List.{AllZip};
ghost use Rattle.ring_core.specs.Machine.{addresses};
ghost use Rattle.live_run.specs.Homes.{AreRingsApart, HasRing, KeepsZero};
ghost use Rattle.live_run.specs.Dealing.{AreSeatsAt, CanDeal, HasLog, IsDealt, IsFreshSeat};
ghost use Rattle.live_run.specs.Dealing.{AreGathered, IsLogged, key_of, side_of_seat};
ghost use Rattle.live_run.specs.Ends.{AreEndsAt, IsFreshBridge, ends_of_plan, sides_of_ends};

use crate::homes::{RingHome, seat, unseat};
use gated_sides::{GatedRing, Meet, RingCell};
use joint_history::BridgeLog;
use live_workers::{Ends, Run, Station};
use plant_types::{BridgePlan, ControllerPlan, HostPlan};
use std::alloc::{AllocError, Global};
use std::sync::Wait;
use turn_gate::Pass;

/// What has a node on a network.
pub(crate) trait HasNode {
    ghost use Rattle.std.specs.Prelude.{ℕ};

    ghost node_of: { Self → ℕ };

    ghost network_of: { Self → ℕ };

    fn node(&self) -> u8
        ensures { result ≡ node_of self.now };

    fn network(&self) -> u8
        ensures { result ≡ network_of self.now };
}

impl HasNode for ControllerPlan {
    ghost node_of = { λ plan. plan.node };

    ghost network_of = { λ plan. plan.network };

    fn node(&self) -> u8 {
        self.node
    }

    fn network(&self) -> u8 {
        self.network
    }
}

impl HasNode for HostPlan {
    ghost node_of = { λ plan. plan.node };

    ghost network_of = { λ plan. plan.network };

    fn node(&self) -> u8 {
        self.node
    }

    fn network(&self) -> u8 {
        self.network
    }
}

/// Gives the node of each plan a pass of its ring and a side.
pub(crate) fn deal<'a, P: HasNode, L, M: Meet, R: Wait>(
    run: &Run<'a, M, R>,
    homes: &'a [RingHome],
    purses: &mut [Option<Pass<RingCell>>],
    plans: &[P],
    mut room: Vec<Station<GatedRing<'a, M, R>, L>>,
) -> Vec<Station<GatedRing<'a, M, R>, L>>
    requires members { All (λ gate. All (λ m. m < addresses) gate.fixed.members) homes.now }
    requires rings { All (λ plan. HasRing homes.now (P.network_of plan)) plans.now }
    requires ready { CanDeal homes.now purses.old (map P.node_of plans.now) }
    requires room { (room.items ≡ []) × (vec_len room ≡ 0)
        × (vec_capacity room ≡ length plans.now) }
    ensures dealt { IsDealt homes.now purses.old purses.new (map P.node_of plans.now)
        (map key_of (map side_of_seat result.items)) }
    ensures seats { AllZip (λ plan. IsFreshSeat homes.now (P.network_of plan) (P.node_of plan))
        plans.now result.items }
{
    for index in 0..plans.len() {
        let plan = &plans[index];
        room.push_reserved(Station {
            ring: seat(run, homes, purses, plan.network(), plan.node()),
            log: None,
        });
    }
    room
}

/// Gives both ends of each bridge a pass of their rings and a side.
pub(crate) fn deal_ends<'a, M: Meet, R: Wait>(
    run: &Run<'a, M, R>,
    homes: &'a [RingHome],
    purses: &mut [Option<Pass<RingCell>>],
    plans: &[BridgePlan],
    mut room: Vec<Station<Ends<GatedRing<'a, M, R>>, BridgeLog>>,
) -> Vec<Station<Ends<GatedRing<'a, M, R>>, BridgeLog>>
    requires members { All (λ gate. All (λ m. m < addresses) gate.fixed.members) homes.now }
    requires rings { All (λ plan. HasRing homes.now plan.left_net
        × HasRing homes.now plan.right_net) plans.now }
    requires ready { CanDeal homes.now purses.old (flat_map ends_of_plan plans.now) }
    requires room { (room.items ≡ []) × (vec_len room ≡ 0)
        × (vec_capacity room ≡ length plans.now) }
    ensures dealt { IsDealt homes.now purses.old purses.new (flat_map ends_of_plan plans.now)
        (map key_of (flat_map sides_of_ends result.items)) }
    ensures seats { AllZip (IsFreshBridge homes.now) plans.now result.items }
{
    for index in 0..plans.len() {
        let plan = &plans[index];
        let left = seat(run, homes, purses, plan.left_net, plan.left);
        let right = seat(run, homes, purses, plan.right_net, plan.right);
        room.push_reserved(Station {
            ring: Ends { left, right },
            log: None,
        });
    }
    room
}

/// Keeps a history, where it is there and has room.
pub(crate) fn keep<L: Drop>(logs: &mut Vec<L>, log: Option<L>) -> Result<(), AllocError>
    ensures { OnOk result (IsLogged log logs.old.items logs.new.items) }
{
    let Some(log) = log else {
        return Err(AllocError);
    };
    logs.push(log)?;
    Ok(())
}

/// Puts the passes of stations back into pass 0 of their rings, and takes their histories.
pub(crate) fn gather<'a, P: HasNode, L: Drop, M: Meet, R: Wait>(
    homes: &[RingHome],
    purses: &mut [Option<Pass<RingCell>>],
    plans: &[P],
    mut stations: Vec<Station<GatedRing<'a, M, R>, L>>,
    alloc: Global,
) -> (Vec<L>, bool)
    requires apart { AreRingsApart homes.now }
    requires unused { All (λ gate. gate.name.opening ≡ []) homes.now }
    requires keeps { AllZip KeepsZero homes.now purses.old }
    requires at { AreSeatsAt homes.now P.network_of plans.now stations.items }
    ensures keeps { AllZip KeepsZero homes.now purses.new }
    ensures gathered { AreGathered homes.now purses.old purses.new
        (map side_of_seat stations.entry.items) }
    ensures logs { result.1 ≡ true → AllZip HasLog stations.entry.items result.0.items }
{
    let mut done = true;
    let mut logs = Vec::new(alloc);
    stations.as_mut_slice().reverse();
    let mut place = 0;
    while let Some(station) = stations.pop() {
        let Station { ring, log } = station;
        done &= keep(&mut logs, log).is_ok();
        unseat(homes, purses, plans[place].network(), ring);
        place += 1;
    }
    stations.destroy_empty();
    (logs, done)
}

/// Puts the passes of both ends of bridges back into pass 0 of their rings, and takes the bridges'
/// histories.
pub(crate) fn gather_ends<'a, M: Meet, R: Wait>(
    homes: &[RingHome],
    purses: &mut [Option<Pass<RingCell>>],
    plans: &[BridgePlan],
    mut stations: Vec<Station<Ends<GatedRing<'a, M, R>>, BridgeLog>>,
    alloc: Global,
) -> (Vec<BridgeLog>, bool)
    requires apart { AreRingsApart homes.now }
    requires unused { All (λ gate. gate.name.opening ≡ []) homes.now }
    requires keeps { AllZip KeepsZero homes.now purses.old }
    requires at { AreEndsAt homes.now plans.now stations.items }
    ensures keeps { AllZip KeepsZero homes.now purses.new }
    ensures gathered { AreGathered homes.now purses.old purses.new
        (flat_map sides_of_ends stations.entry.items) }
    ensures logs { result.1 ≡ true → AllZip HasLog stations.entry.items result.0.items }
{
    let mut done = true;
    let mut logs = Vec::new(alloc);
    stations.as_mut_slice().reverse();
    let mut place = 0;
    while let Some(station) = stations.pop() {
        let Station { ring, log } = station;
        let Ends { left, right } = ring;
        let plan = &plans[place];
        done &= keep(&mut logs, log).is_ok();
        unseat(homes, purses, plan.left_net, left);
        unseat(homes, purses, plan.right_net, right);
        place += 1;
    }
    stations.destroy_empty();
    (logs, done)
}
