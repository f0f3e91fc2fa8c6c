//! Whether the lists are those of a plant's stations, bridges and networks.
ghost use Rattle.std.specs.Prelude.{◌≡◌, ◌↔◌, IsTrue, map};
ghost use Rattle.joint_law.specs.Spots.{HasSections};

use joint_history::{BridgeLog, ControllerLog, HostLog, Joint, RingLog};
use plant_types::{BridgePlan, ControllerPlan, HostPlan, NetPlan, Plant};

fn are_of_controllers(plans: &[ControllerPlan], logs: &[ControllerLog]) -> bool
    ensures { IsTrue result ↔ (map (λ log. log.node) logs.now ≡ map (λ plan. plan.node) plans.now) }
{
    if plans.len() != logs.len() {
        return false;
    }
    for at in 0..logs.len() {
        if logs[at].node != plans[at].node {
            return false;
        }
    }
    true
}

fn are_of_hosts(plans: &[HostPlan], logs: &[HostLog]) -> bool
    ensures { IsTrue result ↔ (map (λ log. log.node) logs.now ≡ map (λ plan. plan.node) plans.now) }
{
    if plans.len() != logs.len() {
        return false;
    }
    for at in 0..logs.len() {
        if logs[at].node != plans[at].node {
            return false;
        }
    }
    true
}

fn are_of_lefts(plans: &[BridgePlan], logs: &[BridgeLog]) -> bool
    ensures { IsTrue result ↔ (map (λ log. log.left) logs.now ≡ map (λ plan. plan.left) plans.now) }
{
    if plans.len() != logs.len() {
        return false;
    }
    for at in 0..logs.len() {
        if logs[at].left != plans[at].left {
            return false;
        }
    }
    true
}

fn are_of_rights(plans: &[BridgePlan], logs: &[BridgeLog]) -> bool
    ensures { IsTrue result
        ↔ (map (λ log. log.right) logs.now ≡ map (λ plan. plan.right) plans.now) }
{
    if plans.len() != logs.len() {
        return false;
    }
    for at in 0..logs.len() {
        if logs[at].right != plans[at].right {
            return false;
        }
    }
    true
}

fn are_of_nets(plans: &[NetPlan], logs: &[RingLog]) -> bool
    ensures { IsTrue result
        ↔ (map (λ log. log.network) logs.now ≡ map (λ plan. plan.number) plans.now) }
{
    if plans.len() != logs.len() {
        return false;
    }
    for at in 0..logs.len() {
        if logs[at].network != plans[at].number {
            return false;
        }
    }
    true
}

/// Whether the lists are those of the plant, in its order.
pub(crate) fn has_sections(plant: &Plant, joint: &Joint) -> bool
    ensures { IsTrue result ↔ HasSections plant.now joint.now }
{
    if !are_of_controllers(plant.controllers.as_slice(), joint.controllers.as_slice()) {
        return false;
    }
    if !are_of_hosts(plant.hosts.as_slice(), joint.hosts.as_slice()) {
        return false;
    }
    let (plans, logs) = (plant.bridges.as_slice(), joint.bridges.as_slice());
    if !are_of_lefts(plans, logs) || !are_of_rights(plans, logs) {
        return false;
    }
    are_of_nets(plant.nets.as_slice(), joint.rings.as_slice())
}
