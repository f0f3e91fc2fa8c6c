//! What is read of all nodes: who is a member, and who comes next.
ghost use Rattle.std.specs.Prelude.{◌≡◌, ◌<◌, ◌≤◌, ◌+◌, false, length, drop, get_or, map, IfSome};
ghost use Rattle.std.specs.Prelude.{OnOk, OnErr, None};
ghost use Rattle.std.specs.Prelude.{Some};
ghost use Rattle.ring_core.specs.Machine.{least_from, successor, part_of, arrival, arrived, fresh};
ghost use Rattle.ring_core.specs.Machine.{is_here, is_in_or_asking, is_bridge, only_bridges};
ghost use Rattle.ring_core.specs.Machine.{hears, admitted};
ghost use Rattle.ring_core.specs.Refusals.{least_done};
ghost use Rattle.ring_core.specs.Scratch.{count_members};

use crate::arrival::{Fell, fate_reaches};
use crate::frame::Frame;
use crate::node::Node;
use plant_types::{Fate, NetPlan};
use std::alloc::AllocError;

// The least member from a place on, or 0.
pub(crate) fn least_from(nodes: &[Node], from: usize) -> u8
    requires { length nodes.now ≤ 256 }
    ensures { result ≡ least_from (drop from nodes.now) from }
{
    for at in from..nodes.len() {
        if nodes[at].is_here() {
            return at as u8;
        }
    }
    0
}

// Who holds the token after a node.
pub(crate) fn successor(nodes: &[Node], node: u8) -> u8
    requires { length nodes.now ≤ 256 }
    ensures { result ≡ successor nodes.now node }
{
    let above = least_from(nodes, node as usize + 1);
    if above == 0 {
        least_from(nodes, 0)
    } else {
        above
    }
}

// Whether a node is a member. Nobody has an address beyond the nodes.
pub(crate) fn is_here(nodes: &[Node], node: u8) -> bool
    ensures node { result ≡ is_here (part_of nodes.now node) }
    ensures beyond { length nodes.now ≤ node → result ≡ false }
{
    let at = node as usize;
    at < nodes.len() && nodes[at].is_here()
}

// Whether a node is the end of a bridge.
pub(crate) fn is_bridge(net: &NetPlan, node: u8) -> bool
    ensures { result ≡ is_bridge net.now node }
{
    net.bridges.as_slice().contains(&node)
}

// Whether a node is a member, or asks to be one.
fn is_in_or_asking(nodes: &[Node], node: u8) -> bool
    ensures { result ≡ is_in_or_asking (part_of nodes.now node).status }
{
    let at = node as usize;
    at < nodes.len() && nodes[at].status().is_in_or_asking()
}

// Whether every other node that is a member, or asks to be one, is the end of a bridge.
pub(crate) fn only_bridges(net: &NetPlan, nodes: &[Node], node: u8) -> bool
    ensures { result ≡ only_bridges net.now nodes.now node }
{
    let members = net.members.as_slice();
    for member in members {
        if *member != node && !is_bridge(net, *member) && is_in_or_asking(nodes, *member) {
            return false;
        }
    }
    true
}

// Whether the target of a frame hears it: it is a member and, if the frame is to go on from there,
// the end of a bridge.
pub(crate) fn hears(net: &NetPlan, nodes: &[Node], to: u8, onward: bool) -> bool
    ensures target { result ≡ hears net.now nodes.now to onward }
    ensures beyond { length nodes.now ≤ to → result ≡ false }
{
    is_here(nodes, to) && (!onward || is_bridge(net, to))
}

// How many members there are.
pub(crate) fn members_now(nodes: &[Node]) -> usize
    ensures count { result ≡ count_members nodes.now }
    ensures fits { result ≤ length nodes.now }
{
    nodes.iter().filter(|node| node.is_here()).count()
}

// The least of a number and of the latest Passes in a row that said done of each member that is not
// the end of a bridge.
pub(crate) fn least_done(net: &NetPlan, nodes: &[Node], own: u64) -> u64
    ensures { result ≡ least_done net.now nodes.now own }
{
    let mut least = own;
    let members = net.members.as_slice();
    for member in members {
        if is_here(nodes, *member) && !is_bridge(net, *member) {
            least = least.min(nodes[*member as usize].done_run());
        }
    }
    least
}

// Each node that asks comes in.
fn admit(nodes: &mut Vec<Node>)
    ensures { nodes.new.items ≡ map admitted nodes.old.items }
{
    for node in nodes.iter_mut() {
        node.admit();
    }
}

// All who ask come in; who holds the token after a node then.
pub(crate) fn hand_on(nodes: &mut Vec<Node>, node: u8) -> u8
    requires { length nodes.old.items ≤ 256 }
    ensures nodes { nodes.new.items ≡ map admitted nodes.old.items }
    ensures next { result ≡ successor (map admitted nodes.old.items) node }
{
    admit(nodes);
    successor(nodes, node)
}

// What becomes of a frame; None where it does not arrive, as where its target is none of the nodes.
pub(crate) fn arrival(net: &NetPlan, nodes: &[Node], fate: Fate, frame: &Frame) -> Option<Fell>
    ensures fell { result ≡ arrival net.now nodes.now fate frame.now }
    ensures there { IfSome result (λ _. frame.now.to < length nodes.now) }
{
    if !hears(net, nodes, frame.to, frame.is_onward()) || !fate_reaches(fate) {
        return None;
    }
    Some(nodes[frame.to as usize].fell(frame.kind, frame.id))
}

// A frame comes to its target, one of the nodes, if it arrives.
pub(crate) fn settle(
    nodes: &mut Vec<Node>,
    frame: Frame,
    fell: Option<Fell>,
) -> Result<(), AllocError>
    requires there { IfSome fell (λ _. frame.to < length nodes.old.items) }
    ensures ok { OnOk result (nodes.new.items ≡ arrived nodes.old.items frame fell) }
    ensures err { OnErr result (nodes.new.items ≡ nodes.old.items) }
{
    let Some(fell) = fell else {
        return Ok(());
    };
    nodes[frame.to as usize].receive(fell, frame)
}
