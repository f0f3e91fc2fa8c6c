//! The bridges of a plant by their texts.
ghost use Rattle.std.specs.Prelude.{◌≡◌, ◌≤◌, length, map, option_map};
ghost use Rattle.cell_text.specs.Words.{text_words};
ghost use Rattle.plant_tables.specs.Given.{texts_in};
ghost use Rattle.plant_tables.specs.Refusals.{Gives};
ghost use Rattle.plant_loader.specs.Bridges.{words_of_bridge, bridge_words, net_of_word, has_end};
ghost use Rattle.plant_loader.specs.Bridges.{is_taken, free_node, two_apart, bridge_behind};
ghost use Rattle.plant_loader.specs.Bridges.{bridges_of};

use crate::addresses::{Address, has_node};
use cell_text::next_word;
use plant_tables::{
    LoadEnd, NetTable, Refusal, bridge_place, is_numeral, numeral_within, one_of_nets,
};
use plant_types::{BRIDGE_LIMIT, BridgePlan, NET_LIMIT, NODE_LIMIT, PlantFault};
use std::alloc::Global;

/// The four words of a bridge.
#[derive(Clone, Copy)]
struct BridgeWords<'a> {
    left_net: &'a [u8],
    left: &'a [u8],
    right_net: &'a [u8],
    right: &'a [u8],
}

/// The four words of a text, where each is a number.
fn bridge_words(text: &[u8]) -> Option<BridgeWords<'_>>
    ensures { option_map words_of_bridge result ≡ bridge_words (text_words text.now) }
{
    let (left_net, rest) = next_word(text)?;
    let (left, rest) = next_word(rest)?;
    let (right_net, rest) = next_word(rest)?;
    let (right, rest) = next_word(rest)?;
    if next_word(rest).is_some() {
        return None;
    }
    if is_numeral(left_net) && is_numeral(left) && is_numeral(right_net) && is_numeral(right) {
        Some(BridgeWords {
            left_net,
            left,
            right_net,
            right,
        })
    } else {
        None
    }
}

/// The number of a word, where it is that of one of these networks.
fn net_of_word(nets: &[NetTable], word: &[u8]) -> Option<u8>
    ensures { result ≡ net_of_word nets.now word.now }
{
    let number = numeral_within(1, u32::from(NET_LIMIT), word)?;
    one_of_nets(nets, number)
}

/// Whether one of these bridges has this node at one of its ends.
fn has_end(bridges: &[BridgePlan], node: u8) -> bool
    ensures { result ≡ has_end bridges.now node }
{
    bridges
        .iter()
        .any(|bridge| bridge.left == node || bridge.right == node)
}

/// Whether a station or a bridge has this node.
fn is_taken(stations: &[Address], bridges: &[BridgePlan], node: u8) -> bool
    ensures { result ≡ is_taken stations.now bridges.now node }
{
    has_node(stations, node) || has_end(bridges, node)
}

/// The number of a word, where it is the address of a node that is not taken.
fn free_node(stations: &[Address], bridges: &[BridgePlan], word: &[u8]) -> Option<u8>
    ensures { result ≡ free_node stations.now bridges.now word.now }
{
    let node = numeral_within(1, u32::from(NODE_LIMIT), word)? as u8;
    if is_taken(stations, bridges, node) {
        None
    } else {
        Some(node)
    }
}

/// Two numbers that are there and differ.
fn two_apart(one: Option<u8>, other: Option<u8>) -> Option<(u8, u8)>
    ensures { result ≡ two_apart one other }
{
    let pair = (one?, other?);
    if pair.0 == pair.1 { None } else { Some(pair) }
}

#[tactic(auto, unfolding(crate::specs::Bridges::bridge_behind))]
fn bridge_behind(
    nets: &[NetTable],
    stations: &[Address],
    earlier: &[BridgePlan],
    number: u32,
    text: &str,
) -> Result<BridgePlan, Refusal>
    ensures { result ≡ bridge_behind nets.now stations.now earlier.now (number, text.now) }
{
    let bad_network = (PlantFault::BadNetwork, bridge_place(number));
    let Some(words) = bridge_words(text.as_bytes()) else {
        return Err(bad_network);
    };
    let left_net = net_of_word(nets, words.left_net);
    let right_net = net_of_word(nets, words.right_net);
    let Some((left_net, right_net)) = two_apart(left_net, right_net) else {
        return Err(bad_network);
    };
    let left = free_node(stations, earlier, words.left);
    let right = free_node(stations, earlier, words.right);
    let Some((left, right)) = two_apart(left, right) else {
        return Err((PlantFault::BadNode, bridge_place(number)));
    };
    Ok(BridgePlan {
        left_net,
        left,
        right_net,
        right,
    })
}

/// The bridges of a plant with these networks and stations, in file order.
#[tactic(auto, unfolding(plant_tables::specs::InOrder::each_behind))]
pub fn bridges_of(
    alloc: Global,
    nets: &[NetTable],
    stations: &[Address],
    texts: &[&str],
) -> Result<Vec<BridgePlan>, LoadEnd>
    requires { length texts.now ≤ BRIDGE_LIMIT }
    ensures { Gives (λ bridges. bridges.items) result
        (bridges_of nets.now stations.now (texts_in texts.now)) }
{
    let mut bridges = Vec::new(alloc);
    let mut number = 0;
    for text in texts {
        number += 1;
        let next = bridge_behind(nets, stations, bridges.as_slice(), number, text)?;
        if bridges.push(next).is_err() {
            return Err(LoadEnd::NoMemory);
        }
    }
    Ok(bridges)
}
