//! A ring at first.
ghost use Rattle.std.specs.Prelude.{◌≡◌, ◌<◌, length, All, IfOk};
ghost use Rattle.ring_core.specs.Machine.{addresses, opening_nodes};
ghost use Rattle.ring_core.specs.Kept.{opening_stats};

use crate::node::Node;
use plant_types::ADDRESSES;
use station_stats::Stats;
use std::alloc::{AllocError, Global};

pub(crate) fn opening_nodes(alloc: Global, members: &[u8]) -> Result<Vec<Node>, AllocError>
    requires { All (λ m. m < addresses) members.now }
    ensures nodes { IfOk result (λ nodes. nodes.items ≡ opening_nodes members.now) }
    ensures size { IfOk result (λ nodes. length nodes.items ≡ addresses) }
{
    let mut nodes = Vec::new(alloc);
    for _ in 0..ADDRESSES as usize {
        nodes.push(Node::new(alloc, false)?)?;
    }
    for member in members {
        nodes[*member as usize] = Node::new(alloc, true)?;
    }
    Ok(nodes)
}

pub(crate) fn opening_stats(alloc: Global, members: &[u8]) -> Result<Vec<Stats>, AllocError>
    requires { All (λ m. m < addresses) members.now }
    ensures { IfOk result (λ stats. stats.items ≡ opening_stats members.now) }
{
    let mut stats = Vec::new(alloc);
    for _ in 0..ADDRESSES as usize {
        stats.push(Stats::new(0))?;
    }
    for member in members {
        stats[*member as usize] = Stats::new(*member);
    }
    Ok(stats)
}
