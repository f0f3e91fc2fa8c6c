//! What all nodes noted on their rings, and where the entries of each stand there.
ghost use Rattle.std.specs.Prelude.{IfOk};
ghost use Rattle.joint_history.specs.Nets.{entries_of_rings};
ghost use Rattle.joint_law.specs.OnRings.{ArePlacesOn, IsOfNode, IsOnOne};

use joint_history::RingLog;
use own_places::OwnPlaces;
use ring_core::RingEntry;
use std::alloc::{AllocError, Global};

/// The ring on which a node noted something, and the places of its entries there.
#[derive(Clone, Copy)]
pub(crate) struct OfNode<'a> {
    pub ring: &'a [RingEntry],
    pub places: &'a [usize],
}

/// All rings, and for each of them the places of each node's entries.
#[derive(Clone, Copy)]
pub(crate) struct OnRings<'a> {
    pub rings: &'a [RingLog],
    pub own: &'a [OwnPlaces],
}

/// The places of each node's entries on each ring.
pub(crate) fn own_on_each(alloc: Global, rings: &[RingLog]) -> Result<Vec<OwnPlaces>, AllocError>
    ensures { IfOk result (λ own. ArePlacesOn rings.now own.items) }
{
    let mut own = Vec::new(alloc);
    for ring in rings {
        own.push(OwnPlaces::of(alloc, ring.entries.as_slice())?)?;
    }
    Ok(own)
}

/// The entries of a node, on the first ring on which it has some.
pub(crate) fn entries_of<'a>(on: OnRings<'a>, node: u8) -> OfNode<'a>
    requires places { ArePlacesOn on.rings.now on.own.now }
    requires one { IsOnOne node on.rings.now }
    ensures { IsOfNode (entries_of_rings on.entry.rings.now) node result }
{
    for at in 0..on.rings.len() {
        let places = on.own[at].places(node);
        if !places.is_empty() {
            return OfNode {
                ring: on.rings[at].entries.as_slice(),
                places,
            };
        }
    }
    OfNode {
        ring: &[],
        places: &[],
    }
}
