//! A list of places for each node.
ghost use Rattle.std.specs.Prelude.{◌≡◌, ◌++◌, ◌∷◌, [], get_or, length, replicate, set, IfOk, OnOk};
ghost use Rattle.ring_core.specs.Words.{maker};
ghost use Rattle.one_order.specs.Fronts.{places_of};
ghost use Rattle.own_places.specs.Places.{ArePlaces, node_numbers};

use plant_types::List;
use ring_core::RingEntry;
use std::alloc::{AllocError, Global};
use std::marker::Model;

/// A list for each number that an address can be.
const NODE_NUMBERS: usize = 256;

/// For each node the places of its entries on the ring. This project's own.
#[derive(Drop)]
pub struct OwnPlaces {
    places: Vec<List<usize>>,
}

impl Model for OwnPlaces {
    ghost use Rattle.std.specs.Prelude.{List, ℕ, ◌≡◌, length};
    ghost use Rattle.own_places.specs.Places.{node_numbers};

    ghost Value = { List (List ℕ) };

    ghost view = { λ o. o.places.items };

    ghost invariant = { λ o. length o.places.items ≡ node_numbers };
}

fn maker(entry: &RingEntry) -> u8
    ensures { result ≡ maker entry.now }
{
    match entry {
        RingEntry::Post { node, .. } => *node,
        RingEntry::Send { node, .. } => *node,
        RingEntry::Take { node, .. } => *node,
        RingEntry::Local { node, .. } => *node,
        RingEntry::GiveUp { id, .. } => id.node,
        RingEntry::Pass { node, .. } => *node,
        RingEntry::Leave { node, .. } => *node,
        RingEntry::Join { node } => *node,
    }
}

fn no_places(alloc: Global) -> Result<Vec<List<usize>>, AllocError>
    ensures { IfOk result (λ lists. lists.items ≡ replicate node_numbers []) }
{
    let mut lists = Vec::new(alloc);
    for _ in 0..NODE_NUMBERS {
        lists.push(List::new(alloc))?;
    }
    Ok(lists)
}

fn add_place(lists: &mut Vec<List<usize>>, node: u8, place: usize) -> Result<(), AllocError>
    requires { length lists.old.items ≡ node_numbers }
    ensures { OnOk result (lists.new.items
        ≡ set lists.old.items node (get_or lists.old.items node [] ++ place ∷ [])) }
{
    let own = &mut lists[node as usize];
    own.push(place)?;
    Ok(())
}

/// One pass over the ring.
fn all_places(alloc: Global, ring: &[RingEntry]) -> Result<Vec<List<usize>>, AllocError>
    ensures { IfOk result (λ lists. ArePlaces ring.now lists.items) }
{
    let mut lists = no_places(alloc)?;
    for place in 0..ring.len() {
        add_place(&mut lists, maker(&ring[place]), place)?;
    }
    Ok(lists)
}

impl OwnPlaces {
    /// Finds them, in one pass over the ring.
    pub fn of(alloc: Global, ring: &[RingEntry]) -> Result<OwnPlaces, AllocError>
        ensures { IfOk result (ArePlaces ring.now) }
    {
        Ok(OwnPlaces {
            places: all_places(alloc, ring)?,
        })
    }

    /// The places of a node's entries.
    pub fn places(&self, node: u8) -> &[usize]
        ensures { result.now ≡ get_or self.now node [] }
    {
        self.places[node as usize].as_slice()
    }
}
