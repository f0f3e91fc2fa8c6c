//! Which network a node of a plant is on, and that what it noted stands on the ring of that one.
#![tactic(auto)]

mod laws;

pub use laws::own_entries_are_on_own_ring;
