//! The places of each node's entries on the ring, found in one pass.
#![tactic(auto)]

mod finding;

pub use finding::OwnPlaces;
