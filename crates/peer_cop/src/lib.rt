//! The wires of a word exchange after Peer Cop: output words of one controller's drop that reach
//! input words of another's drop. All of it is this project's own.
#![tactic(auto)]

mod fitting;
mod flags;
mod laws;
mod reading;
mod wire;
mod wires;

pub use laws::tested_plants_can_be_wired;
pub use wire::{Wire, WireEnd};
pub use wires::read_wires;
