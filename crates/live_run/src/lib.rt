//! The live run: controllers, hosts, bridges and rings behind gates, worked on by threads.
#![tactic(auto)]

mod dealing;
mod homes;
mod lists;
mod rings;
mod runs;

pub use gated_sides::{
    BridgeCell, GatedBridge, GatedRam, GatedRing, Meet, NoMeet, RamCell, RingCell,
};
pub use runs::{live, live_noted};
