//! A controller, a ring and a bridge behind gates, as workers in threads of their own go through
//! them.
#![tactic(auto)]

mod cells;
mod gated_bridge;
mod gated_ram;
mod gated_ring;
mod meets;
mod tallies;

pub use cells::{BridgeCell, RamCell, RingCell};
pub use gated_bridge::GatedBridge;
pub use gated_ram::GatedRam;
pub use gated_ring::GatedRing;
pub use meets::{Meet, NoMeet};
pub use tallies::Outside;
