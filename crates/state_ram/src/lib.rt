//! The references of a controller in packed words.
#![tactic(auto)]

mod banks;
mod bits;
mod packed;

pub use packed::PackedRam;
