//! The lines of a journal, one of each entry, and which entries they tell all of.
#![tactic(auto)]

mod bridges;
mod controllers;
mod fields;
mod hosts;
mod plain;
mod rings;
mod sizes;

pub use bridges::push_bridge_lines;
pub use controllers::push_controller_lines;
pub use hosts::push_host_lines;
pub use plain::{
    are_plain_bridge_entries, are_plain_entries, are_plain_host_entries, are_plain_ring,
};
pub use rings::push_ring_lines;
pub use sizes::{bridge_entries_fit, entries_fit, host_entries_fit, ring_entries_fit, small_fits};
