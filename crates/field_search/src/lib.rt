//! What a search of the keys of a controller's states says of all runs of its field.
#![tactic(auto)]

mod laws;

pub use laws::{covers_hold_in_the_field, covers_reach_all, paths_are_runs};
