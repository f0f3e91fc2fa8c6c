//! What the field may bring to a controller that is alone, and which of its states are alike.
#![tactic(auto)]

mod laws;

pub use laws::{alike_states_stay, field_runs_are_scans, scans_are_field_runs, scans_settle};
