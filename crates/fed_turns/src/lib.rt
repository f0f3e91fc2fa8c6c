//! The turns and the scans of a controller stay its own when a drop is given a row more.
#![tactic(auto)]

mod laws;

pub use laws::{holds_agree, rows_agree, scans_agree, visits_agree};
