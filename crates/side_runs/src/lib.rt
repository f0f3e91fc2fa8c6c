//! Two controllers side by side in one field: what keys that cover both say of all their runs.
#![tactic(auto)]

mod laws;

pub use laws::{
    brought_runs_are_scans, drops_stay_alone, fields_are_played, pair_covers_hold,
    pair_paths_are_runs,
};
