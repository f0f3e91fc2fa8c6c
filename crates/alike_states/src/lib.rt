//! What a solve does not tell apart: states that are some whole seconds apart.
#![tactic(auto)]

mod laws;

pub use laws::{edges_stay_elsewhere, solves_ask_no_hour, tables_stay_alone};
