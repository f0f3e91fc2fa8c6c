//! A plant has one run in each order of turns, and one serial run.
#![tactic(auto)]

mod laws;

pub use laws::{one_end_turn, one_host_turn, one_serial_run, one_turn, one_turns_run, one_visit};
pub use serial_run::{run_counted, run_noted};
