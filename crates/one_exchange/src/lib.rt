//! A plant with wires has one word exchange of so many scans; and what answers name of runs.
#![tactic(auto)]

mod laws;

pub use laws::one_exchange;
pub use one_run::{one_serial_run, run_counted, run_noted};
pub use word_exchange::cop_run;
