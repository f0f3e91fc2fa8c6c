//! The counters of a station on the ring.
#![tactic(auto)]

mod counters;
mod event;
mod laws;

pub use counters::Stats;
pub use event::StatEvent;
pub use laws::counts_are_from_scratch;
