//! The summary of a run: how many controllers it had, what they did, and what is on at its end.
#![tactic(auto)]

mod coils;
mod counts;
mod summary;

pub use coils::coils_on;
pub use summary::summary_text;
