//! Whether the lists of each ring of a plant and of the stations on it fit one order in time in
//! which nothing comes before its cause, and where not.
#![tactic(auto)]

mod answering;
mod counts;
mod judging;
mod laws;
mod reaching;

pub use judging::{Standstill, first_standstill};
pub use laws::stands_still_once;
