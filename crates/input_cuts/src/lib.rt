//! Where an input is cut into a plant file and what stands after it.
#![tactic(auto)]

mod cutting;

pub use cutting::{cut_after, cut_before};
