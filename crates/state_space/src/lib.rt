//! The states that a machine can reach, looked at in breadth, and whether one of them is bad.
#![tactic(auto)]

mod exploring;
mod machine;

pub use exploring::{Answer, explore};
pub use machine::Machine;
