//! What conducted in the networks that the controllers of a plant solved, scan by scan.
#![tactic(auto)]

mod following;
mod lines;
mod power;
mod window;

pub use power::flow_text;
