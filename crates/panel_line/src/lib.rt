//! The panel line of one scan: it is gone, or the controller stopped in it.
#![tactic(auto)]

mod line;
mod reading;

pub use line::{push_gone, push_stopped, values_from};
pub use reading::{Reading, readings_of};
