//! Reads the plan of a plant from the bytes of its file.
#![tactic(auto)]

mod addresses;
mod bridges;
mod hosts;
mod reading;
mod requests;
mod top;
mod whole;

pub use plant_tables::{LoadEnd, Version};
pub use reading::load;
