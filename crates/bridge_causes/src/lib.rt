//! What stands behind what a bridge sends on and gives back, inside its own list.
#![tactic(auto)]

mod laws;

pub use laws::{backs_follow_causes, forwards_follow_accepts};
