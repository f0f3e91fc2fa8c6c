//! What the turns of a plant's stations keep of one order in time.
#![tactic(auto)]

mod laws;

pub use entry_causes::joint_is_in_one_order;
pub use laws::{others_stay_in_time, turns_stay_in_time};
