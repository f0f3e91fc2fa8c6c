//! Ends of bridges in time: which entry of a bridge's list for one of its ends stands after which
//! entry of the end's node on its ring, and inside that list; and what keeps the two in time.
#![tactic(auto)]

mod laws;

pub use bridge_port::BridgeWorker;
pub use laws::{
    bridges_keep_order, end_others_stay_in_time, end_turns_stay_in_time, ends_start_in_time,
};
