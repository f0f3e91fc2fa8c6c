//! What the turns of a bridge's ends keep, so that a run of them is complete in the end.
#![tactic(auto)]

mod laws;

pub use end_times::BridgeWorker;
pub use joint_history::BridgeLog;
pub use laws::{
    end_others_keep_on, end_turns_keep_on, end_turns_spend_nothing, ends_across_keep_on,
    ends_complete, ends_start_keep,
};
pub use turn_laws::{
    away_turns_keep_on, controllers_complete, host_turns_keep_on, hosts_complete,
    joint_is_in_one_order, somebody_holds, turns_end_where, turns_keep_on, visits_keep_on,
};
