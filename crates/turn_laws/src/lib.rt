//! What the turns of a plant's stations keep, so that a run of them is complete in the end.
#![tactic(auto)]

mod laws;

pub use laws::{
    away_turns_keep_on, controllers_complete, host_others_keep_on, host_starts_keep,
    host_turns_keep_on, hosts_complete, leaves_when_ended, none_is_spent, others_keep_on,
    scans_keep_on, somebody_holds, starts_keep, turns_end_where, turns_keep_on, visits_collect,
    visits_keep_on,
};
pub use time_laws::joint_is_in_one_order;
