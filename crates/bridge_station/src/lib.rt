//! A bridge of a run, with the workers of its two ends.
#![tactic(auto)]

mod end_station;
mod laws;
mod station;

pub use end_laws::{
    away_turns_keep_on, controllers_complete, host_turns_keep_on, hosts_complete,
    joint_is_in_one_order, somebody_holds, turns_end_where, turns_keep_on, visits_keep_on,
};
pub use laws::{
    bridges_stand_behind_holds, ends_know_whether_they_left, ends_stand_beside_others,
    holding_ends_are_there, left_bridges_are_complete, standing_bridges_are_tied,
};
pub use station::BridgeStation;
