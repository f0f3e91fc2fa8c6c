//! The one table of causes: which entry of a controller's, a host's or the ring's list stands
//! after which, and what follows for an order of all of them.
#![tactic(auto)]

mod laws;

pub use laws::{
    in_time_by_fronts, joint_is_in_one_order, next_may_come_first, stations_have_one_order,
};
