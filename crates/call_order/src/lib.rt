//! A consequence of the one order in time that each run has, on which nothing else stands: in which
//! order the entries of a call are, by its name: asked, posted, taken, answered, replied to, ended.
#![tactic(auto)]

mod laws;

pub use laws::{calls_stand_in_order, replies_come_from_targets};
