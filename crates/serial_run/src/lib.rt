//! Runs of a plant in which one station after another has its turn.
#![tactic(auto)]

mod coils;
mod feeding;
mod joining;
mod order;
mod runs;
mod serial;
mod stations;
mod turning;

pub use bridge_station::{controllers_complete, hosts_complete, joint_is_in_one_order};
pub use joining::noted_of;
pub use order::Turn;
pub use route_laws::effects_are_right;
pub use runs::{CountedRun, run, run_counted, run_noted, turns};
pub use stations::Stations;
