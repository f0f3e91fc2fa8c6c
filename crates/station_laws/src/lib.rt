//! The five laws between a station's list and its node's entries on the ring: where each is broken
//! at one station, or at one end of a bridge.
#![tactic(auto)]

mod answering;
mod asking;
mod backs;
mod by_call;
mod differing;
mod ending;
mod failing;
mod law;
mod replying;
mod stations;

pub use by_call::ByCall;
pub use failing::{count_fails, downs};
pub use law::Law;
pub use stations::{controller_breaks, host_breaks, side_breaks};
