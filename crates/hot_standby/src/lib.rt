//! A standby after hot standby: a controller that takes the scans of a primary, packet by packet, and
//! goes on from there. This project's own.
#![tactic(auto)]

mod laws;
mod packet;
mod standby;
mod taking;

pub use laws::packets_make_the_history;
pub use packet::{Packet, StandbyNo, Taken};
pub use standby::Standby;
