//! The joint history of a plant, and the laws between its lists.
#![tactic(auto)]

mod joint;
mod noted;
mod rings;

pub use joint::{BridgeLog, ControllerLog, HostLog, Joint, RingLog};
pub use noted::Noted;
pub use rings::noted_copied;
