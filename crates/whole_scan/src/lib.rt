//! Whole scans of a controller.
#![tactic(auto)]

mod scanning;

pub use scanning::{scan, scans_stay_whole};
