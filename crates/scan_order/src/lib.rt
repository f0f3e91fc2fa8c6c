//! The order of events within a scan.
#![tactic(auto)]

mod due;
mod power;

pub use due::{
    ScanPlace, ScanStep, ends_scan, following_gives_due, next_due, place_after, row_of,
    scans_end_once,
};
pub use power::{ScanPower, kept_power_stays, power_in};
