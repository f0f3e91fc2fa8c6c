//! The panel of a plant: what its controllers show scan by scan, and what its hosts were told.
#![tactic(auto)]

mod following;
mod hosts;
mod lines;
mod panel;
mod scans;

pub use hosts::push_host;
pub use panel::{panel_from_notes, panel_text, panels_of};
pub use scans::push_scans;
