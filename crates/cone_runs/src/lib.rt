//! Scans of controllers whose states are alike on a closed set of references.
#![tactic(auto)]

mod laws;

pub use laws::alike_in_stay;
