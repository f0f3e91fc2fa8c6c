//! What cannot matter to references: states that agree on a closed set of references agree on it
//! after each solve and each scan.
#![tactic(auto)]

mod laws;

pub use laws::solves_keep_agreement;
