//! A lock whose holders take turns in the order of their tickets. The value that it keeps is seen
//! as a list of entries, and each pass knows which entries it has seen and which it made.
//!
//! A gate comes with pass 0. Split off a pass for each thread, enter and leave with it, join all of
//! them back into pass 0, and close the gate with that.
#![tactic(auto)]

mod cuts;
mod gates;
mod journals;
mod passes;
mod plays;
mod stays;
mod views;

pub use gates::Gate;
pub use journals::Journal;
pub use passes::Pass;
pub use stays::Held;
