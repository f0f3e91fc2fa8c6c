//! A pair after hot standby: a primary on the bench that sends each scan to a standby, and fails, and
//! the standby that goes on. This project's own.
#![tactic(auto)]

mod frames;
mod pair;
mod scanning;
mod sending;
mod words;

pub use pair::{PairEnd, pair_run};
pub use words::Words8;
