//! A controller on a bench, and an operator's frames that are served between its scans.
#![tactic(auto)]

mod asked;
mod bench;
mod calls;
mod line;
mod session;

pub use asked::{PortFrame, frames_for};
pub use bench::{Bench, BenchEnd};
pub use session::{Session, run_session, serve_all};
