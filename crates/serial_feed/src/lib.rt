//! A serial run whose plant is given rows while it stands between two repetitions.
#![tactic(auto)]

mod laws;
mod serial;

pub use laws::rows_keep_runs;
pub use serial::Serial;
