//! Whether two frames, results, words or requests are one.
#![tactic(auto)]

mod same;

pub use same::{same_bytes, same_frame, same_result, same_words};
