//! What is told of all runs of a field: that something is never so, or the shortest run that comes
//! to it.
#![tactic(auto)]

mod answer;
mod exchanges;
mod panel;

pub use answer::{NeverEnd, holds_text, limit_of, never_answer, push_head, scan_count};
pub use exchanges::push_scan;
