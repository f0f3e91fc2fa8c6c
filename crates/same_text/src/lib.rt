//! What is told of two controllers side by side: that they do the same, or the shortest run that
//! tells them apart.
#![tactic(auto)]

mod answer;
mod laws;
mod lines;

pub use answer::{SameEnd, same_answer};
pub use field_pair::{Difference, first_difference, is_alone};
pub use laws::one_answer_same;
