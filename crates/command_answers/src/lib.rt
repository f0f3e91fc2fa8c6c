//! What is due for a command and an input, and the answer that gives it.
#![tactic(auto)]

mod answered;
mod answering;
mod cops;
mod cutting;
mod flows;
mod judging;
mod laws;
mod nevers;
mod pairs;
mod sames;
mod sessions;
mod status;

pub use answered::Answer;
pub use answering::{answer_to, refused, traced};
pub use laws::{one_due, written_is_legal};
pub use status::Status;
