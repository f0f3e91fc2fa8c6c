//! The words of the command line: which command they spell, with its numbers.
#![tactic(auto)]

mod arguments;
mod cops;
mod flows;
mod nevers;
mod sames;
mod standbys;
mod three_numbers;
mod words;

pub use words::{Command, Question, Task, command_of, live_scans};
