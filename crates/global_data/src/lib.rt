//! Global words: what each node passes with its token.
#![tactic(auto)]

mod book;
mod words;

pub use book::GlobalBook;
