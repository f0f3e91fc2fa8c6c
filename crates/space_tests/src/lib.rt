//! Tests of `state_space`.
#![tactic(auto)]

#[cfg(test)]
mod tests;
mod turns;

pub use turns::Turns;
