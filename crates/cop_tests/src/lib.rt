//! Tests of drops and of their tests.
#![tactic(auto)]

#[cfg(test)]
mod drops;
