//! Tests of `cone_of`.
#![tactic(auto)]

#[cfg(test)]
mod cases;
#[cfg(test)]
mod tests;
