//! Tests of word exchanges.
#![tactic(auto)]

#[cfg(test)]
mod runs;
#[cfg(test)]
mod sendings;
