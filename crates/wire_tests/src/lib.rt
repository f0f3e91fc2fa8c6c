//! Tests of the lines of wires.
#![tactic(auto)]

#[cfg(test)]
mod lines;
