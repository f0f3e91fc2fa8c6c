//! Tests of the texts of cells.
#![tactic(auto)]

#[cfg(test)]
mod pieces;
