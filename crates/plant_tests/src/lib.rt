//! Tests of stores, plans and their copies.
#![tactic(auto)]

#[cfg(test)]
mod values;
