//! Tests of the order of events within a scan.
#![tactic(auto)]

#[cfg(test)]
mod rows;
