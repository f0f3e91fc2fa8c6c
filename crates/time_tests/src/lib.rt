//! Tests of the judge of an order in time, on small joint histories.
#![tactic(auto)]

#[cfg(test)]
mod standstills;
