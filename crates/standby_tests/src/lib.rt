//! Tests of a standby.
#![tactic(auto)]

#[cfg(test)]
mod pairs;
#[cfg(test)]
mod primaries;
#[cfg(test)]
mod taking;
#[cfg(test)]
mod whole;
