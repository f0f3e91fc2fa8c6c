//! Readings and writings with the faults of the outside.
#![tactic(auto)]

#[cfg(test)]
mod memory;
#[cfg(test)]
mod std_streams;
