//! Tests of a controller on a bench.
#![tactic(auto)]

#[cfg(test)]
mod benches;
#[cfg(test)]
mod calls;
#[cfg(test)]
mod frames;
#[cfg(test)]
mod power;
