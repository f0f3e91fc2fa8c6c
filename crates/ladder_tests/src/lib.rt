//! Tests of grids, and of segments that are solved over several scans.
#![tactic(auto)]

#[cfg(test)]
mod grids;
#[cfg(test)]
mod segments;
