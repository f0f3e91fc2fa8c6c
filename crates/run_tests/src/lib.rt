//! Tests of runs: the plant READ2 by turns, serially and in threads.
#![tactic(auto)]

#[cfg(test)]
mod both_ends;
#[cfg(test)]
mod live;
#[cfg(test)]
mod plans;
#[cfg(test)]
mod read2;
#[cfg(test)]
mod serial;
