//! Tests of journals, written and read, and of panels, summaries and plants that are made from
//! numbers.
#![tactic(auto)]

#[cfg(test)]
mod bridged;
#[cfg(test)]
mod generated;
#[cfg(test)]
mod panels;
#[cfg(test)]
mod read;
#[cfg(test)]
mod summaries;
#[cfg(test)]
mod written;
