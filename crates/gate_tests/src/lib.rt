//! A gate, and tapes behind gates, in threads.
#![tactic(auto)]

#[cfg(test)]
mod gates;
#[cfg(test)]
mod tapes;
