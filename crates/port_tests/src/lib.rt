//! Tests of hosts, and of what stations do with the token.
#![tactic(auto)]

#[cfg(test)]
mod host_turns;
#[cfg(test)]
mod hosts;
#[cfg(test)]
mod plans;
#[cfg(test)]
mod power;
#[cfg(test)]
mod power_words;
#[cfg(test)]
mod turns;
