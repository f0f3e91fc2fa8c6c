//! Blocks and relays that are solved, worked out by hand.
#![tactic(auto)]

#[cfg(test)]
mod integers;
#[cfg(test)]
mod matrices;
#[cfg(test)]
mod mstr;
#[cfg(test)]
mod relays;
#[cfg(test)]
mod rows;
#[cfg(test)]
mod tables;
#[cfg(test)]
mod timers;
