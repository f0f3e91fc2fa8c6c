//! Scripts of calls on rings with their answers, worked out by hand.
#![tactic(auto)]

#[cfg(test)]
mod bridges;
#[cfg(test)]
mod coming_back;
#[cfg(test)]
mod counters;
#[cfg(test)]
mod fates;
#[cfg(test)]
mod give_ups;
#[cfg(test)]
mod global_words;
#[cfg(test)]
mod inboxes;
#[cfg(test)]
mod leaving;
#[cfg(test)]
mod losing_power;
#[cfg(test)]
mod refusals;
#[cfg(test)]
mod script;
#[cfg(test)]
mod statistics;
