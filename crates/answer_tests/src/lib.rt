//! Tests of what is answered to commands.
#![tactic(auto)]

#[cfg(test)]
mod cases;
#[cfg(test)]
mod exchanges;
#[cfg(test)]
mod fields;
#[cfg(test)]
mod ladders;
#[cfg(test)]
mod networks;
#[cfg(test)]
mod pairs;
#[cfg(test)]
mod statuses;
