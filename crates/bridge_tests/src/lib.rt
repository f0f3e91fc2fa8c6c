//! Tests of a bridge.
#![tactic(auto)]

#[cfg(test)]
mod calls;
#[cfg(test)]
mod following;
#[cfg(test)]
mod leaving;
#[cfg(test)]
mod limits;
#[cfg(test)]
mod trial;
