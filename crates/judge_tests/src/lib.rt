//! Tests of the judge of joint histories.
#![tactic(auto)]

#[cfg(test)]
mod bridged;
#[cfg(test)]
mod ends;
#[cfg(test)]
mod histories;
#[cfg(test)]
mod onward;
#[cfg(test)]
mod plans;
