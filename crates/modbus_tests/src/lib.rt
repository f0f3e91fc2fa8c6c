//! Tests of Modbus requests, replies and answers.
#![tactic(auto)]

#[cfg(test)]
mod answers;
#[cfg(test)]
mod cut;
#[cfg(test)]
mod digits;
#[cfg(test)]
mod requests;
