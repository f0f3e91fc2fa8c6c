//! Tests of what the ends of a bridge do with the token.
#![tactic(auto)]

#[cfg(test)]
mod letters;
#[cfg(test)]
mod rows;
#[cfg(test)]
mod shores;
