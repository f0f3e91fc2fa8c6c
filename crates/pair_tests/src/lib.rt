//! Tests of `field_pair` and `same_text`.
#![tactic(auto)]

#[cfg(test)]
mod cases;
#[cfg(test)]
mod differences;
#[cfg(test)]
mod tests;
