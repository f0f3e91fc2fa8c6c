//! Tests of controllers: their scans, their histories and what they answer.
#![tactic(auto)]

#[cfg(test)]
mod controllers;
