//! The packed store, alone and beside the plain one.
#![tactic(auto)]

#[cfg(test)]
mod stores;
