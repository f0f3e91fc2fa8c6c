//! A store of references whose words are taken out and put in as one list.
#![tactic(auto)]

mod banks;
mod bits;
mod store;

pub use store::{KeyRam, is_on_in};
