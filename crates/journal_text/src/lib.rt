//! The journal: a joint history as a text that a stranger can check. This project's own.
#![tactic(auto)]

mod draft;
mod fault;
mod laws;
mod plain;
mod reading;
mod section;
mod sizes;
mod writing;

pub use fault::JournalFault;
pub use laws::{legal_is_plain, one_history_of_a_text, one_journal_in_front};
pub use plain::is_plain;
pub use reading::read_journal;
pub use sizes::fits_its_types;
pub use writing::journal_text;
