//! Two controllers side by side in one field as a machine over keys of their states: whether they
//! can be compared, and what a search of all their runs finds.
#![tactic(auto)]

mod alike;
mod beside;
mod ends;
mod exchanges;
mod machine;
mod pair;
mod rows;
mod searching;

pub use alike::{Difference, first_difference};
pub use field_machine::{Exchange, is_alone};
pub use searching::{Apart, FoundPair, PanelEnd, search_pair};
