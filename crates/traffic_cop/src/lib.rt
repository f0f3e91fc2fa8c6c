//! The exchanges of a controller with its drops.
#![tactic(auto)]

mod checking;
mod cop;
mod feeding;
mod modules;
mod places;
mod testing;

pub use checking::checked_drops_are_ready;
pub use cop::{Cop, Health};
pub use feeding::rows_come_later;
pub use modules::input_total;
pub use places::{drop_place, module_place, script_place};
pub use testing::{carries, fits_row, has_few_words, is_regular, kind_of, module_fault};
