//! The texts of cells: their words, and what these stand for.
#![tactic(auto)]

mod names;
mod numbers;
mod piece;
mod reading;
mod slots;
mod words;
mod writing;

pub use names::PieceName;
pub use numbers::{is_reference_word, reference_number, reference_of, spelled_number};
pub use piece::{CellFault, Piece};
pub use reading::{name_in_piece, read_cell};
pub use words::{has_words, is_text, next_word, only_word};
pub use writing::cell_text;
