//! Pieces of a network's text, and their faults.
use plant_types::{Cell, Short};

/// What one piece of a network's text stands for.
#[derive(Clone, Copy, Debug, PartialEq, Eq)]
pub enum Piece {
    Cell(Cell),
    Short(Short),
}

/// Why a piece is refused. This project's own.
#[derive(Clone, Copy, Debug, PartialEq, Eq)]
pub enum CellFault {
    /// It does not read: its position, its name, how many operands it has, or a constant in place
    /// of a reference or the reverse.
    BadCell,
    /// A constant is outside its range.
    BadValue,
    /// Five digits are no reference, or one of a wrong kind.
    BadRef,
}
