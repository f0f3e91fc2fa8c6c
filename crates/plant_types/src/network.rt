//! Ladder networks: cells, and the vertical shorts between their rows.
use crate::element::Element;
use crate::list::List;

/// An element at the place of its top node: row 1 to 7, column 1 to 11.
#[derive(Clone, Copy, Debug, PartialEq, Eq)]
pub struct Cell {
    pub row: u8,
    pub column: u8,
    pub element: Element,
}

/// A vertical short of a row (1 to 6) and the one below it, at the right border of a column.
#[derive(Clone, Copy, Debug, PartialEq, Eq)]
pub struct Short {
    pub row: u8,
    pub column: u8,
}

/// One network, its cells and shorts in the order of its text.
pub struct Network {
    pub cells: List<Cell>,
    pub shorts: List<Short>,
}

impl Drop for Network {
    fn drop(self) {
        let Network {
            cells: _,
            shorts: _,
        } = self;
    }
}

/// Networks that are solved together, in their order.
pub struct Segment {
    pub networks: List<Network>,
}

impl Drop for Segment {
    fn drop(self) {
        let Segment { networks: _ } = self;
    }
}
