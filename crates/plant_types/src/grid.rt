//! Which cells and shorts can stand together in a network.
ghost use Rattle.std.specs.Prelude.{◌≡◌, ◌+◌};
ghost use Rattle.std.specs.List.{list_any};
ghost use Rattle.plant_types.specs.Network.{node_count, driven_by, ends_row, covers, is_within};
ghost use Rattle.plant_types.specs.Network.{overlaps, is_right_of_coil, clashes, same_short};
ghost use Rattle.plant_types.specs.Checks.{has_shape};

use crate::element::Element;
use crate::network::{Cell, Short};
use crate::reference::Ref;

/// How many rows an element takes, from its place down.
fn node_count(element: Element) -> u16
    ensures { result ≡ node_count element }
{
    match element {
        Element::Open(_) | Element::Closed(_) | Element::Rise(_) | Element::Fall(_) => 1,
        Element::Coil(_) | Element::Latch(_) | Element::Wire => 1,
        Element::Skip(_) | Element::Label(_) | Element::Return => 1,
        Element::Timer { .. } | Element::Counter { .. } | Element::Call(_) => 2,
        Element::Math { .. } | Element::Move { .. } | Element::Matrix { .. } => 3,
        Element::Mstr { .. } => 3,
    }
}

/// The coil that an element drives.
pub fn driven_by(element: Element) -> Option<Ref>
    ensures { result ≡ driven_by element }
{
    match element {
        Element::Coil(at) | Element::Latch(at) => Some(at),
        _ => None,
    }
}

fn ends_row(element: Element) -> bool
    ensures { result ≡ ends_row element }
{
    driven_by(element).is_some()
}

/// The first row below a cell.
fn row_below(cell: Cell) -> u16
    ensures { result ≡ cell.row + node_count cell.element }
{
    u16::from(cell.row) + node_count(cell.element)
}

fn covers(cell: Cell, row: u8) -> bool
    ensures { result ≡ covers cell row }
{
    cell.row <= row && u16::from(row) < row_below(cell)
}

fn overlaps(one: Cell, other: Cell) -> bool
    ensures { result ≡ overlaps one other }
{
    one.column == other.column
        && u16::from(one.row) < row_below(other)
        && u16::from(other.row) < row_below(one)
}

fn is_right_of_coil(cell: Cell, coil: Cell) -> bool
    ensures { result ≡ is_right_of_coil cell coil }
{
    ends_row(coil.element) && coil.column < cell.column && covers(cell, coil.row)
}

fn clashes(one: Cell, other: Cell) -> bool
    ensures { result ≡ clashes one other }
{
    overlaps(one, other) || is_right_of_coil(one, other) || is_right_of_coil(other, one)
}

fn clashes_with_any(cells: &[Cell], cell: Cell) -> bool
    ensures { result ≡ list_any (clashes cell) cells.now }
{
    cells.iter().any(|other| clashes(cell, *other))
}

/// Whether a cell can stand in a network that has these cells.
pub fn has_shape(cells: &[Cell], cell: Cell) -> bool
    ensures { result ≡ has_shape cells.now cell }
{
    row_below(cell) <= 8 && !clashes_with_any(cells, cell)
}

fn same_short(one: Short, other: Short) -> bool
    ensures { result ≡ same_short one other }
{
    one.row == other.row && one.column == other.column
}

/// Whether a network that has these shorts has this one.
pub fn has_short(shorts: &[Short], short: Short) -> bool
    ensures { result ≡ list_any (same_short short) shorts.now }
{
    shorts.iter().any(|other| same_short(short, *other))
}
