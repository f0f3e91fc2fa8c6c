//! Networks laid out by columns.
ghost use Rattle.std.specs.Prelude.{◌≡◌, ◌<◌, IfOk, map};
ghost use Rattle.std.specs.Option.{option_copied};
ghost use Rattle.plant_types.specs.Power.{bit_of};
ghost use Rattle.plant_types.specs.Wire.{is_shorted};
ghost use Rattle.grid_compile.specs.Cells.{cell_at, cells_from, marks_of};
ghost use Rattle.grid_compile.specs.Lists.{EachColumnListed};
ghost use Rattle.grid_compile.specs.Listed.{EachGridListed};
ghost use Rattle.grid_compile.specs.Layout.{op_of, column_of, grid_of, grids_of};

use plant_types::{Cell, Element, List, Network, Segment, Short};
use std::alloc::{AllocError, Global};

/// A cell of a column.
#[derive(Clone, Copy)]
pub struct Op {
    /// 1 to 7.
    pub row: u8,
    pub element: Element,
}

/// One column of a network.
pub struct Column {
    /// Its cells, in strictly rising row.
    pub ops: List<Op>,
    /// Bit i joins rows i + 1 and i + 2.
    pub shorts: u8,
}

impl Drop for Column {
    fn drop(self) {
        let Column { ops: _, shorts: _ } = self;
    }
}

/// The eleven columns of a network.
pub struct Grid {
    pub columns: List<Column>,
}

impl Drop for Grid {
    fn drop(self) {
        let Grid { columns: _ } = self;
    }
}

impl Grid {
    /// Lays out a network.
    pub fn of(alloc: Global, network: &Network) -> Result<Grid, AllocError>
        ensures { IfOk result (λ grid. grid ≡ grid_of network.now) }
    {
        let mut columns = List::new(alloc);
        for column in 1..12u8 {
            columns.push(column_of(alloc, network, column)?)?;
        }
        Ok(Grid { columns })
    }
}

/// Lays out the networks of each segment.
pub fn grids_of(alloc: Global, segments: &[Segment]) -> Result<List<List<Grid>>, AllocError>
    ensures { IfOk result (λ grids. grids ≡ grids_of segments.now) }
{
    let mut grids = List::new(alloc);
    for segment in segments {
        grids.push(segment_grids(alloc, segment.networks.as_slice())?)?;
    }
    Ok(grids)
}

fn segment_grids(alloc: Global, networks: &[Network]) -> Result<List<Grid>, AllocError>
    ensures { IfOk result (λ grids. grids ≡ map grid_of networks.now) }
{
    let mut grids = List::new(alloc);
    for network in networks {
        grids.push(Grid::of(alloc, network)?)?;
    }
    Ok(grids)
}

fn is_shorted(shorts: &[Short], column: u8, row: u8) -> bool
    ensures { result ≡ is_shorted shorts.now column row }
{
    shorts
        .iter()
        .any(|short| short.column == column && short.row == row)
}

fn mark(shorts: &[Short], column: u8, row: u8) -> u8
    ensures value { result ≡ bit_of (is_shorted shorts.now column row) }
    ensures small { result < 2 }
{
    u8::from(is_shorted(shorts, column, row))
}

fn marks_of(shorts: &[Short], column: u8) -> u8
    ensures value { result ≡ marks_of shorts.now column }
    ensures small { result < 64 }
{
    let low = mark(shorts, column, 1) + 2 * (mark(shorts, column, 2) + 2 * mark(shorts, column, 3));
    let high = mark(shorts, column, 4)
        + 2 * (mark(shorts, column, 5) + 2 * mark(shorts, column, 6));
    low + 8 * high
}

fn cell_at(cells: &[Cell], column: u8, row: u8) -> Option<&Cell>
    ensures { option_copied result ≡ cell_at cells.now column row }
{
    cells
        .iter()
        .find(|cell| cell.column == column && cell.row == row)
}

fn cells_of(alloc: Global, cells: &[Cell], column: u8) -> Result<List<Cell>, AllocError>
    ensures { IfOk result (λ found. found ≡ cells_from cells.now column 1 7) }
{
    let mut found = List::new(alloc);
    for row in 1..8u8 {
        if let Some(cell) = cell_at(cells, column, row) {
            found.push(*cell)?;
        }
    }
    Ok(found)
}

fn ops_of(alloc: Global, cells: &[Cell]) -> Result<List<Op>, AllocError>
    ensures { IfOk result (λ ops. ops ≡ map op_of cells.now) }
{
    let mut ops = List::new(alloc);
    for cell in cells {
        ops.push(Op {
            row: cell.row,
            element: cell.element,
        })?;
    }
    Ok(ops)
}

fn column_of(alloc: Global, network: &Network, column: u8) -> Result<Column, AllocError>
    ensures { IfOk result (λ laid. laid ≡ column_of network.now column) }
{
    let cells = cells_of(alloc, network.cells.as_slice(), column)?;
    Ok(Column {
        ops: ops_of(alloc, cells.as_slice())?,
        shorts: marks_of(network.shorts.as_slice(), column),
    })
}

/// A column lists the network's cells at it, in strictly rising row, and its shorts, and nothing
/// else.
pub fn each_column_listed()
    ensures { EachColumnListed }
{}

/// A grid in its form is that of the network that it lists.
pub fn each_grid_listed()
    ensures { EachGridListed }
{}
