//! Networks as solving walks them, so that it looks up no cell and joins no rows.
ghost use Rattle.std.specs.Prelude.{◌≡◌, ◌+◌, ◌<◌, ◌≤◌, ◌∷◌, [], ◌++◌, IfOk, OnOk};
ghost use Rattle.std.specs.List.{AllByRecursion};
ghost use Rattle.grid_compile.specs.Bounds.{IsWithin, IsColumn, IsGrid};
ghost use Rattle.ladder_solver.specs.Rows.{reaches_of};
ghost use Rattle.plant_types.specs.Standing.{message_limit};
ghost use Rattle.ladder_solver.specs.Numbers.{mstrs_in, ops_elements, column_elements};
ghost use Rattle.ladder_solver.specs.Numbers.{grid_elements, grids_elements, program_elements};
ghost use Rattle.ladder_solver.specs.Numbers.{mstr_count};
ghost use Rattle.ladder_solver.specs.Layout.{spot_of, ops_spots, column_spots, spots_in};
ghost use Rattle.ladder_solver.specs.Layout.{segment_spots, spots_of, HasBlockRoom, Behind};

use crate::relays::{Relay, relay_of};
use crate::rows::{Reaches, mask_at};
use grid_compile::{Column, Grid, Op, column_join};
use plant_types::{Element, List};
use std::alloc::{AllocError, Global};

/// A cell at its place, with the rows that the output at each of its three rows reaches.
#[derive(Clone, Copy)]
pub(crate) struct Spot {
    pub column: u8,
    pub row: u8,
    /// The mask of its row alone.
    pub mask: u8,
    pub relay: Relay,
    pub element: Element,
    /// The number of its MSTR block; of another element, that of the next.
    pub block: u16,
    pub reaches: [u8; 3],
}

fn reaches_of(shorts: u8) -> Reaches
    ensures { result ≡ reaches_of shorts }
{
    [
        column_join(shorts, 1),
        column_join(shorts, 2),
        column_join(shorts, 4),
        column_join(shorts, 8),
        column_join(shorts, 16),
        column_join(shorts, 32),
        column_join(shorts, 64),
        0,
        0,
    ]
}

fn spot_of(reaches: &Reaches, column: u8, block: u16, op: &Op) -> Spot
    requires first { 1 ≤ op.now.row }
    requires last { op.now.row ≤ 7 }
    ensures { result ≡ spot_of reaches.now column block op.now }
{
    let place = op.row as usize - 1;
    Spot {
        column,
        row: op.row,
        mask: mask_at(op.row),
        relay: relay_of(op.element),
        element: op.element,
        block,
        reaches: [reaches[place], reaches[place + 1], reaches[place + 2]],
    }
}

/// The number of the MSTR block behind an element, where the element's own would be this.
fn next_block(element: Element, block: u16) -> u16
    requires { block < 65535 }
    ensures { result ≡ block + mstrs_in (element ∷ []) }
{
    match element {
        Element::Mstr { .. } => block + 1,
        _ => block,
    }
}

/// Adds the cells of a column, whose first MSTR block has the number `block`.
fn add_spots(
    reaches: &Reaches,
    column: u8,
    ops: &[Op],
    block: &mut u16,
    spots: &mut List<Spot>,
) -> Result<(), AllocError>
    requires rows { AllByRecursion IsWithin ops.now }
    requires few { HasBlockRoom block.old (ops_elements ops.now) }
    ensures spots { OnOk result (spots.new ≡
        spots.old ++ ops_spots reaches.now column block.old ops.now) }
    ensures block { OnOk result (Behind block.old (ops_elements ops.now) block.new) }
{
    for op in ops {
        spots.push(spot_of(reaches, column, *block, op))?;
        *block = next_block(op.element, *block);
    }
    Ok(())
}

fn add_column(
    column: u8,
    laid: &Column,
    block: &mut u16,
    spots: &mut List<Spot>,
) -> Result<(), AllocError>
    requires laid { IsColumn laid.now }
    requires few { HasBlockRoom block.old (column_elements laid.now) }
    ensures spots { OnOk result (spots.new ≡
        spots.old ++ column_spots block.old column laid.now) }
    ensures block { OnOk result (Behind block.old (column_elements laid.now) block.new) }
{
    let reaches = reaches_of(laid.shorts);
    add_spots(&reaches, column, laid.ops.as_slice(), block, spots)
}

/// The cells of a grid, column by column, each from the top.
fn spots_in(alloc: Global, grid: &Grid, block: &mut u16) -> Result<List<Spot>, AllocError>
    requires grid { IsGrid grid.now }
    requires few { HasBlockRoom block.old (grid_elements grid.now) }
    ensures spots { IfOk result (λ spots. spots ≡ spots_in block.old grid.now) }
    ensures block { OnOk result (Behind block.old (grid_elements grid.now) block.new) }
{
    let columns = grid.columns.as_slice();
    let mut spots = List::new(alloc);
    for i in 0..11u8 {
        add_column(i + 1, &columns[i as usize], block, &mut spots)?;
    }
    Ok(spots)
}

/// The cells of each network of a segment.
fn segment_spots(
    alloc: Global,
    grids: &[Grid],
    block: &mut u16,
) -> Result<List<List<Spot>>, AllocError>
    requires grids { AllByRecursion IsGrid grids.now }
    requires few { HasBlockRoom block.old (grids_elements grids.now) }
    ensures spots { IfOk result (λ networks. networks ≡ segment_spots block.old grids.now) }
    ensures block { OnOk result (Behind block.old (grids_elements grids.now) block.new) }
{
    let mut networks = List::new(alloc);
    for grid in grids {
        networks.push(spots_in(alloc, grid, block)?)?;
    }
    Ok(networks)
}

/// The cells of each network of each segment; MSTR blocks are numbered from 1 on, in this order.
/// `block` becomes the number behind the last.
pub(crate) fn spots_of(
    alloc: Global,
    segments: &[List<Grid>],
    block: &mut u16,
) -> Result<List<List<List<Spot>>>, AllocError>
    requires grids { AllByRecursion (AllByRecursion IsGrid) segments.now }
    requires few { mstr_count segments.now ≤ message_limit }
    requires first { block.old ≡ 1 }
    ensures spots { IfOk result (λ networks. networks ≡ spots_of segments.now) }
    ensures block { OnOk result (Behind 1 (program_elements segments.now) block.new) }
{
    let mut networks = List::new(alloc);
    for grids in segments {
        networks.push(segment_spots(alloc, grids.as_slice(), block)?)?;
    }
    Ok(networks)
}
