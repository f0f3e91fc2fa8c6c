//! Where a controller has counters.
ghost use Rattle.std.specs.Prelude.{◌≡◌, ◌++◌, IfOk, OnOk};
ghost use Rattle.alike_states.specs.Counters.{is_counter};
ghost use Rattle.ladder_solver.specs.Edges.{places_by};
ghost use Rattle.field_machine.specs.Counters.{counters_in, counters_of, counts_here};

use ladder_solver::BlockPlace;
use plant_types::{Cell, Element, Network, Segment};
use std::alloc::{AllocError, Global};

/// Whether a cell is a counter within the grid.
fn counts_here(cell: &Cell) -> bool
    ensures { result ≡ counts_here cell.now }
{
    matches!(cell.element, Element::Counter { .. })
        && 1 <= cell.column
        && cell.column <= 11
        && 1 <= cell.row
        && cell.row <= 7
}

/// Adds the places of the counters of a network.
fn add_counters(
    places: &mut Vec<BlockPlace>,
    segment: usize,
    network: usize,
    cells: &[Cell],
) -> Result<(), AllocError>
    ensures { OnOk result (places.new.items ≡ places.old.items
        ++ counters_in segment network cells.now) }
{
    for cell in cells {
        if counts_here(cell) {
            places.push(BlockPlace {
                segment,
                network,
                column: cell.column,
                row: cell.row,
            })?;
        }
    }
    Ok(())
}

/// Adds the places of the counters of a segment.
fn add_segment(
    places: &mut Vec<BlockPlace>,
    segment: usize,
    networks: &[Network],
) -> Result<(), AllocError>
    ensures { OnOk result (places.new.items ≡ places.old.items
        ++ places_by (λ number network. counters_in segment number network.cells) 1 networks.now) }
{
    for (index, network) in networks.iter().enumerate() {
        add_counters(places, segment, index + 1, network.cells.as_slice())?;
    }
    Ok(())
}

/// The places of the counters of segments.
pub(crate) fn counters_of(
    alloc: Global,
    segments: &[Segment],
) -> Result<Vec<BlockPlace>, AllocError>
    ensures { IfOk result (λ places. places.items ≡ counters_of segments.now) }
{
    let mut places = Vec::new(alloc);
    for (index, segment) in segments.iter().enumerate() {
        add_segment(&mut places, index + 1, segment.networks.as_slice())?;
    }
    Ok(places)
}
