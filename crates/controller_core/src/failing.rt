//! The coils that go off as power fails.
ghost use Rattle.std.specs.Prelude.{◌≡◌, ◌∷◌, []};
ghost use Rattle.plant_types.specs.Standing.{cells_of_networks, cells_of_segments};
ghost use Rattle.plant_types.specs.Store.{Keeps};
ghost use Rattle.controller_core.specs.Machine.{HasCoils};
ghost use Rattle.controller_core.specs.Replay.{coils_off, unlatched_coil, unlatched_coils};

use plant_types::{Cell, Element, Network, Ref, RefStore, Segment};
use state_ram::PackedRam;

/// The coil of a CO.
fn unlatched_coil(element: Element) -> Option<Ref>
    ensures { result ≡ unlatched_coil element }
{
    match element {
        Element::Coil(at) => Some(at),
        _ => None,
    }
}

/// Switches the coil of a cell off, if it is a CO.
fn switch_cell_off(ram: &mut PackedRam, cell: &Cell)
    requires { HasCoils ram.old (unlatched_coils (cell.now ∷ [])) }
    ensures off { ram.new ≡ coils_off (unlatched_coils (cell.now ∷ [])) ram.old }
    ensures keeps { Keeps ram.old ram.new }
{
    match unlatched_coil(cell.element) {
        Some(at) => ram.set_bit(at, false),
        None => {}
    }
}

/// Switches the coils of these cells' COs off. Takes no memory.
fn switch_cells_off(ram: &mut PackedRam, cells: &[Cell])
    requires { HasCoils ram.old (unlatched_coils cells.now) }
    ensures off { ram.new ≡ coils_off (unlatched_coils cells.now) ram.old }
    ensures keeps { Keeps ram.old ram.new }
{
    for cell in cells {
        switch_cell_off(ram, cell);
    }
}

/// Switches the coils of these networks' COs off. Takes no memory.
fn switch_networks_off(ram: &mut PackedRam, networks: &[Network])
    requires { HasCoils ram.old (unlatched_coils (cells_of_networks networks.now)) }
    ensures off { ram.new ≡ coils_off (unlatched_coils (cells_of_networks networks.now)) ram.old }
    ensures keeps { Keeps ram.old ram.new }
{
    for network in networks {
        switch_cells_off(ram, network.cells.as_slice());
    }
}

/// Switches the coils of all COs of these segments off, whether they are solved or not. Takes no
/// memory.
pub(crate) fn switch_coils_off(ram: &mut PackedRam, segments: &[Segment])
    requires { HasCoils ram.old (unlatched_coils (cells_of_segments segments.now)) }
    ensures off { ram.new ≡ coils_off (unlatched_coils (cells_of_segments segments.now)) ram.old }
    ensures keeps { Keeps ram.old ram.new }
{
    for segment in segments {
        switch_networks_off(ram, segment.networks.as_slice());
    }
}
