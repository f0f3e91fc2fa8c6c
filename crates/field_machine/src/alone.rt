//! Which controllers are alone, and what they can be asked.
ghost use Rattle.std.specs.Prelude.{◌≡◌, true};
ghost use Rattle.std.specs.List.{list_any};
ghost use Rattle.plant_types.specs.Checks.{sizes_of};
ghost use Rattle.plant_types.specs.Standing.{cells_of_networks, cells_of_segments};
ghost use Rattle.traffic_cop.specs.Rows.{IsRunnablePlan};
ghost use Rattle.field_search.specs.Covered.{IsAlone};
ghost use Rattle.field_machine.specs.Asked.{can_ask};
ghost use Rattle.field_machine.specs.Alone.{calls, is_alone};

use crate::asked::Asked;
use plant_types::{Cell, ControllerPlan, Element, Network, RefKind, Segment};

/// Whether a cell is a message block.
fn calls(cell: &Cell) -> bool
    ensures { result ≡ calls cell.now }
{
    matches!(cell.element, Element::Mstr { .. })
}

/// Whether one of these cells is a message block.
fn cells_call(cells: &[Cell]) -> bool
    ensures { result ≡ list_any calls cells.now }
{
    cells.iter().any(calls)
}

/// Whether these networks have a message block.
fn networks_call(networks: &[Network]) -> bool
    ensures { result ≡ list_any calls (cells_of_networks networks.now) }
{
    for network in networks {
        if cells_call(network.cells.as_slice()) {
            return true;
        }
    }
    false
}

/// Whether these segments have a message block.
fn segments_call(segments: &[Segment]) -> bool
    ensures { result ≡ list_any calls (cells_of_segments segments.now) }
{
    for segment in segments {
        if networks_call(segment.networks.as_slice()) {
            return true;
        }
    }
    false
}

/// Whether a controller has no power rows and no message blocks.
pub fn is_alone(plan: &ControllerPlan) -> bool
    ensures is { result ≡ is_alone plan.now }
    ensures alone { result ≡ true → IsRunnablePlan plan.now → IsAlone plan.now }
{
    plan.power.as_slice().is_empty() && !segments_call(plan.segments.as_slice())
}

/// Whether a controller can be asked this: it has the coil or input.
pub fn can_be_asked(plan: &ControllerPlan, asked: Asked) -> bool
    ensures { result ≡ can_ask (sizes_of plan.now) asked }
{
    match asked {
        Asked::On(at) => {
            plan.sizes().has_reference(at) && matches!(at.kind, RefKind::Coil | RefKind::Input)
        }
        Asked::Stopped => true,
    }
}
