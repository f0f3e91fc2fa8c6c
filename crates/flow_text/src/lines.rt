//! The line of a network that was solved.
ghost use Rattle.std.specs.Prelude.{◌≡◌, ◌++◌, OnOk, string_bytes};
ghost use Rattle.std.specs.List.{flat_map};
ghost use Rattle.flow_text.specs.Lines.{border_text, network_line, row_lines};
ghost use Rattle.flow_text.specs.Solved.{solved_in};

use ladder_solver::NetworkFlow;
use std::alloc::AllocError;
use std::fmt::Write;

/// Adds the mask of a border, or dashes where the network ended before.
fn push_border(text: &mut String, border: Option<u8>) -> Result<(), AllocError>
    ensures { OnOk result (string_bytes text.new ≡ string_bytes text.old ++ border_text border) }
{
    match border {
        Some(mask) => {
            let first = mask / 16;
            let second = mask % 16;
            write!(text, " {first:x}{second:x}")
        }
        None => text.push_str(" --"),
    }
}

/// Adds the masks of these borders.
fn push_borders(text: &mut String, borders: &[Option<u8>]) -> Result<(), AllocError>
    ensures { OnOk result (string_bytes text.new ≡ string_bytes text.old
        ++ flat_map border_text borders.now) }
{
    for border in borders {
        push_border(text, *border)?;
    }
    Ok(())
}

/// Adds the line of a network that a node solved in a scan, for a row of its order of solve.
fn push_network(
    text: &mut String,
    node: u8,
    scan: u64,
    row: u16,
    flow: &NetworkFlow,
) -> Result<(), AllocError>
    ensures { OnOk result (string_bytes text.new ≡ string_bytes text.old
        ++ network_line node (solved_in scan row flow.now)) }
{
    let segment = flow.segment;
    let network = flow.network;
    write!(text, "F {scan} {node}")?;
    write!(text, " {row} {segment} {network}")?;
    push_borders(text, &flow.borders)?;
    text.push_str("\n")
}

/// Adds the lines of networks that a node solved in a scan, for a row of its order of solve.
pub(crate) fn push_networks(
    text: &mut String,
    node: u8,
    scan: u64,
    row: u16,
    flows: &[NetworkFlow],
) -> Result<(), AllocError>
    ensures { OnOk result (string_bytes text.new ≡ string_bytes text.old
        ++ row_lines node scan row flows.now) }
{
    for flow in flows {
        push_network(text, node, scan, row, flow)?;
    }
    Ok(())
}
