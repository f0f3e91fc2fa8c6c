//! The lines of input exchanges.
ghost use Rattle.std.specs.Prelude.{◌≡◌, ◌++◌, OnOk, string_bytes};
ghost use Rattle.std.specs.List.{flat_map};
ghost use Rattle.scan_order.specs.Due.{full_scan};
ghost use Rattle.field_machine.specs.Choices.{told_by};
ghost use Rattle.field_machine.specs.Never.{told_in_ways};
ghost use Rattle.never_text.specs.Texts.{exchange_line, exchange_lines, scan_exchanges};

use field_machine::{Exchange, exchanges_of};
use plant_types::ControllerPlan;
use std::alloc::{AllocError, Global};
use std::fmt::Write;

/// Adds the lines of these input exchanges of a scan.
pub fn push_scan(text: &mut String, scan: usize, exchanges: &[Exchange]) -> Result<(), AllocError>
    ensures { OnOk result (string_bytes text.new ≡ string_bytes text.old
        ++ flat_map (exchange_line scan) exchanges.now) }
{
    for exchange in exchanges {
        let Exchange { drop, row } = *exchange;
        write!(text, "I {scan} {drop} {row}\n")?;
    }
    Ok(())
}

/// Adds the lines of the input exchanges of scans in which the field brings rows in these ways.
pub(crate) fn push_exchanges(
    alloc: Global,
    text: &mut String,
    plan: &ControllerPlan,
    ways: &[usize],
) -> Result<(), AllocError>
    ensures { OnOk result (string_bytes text.new ≡ string_bytes text.old
        ++ exchange_lines plan.now (told_in_ways plan.now ways.now)) }
{
    for (index, way) in ways.iter().enumerate() {
        let exchanges = exchanges_of(alloc, plan, *way)?;
        push_scan(text, index + 1, exchanges.as_slice())?;
    }
    Ok(())
}
