//! The line of one scan.
ghost use Rattle.std.specs.Prelude.{◌≡◌, ◌*◌, ◌++◌, drop, OnOk, string_bytes};
ghost use Rattle.controller_core.specs.NotedLines.{noted_texts};
ghost use Rattle.controller_core.specs.Panel.{line_text};
ghost use Rattle.panel_line.specs.Told.{gone_told, stopped_told};

use crate::reading::Reading;
use std::alloc::AllocError;
use std::fmt::Write;

/// The values from those of a scan on, which is counted from 0, where each scan has so many.
pub fn values_from(values: &[u16], scan: usize, many: usize) -> &[u16]
    ensures { result.now ≡ drop (scan * many) values.now }
{
    match scan.checked_mul(many) {
        Some(at) if at < values.len() => &values[at..],
        _ => &[],
    }
}

/// Adds the references with the first of these values.
fn push_values(text: &mut String, readings: &[Reading], values: &[u16]) -> Result<(), AllocError>
    ensures { OnOk result (string_bytes text.new ≡ string_bytes text.old
        ++ noted_texts readings.now values.now) }
{
    for (reading, value) in readings.iter().zip(values) {
        reading.push(text, *value)?;
    }
    Ok(())
}

/// Adds the line of a scan that is gone: OFF where it ended without power, or else the references
/// with the first of these values.
pub fn push_gone(
    text: &mut String,
    scan: u32,
    node: u8,
    is_off: bool,
    readings: &[Reading],
    values: &[u16],
) -> Result<(), AllocError>
    ensures { OnOk result (string_bytes text.new ≡ string_bytes text.old
        ++ line_text scan node (gone_told is_off readings.now values.now)) }
{
    write!(text, "S {scan} N {node}")?;
    if is_off {
        text.push_str(" OFF")?;
    } else {
        push_values(text, readings, values)?;
    }
    text.push_str("\n")
}

/// Adds the line of the scan in which a controller stopped.
pub fn push_stopped(text: &mut String, scan: usize, node: u8, stop: u16) -> Result<(), AllocError>
    ensures { OnOk result (string_bytes text.new ≡ string_bytes text.old
        ++ line_text scan node (stopped_told stop)) }
{
    write!(text, "S {scan} N {node} STOP {stop}\n")
}
