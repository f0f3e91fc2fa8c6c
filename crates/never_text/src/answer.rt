//! The answer to what a controller never comes to.
ghost use Rattle.std.specs.Prelude.{◌≡◌, ◌++◌, IfOk, OnOk, length, string_bytes};
ghost use Rattle.plant_types.specs.Checks.{sizes_of};
ghost use Rattle.controller_core.specs.Controller.{fixed_with};
ghost use Rattle.controller_core.specs.Machine.{IsRunnable};
ghost use Rattle.field_machine.specs.FieldSearch.{IsAlone};
ghost use Rattle.field_machine.specs.Asked.{CanBeAsked};
ghost use Rattle.field_machine.specs.Never.{told_in_ways};
ghost use Rattle.never_text.specs.Due.{IsNeverDue};
ghost use Rattle.never_text.specs.Lines.{StopsNoSooner};
ghost use Rattle.never_text.specs.Texts.{depth_text, fails_line, fails_text, holds_text};

use crate::exchanges::push_exchanges;
use crate::panel::push_panel;
use field_machine::{Asked, Found, search_field, show_run};
use plant_types::ControllerPlan;
use scan_order::kept_power_stays;
use std::alloc::{AllocError, Global};
use std::fmt::Write;

/// What was found of all runs of a field, with its text. This project's own.
#[derive(Drop)]
pub enum NeverEnd {
    /// It is never so. The text is one line, `holds K`, or `holds K to D` with a depth.
    Holds(Vec<u8>),
    /// It is so after some scan. The text has a line `fails S`, a line `I <scan> <drop> <row>` for
    /// each input exchange of scans 1 to S, and their panel lines. In the scan that stops the
    /// controller, exchanges that were due after the stop have their lines too.
    Fails(Vec<u8>),
}

/// Adds a depth, if there is one.
fn push_depth(text: &mut String, depth: Option<u32>) -> Result<(), AllocError>
    ensures { OnOk result (string_bytes text.new ≡ string_bytes text.old ++ depth_text depth) }
{
    match depth {
        Some(depth) => write!(text, " to {depth}"),
        None => Ok(()),
    }
}

/// The text where it is never so, for so many states, and the depth up to which runs were looked at.
pub fn holds_text(alloc: Global, states: usize, depth: Option<u32>) -> Result<Vec<u8>, AllocError>
    ensures { IfOk result (λ text. text.items ≡ holds_text depth states) }
{
    let mut text = String::new(alloc);
    write!(text, "holds {states}")?;
    push_depth(&mut text, depth)?;
    text.push_str("\n")?;
    Ok(text.into_bytes())
}

/// How many scans these are. Where that is no `u32`, so many do not fit.
pub fn scan_count<T>(told: &[T]) -> Result<u32, AllocError>
    ensures { IfOk result (λ scans. scans ≡ length told.now) }
{
    match u32::try_from(told.len()) {
        Ok(scans) => Ok(scans),
        Err(_) => Err(AllocError),
    }
}

/// Adds the line of how many scans there are.
pub fn push_head(text: &mut String, scans: u32) -> Result<(), AllocError>
    ensures { OnOk result (string_bytes text.new ≡ string_bytes text.old ++ fails_line scans) }
{
    write!(text, "fails {scans}\n")
}

/// The text where it is so after scans in which the field brings rows in these ways.
fn fails_text(
    alloc: Global,
    plan: &ControllerPlan,
    scan_time: u32,
    watchdog: u32,
    ways: &[usize],
) -> Result<Vec<u8>, AllocError>
    requires runs { IsRunnable (fixed_with plan.now scan_time watchdog 1) }
    requires alone { IsAlone plan.now }
    requires stops { StopsNoSooner (fixed_with plan.now scan_time watchdog 1)
        (told_in_ways plan.now ways.now) }
    ensures { IfOk result (λ text. text.items ≡ fails_text
        (fixed_with plan.now scan_time watchdog 1) (told_in_ways plan.now ways.now)) }
{
    kept_power_stays();
    let scans = scan_count(ways)?;
    let shown = show_run(alloc, plan, scan_time, watchdog, ways)?;
    let mut text = String::new(alloc);
    push_head(&mut text, scans)?;
    push_exchanges(alloc, &mut text, plan, ways)?;
    push_panel(alloc, &mut text, plan, &shown, scans)?;
    Ok(text.into_bytes())
}

/// A depth as a number of scans.
pub fn limit_of(depth: Option<u32>) -> Option<usize>
    ensures { result ≡ depth }
{
    match depth {
        Some(depth) => Some(depth as usize),
        None => None,
    }
}

/// Looks at all runs of the field of a controller that is alone, or at those of so many scans: what
/// was found, and its text. A run that is told may be longer than a plant file lets one be.
pub fn never_answer(
    alloc: Global,
    plan: &ControllerPlan,
    scan_time: u32,
    watchdog: u32,
    asked: Asked,
    depth: Option<u32>,
) -> Result<NeverEnd, AllocError>
    requires runs { IsRunnable (fixed_with plan.now scan_time watchdog 1) }
    requires alone { IsAlone plan.now }
    requires asked { CanBeAsked (sizes_of plan.now) asked }
    ensures { IfOk result (IsNeverDue (fixed_with plan.now scan_time watchdog 1) asked depth) }
{
    let limit = limit_of(depth);
    match search_field(alloc, plan, scan_time, watchdog, asked, limit)? {
        Found::Holds { states } => Ok(NeverEnd::Holds(holds_text(alloc, states, depth)?)),
        Found::Fails { ways } => {
            let text = fails_text(alloc, plan, scan_time, watchdog, ways.as_slice())?;
            Ok(NeverEnd::Fails(text))
        }
    }
}
