//! The due list of a scan, walked by a place and a next step.
ghost use Rattle.std.specs.Prelude.{◌≡◌, ◌≤◌, ◌+◌, ◌-◌, ◌++◌, length, slice_get};
ghost use Rattle.plant_types.specs.PlanTests.{order_limit};
ghost use Rattle.scan_order.specs.Due.{due, ends_scan, full_scan, is_failing, output_steps};
ghost use Rattle.scan_order.specs.Due.{place_after, row_of, rows_from, FollowingGivesDue, IsFirst};
ghost use Rattle.scan_order.specs.Due.{IsNextOf, IsPlace, IsStep, ScansEndOnce};

use crate::power::{ScanPower, power_in};
use plant_types::{ControllerPlan, OrderRow};

/// What was done last in the scan that runs, the rows of the order of solve counted from 1.
#[derive(Clone, Copy, Debug, PartialEq, Eq)]
pub enum ScanPlace {
    /// No scan runs.
    Start,
    Began,
    DidIn(u16),
    DidSolve(u16),
    DidOut(u16),
}

/// An event of a scan, the rows of the order of solve counted from 1.
#[derive(Clone, Copy, Debug, PartialEq, Eq)]
pub enum ScanStep {
    Begin,
    In(u16),
    Solve(u16),
    Out(u16),
    End,
    /// Power fails, which ends the scan.
    Fail,
    /// A whole scan without power.
    Dark,
}

/// A row of the order of solve, counted from 1.
pub fn row_of(plan: &ControllerPlan, row: u16) -> Option<OrderRow>
    requires { 1 ≤ row }
    ensures { result ≡ row_of plan.now row }
{
    plan.orders.as_slice().get(usize::from(row - 1)).copied()
}

/// The first step of a scan with power from a row on.
fn first_from(plan: &ControllerPlan, row: u16) -> ScanStep
    requires { 1 ≤ row }
    ensures first { IsFirst result (rows_from plan.now row) }
    ensures step { IsStep plan.now result }
{
    let Some(found) = row_of(plan, row) else {
        return ScanStep::End;
    };
    match found.input {
        Some(_) => ScanStep::In(row),
        None => ScanStep::Solve(row),
    }
}

/// The first step of a scan with power behind the Solve of a row.
fn first_behind(plan: &ControllerPlan, row: u16) -> ScanStep
    requires row { IsPlace plan.now (ScanPlace.DidSolve row) }
    requires rows { length plan.now.orders ≤ order_limit }
    ensures first { IsFirst result (output_steps plan.now row ++ rows_from plan.now (row + 1)) }
    ensures step { IsStep plan.now result }
{
    let Some(found) = row_of(plan, row) else {
        return first_from(plan, row + 1);
    };
    match found.output {
        Some(_) => ScanStep::Out(row),
        None => first_from(plan, row + 1),
    }
}

/// The step that is due behind a place in a scan with power.
fn full_next(plan: &ControllerPlan, at: ScanPlace) -> ScanStep
    requires place { IsPlace plan.now at }
    requires rows { length plan.now.orders ≤ order_limit }
    ensures next { IsNextOf (full_scan plan.now) at result }
    ensures step { IsStep plan.now result }
{
    match at {
        ScanPlace::Start => ScanStep::Begin,
        ScanPlace::Began => first_from(plan, 1),
        ScanPlace::DidIn(row) => ScanStep::Solve(row),
        ScanPlace::DidSolve(row) => first_behind(plan, row),
        ScanPlace::DidOut(row) => first_from(plan, row + 1),
    }
}

/// Whether power that fails at a row fails at this place.
fn is_failing(row: u16, at: ScanPlace) -> bool
    ensures { result ≡ is_failing row at }
{
    match at {
        ScanPlace::Began => row == 0,
        ScanPlace::DidSolve(solved) => row == solved,
        ScanPlace::Start | ScanPlace::DidIn(_) | ScanPlace::DidOut(_) => false,
    }
}

/// The event that is due behind a place, where the scan of this number, from 1 on, runs or is the
/// next one. Takes no memory.
pub fn next_due(plan: &ControllerPlan, scan: u32, at: ScanPlace) -> ScanStep
    requires place { IsPlace plan.now at }
    requires rows { length plan.now.orders ≤ order_limit }
    ensures next { IsNextOf (due plan.now scan) at result }
    ensures step { IsStep plan.now result }
{
    match power_in(plan, scan) {
        ScanPower::Stays => full_next(plan, at),
        ScanPower::Fails(row) if is_failing(row, at) => ScanStep::Fail,
        ScanPower::Fails(_) => full_next(plan, at),
        ScanPower::Dark => ScanStep::Dark,
    }
}

/// Whether an event is the last of its scan.
pub fn ends_scan(step: ScanStep) -> bool
    ensures { result ≡ ends_scan step }
{
    matches!(step, ScanStep::End | ScanStep::Fail | ScanStep::Dark)
}

/// The place behind an event.
pub fn place_after(step: ScanStep) -> ScanPlace
    ensures { result ≡ place_after step }
{
    match step {
        ScanStep::Begin => ScanPlace::Began,
        ScanStep::In(row) => ScanPlace::DidIn(row),
        ScanStep::Solve(row) => ScanPlace::DidSolve(row),
        ScanStep::Out(row) => ScanPlace::DidOut(row),
        ScanStep::End | ScanStep::Fail | ScanStep::Dark => ScanPlace::Start,
    }
}

/// Following `next_due` from Start gives the due list of a scan: an event, the place behind it, the
/// event that is due there, up to one that ends the scan.
pub fn following_gives_due()
    ensures { FollowingGivesDue }
{}

/// Of the events that are due in a scan just one is a last one, and what becomes of the power says
/// which.
pub fn scans_end_once()
    ensures { ScansEndOnce }
{}
