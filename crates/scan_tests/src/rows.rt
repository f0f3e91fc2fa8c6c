//! Scans of three rows: one that names no drop, one that names two, and one with an output alone.
ghost use Rattle.std.specs.Prelude.{◌≡◌, IfOk};

use plant_types::{ControllerPlan, List, OrderRow, PowerRow};
use scan_order::{ScanPlace, ScanPower, ScanStep, next_due, power_in};
use std::alloc::{AllocError, Global};

const ROWS: [OrderRow; 3] = [
    OrderRow {
        segment: 1,
        control: None,
        input: None,
        output: None,
    },
    OrderRow {
        segment: 2,
        control: None,
        input: Some(3),
        output: Some(4),
    },
    OrderRow {
        segment: 1,
        control: None,
        input: None,
        output: Some(4),
    },
];

/// What is due from the start of a scan to its end.
const DUE: [ScanStep; 8] = [
    ScanStep::Begin,
    ScanStep::Solve(1),
    ScanStep::In(2),
    ScanStep::Solve(2),
    ScanStep::Out(2),
    ScanStep::Solve(3),
    ScanStep::Out(3),
    ScanStep::End,
];

/// Power fails behind the Begin of scan 2, and behind the Solve of row 2 in scan 4, after which two
/// scans are dark.
const POWER: [PowerRow; 2] = [
    PowerRow {
        scan: 2,
        row: 0,
        dark: 0,
    },
    PowerRow {
        scan: 4,
        row: 2,
        dark: 2,
    },
];

fn plan_of(
    alloc: Global,
    rows: &[OrderRow],
    power: &[PowerRow],
) -> Result<ControllerPlan, AllocError>
    ensures { IfOk result (λ plan. plan.orders ≡ rows.now) }
{
    Ok(ControllerPlan {
        node: 1,
        network: 0,
        coils: 0,
        inputs: 0,
        input_registers: 0,
        registers: 0,
        panel: List::new(alloc),
        orders: List::from_vec(Vec::from_slice(alloc, rows)?),
        power: List::from_vec(Vec::from_slice(alloc, power)?),
        drops: List::new(alloc),
        segments: List::new(alloc),
    })
}

#[test]
fn a_scan_goes_row_by_row(rt: HostRuntime) -> Result<(), AllocError> {
    let plan = plan_of(rt.alloc(), &ROWS, &[])?;
    let steps = [
        next_due(&plan, 1, ScanPlace::Start),
        next_due(&plan, 1, ScanPlace::Began),
        next_due(&plan, 1, ScanPlace::DidSolve(1)),
        next_due(&plan, 1, ScanPlace::DidIn(2)),
        next_due(&plan, 1, ScanPlace::DidSolve(2)),
        next_due(&plan, 1, ScanPlace::DidOut(2)),
        next_due(&plan, 1, ScanPlace::DidSolve(3)),
        next_due(&plan, 1, ScanPlace::DidOut(3)),
    ];
    assert_eq!(rt; steps, DUE);
    Ok(())
}

#[test]
fn a_scan_without_rows_begins_and_ends(rt: HostRuntime) -> Result<(), AllocError> {
    let plan = plan_of(rt.alloc(), &[], &[])?;
    let steps = [
        next_due(&plan, 1, ScanPlace::Start),
        next_due(&plan, 1, ScanPlace::Began),
    ];
    assert_eq!(rt; steps, [ScanStep::Begin, ScanStep::End]);
    Ok(())
}

#[test]
fn power_fails_behind_begin(rt: HostRuntime) -> Result<(), AllocError> {
    let plan = plan_of(rt.alloc(), &ROWS, &POWER)?;
    let steps = [
        next_due(&plan, 2, ScanPlace::Start),
        next_due(&plan, 2, ScanPlace::Began),
        next_due(&plan, 3, ScanPlace::Start),
        next_due(&plan, 3, ScanPlace::Began),
    ];
    let due = [
        ScanStep::Begin,
        ScanStep::Fail,
        ScanStep::Begin,
        ScanStep::Solve(1),
    ];
    assert_eq!(rt; steps, due);
    Ok(())
}

#[test]
fn power_fails_behind_a_row(rt: HostRuntime) -> Result<(), AllocError> {
    let plan = plan_of(rt.alloc(), &ROWS, &POWER)?;
    let steps = [
        next_due(&plan, 4, ScanPlace::Start),
        next_due(&plan, 4, ScanPlace::Began),
        next_due(&plan, 4, ScanPlace::DidSolve(1)),
        next_due(&plan, 4, ScanPlace::DidIn(2)),
        next_due(&plan, 4, ScanPlace::DidSolve(2)),
    ];
    let due = [
        ScanStep::Begin,
        ScanStep::Solve(1),
        ScanStep::In(2),
        ScanStep::Solve(2),
        ScanStep::Fail,
    ];
    assert_eq!(rt; steps, due);
    Ok(())
}

#[test]
fn dark_scans_follow_a_failure(rt: HostRuntime) -> Result<(), AllocError> {
    let plan = plan_of(rt.alloc(), &ROWS, &POWER)?;
    let powers = [
        power_in(&plan, 1),
        power_in(&plan, 2),
        power_in(&plan, 3),
        power_in(&plan, 4),
        power_in(&plan, 5),
        power_in(&plan, 6),
        power_in(&plan, 7),
    ];
    let expected = [
        ScanPower::Stays,
        ScanPower::Fails(0),
        ScanPower::Stays,
        ScanPower::Fails(2),
        ScanPower::Dark,
        ScanPower::Dark,
        ScanPower::Stays,
    ];
    assert_eq!(rt; powers, expected);
    assert_eq!(rt; next_due(&plan, 6, ScanPlace::Start), ScanStep::Dark);
    Ok(())
}
