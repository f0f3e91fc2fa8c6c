//! Timers, with their preset, inputs and the clock before and now, and counters, with their preset,
//! inputs and edge bit, which is told behind the outputs. Of the bits 1 is the upper node and 2 the
//! lower one.
use crate::rows::{Row, bits, has_run, register, row_of, small, store, tells};
use plant_types::{MapRam, Unit};
use std::alloc::Global;
use std::process::Abort;
use std::test::Fail;
use timer_ops::{Clock, down_count, timer, up_count};

const ROWS: &str = "\
T1.0 2 3 0 30 : 0 => 2 : 0
T1.0 2 3 30 60 : 0 => 2 : 0
T1.0 2 3 60 90 : 0 => 2 : 0
T1.0 2 3 90 120 : 0 => 2 : 1
T1.0 2 3 120 150 : 1 => 2 : 1
T1.0 2 3 150 180 : 1 => 2 : 1
T1.0 2 3 180 210 : 1 => 1 : 2
T1.0 5 0 299 300 : 3 => 2 : 0
T1.0 5 1 299 300 : 3 => 2 : 0
T1.0 5 2 299 300 : 3 => 2 : 3
T1.0 5 3 299 300 : 3 => 2 : 4
T1.0 5 252 299 300 : 3 => 2 : 0
T1.0 5 3 299 300 : 4 => 1 : 5
T1.0 5 3 299 300 : 5 => 1 : 5
T1.0 5 3 0 1000 : 3 => 1 : 5
T1.0 5 3 200 299 : 3 => 2 : 3
T1.0 5 3 200 200 : 3 => 2 : 3
T1.0 90 3 95 130 : 10 => 2 : 11
T0.1 90 3 95 130 : 10 => 2 : 14
T.01 90 3 95 130 : 10 => 2 : 45
T1.0 5 0 299 300 : 9 => 2 : 0
T1.0 5 2 299 300 : 9 => 1 : 5
T1.0 5 3 299 300 : 9 => 1 : 5
T1.0 0 0 299 300 : 0 => 1 : 0
T1.0 0 2 299 300 : 7 => 1 : 0
T1.0 0 3 299 300 : 0 => 1 : 0
T1.0 7 0 299 300 : 7 => 2 : 0
T1.0 7 3 299 300 : 7 => 1 : 7
T1.0 20000 3 299 300 : 19999 => 1 : 20000
T.01 65535 3 0 18446744073709551615 : 65535 => 1 : 65535
T.01 65535 3 0 18446744073709551615 : 1 => 1 : 65535
T.01 65535 3 18446744073709551614 18446744073709551615 : 1 => 2 : 2
UCTR 3 0 0 : 1 => 2 0 : 0
UCTR 3 1 0 : 1 => 2 1 : 0
UCTR 3 2 0 : 1 => 2 0 : 1
UCTR 3 3 0 : 1 => 2 1 : 2
UCTR 3 0 1 : 1 => 2 0 : 0
UCTR 3 1 1 : 1 => 2 1 : 0
UCTR 3 2 1 : 1 => 2 0 : 1
UCTR 3 3 1 : 1 => 2 1 : 1
UCTR 3 3 0 : 2 => 1 1 : 3
UCTR 3 3 0 : 3 => 1 1 : 3
UCTR 3 0 0 : 9 => 2 0 : 0
UCTR 3 2 0 : 9 => 1 0 : 3
UCTR 3 3 0 : 9 => 1 1 : 3
UCTR 0 0 0 : 0 => 1 0 : 0
UCTR 0 2 0 : 5 => 1 0 : 0
UCTR 0 3 0 : 0 => 1 1 : 0
UCTR 4 0 0 : 4 => 2 0 : 0
UCTR 4 3 0 : 4 => 1 1 : 4
UCTR 65535 3 0 : 65534 => 1 1 : 65535
UCTR 65535 3 0 : 65535 => 1 1 : 65535
UCTR 1 3 0 : 0 => 1 1 : 1
UCTR 1 2 1 : 1 => 1 0 : 1
UCTR 1 3 0 : 1 => 1 1 : 1
DCTR 3 0 0 : 1 => 2 0 : 3
DCTR 3 1 0 : 1 => 2 1 : 3
DCTR 3 2 0 : 1 => 2 0 : 1
DCTR 3 3 0 : 1 => 1 1 : 0
DCTR 3 0 1 : 1 => 2 0 : 3
DCTR 3 1 1 : 1 => 2 1 : 3
DCTR 3 2 1 : 1 => 2 0 : 1
DCTR 3 3 1 : 1 => 2 1 : 1
DCTR 3 3 0 : 0 => 1 1 : 0
DCTR 3 2 0 : 0 => 1 0 : 0
DCTR 3 3 0 : 3 => 2 1 : 2
DCTR 3 2 0 : 9 => 2 0 : 3
DCTR 3 3 0 : 9 => 2 1 : 2
DCTR 0 0 0 : 5 => 1 0 : 0
DCTR 0 3 0 : 5 => 1 1 : 0
DCTR 4 0 0 : 4 => 2 0 : 4
DCTR 4 3 0 : 4 => 2 1 : 3
DCTR 65535 3 0 : 65535 => 2 1 : 65534
";

fn solve_timer(rt: &impl Abort, row: &Row<'_>, unit: Unit, ram: &mut MapRam) -> u8 {
    let [preset, inputs, before, now, _] = row.numbers;
    let acc = register(1);
    assert!(rt; has_run(ram, acc, 1));
    let clock = Clock { before, now };
    timer(unit, small(preset), acc, bits(inputs), clock, ram)
}

// What a counter tells, and its edge bit.
fn solve_counter(rt: &impl Abort, row: &Row<'_>, ram: &mut MapRam) -> (u8, bool) {
    let [preset, inputs, edge, _, _] = row.numbers;
    let acc = register(1);
    assert!(rt; has_run(ram, acc, 1));
    let mut edge = edge > 0;
    let outputs = match row.block {
        "UCTR" => up_count(small(preset), acc, bits(inputs), &mut edge, ram),
        _ => down_count(small(preset), acc, bits(inputs), &mut edge, ram),
    };
    (outputs, edge)
}

fn solve(rt: &impl Abort, row: &Row<'_>, ram: &mut MapRam) -> (u8, bool) {
    match row.block {
        "T1.0" => (solve_timer(rt, row, Unit::Second, ram), false),
        "T0.1" => (solve_timer(rt, row, Unit::Tenth, ram), false),
        "T.01" => (solve_timer(rt, row, Unit::Hundredth, ram), false),
        _ => solve_counter(rt, row, ram),
    }
}

fn solves_row(rt: &impl Abort, alloc: Global, text: &str) -> Result<(), Fail> {
    let row = row_of(text)?;
    let mut ram = store(rt, alloc, &row)?;
    let (outputs, edge) = solve(rt, &row, &mut ram);
    tells(rt, &ram, &row, outputs, edge);
    Ok(())
}

#[test]
fn timers_and_counters(rt: HostRuntime) -> Result<(), Fail> {
    for text in ROWS.lines() {
        solves_row(&rt, rt.alloc(), text)?;
    }
    Ok(())
}
