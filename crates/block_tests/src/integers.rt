//! Arithmetic: the operands and the inputs. The result goes to the first two registers.
use crate::rows::{Row, bits, has_run, register, row_of, small, store, tells};
use integer_ops::{add, div, mul, sub};
use plant_types::MapRam;
use std::alloc::Global;
use std::process::Abort;
use std::test::Fail;

const ROWS: &str = "\
ADD 5 0 1 : 77 88 => 0 : 5 88
ADD 5 0 7 : 77 88 => 0 : 5 88
ADD 5 0 0 : 77 88 => 0 : 77 88
ADD 5 0 6 : 77 88 => 0 : 77 88
ADD 0 0 1 : 77 88 => 0 : 0 88
ADD 77 77 1 : 77 88 => 0 : 154 88
ADD 9999 0 1 : 77 88 => 0 : 9999 88
ADD 9999 1 1 : 77 88 => 1 : 0 88
ADD 9999 9999 1 : 77 88 => 1 : 9998 88
ADD 10000 0 1 : 77 88 => 1 : 0 88
ADD 0 12345 1 : 77 88 => 1 : 2345 88
ADD 65535 65535 1 : 77 88 => 1 : 1070 88
ADD 65535 65535 6 : 77 88 => 0 : 77 88
SUB 7 5 1 : 77 88 => 1 : 2 88
SUB 7 5 7 : 77 88 => 1 : 2 88
SUB 7 5 0 : 77 88 => 0 : 77 88
SUB 7 5 6 : 77 88 => 0 : 77 88
SUB 5 7 1 : 77 88 => 4 : 2 88
SUB 5 5 1 : 77 88 => 2 : 0 88
SUB 5 5 6 : 77 88 => 0 : 77 88
SUB 0 0 1 : 77 88 => 2 : 0 88
SUB 10000 9999 1 : 77 88 => 1 : 1 88
SUB 65535 0 1 : 77 88 => 1 : 65535 88
SUB 0 65535 1 : 77 88 => 4 : 65535 88
SUB 65535 65535 1 : 77 88 => 2 : 0 88
MUL 8000 2 1 : 77 88 => 1 : 1 6000
MUL 8000 2 7 : 77 88 => 1 : 1 6000
MUL 8000 2 0 : 77 88 => 0 : 77 88
MUL 8000 2 6 : 77 88 => 0 : 77 88
MUL 99 101 1 : 77 88 => 1 : 0 9999
MUL 100 100 1 : 77 88 => 1 : 1 0
MUL 0 9999 1 : 77 88 => 1 : 0 0
MUL 9999 9999 1 : 77 88 => 1 : 9998 1
MUL 10000 1 1 : 77 88 => 0 : 77 88
MUL 1 10000 1 : 77 88 => 0 : 77 88
MUL 0 65535 1 : 77 88 => 0 : 77 88
MUL 65535 65535 1 : 77 88 => 0 : 77 88
DIV 0 7 2 1 : 77 88 => 1 : 3 1
DIV 0 7 2 3 : 77 88 => 1 : 3 5000
DIV 0 7 2 5 : 77 88 => 1 : 3 1
DIV 0 7 2 7 : 77 88 => 1 : 3 5000
DIV 0 7 2 0 : 77 88 => 0 : 77 88
DIV 0 7 2 6 : 77 88 => 0 : 77 88
DIV 0 2 3 1 : 77 88 => 1 : 0 2
DIV 0 2 3 3 : 77 88 => 1 : 0 6666
DIV 0 6 3 3 : 77 88 => 1 : 2 0
DIV 0 0 5 1 : 77 88 => 1 : 0 0
DIV 12 3456 1000 1 : 77 88 => 1 : 123 456
DIV 12 3456 1000 3 : 77 88 => 1 : 123 4560
DIV 0 7 0 1 : 77 88 => 4 : 77 88
DIV 0 0 0 7 : 77 88 => 4 : 77 88
DIV 0 7 0 6 : 77 88 => 0 : 77 88
DIV 0 9999 1 1 : 77 88 => 1 : 9999 0
DIV 1 0 1 1 : 77 88 => 2 : 77 88
DIV 1 0 1 3 : 77 88 => 2 : 77 88
DIV 1 0 2 1 : 77 88 => 1 : 5000 0
DIV 9998 9999 9999 1 : 77 88 => 1 : 9999 9998
DIV 9999 0 9999 1 : 77 88 => 2 : 77 88
DIV 10000 0 5 1 : 77 88 => 0 : 77 88
DIV 0 10000 5 1 : 77 88 => 0 : 77 88
DIV 0 5 10000 1 : 77 88 => 0 : 77 88
DIV 0 10000 0 1 : 77 88 => 0 : 77 88
DIV 65535 65535 65535 1 : 77 88 => 0 : 77 88
";

fn solve(rt: &impl Abort, row: &Row<'_>, ram: &mut MapRam) -> u8 {
    let [a, b, third, fourth, _] = row.numbers;
    let a = small(a);
    let b = small(b);
    let low = register(1);
    assert!(rt; has_run(ram, low, 1) && has_run(ram, low, 2));
    match row.block {
        "ADD" => add(a, b, low, bits(third), ram),
        "SUB" => sub(a, b, low, bits(third), ram),
        "MUL" => mul(a, b, low, bits(third), ram),
        _ => div(a, b, small(third), low, bits(fourth), ram),
    }
}

fn solves_row(rt: &impl Abort, alloc: Global, text: &str) -> Result<(), Fail> {
    let row = row_of(text)?;
    let mut ram = store(rt, alloc, &row)?;
    let outputs = solve(rt, &row, &mut ram);
    tells(rt, &ram, &row, outputs, false);
    Ok(())
}

#[test]
fn arithmetic(rt: HostRuntime) -> Result<(), Fail> {
    for text in ROWS.lines() {
        solves_row(&rt, rt.alloc(), text)?;
    }
    Ok(())
}
