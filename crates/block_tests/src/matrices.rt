//! Blocks on matrices: the operands, the length and the inputs.
ghost use Rattle.std.specs.Prelude.{◌≡◌, true};
ghost use Rattle.std.specs.Bool.{OnTrue};
ghost use Rattle.plant_types.specs.Operands.{HasNumber, is_constant};

use crate::rows::{Row, bits, has_run, reference, row_of, small, store, tells};
use matrix_ops::{and, brot, cmpr, comp, mbit, or, sens, xor};
use plant_types::{MapRam, Operand, Ref};
use std::alloc::Global;
use std::process::Abort;
use std::test::Fail;

const ROWS: &str = "\
AND 40001 40003 2 1 : xff00 xf0f xf0f0 xff => 1 : xff00 xf0f xf000 15
AND 40001 40003 2 7 : xff00 xf0f xf0f0 xff => 1 : xff00 xf0f xf000 15
AND 40001 40003 2 6 : xff00 xf0f xf0f0 xff => 0 : xff00 xf0f xf0f0 xff
AND 40001 40002 2 1 : xff00 xff0 xff 0 => 1 : xff00 xf00 xf0 0
AND 40002 40001 2 1 : xff00 xff0 xff 0 => 1 : xf00 xf0 xff 0
AND 40001 40001 2 1 : xff00 xff0 xff 0 => 1 : xff00 xff0 xff 0
AND 40001 40002 1 1 : xff00 xff0 xff 0 => 1 : xff00 xf00 xff 0
OR 40001 40003 2 1 : xff00 xf0f xf0f0 xff => 1 : xff00 xf0f xfff0 xfff
OR 40001 40003 2 6 : xff00 xf0f xf0f0 xff => 0 : xff00 xf0f xf0f0 xff
OR 40002 40001 2 1 : xff00 xff0 xff 0 => 1 : xfff0 xfff xff 0
OR 40001 40002 2 1 : xff00 xff0 xff 0 => 1 : xff00 xfff0 xfff 0
OR 40001 40002 1 1 : xff00 xff0 xff 0 => 1 : xff00 xfff0 xff 0
XOR 40001 40003 2 1 : xff00 xf0f xf0f0 xff => 1 : xff00 xf0f xff0 xff0
XOR 40001 40003 2 6 : xff00 xf0f xf0f0 xff => 0 : xff00 xf0f xf0f0 xff
XOR 40001 40002 2 1 : xff00 xff0 xff 0 => 1 : xff00 xf0f0 xf0f 0
XOR 40002 40001 2 1 : xff00 xff0 xff 0 => 1 : xf0f0 xf0f xff 0
XOR 40001 40001 2 1 : xff00 xff0 xff 0 => 1 : 0 0 xff 0
COMP 40001 40003 2 1 : xff00 xf0f xf0f0 xff => 1 : xff00 xf0f xff xf0f0
COMP 40001 40003 2 6 : xff00 xf0f xf0f0 xff => 0 : xff00 xf0f xf0f0 xff
COMP 40001 40002 2 1 : xff00 xff0 xff 0 => 1 : xff00 xff xf00f 0
COMP 40002 40001 2 1 : xff00 xff0 xff 0 => 1 : xf00f xff00 xff 0
COMP 40001 40001 2 1 : xff00 xff0 xff 0 => 1 : xff xf00f xff 0
COMP 40003 40004 1 1 : xff00 xff0 0 7 => 1 : xff00 xff0 0 xffff
CMPR 40001 40003 2 1 : x8000 0 0 0 0 => 7 : x8000 0 1 0 0
CMPR 40001 40003 2 1 : 0 1 0 0 0 => 7 : 0 1 32 0 0
CMPR 40001 40003 2 1 : 0 0 0 0 1 => 3 : 0 0 32 0 1
CMPR 40001 40003 2 5 : 5 6 9 5 6 => 1 : 5 6 0 5 6
CMPR 40001 40003 2 1 : x8001 x8000 1 0 0 => 7 : x8001 x8000 16 0 0
CMPR 40001 40003 2 1 : x8001 x8000 16 0 0 => 7 : x8001 x8000 17 0 0
CMPR 40001 40003 2 1 : x8001 x8000 17 0 0 => 1 : x8001 x8000 0 0 0
CMPR 40001 40003 2 3 : x8001 x8000 16 0 0 => 7 : x8001 x8000 1 0 0
CMPR 40001 40003 2 1 : 0 1 31 0 0 => 7 : 0 1 32 0 0
CMPR 40001 40003 2 1 : 0 1 32 0 0 => 1 : 0 1 0 0 0
CMPR 40001 40003 2 1 : 0 1 99 0 0 => 1 : 0 1 0 0 0
CMPR 40001 40003 2 6 : 0 1 4 0 0 => 0 : 0 1 4 0 0
CMPR 40001 40001 1 1 : 3 1 0 0 0 => 7 : 15 1 0 0 0
CMPR 40001 40001 1 3 : 3 2 0 0 0 => 7 : 16 2 0 0 0
BROT 40001 40003 2 3 : x8001 x8000 0 0 => 3 : x8001 x8000 3 0
BROT 40001 40003 2 7 : x8001 x8000 0 0 => 3 : x8001 x8000 3 1
BROT 40001 40003 2 7 : x4000 1 0 0 => 1 : x4000 1 x8000 2
BROT 40001 40003 2 1 : x8001 1 0 0 => 3 : x8001 1 x4000 x8000
BROT 40001 40003 2 5 : x8001 1 0 0 => 3 : x8001 1 xc000 x8000
BROT 40001 40003 2 5 : 1 x8000 0 0 => 1 : 1 x8000 0 xc000
BROT 40001 40003 2 6 : x8001 x8000 7 8 => 0 : x8001 x8000 7 8
BROT 40001 40002 2 3 : x8001 x8000 0 0 => 3 : x8001 3 0 0
BROT 40002 40001 2 3 : 9 x8001 x8000 0 => 3 : 3 0 x8000 0
BROT 40001 40001 2 1 : x8001 1 0 0 => 3 : x4000 x8000 0 0
BROT 40001 40002 1 7 : x8001 0 0 0 => 3 : x8001 3 0 0
BROT 40001 40002 1 5 : x8001 0 0 0 => 3 : x8001 xc000 0 0
MBIT 1 40002 2 3 : 0 0 0 0 => 3 : 0 x8000 0 0
MBIT 16 40002 2 3 : 0 0 0 0 => 3 : 0 1 0 0
MBIT 17 40002 2 3 : 0 0 0 0 => 3 : 0 0 x8000 0
MBIT 32 40002 2 7 : 0 0 0 0 => 3 : 0 0 1 0
MBIT 0 40002 2 3 : 0 0 0 0 => 5 : 0 0 0 0
MBIT 33 40002 2 3 : 0 0 0 0 => 5 : 0 0 0 0
MBIT 16 40002 1 3 : 0 0 0 0 => 3 : 0 1 0 0
MBIT 17 40002 1 3 : 0 0 0 0 => 5 : 0 0 0 0
MBIT 40001 40002 2 7 : 17 0 0 0 => 3 : 18 0 x8000 0
MBIT 40001 40002 2 3 : 17 0 0 0 => 3 : 17 0 x8000 0
MBIT 40001 40002 2 7 : 32 0 0 0 => 3 : 33 0 1 0
MBIT 40001 40002 2 7 : 0 0 0 0 => 5 : 0 0 0 0
MBIT 40001 40002 2 7 : 33 0 0 0 => 5 : 33 0 0 0
MBIT 40001 40002 2 6 : 1 0 0 0 => 0 : 1 0 0 0
MBIT 40002 40002 2 7 : 0 17 0 0 => 3 : 0 18 x8000 0
MBIT 40002 40002 2 7 : 0 16 0 0 => 3 : 0 17 0 0
MBIT 40002 40002 2 3 : 0 16 0 0 => 3 : 0 17 0 0
MBIT 1 40002 2 1 : 0 xffff xffff 0 => 1 : 0 x7fff xffff 0
MBIT 16 40002 2 1 : 0 xffff xffff 0 => 1 : 0 xfffe xffff 0
MBIT 17 40002 2 1 : 0 xffff xffff 0 => 1 : 0 xffff x7fff 0
MBIT 32 40002 2 5 : 0 xffff xffff 0 => 1 : 0 xffff xfffe 0
MBIT 0 40002 2 5 : 0 xffff xffff 0 => 5 : 0 xffff xffff 0
MBIT 40001 40002 2 5 : 2 xffff xffff 0 => 1 : 3 xbfff xffff 0
SENS 1 40002 2 1 : 0 x8000 0 0 => 3 : 0 x8000 0 0
SENS 16 40002 2 1 : 0 1 0 0 => 3 : 0 1 0 0
SENS 17 40002 2 1 : 0 0 x8000 0 => 3 : 0 0 x8000 0
SENS 32 40002 2 7 : 0 0 1 0 => 3 : 0 0 1 0
SENS 2 40002 2 1 : 0 x8000 0 0 => 1 : 0 x8000 0 0
SENS 0 40002 2 1 : 0 xffff xffff 0 => 5 : 0 xffff xffff 0
SENS 33 40002 2 7 : 0 xffff xffff 0 => 5 : 0 xffff xffff 0
SENS 17 40002 1 1 : 0 xffff xffff 0 => 5 : 0 xffff xffff 0
SENS 40001 40002 2 3 : 17 0 x8000 0 => 3 : 18 0 x8000 0
SENS 40001 40002 2 3 : 18 0 x8000 0 => 1 : 19 0 x8000 0
SENS 40001 40002 2 5 : 17 x8000 0 0 => 3 : 1 x8000 0 0
SENS 40001 40002 2 7 : 17 x8000 0 0 => 3 : 2 x8000 0 0
SENS 40001 40002 2 5 : 99 0 xffff 0 => 1 : 1 0 xffff 0
SENS 40001 40002 2 3 : 0 xffff xffff 0 => 5 : 0 xffff xffff 0
SENS 40001 40002 2 3 : 33 xffff xffff 0 => 5 : 33 xffff xffff 0
SENS 40001 40002 2 6 : 5 xffff xffff 0 => 0 : 5 xffff xffff 0
SENS 40002 40002 2 1 : 0 x8000 0 0 => 5 : 0 x8000 0 0
SENS 40002 40002 2 5 : 0 x8000 0 0 => 3 : 0 1 0 0
SENS 40002 40002 2 7 : 0 x8000 0 0 => 3 : 0 2 0 0
AND 40001 40101 100 1 : @100 xffff @200 xff => 1 : @101 0 @200 xff
XOR 40001 40101 100 1 : @1 5 @200 7 => 1 : @101 5 @200 7
COMP 40001 40101 100 1 : @1 xffff @100 1 => 1 : @101 0 @200 xfffe
CMPR 40001 40101 100 1 : @100 1 @101 1599 => 7 : @100 1 @101 1600
BROT 40001 40101 100 5 : @1 0 @100 1 => 3 : @101 x8000 @200 0
MBIT 1600 40101 100 3 : @101 0 @200 0 => 3 : @101 0 @200 1
MBIT 1601 40101 100 3 : @101 0 @200 0 => 5 : @200 0 @201 0
SENS 1600 40101 100 1 : @101 0 @200 1 => 3 : @101 0 @200 1
SENS 1601 40101 100 1 : @200 1 @201 x8000 => 5 : @200 1 @201 x8000
MBIT 30001 40001 1 7 : 0 => 3 : x4000
SENS 30001 40001 1 7 : 0 => 1 : 0
";

// A number, or a register.
fn operand(number: u64) -> Operand {
    if number < 10_000 {
        Operand::Const(small(number))
    } else {
        Operand::At(reference(number))
    }
}

fn has_number(ram: &MapRam, operand: Operand) -> bool
    ensures number { OnTrue result (HasNumber ram.now operand) }
    ensures digits { OnTrue result (is_constant operand ≡ true) }
{
    match operand {
        Operand::Const(number) => number <= 9999,
        Operand::At(at) => has_run(ram, at, 1),
    }
}

fn solve_bit(
    rt: &impl Abort,
    row: &Row<'_>,
    mid: Ref,
    length: u16,
    inputs: u8,
    ram: &mut MapRam,
) -> u8 {
    let top = operand(row.numbers[0]);
    assert!(rt; length >= 1 && length <= 100);
    assert!(rt; has_number(ram, top));
    assert!(rt; has_run(ram, mid, length));
    match row.block {
        "MBIT" => mbit(top, mid, length, inputs, ram),
        _ => sens(top, mid, length, inputs, ram),
    }
}

fn solve_logic(
    rt: &impl Abort,
    row: &Row<'_>,
    mid: Ref,
    length: u16,
    inputs: u8,
    ram: &mut MapRam,
) -> u8 {
    let top = reference(row.numbers[0]);
    assert!(rt; length >= 1 && length <= 100);
    assert!(rt; has_run(ram, top, length));
    assert!(rt; has_run(ram, mid, length));
    match row.block {
        "AND" => and(top, mid, length, inputs, ram),
        "OR" => or(top, mid, length, inputs, ram),
        "XOR" => xor(top, mid, length, inputs, ram),
        _ => comp(top, mid, length, inputs, ram),
    }
}

fn solve_matrix(
    rt: &impl Abort,
    row: &Row<'_>,
    mid: Ref,
    length: u16,
    inputs: u8,
    ram: &mut MapRam,
) -> u8 {
    let top = reference(row.numbers[0]);
    assert!(rt; length >= 1 && length <= 100);
    assert!(rt; has_run(ram, top, length));
    match row.block {
        "CMPR" => {
            assert!(rt; has_run(ram, mid, length + 1));
            cmpr(top, mid, length, inputs, ram)
        }
        _ => {
            assert!(rt; has_run(ram, mid, length));
            brot(top, mid, length, inputs, ram)
        }
    }
}

fn solve(rt: &impl Abort, row: &Row<'_>, ram: &mut MapRam) -> u8 {
    let mid = reference(row.numbers[1]);
    let length = small(row.numbers[2]);
    let inputs = bits(row.numbers[3]);
    match row.block {
        "MBIT" | "SENS" => solve_bit(rt, row, mid, length, inputs, ram),
        "CMPR" | "BROT" => solve_matrix(rt, row, mid, length, inputs, ram),
        _ => solve_logic(rt, row, mid, length, inputs, ram),
    }
}

fn solves_row(rt: &impl Abort, alloc: Global, text: &str) -> Result<(), Fail> {
    let row = row_of(text)?;
    let mut ram = store(rt, alloc, &row)?;
    let outputs = solve(rt, &row, &mut ram);
    tells(rt, &ram, &row, outputs, false);
    Ok(())
}

#[test]
fn matrices(rt: HostRuntime) -> Result<(), Fail> {
    for text in ROWS.lines() {
        solves_row(&rt, rt.alloc(), text)?;
    }
    Ok(())
}
