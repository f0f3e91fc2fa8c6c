//! Blocks that move the numbers of registers and search them: the operands, the length, the inputs.
use crate::rows::{Row, bits, has_run, reference, row_of, small, store, tells};
use plant_types::{MapRam, Ref};
use std::alloc::Global;
use std::process::Abort;
use std::test::Fail;
use table_ops::{
    block_move, first_in, first_out, reg_to_table, search, table_to_reg, table_to_table,
};

const ROWS: &str = "\
R>T 40001 40002 3 1 : 7 0 1 2 3 => 1 : 7 1 7 2 3
R>T 40001 40002 3 1 : 7 2 1 2 3 => 3 : 7 3 1 2 7
R>T 40001 40002 3 1 : 7 3 1 2 3 => 3 : 7 3 1 2 3
R>T 40001 40002 3 1 : 7 9 1 2 3 => 3 : 7 9 1 2 3
R>T 40001 40002 3 3 : 7 1 1 2 3 => 1 : 7 1 1 7 3
R>T 40001 40002 3 5 : 7 3 1 2 3 => 1 : 7 1 7 2 3
R>T 40001 40002 3 7 : 7 2 1 2 3 => 1 : 7 0 7 2 3
R>T 40001 40002 3 0 : 7 2 1 2 3 => 0 : 7 2 1 2 3
R>T 40001 40002 3 2 : 7 3 1 2 3 => 2 : 7 3 1 2 3
R>T 40001 40002 3 4 : 7 3 1 2 3 => 0 : 7 0 1 2 3
R>T 40002 40002 3 1 : 0 2 1 2 3 => 3 : 0 3 1 2 2
R>T 40002 40002 3 5 : 0 2 1 2 3 => 1 : 0 1 2 2 3
R>T 40003 40002 3 1 : 0 1 9 2 3 => 1 : 0 2 9 9 3
R>T 40001 40002 1 1 : 7 0 5 6 6 => 3 : 7 1 7 6 6
T>R 40001 40004 3 1 : 11 12 13 0 9 => 1 : 11 12 13 1 11
T>R 40001 40004 3 1 : 11 12 13 2 9 => 3 : 11 12 13 3 13
T>R 40001 40004 3 1 : 11 12 13 3 9 => 3 : 11 12 13 3 9
T>R 40001 40004 3 1 : 11 12 13 8 9 => 3 : 11 12 13 8 9
T>R 40001 40004 3 3 : 11 12 13 1 9 => 1 : 11 12 13 1 12
T>R 40001 40004 3 5 : 11 12 13 3 9 => 1 : 11 12 13 1 11
T>R 40001 40004 3 4 : 11 12 13 3 9 => 0 : 11 12 13 0 9
T>R 40001 40004 3 0 : 11 12 13 3 9 => 2 : 11 12 13 3 9
T>R 40001 40002 3 1 : 11 1 13 0 0 => 1 : 11 2 1 0 0
T>R 40001 40002 3 7 : 11 1 13 0 0 => 1 : 11 0 11 0 0
T>R 40001 40001 3 5 : 2 5 6 0 0 => 1 : 1 2 6 0 0
T>R 40001 40001 3 1 : 2 5 6 0 0 => 3 : 3 6 6 0 0
T>R 40001 40002 1 1 : 11 0 9 0 0 => 3 : 11 1 11 0 0
T>T 40001 40004 3 1 : 11 12 13 0 1 2 3 => 1 : 11 12 13 1 11 2 3
T>T 40001 40004 3 1 : 11 12 13 2 1 2 3 => 3 : 11 12 13 3 1 2 13
T>T 40001 40004 3 1 : 11 12 13 3 1 2 3 => 3 : 11 12 13 3 1 2 3
T>T 40001 40004 3 1 : 11 12 13 4 1 2 3 => 3 : 11 12 13 4 1 2 3
T>T 40001 40004 3 3 : 11 12 13 1 1 2 3 => 1 : 11 12 13 1 1 12 3
T>T 40001 40004 3 5 : 11 12 13 2 1 2 3 => 1 : 11 12 13 1 11 2 3
T>T 40001 40004 3 4 : 11 12 13 2 1 2 3 => 0 : 11 12 13 0 1 2 3
T>T 40001 40004 3 0 : 11 12 13 3 1 2 3 => 2 : 11 12 13 3 1 2 3
T>T 40001 40001 3 1 : 1 20 30 40 0 0 0 => 1 : 2 20 20 40 0 0 0
T>T 40003 40001 3 1 : 0 20 30 40 50 0 0 => 1 : 1 30 30 40 50 0 0
T>T 40001 40002 1 1 : 11 0 5 0 0 0 0 => 3 : 11 1 11 0 0 0 0
BLKM 40001 40004 3 1 : 1 2 3 4 5 6 => 1 : 1 2 3 1 2 3
BLKM 40001 40004 3 7 : 1 2 3 4 5 6 => 1 : 1 2 3 1 2 3
BLKM 40001 40004 3 6 : 1 2 3 4 5 6 => 0 : 1 2 3 4 5 6
BLKM 40001 40002 4 1 : 1 2 3 4 5 6 => 1 : 1 1 2 3 4 6
BLKM 40002 40001 4 1 : 1 2 3 4 5 6 => 1 : 2 3 4 5 5 6
BLKM 40002 40002 4 1 : 1 2 3 4 5 6 => 1 : 1 2 3 4 5 6
BLKM 40001 40006 1 1 : 1 2 3 4 5 6 => 1 : 1 2 3 4 5 1
FIN 40001 40002 3 1 : 7 0 1 2 3 => 1 : 7 1 7 2 3
FIN 40001 40002 3 7 : 7 1 5 2 3 => 1 : 7 2 7 5 3
FIN 40001 40002 3 1 : 7 2 5 6 3 => 3 : 7 3 7 5 6
FIN 40001 40002 3 1 : 7 3 5 6 8 => 3 : 7 3 5 6 8
FIN 40001 40002 3 1 : 7 9 5 6 8 => 3 : 7 9 5 6 8
FIN 40001 40002 3 6 : 7 0 5 6 8 => 4 : 7 0 5 6 8
FIN 40001 40002 3 0 : 7 1 5 6 8 => 0 : 7 1 5 6 8
FIN 40001 40002 3 0 : 7 3 5 6 8 => 2 : 7 3 5 6 8
FIN 40002 40002 3 1 : 0 1 5 6 7 => 1 : 0 2 1 5 7
FIN 40004 40002 3 1 : 0 2 5 6 7 => 3 : 0 3 6 5 6
FIN 40005 40002 3 1 : 0 2 5 6 7 => 3 : 0 3 7 5 6
FIN 40001 40002 1 1 : 7 0 5 0 0 => 3 : 7 1 7 0 0
FOUT 40001 40005 3 1 : 3 5 6 7 0 => 1 : 2 5 6 7 7
FOUT 40001 40005 3 7 : 1 5 6 7 0 => 5 : 0 5 6 7 5
FOUT 40001 40005 3 1 : 0 5 6 7 0 => 5 : 0 5 6 7 0
FOUT 40001 40005 3 1 : 4 5 6 7 0 => 3 : 4 5 6 7 0
FOUT 40001 40005 3 0 : 0 5 6 7 0 => 4 : 0 5 6 7 0
FOUT 40001 40005 3 0 : 3 5 6 7 0 => 2 : 3 5 6 7 0
FOUT 40001 40005 3 6 : 2 5 6 7 0 => 0 : 2 5 6 7 0
FOUT 40001 40001 3 1 : 2 5 6 7 0 => 1 : 1 5 6 7 0
FOUT 40001 40002 3 1 : 3 5 6 7 0 => 1 : 2 7 6 7 0
FOUT 40001 40003 1 1 : 1 5 0 0 0 => 5 : 0 5 5 0 0
SRCH 40001 40004 3 1 : 7 8 9 0 7 => 3 : 7 8 9 1 7
SRCH 40001 40004 3 1 : 7 8 9 0 9 => 3 : 7 8 9 3 9
SRCH 40001 40004 3 5 : 7 8 9 2 5 => 1 : 7 8 9 0 5
SRCH 40001 40004 3 1 : 7 8 8 0 8 => 3 : 7 8 8 2 8
SRCH 40001 40004 3 3 : 8 7 8 1 8 => 3 : 8 7 8 3 8
SRCH 40001 40004 3 3 : 8 7 8 0 8 => 3 : 8 7 8 1 8
SRCH 40001 40004 3 3 : 8 7 8 2 8 => 3 : 8 7 8 3 8
SRCH 40001 40004 3 3 : 8 7 8 3 8 => 1 : 8 7 8 0 8
SRCH 40001 40004 3 3 : 8 7 8 9 8 => 1 : 8 7 8 0 8
SRCH 40001 40004 3 2 : 8 7 8 1 8 => 0 : 8 7 8 1 8
SRCH 40001 40001 3 1 : 2 5 5 0 0 => 3 : 2 5 5 0 0
SRCH 40001 40001 3 3 : 2 5 5 0 0 => 3 : 3 5 5 0 0
SRCH 40001 40002 1 1 : 7 0 7 0 0 => 3 : 7 1 7 0 0
SRCH 40001 40002 1 1 : 7 5 6 0 0 => 1 : 7 0 6 0 0
R>T 40001 40002 255 1 : @1 7 @2 254 => 3 : @2 255 @257 7
T>R 40001 40300 255 1 : @255 9 @300 254 => 3 : @300 255 @301 9
T>T 40001 40300 255 1 : @255 9 @300 254 => 3 : @300 255 @555 9
BLKM 40001 40256 255 1 : @1 7 @255 9 => 1 : @256 7 @510 9
FIN 40001 40002 255 1 : @2 254 @256 9 => 3 : @2 255 @257 9
FOUT 40001 40300 255 1 : @1 255 @256 9 => 1 : @1 254 @300 9
SRCH 40001 40300 255 1 : @255 9 @301 9 => 3 : @300 255 @301 9
";

/// What stands in the nodes of a block, and the power of its inputs.
#[derive(Clone, Copy)]
struct Nodes {
    top: Ref,
    mid: Ref,
    length: u16,
    inputs: u8,
}

fn nodes_of(row: &Row<'_>) -> Nodes {
    let [top, mid, length, inputs, _] = row.numbers;
    Nodes {
        top: reference(top),
        mid: reference(mid),
        length: small(length),
        inputs: bits(inputs),
    }
}

fn solve_move(rt: &impl Abort, block: &str, nodes: Nodes, ram: &mut MapRam) -> u8 {
    let Nodes {
        top,
        mid,
        length,
        inputs,
    } = nodes;
    assert!(rt; length >= 1 && length <= 255);
    match block {
        "R>T" => {
            assert!(rt; has_run(ram, top, 1) && has_run(ram, mid, length + 1));
            reg_to_table(top, mid, length, inputs, ram)
        }
        "T>R" => {
            assert!(rt; has_run(ram, top, length) && has_run(ram, mid, 2));
            table_to_reg(top, mid, length, inputs, ram)
        }
        "T>T" => {
            assert!(rt; has_run(ram, top, length) && has_run(ram, mid, length + 1));
            table_to_table(top, mid, length, inputs, ram)
        }
        _ => {
            assert!(rt; has_run(ram, top, length) && has_run(ram, mid, length));
            block_move(top, mid, length, inputs, ram)
        }
    }
}

fn solve_queue(rt: &impl Abort, block: &str, nodes: Nodes, ram: &mut MapRam) -> u8 {
    let Nodes {
        top,
        mid,
        length,
        inputs,
    } = nodes;
    assert!(rt; length >= 1 && length <= 255);
    match block {
        "FIN" => {
            assert!(rt; has_run(ram, top, 1) && has_run(ram, mid, length + 1));
            first_in(top, mid, length, inputs, ram)
        }
        "FOUT" => {
            assert!(rt; has_run(ram, top, length + 1) && has_run(ram, mid, 1));
            first_out(top, mid, length, inputs, ram)
        }
        _ => {
            assert!(rt; has_run(ram, top, length) && has_run(ram, mid, 2));
            search(top, mid, length, inputs, ram)
        }
    }
}

fn solve(rt: &impl Abort, row: &Row<'_>, ram: &mut MapRam) -> u8 {
    match row.block {
        "FIN" | "FOUT" | "SRCH" => solve_queue(rt, row.block, nodes_of(row), ram),
        _ => solve_move(rt, row.block, nodes_of(row), ram),
    }
}

fn solves_row(rt: &impl Abort, alloc: Global, text: &str) -> Result<(), Fail> {
    let row = row_of(text)?;
    let mut ram = store(rt, alloc, &row)?;
    let outputs = solve(rt, &row, &mut ram);
    tells(rt, &ram, &row, outputs, false);
    Ok(())
}

#[test]
fn tables(rt: HostRuntime) -> Result<(), Fail> {
    for text in ROWS.lines() {
        solves_row(&rt, rt.alloc(), text)?;
    }
    Ok(())
}
