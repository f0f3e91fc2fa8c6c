//! Joins against the rule of wires, and a network of which each column is known.
use grid_compile::{Grid, column_join};
use plant_types::{Cell, Element, List, Network, Ref, RefKind, Short};
use std::alloc::{AllocError, Global};

const COIL_1: Ref = Ref {
    kind: RefKind::Coil,
    number: 1,
};

/// Whether all pairs of rows between two, counted from 0, are shorted.
fn are_linked(shorts: u8, one: u8, other: u8) -> bool {
    let (low, high) = if one < other {
        (one, other)
    } else {
        (other, one)
    };
    (0..6u8)
        .filter(|pair| low <= *pair && *pair < high)
        .all(|pair| shorts >> pair & 1 == 1)
}

/// The rows that are joined to one with power, row by row.
fn by_wires(shorts: u8, power: u8) -> u8 {
    let mut live = 0;
    for row in 0..7u8 {
        let is_live = (0..7u8).any(|from| power >> from & 1 == 1 && are_linked(shorts, from, row));
        live |= u8::from(is_live) << row;
    }
    live
}

#[test]
fn joins_are_those_of_the_wires(rt: HostRuntime) {
    assert_eq!(rt; column_join(63, 8), 127);
    assert_eq!(rt; column_join(1, 4), 4);
    // Bits 6 and 7 join no rows, and bit 7 of the power is none.
    assert_eq!(rt; column_join(255, 136), 127);
    assert_eq!(rt; column_join(193, 132), 4);
    for shorts in 0..64u8 {
        for power in 0..128u8 {
            assert_eq!(rt;
                column_join(shorts, power),
                by_wires(shorts, power),
                "{shorts} {power}"
            );
        }
    }
}

fn cell(row: u8, column: u8, element: Element) -> Cell {
    Cell {
        row,
        column,
        element,
    }
}

fn network(alloc: Global) -> Result<Network, AllocError> {
    let mut cells = List::new(alloc);
    cells.push(cell(7, 2, Element::Coil(COIL_1)))?;
    cells.push(cell(4, 1, Element::Wire))?;
    cells.push(cell(1, 2, Element::Open(COIL_1)))?;
    let mut shorts = List::new(alloc);
    shorts.push(Short { row: 6, column: 1 })?;
    shorts.push(Short { row: 1, column: 1 })?;
    Ok(Network { cells, shorts })
}

#[test]
fn columns_list_their_cells_by_row(rt: HostRuntime) -> Result<(), AllocError> {
    let alloc = rt.alloc();
    let grid = Grid::of(alloc, &network(alloc)?)?;
    let columns = grid.columns.as_slice();
    assert_eq!(rt; columns.len(), 11);
    for (i, column) in columns.iter().enumerate() {
        let ops = column.ops.as_slice();
        let rows: &[u8] = match i {
            0 => &[4],
            1 => &[1, 7],
            _ => &[],
        };
        assert_eq!(rt; ops.len(), rows.len());
        for (op, row) in ops.iter().zip(rows) {
            assert_eq!(rt; op.row, *row);
        }
        assert_eq!(rt; column.shorts, if i == 0 { 33 } else { 0 });
    }
    Ok(())
}
