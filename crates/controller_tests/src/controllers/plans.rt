//! Controllers with a ladder of one segment.
ghost use Rattle.std.specs.Prelude.{◌≡◌, ◌≤◌, length, replicate, IfOk};
ghost use Rattle.plant_types.specs.Limits.{most_scans};
ghost use Rattle.plant_types.specs.Passing.{IsChecked};

use controller_core::Controller;
use plant_types::{
    Cell, ControllerPlan, Element, List, MathOp, Network, Operand, OrderRow, PowerRow, Ref,
    RefKind, Segment, Short, checks_are_exact,
};
use std::alloc::{AllocError, AllocGlobal, Global};
use std::process::Abort;

/// What a controller of node 2 with 16 coils and 124 registers is made of.
#[derive(Clone, Copy)]
pub struct Plan {
    pub panel: &'static [Ref],
    /// The pieces of each network of its segment.
    pub networks: &'static [&'static [Piece]],
    /// How often the segment is solved in a scan: at most 3 times.
    pub rows: usize,
    pub power: &'static [PowerRow],
    /// From 1 on.
    pub watchdog: u32,
    /// At most 2000.
    pub scans: u32,
}

/// The segment is solved, whatever is on.
const ROW: OrderRow = OrderRow {
    segment: 1,
    control: None,
    input: None,
    output: None,
};

/// A cell of a network, or a vertical short.
#[derive(Clone, Copy)]
pub enum Piece {
    /// Its row, its column and its element.
    At(u8, u8, Element),
    /// An ADD in column 1: its row, its two numbers, and where their sum goes.
    Sum(u8, u16, u16, Ref),
    /// The upper of the two rows that it joins, and its column.
    Joins(u8, u8),
}

/// Coil 00001.
pub const COIL_1: Ref = Ref {
    kind: RefKind::Coil,
    number: 1,
};

/// Coil 00002.
pub const COIL_2: Ref = Ref {
    kind: RefKind::Coil,
    number: 2,
};

/// Coil 00003.
pub const COIL_3: Ref = Ref {
    kind: RefKind::Coil,
    number: 3,
};

fn cell_of(piece: Piece) -> Option<Cell> {
    match piece {
        Piece::At(row, column, element) => Some(Cell {
            row,
            column,
            element,
        }),
        Piece::Sum(row, one, other, low) => Some(Cell {
            row,
            column: 1,
            element: Element::Math {
                op: MathOp::Add,
                top: Operand::Const(one),
                mid: Operand::Const(other),
                low,
            },
        }),
        Piece::Joins(_, _) => None,
    }
}

fn cells_of(alloc: Global, pieces: &[Piece]) -> Result<List<Cell>, AllocError> {
    let mut cells = List::new(alloc);
    for piece in pieces {
        if let Some(cell) = cell_of(*piece) {
            cells.push(cell)?;
        }
    }
    Ok(cells)
}

fn shorts_of(alloc: Global, pieces: &[Piece]) -> Result<List<Short>, AllocError> {
    let mut shorts = List::new(alloc);
    for piece in pieces {
        if let Piece::Joins(row, column) = *piece {
            shorts.push(Short { row, column })?;
        }
    }
    Ok(shorts)
}

fn networks_of(alloc: Global, networks: &[&[Piece]]) -> Result<List<Network>, AllocError> {
    let mut list = List::new(alloc);
    for pieces in networks {
        list.push(Network {
            cells: cells_of(alloc, pieces)?,
            shorts: shorts_of(alloc, pieces)?,
        })?;
    }
    Ok(list)
}

fn segments_of(alloc: Global, networks: &[&[Piece]]) -> Result<List<Segment>, AllocError>
    ensures { IfOk result (λ segments. length segments ≡ 1) }
{
    let networks = networks_of(alloc, networks)?;
    let mut segments = List::new(alloc);
    segments.push(Segment { networks })?;
    Ok(segments)
}

fn plan_of(alloc: Global, plan: &Plan) -> Result<ControllerPlan, AllocError>
    ensures rows { IfOk result (λ made. made.orders ≡ replicate plan.now.rows ROW) }
    ensures segment { IfOk result (λ made. length made.segments ≡ 1) }
{
    let panel = List::from_vec(Vec::from_slice(alloc, plan.panel)?);
    let orders = List::from_vec(vec![in alloc; ROW; plan.rows]?);
    let power = List::from_vec(Vec::from_slice(alloc, plan.power)?);
    let segments = segments_of(alloc, plan.networks)?;
    Ok(ControllerPlan {
        node: 2,
        network: 0,
        coils: 16,
        inputs: 0,
        input_registers: 0,
        registers: 124,
        panel,
        orders,
        power,
        drops: List::new(alloc),
        segments,
    })
}

fn started(alloc: Global, made: &ControllerPlan, plan: &Plan) -> Result<Controller, AllocError>
    requires checked { IsChecked made.now }
    requires orders { made.now.orders ≡ replicate plan.now.rows ROW }
    requires segment { length made.now.segments ≡ 1 }
    requires rows { plan.now.rows ≤ 3 }
    requires watchdog { 1 ≤ plan.now.watchdog }
    requires scans { plan.now.scans ≤ most_scans }
{
    Controller::new(alloc, made, 10, plan.watchdog, plan.scans)
}

/// A controller that is made of this.
pub fn controller_of(
    rt: &(impl Abort + AllocGlobal),
    plan: &Plan,
) -> Result<Controller, AllocError> {
    assert!(rt; plan.rows <= 3);
    assert!(rt; 1 <= plan.watchdog);
    assert!(rt; plan.scans <= 2000);
    let made = plan_of(rt.alloc(), plan)?;
    checks_are_exact();
    if made.check().is_err() {
        panic!(rt; "the plan has a fault");
    }
    started(rt.alloc(), &made, plan)
}
