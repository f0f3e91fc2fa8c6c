//! The first fault of a plan, each once with its place.
use plant_types::{
    Cell, ControllerPlan, Element, IoDrop, List, Network, Operand, OrderRow, Part, Place,
    PlantFault, PowerRow, Ref, RefKind, Segment, Short,
};
use std::alloc::{AllocError, Global};

fn coil(number: u16) -> Ref {
    Ref {
        kind: RefKind::Coil,
        number,
    }
}

fn register(number: u16) -> Ref {
    Ref {
        kind: RefKind::Register,
        number,
    }
}

fn cell(row: u8, column: u8, element: Element) -> Cell {
    Cell {
        row,
        column,
        element,
    }
}

fn message() -> Element {
    Element::Mstr {
        control: register(1),
        area: register(10),
        length: 10,
    }
}

fn list_of<T: Copy + Drop>(alloc: Global, items: &[T]) -> Result<List<T>, AllocError> {
    Ok(List::from_vec(Vec::from_slice(alloc, items)?))
}

fn network(alloc: Global, cells: &[Cell], shorts: &[Short]) -> Result<Network, AllocError> {
    let cells = list_of(alloc, cells)?;
    let shorts = list_of(alloc, shorts)?;
    Ok(Network { cells, shorts })
}

/// A segment of so many networks that have these cells and shorts.
fn segment(
    alloc: Global,
    cells: &[Cell],
    shorts: &[Short],
    times: usize,
) -> Result<Segment, AllocError> {
    let mut networks = List::new(alloc);
    for _ in 0..times {
        networks.push(network(alloc, cells, shorts)?)?;
    }
    Ok(Segment { networks })
}

/// Segments of one network each, which has one cell.
fn segments(alloc: Global, cells: &[Cell]) -> Result<List<Segment>, AllocError> {
    let mut made = List::new(alloc);
    for cell in cells {
        made.push(segment(alloc, &[*cell], &[], 1)?)?;
    }
    Ok(made)
}

fn only(alloc: Global, segment: Result<Segment, AllocError>) -> Result<List<Segment>, AllocError> {
    let mut made = List::new(alloc);
    made.push(segment?)?;
    Ok(made)
}

/// 16 coils and 20 registers, and what a plan has besides.
fn plan_with(
    panel: List<Ref>,
    orders: List<OrderRow>,
    power: List<PowerRow>,
    drops: List<IoDrop>,
    segments: List<Segment>,
) -> ControllerPlan {
    ControllerPlan {
        node: 1,
        network: 0,
        coils: 16,
        inputs: 0,
        input_registers: 0,
        registers: 20,
        panel,
        orders,
        power,
        drops,
        segments,
    }
}

fn plan(alloc: Global, segments: List<Segment>) -> ControllerPlan {
    plan_with(
        List::new(alloc),
        List::new(alloc),
        List::new(alloc),
        List::new(alloc),
        segments,
    )
}

fn bare(alloc: Global) -> ControllerPlan {
    plan(alloc, List::new(alloc))
}

fn with_panel(alloc: Global, panel: &[Ref]) -> Result<ControllerPlan, AllocError> {
    let panel = list_of(alloc, panel)?;
    Ok(plan_with(
        panel,
        List::new(alloc),
        List::new(alloc),
        List::new(alloc),
        List::new(alloc),
    ))
}

/// A plan of one cell, of order rows and of drops.
fn with_orders(
    alloc: Global,
    cell: Cell,
    rows: &[OrderRow],
    drops: List<IoDrop>,
) -> Result<ControllerPlan, AllocError> {
    let orders = list_of(alloc, rows)?;
    let segments = segments(alloc, &[cell])?;
    Ok(plan_with(List::new(alloc), orders, List::new(alloc), drops, segments))
}

/// Drop 3 alone.
fn drop_3(alloc: Global) -> Result<List<IoDrop>, AllocError> {
    let mut drops = List::new(alloc);
    drops.push(IoDrop {
        number: 3,
        modules: List::new(alloc),
        script: List::new(alloc),
    })?;
    Ok(drops)
}

fn network_fault(alloc: Global, cells: &[Cell], shorts: &[Short]) -> Result<u8, AllocError> {
    let network = network(alloc, cells, shorts)?;
    match network.check(&bare(alloc)) {
        Ok(()) => Ok(0),
        Err(fault) => Ok(fault.number()),
    }
}

/// A plan fails so at this place.
fn fails(plan: ControllerPlan, fault: PlantFault, part: Part, at: [u32; 4]) -> bool {
    match plan.check() {
        Ok(()) => false,
        Err((first, place)) => first == fault && place == Place { part, at },
    }
}

fn passes(plan: ControllerPlan) -> bool {
    plan.check().is_ok()
}

/// The fault of a network of one cell.
fn cell_fault(alloc: Global, row: u8, element: Element) -> Result<u8, AllocError> {
    network_fault(alloc, &[cell(row, 1, element)], &[])
}

#[test]
fn cells_are_tested_by_themselves(rt: HostRuntime) -> Result<(), AllocError> {
    let alloc = rt.alloc();
    let faults = [
        cell_fault(alloc, 8, Element::Wire)?,
        cell_fault(alloc, 1, Element::Skip(Operand::Const(10_000)))?,
        cell_fault(alloc, 1, Element::Coil(register(1)))?,
        cell_fault(alloc, 1, Element::Coil(coil(17)))?,
        cell_fault(alloc, 1, Element::Coil(coil(16)))?,
    ];
    assert_eq!(rt; faults, [6, 3, 5, 5, 0]);
    Ok(())
}

#[test]
fn cells_are_tested_beside_each_other(rt: HostRuntime) -> Result<(), AllocError> {
    let alloc = rt.alloc();
    let wire = cell(2, 1, Element::Wire);
    let right = cell(1, 2, Element::Wire);
    let left = cell(1, 1, Element::Coil(coil(1)));
    let faults = [
        network_fault(alloc, &[wire, cell(1, 1, message())], &[])?,
        network_fault(alloc, &[cell(6, 1, message())], &[])?,
        network_fault(alloc, &[right, left], &[])?,
        network_fault(alloc, &[cell(2, 1, Element::Label(1))], &[])?,
    ];
    assert_eq!(rt; faults, [PlantFault::BadShape.number(); 4]);
    Ok(())
}

#[test]
fn shorts_are_tested(rt: HostRuntime) -> Result<(), AllocError> {
    let alloc = rt.alloc();
    let low = Short { row: 7, column: 1 };
    let short = Short { row: 6, column: 11 };
    let faults = [
        network_fault(alloc, &[], &[low])?,
        network_fault(alloc, &[], &[short, short])?,
        network_fault(alloc, &[], &[short])?,
    ];
    assert_eq!(rt; faults, [6, 7, 0]);
    Ok(())
}

#[test]
fn shorts_stand_behind_all_cells(rt: HostRuntime) -> Result<(), AllocError> {
    let alloc = rt.alloc();
    let low = Short { row: 7, column: 1 };
    let short = Short { row: 6, column: 11 };
    let made = segment(alloc, &[cell(1, 1, Element::Wire)], &[short, low], 1);
    let made = plan(alloc, only(alloc, made)?);
    assert!(rt; fails(made, PlantFault::BadCell, Part::Cell, [1, 1, 1, 3]));
    Ok(())
}

#[test]
fn tables_are_tested(rt: HostRuntime) {
    let alloc = rt.alloc();
    let at = [1, 0, 0, 0];
    let mut odd = bare(alloc);
    odd.coils = 8;
    let mut far = bare(alloc);
    far.coils = 8;
    far.node = 65;
    let found = [
        passes(bare(alloc)),
        fails(odd, PlantFault::BadValue, Part::Controller, at),
        fails(far, PlantFault::BadNode, Part::Controller, at),
    ];
    assert_eq!(rt; found, [true; 3]);
}

#[test]
fn panels_are_tested(rt: HostRuntime) -> Result<(), AllocError> {
    let alloc = rt.alloc();
    let outside = with_panel(alloc, &[coil(16), coil(17)])?;
    assert!(rt; fails(outside, PlantFault::BadRef, Part::Panel, [1, 2, 0, 0]));
    let long = with_panel(alloc, &[coil(1); 65])?;
    assert!(rt; fails(long, PlantFault::TooLarge, Part::Controller, [1, 0, 0, 0]));
    Ok(())
}

#[test]
fn coils_and_labels_stand_once(rt: HostRuntime) -> Result<(), AllocError> {
    let alloc = rt.alloc();
    let coils = [
        cell(1, 11, Element::Coil(coil(1))),
        cell(2, 11, Element::Latch(coil(1))),
    ];
    let label = cell(1, 1, Element::Label(7));
    let again = plan(alloc, segments(alloc, &coils)?);
    assert!(rt; fails(again, PlantFault::CoilTwice, Part::Cell, [1, 2, 1, 1]));
    assert!(rt; passes(plan(alloc, segments(alloc, &[label])?)));
    let stray = plan(alloc, segments(alloc, &[label; 2])?);
    assert!(rt; fails(stray, PlantFault::BadShape, Part::Cell, [1, 1, 1, 1]));
    Ok(())
}

/// A plan of one segment whose networks have one cell each, so many times.
fn repeated(alloc: Global, element: Element, times: usize) -> Result<ControllerPlan, AllocError> {
    let made = segment(alloc, &[cell(1, 1, element)], &[], times);
    Ok(plan(alloc, only(alloc, made)?))
}

#[test]
fn networks_are_counted(rt: HostRuntime) -> Result<(), AllocError> {
    let alloc = rt.alloc();
    assert!(rt; passes(repeated(alloc, message(), 64)?));
    for (element, times, fault, part, at) in [
        (
            Element::Label(255),
            2,
            PlantFault::BadShape,
            Part::Cell,
            [1, 1, 2, 1],
        ),
        (
            message(),
            65,
            PlantFault::TooLarge,
            Part::Cell,
            [1, 1, 65, 1],
        ),
        (
            Element::Wire,
            1001,
            PlantFault::TooLarge,
            Part::Segment,
            [1, 1, 0, 0],
        ),
    ] {
        assert!(rt; fails(repeated(alloc, element, times)?, fault, part, at));
    }
    Ok(())
}

const ROW: OrderRow = OrderRow {
    segment: 1,
    control: None,
    input: None,
    output: None,
};

#[test]
fn order_rows_are_tested(rt: HostRuntime) -> Result<(), AllocError> {
    let alloc = rt.alloc();
    let wire = cell(1, 1, Element::Wire);
    let nowhere = OrderRow { segment: 2, ..ROW };
    let label = cell(1, 1, Element::Label(1));
    assert!(rt; passes(with_orders(alloc, wire, &[ROW], List::new(alloc))?));
    let made = with_orders(alloc, wire, &[ROW, nowhere], List::new(alloc))?;
    assert!(rt; fails(made, PlantFault::BadOrder, Part::Order, [1, 2, 0, 0]));
    let made = with_orders(alloc, label, &[ROW], List::new(alloc))?;
    assert!(rt; fails(made, PlantFault::BadOrder, Part::Order, [1, 1, 0, 0]));
    Ok(())
}

#[test]
fn order_rows_name_drops_and_controls(rt: HostRuntime) -> Result<(), AllocError> {
    let alloc = rt.alloc();
    let at = [1, 1, 0, 0];
    let wire = cell(1, 1, Element::Wire);
    let named = OrderRow {
        control: Some(register(1)),
        input: Some(3),
        ..ROW
    };
    let made = with_orders(alloc, wire, &[named], List::new(alloc))?;
    assert!(rt; fails(made, PlantFault::BadOrder, Part::Order, at));
    let drops = drop_3(alloc)?;
    let made = with_orders(alloc, wire, &[named], drops)?;
    assert!(rt; fails(made, PlantFault::BadRef, Part::Order, at));
    Ok(())
}

/// A power failure behind the one order row, and three dark scans after it.
const FAILURE: PowerRow = PowerRow {
    scan: 5,
    row: 1,
    dark: 3,
};

/// A failure right behind Begin, which no scan after it is dark for.
const SHORT: PowerRow = PowerRow {
    scan: 9,
    row: 0,
    dark: 0,
};

/// A plan with one order row, these panel references and these power rows.
fn with_power(
    alloc: Global,
    panel: &[Ref],
    power: &[PowerRow],
) -> Result<ControllerPlan, AllocError> {
    let panel = list_of(alloc, panel)?;
    let orders = list_of(alloc, &[ROW])?;
    let power = list_of(alloc, power)?;
    let segments = segments(alloc, &[cell(1, 1, Element::Wire)])?;
    Ok(plan_with(panel, orders, power, List::new(alloc), segments))
}

/// So many failures, one in each scan from the first on.
fn one_by_one(alloc: Global, count: u32) -> Result<ControllerPlan, AllocError> {
    let mut made = with_power(alloc, &[], &[])?;
    for scan in 1..=count {
        made.power.push(PowerRow { scan, ..SHORT })?;
    }
    Ok(made)
}

#[test]
fn power_rows_pass(rt: HostRuntime) -> Result<(), AllocError> {
    let alloc = rt.alloc();
    let first = PowerRow { scan: 1, ..SHORT };
    let last = PowerRow {
        scan: 2000,
        row: 1,
        dark: 2000,
    };
    let found = [
        passes(with_power(alloc, &[], &[])?),
        passes(with_power(alloc, &[], &[FAILURE, SHORT])?),
        passes(with_power(alloc, &[], &[first, last])?),
        passes(one_by_one(alloc, 32)?),
    ];
    assert_eq!(rt; found, [true; 4]);
    Ok(())
}

#[test]
fn power_rows_have_bounds(rt: HostRuntime) -> Result<(), AllocError> {
    let alloc = rt.alloc();
    for row in [
        PowerRow { scan: 0, ..SHORT },
        PowerRow {
            scan: 2001,
            ..SHORT
        },
        PowerRow { row: 2, ..SHORT },
        PowerRow {
            dark: 2001,
            ..SHORT
        },
    ] {
        let made = with_power(alloc, &[], &[FAILURE, row])?;
        assert!(rt; fails(made, PlantFault::BadPower, Part::Power, [1, 2, 0, 0]));
    }
    let many = one_by_one(alloc, 33)?;
    assert!(rt; fails(many, PlantFault::TooLarge, Part::Controller, [1, 0, 0, 0]));
    Ok(())
}

#[test]
fn power_rows_stand_behind_dark_scans(rt: HostRuntime) -> Result<(), AllocError> {
    let alloc = rt.alloc();
    for scan in [4, 5, 6, 8] {
        let met = PowerRow { scan, ..SHORT };
        let made = with_power(alloc, &[], &[FAILURE, met])?;
        assert!(rt; fails(made, PlantFault::BadPower, Part::Power, [1, 2, 0, 0]));
    }
    Ok(())
}

#[test]
fn power_rows_are_tested_between_orders_and_panel(rt: HostRuntime) -> Result<(), AllocError> {
    let alloc = rt.alloc();
    let outside = PowerRow { scan: 0, ..SHORT };
    let made = with_power(alloc, &[coil(17)], &[outside])?;
    assert!(rt; fails(made, PlantFault::BadPower, Part::Power, [1, 1, 0, 0]));
    let mut made = with_power(alloc, &[], &[outside])?;
    made.orders.push(OrderRow { segment: 2, ..ROW })?;
    assert!(rt; fails(made, PlantFault::BadOrder, Part::Order, [1, 2, 0, 0]));
    Ok(())
}
