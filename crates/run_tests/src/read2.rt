//! The plant READ2: node 2 reads two registers of node 5.
ghost use Rattle.std.specs.Prelude.{◌≡◌, ◌≤◌, length, IfOk, IfSome, ◌∷◌, [], map, All};
ghost use Rattle.std.specs.List.{AllByRecursion};
ghost use Rattle.traffic_cop.specs.Rows.{IsRunnablePlan};
ghost use Rattle.plant_types.specs.Plans.{IsNetPlan, PassesTests};
ghost use Rattle.joint_history.specs.Runnable.{CanRunPlant};

use crate::plans::net_of;
use plant_types::{
    Cell, ControllerPlan, Element, Fate, List, MathOp, NetPlan, Network, Operand, OrderRow, Plant,
    PowerRow, Ref, RefKind, Segment, checks_are_exact, is_net_plan,
};
use std::alloc::{AllocError, Global};

/// What a test changes of the plant `read_two`.
#[derive(Clone, Copy)]
pub struct Change {
    pub fates: &'static [Fate],
    pub rotations: u32,
    pub holds: u32,
    /// The node that is asked.
    pub to: u16,
    /// The power failures of node 5.
    pub power: &'static [PowerRow],
}

/// No change: each frame is delivered, node 5 is asked, and power never fails.
pub const AS_IT_IS: Change = Change {
    fates: &[Fate::D],
    rotations: 2,
    holds: 100_000,
    to: 5,
    power: &[],
};

/// The segment is solved, whatever is on.
const ROW: OrderRow = OrderRow {
    segment: 1,
    control: None,
    input: None,
    output: None,
};

fn register(number: u16) -> Ref {
    Ref {
        kind: RefKind::Register,
        number,
    }
}

fn coil(number: u16) -> Element {
    Element::Coil(Ref {
        kind: RefKind::Coil,
        number,
    })
}

fn cell(row: u8, column: u8, element: Element) -> Cell {
    Cell {
        row,
        column,
        element,
    }
}

/// An ADD in column 1.
fn sum(row: u8, one: u16, other: u16, low: u16) -> Cell {
    let element = Element::Math {
        op: MathOp::Add,
        top: Operand::Const(one),
        mid: Operand::Const(other),
        low: register(low),
    };
    cell(row, 1, element)
}

fn network(alloc: Global, cells: &[Cell]) -> Result<Network, AllocError> {
    Ok(Network {
        cells: List::from_vec(Vec::from_slice(alloc, cells)?),
        shorts: List::new(alloc),
    })
}

/// The networks of these cells, one after another.
fn networks(alloc: Global, each: &[&[Cell]]) -> Result<List<Network>, AllocError> {
    let mut networks = List::new(alloc);
    for cells in each {
        networks.push(network(alloc, cells)?)?;
    }
    Ok(networks)
}

fn message() -> [Cell; 5] {
    let message = Element::Mstr {
        control: register(1),
        area: register(11),
        length: 10,
    };
    [
        cell(1, 1, Element::Wire),
        cell(1, 2, message),
        cell(1, 3, coil(1)),
        cell(2, 3, coil(2)),
        cell(3, 3, coil(3)),
    ]
}

/// What node 2 solves.
fn asking(alloc: Global, to: u16) -> Result<List<Network>, AllocError> {
    let first = [sum(1, 2, 0, 1), sum(4, 2, 0, 3)];
    let second = [sum(1, 1, 0, 4), sum(4, to, 0, 5)];
    let third = message();
    networks(
        alloc,
        &[first.as_slice(), second.as_slice(), third.as_slice()],
    )
}

/// What node 5 solves.
fn asked(alloc: Global) -> Result<List<Network>, AllocError> {
    let only = [sum(1, 41, 1, 1), sum(4, 43, 0, 2)];
    networks(alloc, &[only.as_slice()])
}

fn one_row(alloc: Global) -> Result<List<OrderRow>, AllocError>
    ensures { IfOk result (λ rows. rows ≡ ROW ∷ []) }
{
    let mut rows = List::new(alloc);
    rows.push(ROW)?;
    Ok(rows)
}

fn one_segment(alloc: Global, networks: List<Network>) -> Result<List<Segment>, AllocError>
    ensures { IfOk result (λ segments. length segments ≡ 1) }
{
    let mut segments = List::new(alloc);
    segments.push(Segment { networks })?;
    Ok(segments)
}

/// The plan, if it passes its tests.
fn checked(plan: ControllerPlan) -> Option<ControllerPlan>
    requires rows { AllByRecursion (λ row. row ≡ ROW) plan.orders }
    requires few { length plan.orders ≤ 3 }
    requires segment { length plan.segments ≡ 1 }
    ensures runs { IfSome result IsRunnablePlan }
    ensures passes { IfSome result PassesTests }
    ensures node { IfSome result (λ checked. checked.node ≡ plan.node) }
    ensures network { IfSome result (λ checked. checked.network ≡ plan.network) }
{
    checks_are_exact();
    match plan.check() {
        Ok(()) => Some(plan),
        Err(_) => None,
    }
}

fn controller(
    alloc: Global,
    node: u8,
    registers: u16,
    networks: List<Network>,
    power: &[PowerRow],
) -> Result<Option<ControllerPlan>, AllocError>
    ensures runs { IfOk result (λ plan. IfSome plan IsRunnablePlan) }
    ensures passes { IfOk result (λ plan. IfSome plan PassesTests) }
    ensures node { IfOk result (λ plan. IfSome plan (λ plan. plan.node ≡ node)) }
    ensures network { IfOk result (λ plan. IfSome plan (λ plan. plan.network ≡ 0)) }
{
    Ok(checked(ControllerPlan {
        node,
        network: 0,
        coils: 16,
        inputs: 0,
        input_registers: 0,
        registers,
        panel: List::new(alloc),
        orders: one_row(alloc)?,
        power: List::from_vec(Vec::from_slice(alloc, power)?),
        drops: List::new(alloc),
        segments: one_segment(alloc, networks)?,
    }))
}

fn one_plan(alloc: Global, plan: Option<ControllerPlan>) -> Result<List<ControllerPlan>, AllocError>
    requires runs { IfSome plan IsRunnablePlan }
    requires passes { IfSome plan PassesTests }
    requires node { IfSome plan (λ plan. plan.node ≡ 2) }
    requires network { IfSome plan (λ plan. plan.network ≡ 0) }
    ensures runs { IfOk result (All IsRunnablePlan) }
    ensures passes { IfOk result (All PassesTests) }
    ensures nodes { IfOk result (λ plans. map (λ plan. plan.node) plans ≡ 2 ∷ []) }
    ensures there { IfOk result (All (λ plan. plan.network ≡ 0)) }
{
    let mut plans = List::new(alloc);
    match plan {
        Some(plan) => plans.push(plan)?,
        None => return Err(AllocError),
    }
    Ok(plans)
}

fn two_plans(
    mut plans: List<ControllerPlan>,
    plan: Option<ControllerPlan>,
) -> Result<List<ControllerPlan>, AllocError>
    requires all_run { All IsRunnablePlan plans }
    requires all_pass { All PassesTests plans }
    requires nodes { map (λ plan. plan.node) plans ≡ 2 ∷ [] }
    requires all_there { All (λ plan. plan.network ≡ 0) plans }
    requires runs { IfSome plan IsRunnablePlan }
    requires passes { IfSome plan PassesTests }
    requires node { IfSome plan (λ plan. plan.node ≡ 5) }
    requires network { IfSome plan (λ plan. plan.network ≡ 0) }
    ensures runs { IfOk result (All IsRunnablePlan) }
    ensures passes { IfOk result (All PassesTests) }
    ensures nodes { IfOk result (λ plans. map (λ plan. plan.node) plans ≡ 2 ∷ 5 ∷ []) }
    ensures there { IfOk result (All (λ plan. plan.network ≡ 0)) }
{
    match plan {
        Some(plan) => plans.push(plan)?,
        None => return Err(AllocError),
    }
    Ok(plans)
}

fn controllers(alloc: Global, change: Change) -> Result<List<ControllerPlan>, AllocError>
    ensures runs { IfOk result (All IsRunnablePlan) }
    ensures passes { IfOk result (All PassesTests) }
    ensures nodes { IfOk result (λ plans. map (λ plan. plan.node) plans ≡ 2 ∷ 5 ∷ []) }
    ensures there { IfOk result (All (λ plan. plan.network ≡ 0)) }
{
    let two = controller(alloc, 2, 20, asking(alloc, change.to)?, &[])?;
    let plans = one_plan(alloc, two)?;
    let five = controller(alloc, 5, 4, asked(alloc)?, change.power)?;
    two_plans(plans, five)
}

fn net(alloc: Global, change: Change) -> Result<NetPlan, AllocError>
    ensures sound { IfOk result IsNetPlan }
    ensures members { IfOk result (λ net. net.members ≡ 2 ∷ 5 ∷ []) }
    ensures alone { IfOk result (λ net. net.number ≡ 0) }
    ensures no_bridge { IfOk result (λ net. net.bridges ≡ []) }
{
    let net = net_of(alloc, &[2, 5], change.fates, change.rotations, change.holds)?;
    if !is_net_plan(&net) {
        return Err(AllocError);
    }
    Ok(net)
}

fn plant_of(
    alloc: Global,
    net: NetPlan,
    controllers: List<ControllerPlan>,
) -> Result<Plant, AllocError>
    requires net { IsNetPlan net }
    requires members { net.members ≡ 2 ∷ 5 ∷ [] }
    requires alone { net.number ≡ 0 }
    requires no_bridge { net.bridges ≡ [] }
    requires runs { All IsRunnablePlan controllers }
    requires passes { All PassesTests controllers }
    requires nodes { map (λ plan. plan.node) controllers ≡ 2 ∷ 5 ∷ [] }
    requires there { All (λ plan. plan.network ≡ 0) controllers }
    ensures runs { IfOk result CanRunPlant }
{
    let mut nets = List::new(alloc);
    nets.push(net)?;
    Ok(Plant {
        scan_time: 10,
        watchdog: 500,
        nets,
        controllers,
        hosts: List::new(alloc),
        bridges: List::new(alloc),
    })
}

/// The plant `read_two` with a change.
pub fn read2(alloc: Global, change: Change) -> Result<Plant, AllocError>
    ensures runs { IfOk result CanRunPlant }
{
    let net = net(alloc, change)?;
    let controllers = controllers(alloc, change)?;
    plant_of(alloc, net, controllers)
}
