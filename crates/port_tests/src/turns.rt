//! Turns of a controller that reads two registers of node 5, with ample memory.
ghost use Rattle.std.specs.Prelude.{◌≡◌, ◌∷◌, ◌<◌, [], All, filter, length, IfOk, IfSome};
ghost use Rattle.traffic_cop.specs.Rows.{IsRunnablePlan};
ghost use Rattle.ring_core.specs.Machine.{addresses, ring_after};
ghost use Rattle.joint_history.specs.Reading.{is_ours};
ghost use Rattle.port_tests.specs.TurnTests.{HasFirst};

use crate::plans::net_of;
use comm_port::CommWorker;
use controller_core::{Call, CallKind, Controller, Entry};
use mstr_block::{CallId, MstrResult};
use plant_types::{
    Cell, ControllerPlan, Element, Fate, List, MathOp, NetPlan, Network, Operand, OrderRow,
    PowerRow, Ref, RefKind, Segment, checks_are_exact,
};
use ring_core::{Heard, LeaveCause, Ring, RingEntry, is_net};
use std::alloc::{AllocError, Global};
use std::process::Abort;
use std::test::Fail;

const ROW: OrderRow = OrderRow {
    segment: 1,
    control: None,
    input: None,
    output: None,
};

/// The holding register of this number.
const fn register(number: u16) -> Ref {
    Ref {
        kind: RefKind::Register,
        number,
    }
}

/// An element at a place.
const fn cell(row: u8, column: u8, element: Element) -> Cell {
    Cell {
        row,
        column,
        element,
    }
}

/// A number that an ADD in column 1 puts into a register.
const fn put(row: u8, number: u16, low: u16) -> Cell {
    let element = Element::Math {
        op: MathOp::Add,
        top: Operand::Const(number),
        mid: Operand::Const(0),
        low: register(low),
    };
    cell(row, 1, element)
}

/// A network of these cells, without shorts.
fn network(alloc: Global, cells: &[Cell]) -> Result<Network, AllocError> {
    Ok(Network {
        cells: List::from_vec(Vec::from_slice(alloc, cells)?),
        shorts: List::new(alloc),
    })
}

/// Two registers of node 5 from 40001 on, as long as the block is solved.
fn networks(alloc: Global) -> Result<List<Network>, AllocError> {
    let message = Element::Mstr {
        control: register(1),
        area: register(11),
        length: 10,
    };
    let mut networks = List::new(alloc);
    for cells in [
        [put(1, 2, 1), put(4, 2, 3)],
        [put(1, 1, 4), put(4, 5, 5)],
        [cell(1, 1, Element::Wire), cell(1, 2, message)],
    ] {
        networks.push(network(alloc, &cells)?)?;
    }
    Ok(networks)
}

/// The order of solve: the one segment, always.
fn one_row(alloc: Global) -> Result<List<OrderRow>, AllocError>
    ensures { IfOk result (λ rows. rows ≡ ROW ∷ []) }
{
    let mut rows = List::new(alloc);
    rows.push(ROW)?;
    Ok(rows)
}

/// The one segment, of these networks.
fn one_segment(alloc: Global, networks: List<Network>) -> Result<List<Segment>, AllocError>
    ensures { IfOk result (λ segments. length segments ≡ 1) }
{
    let mut segments = List::new(alloc);
    segments.push(Segment { networks })?;
    Ok(segments)
}

/// The plan, if it passes its tests.
fn checked(plan: ControllerPlan) -> Option<ControllerPlan>
    requires rows { plan.orders ≡ ROW ∷ [] }
    requires segment { length plan.segments ≡ 1 }
    ensures runs { IfSome result IsRunnablePlan }
    ensures node { IfSome result (λ checked. checked.node ≡ plan.node) }
{
    checks_are_exact();
    match plan.check() {
        Ok(()) => Some(plan),
        Err(_) => None,
    }
}

/// The plan of a node with these networks, whose power fails so, if it passes its tests.
fn plan_of(
    alloc: Global,
    node: u8,
    networks: List<Network>,
    power: &[PowerRow],
) -> Result<Option<ControllerPlan>, AllocError>
    ensures runs { IfOk result (λ plan. IfSome plan IsRunnablePlan) }
    ensures node { IfOk result (λ plan. IfSome plan (λ plan. plan.node ≡ node)) }
{
    let orders = one_row(alloc)?;
    let segments = one_segment(alloc, networks)?;
    Ok(checked(ControllerPlan {
        node,
        network: 0,
        coils: 16,
        inputs: 0,
        input_registers: 0,
        registers: 20,
        panel: List::new(alloc),
        orders,
        power: List::from_vec(Vec::from_slice(alloc, power)?),
        drops: List::new(alloc),
        segments,
    }))
}

/// The controller of a node with these networks, whose power fails so. It has not begun.
pub(crate) fn controller_of(
    alloc: Global,
    node: u8,
    networks: List<Network>,
    power: &[PowerRow],
) -> Result<Controller, Fail>
    ensures node { IfOk result (λ controller. controller.fixed.plan.node ≡ node) }
    ensures history { IfOk result (λ controller. controller.history ≡ []) }
{
    match plan_of(alloc, node, networks, power)? {
        Some(plan) => Ok(Controller::new(alloc, &plan, 10, 500, 4)?),
        None => Err("the plan passes no test".into()),
    }
}

/// The controller of node 2 that reads node 5. It has not begun.
pub(crate) fn reader(alloc: Global, power: &[PowerRow]) -> Result<Controller, Fail>
    ensures node { IfOk result (λ controller. controller.fixed.plan.node ≡ 2) }
    ensures history { IfOk result (λ controller. controller.history ≡ []) }
{
    let networks = networks(alloc)?;
    controller_of(alloc, 2, networks, power)
}

/// A whole scan: Begin, the row, End.
fn scan(controller: &mut Controller) -> Result<(), AllocError>
    requires { filter is_ours controller.old.history ≡ [] }
    ensures node { controller.new.fixed ≡ controller.old.fixed }
    ensures events { filter is_ours controller.new.history ≡ [] }
{
    for _ in 0..3 {
        controller.reserve_scan()?;
        let _ = controller.step();
    }
    Ok(())
}

/// The net of node 2 with others, all at these fates.
fn reader_net(
    alloc: Global,
    others: &[u8],
    fates: &[Fate],
    holds: u32,
) -> Result<NetPlan, AllocError>
    ensures members { IfOk result (λ net. HasFirst 2 net.members) }
    ensures alone { IfOk result (λ net. net.bridges ≡ []) }
    ensures answer { IfOk result (λ net. net.answer ≡ 20) }
{
    let mut members = Vec::new(alloc);
    members.push(2)?;
    members.extend_from_slice(others)?;
    let net = net_of(alloc, members.as_slice(), fates, 20, holds)?;
    Ok(net)
}

/// One turn of a worker that begins.
fn turn_on(
    alloc: Global,
    net: &NetPlan,
    controller: &mut Controller,
    ring: &mut Ring,
) -> Result<(), AllocError>
    requires node { controller.old.fixed.plan.node ≡ 2 }
    requires events { filter is_ours controller.old.history ≡ [] }
    requires first { HasFirst 2 net.now.members }
    requires alone { net.now.bridges ≡ [] }
    requires answer { net.now.answer ≡ 20 }
    requires ring { ring.old.net ≡ net.now }
    requires empty { ring.old.history ≡ [] }
    requires holder { (ring_after ring.old.net []).holder ≡ 2 }
    requires members { All (λ m. m < addresses) net.now.members }
{
    let mut worker = CommWorker::new(alloc, 2, true)?;
    let _end = worker.hold_turn(controller, ring)?;
    Ok(())
}

/// What a new ring notes of it.
fn turn_at(
    rt: &impl Abort,
    alloc: Global,
    net: &NetPlan,
    controller: &mut Controller,
) -> Result<List<RingEntry>, AllocError>
    requires node { controller.old.fixed.plan.node ≡ 2 }
    requires events { filter is_ours controller.old.history ≡ [] }
    requires first { HasFirst 2 net.now.members }
    requires alone { net.now.bridges ≡ [] }
    requires answer { net.now.answer ≡ 20 }
{
    let can = is_net(net);
    assert!(rt; can);
    let mut ring = Ring::new(alloc, net)?;
    let holder = ring.holder();
    assert!(rt; holder == 2);
    let turned = turn_on(alloc, net, controller, &mut ring);
    let entries = ring.into_history();
    turned?;
    Ok(entries)
}

/// What a new ring notes of the first turn, which comes after one scan.
fn scan_and_turn(
    rt: &impl Abort,
    alloc: Global,
    net: &NetPlan,
    controller: &mut Controller,
) -> Result<List<RingEntry>, AllocError>
    requires node { controller.old.fixed.plan.node ≡ 2 }
    requires events { filter is_ours controller.old.history ≡ [] }
    requires first { HasFirst 2 net.now.members }
    requires alone { net.now.bridges ≡ [] }
    requires answer { net.now.answer ≡ 20 }
{
    scan(controller)?;
    turn_at(rt, alloc, net, controller)
}

/// What a controller and the ring noted.
#[derive(Drop)]
struct Noted {
    controller: List<Entry>,
    ring: List<RingEntry>,
}

/// What the reader and the ring of a net noted in the first turn.
fn first_turn(rt: &impl Abort, alloc: Global, net: &NetPlan) -> Result<Noted, Fail>
    requires first { HasFirst 2 net.now.members }
    requires alone { net.now.bridges ≡ [] }
    requires answer { net.now.answer ≡ 20 }
{
    let mut controller = reader(alloc, &[])?;
    let turned = scan_and_turn(rt, alloc, net, &mut controller);
    let controller = controller.into_history();
    Ok(Noted {
        controller,
        ring: turned?,
    })
}

const CALL: CallId = CallId {
    node: 2,
    path: 1,
    seq: 1,
};

/// Whether these calls are the read alone.
fn is_read(calls: &[Call]) -> bool {
    match calls {
        [call] => match &call.kind {
            CallKind::Net { route, pdu } => {
                call.id == CALL
                    && matches!(route.addresses(), [5])
                    && matches!(pdu.bytes(), [3, 0, 0, 0, 2])
            }
            _ => false,
        },
        _ => false,
    }
}

/// A letter for an event of the controller: Begin, Solve of segment 1, End, a Collect of the read
/// alone, a Finish of it with an error word; `?` for another.
fn event_letter(entry: &Entry) -> u8 {
    match entry {
        Entry::Begin => b'B',
        Entry::Solve(1) => b'S',
        Entry::End => b'E',
        Entry::Collect(calls) => {
            if is_read(calls.as_slice()) {
                b'C'
            } else {
                b'?'
            }
        }
        Entry::Finish {
            id: CALL,
            result: MstrResult::Bad(_),
        } => b'F',
        _ => b'?',
    }
}

/// A letter for an entry of node 2: a Post, a Send that was acknowledged (A) or not (s), a GiveUp
/// of the read, a Pass that says not done (n), a Leave with its Passes spent; `?` for another.
fn ring_letter(entry: &RingEntry) -> u8 {
    match entry {
        RingEntry::Post { node: 2, .. } => b'P',
        RingEntry::Send {
            node: 2,
            heard: Heard::Acked,
        } => b'A',
        RingEntry::Send {
            node: 2,
            heard: Heard::Silent,
        } => b's',
        RingEntry::GiveUp { id: CALL, .. } => b'G',
        RingEntry::Pass {
            node: 2,
            done: false,
            ..
        } => b'n',
        RingEntry::Leave {
            node: 2,
            cause: LeaveCause::Spent,
        } => b'L',
        _ => b'?',
    }
}

/// The word with which the read ended at the controller; 0 where it has not.
fn finished_with(entries: &[Entry]) -> u16 {
    let mut last = 0;
    for entry in entries {
        if let Entry::Finish {
            result: MstrResult::Bad(word),
            ..
        } = entry
        {
            last = *word;
        }
    }
    last
}

/// The word with which the ring gave the read up; 0 where it has not.
fn given_up_with(entries: &[RingEntry]) -> u16 {
    let mut last = 0;
    for entry in entries {
        if let RingEntry::GiveUp { word, .. } = entry {
            last = *word;
        }
    }
    last
}

/// Whether the events have these letters.
fn events_spell(entries: &[Entry], letters: &[u8]) -> bool {
    entries.len() == letters.len()
        && entries
            .iter()
            .zip(letters)
            .all(|(entry, letter)| event_letter(entry) == *letter)
}

/// Whether the entries have these letters.
fn entries_spell(entries: &[RingEntry], letters: &[u8]) -> bool {
    entries.len() == letters.len()
        && entries
            .iter()
            .zip(letters)
            .all(|(entry, letter)| ring_letter(entry) == *letter)
}

/// Whether both lists have these letters, and the read ended in both with this word.
fn is_told(noted: &Noted, events: &[u8], entries: &[u8], word: u16) -> bool {
    let (controller, ring) = (noted.controller.as_slice(), noted.ring.as_slice());
    events_spell(controller, events)
        && entries_spell(ring, entries)
        && finished_with(controller) == word
        && given_up_with(ring) == word
}

/// Whether the first turn on a net tells this.
fn turn_tells(
    rt: &impl Abort,
    alloc: Global,
    others: &[u8],
    fate: Fate,
    holds: u32,
    told: (&[u8], &[u8], u16),
) -> Result<bool, Fail> {
    let net = reader_net(alloc, others, &[fate], holds)?;
    let noted = first_turn(rt, alloc, &net)?;
    Ok(is_told(&noted, told.0, told.1, told.2))
}

#[test]
fn the_first_turn_is_told(rt: HostRuntime) -> Result<(), Fail> {
    let alloc = rt.alloc();
    let rows: [(&[u8], Fate, u32, (&[u8], &[u8], u16)); 4] = [
        // A turn asks and passes.
        (&[5], Fate::D, 9, (b"BSEC", b"PAn", 0)),
        // A request to nobody ends at once.
        (&[], Fate::D, 9, (b"BSECF", b"PsssGn", 0x6103)),
        // A request that is never acknowledged ends too.
        (&[5], Fate::A, 9, (b"BSECF", b"PsssGn", 0x6101)),
        // A node that leaves gives up its calls.
        (&[5], Fate::D, 0, (b"BSECF", b"PALG", 0x6103)),
    ];
    for (others, fate, holds, told) in rows {
        assert!(rt; turn_tells(&rt, alloc, others, fate, holds, told)?);
    }
    Ok(())
}
