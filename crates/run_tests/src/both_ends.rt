//! Both ends of a bridge at work, each in a thread.
ghost use Rattle.std.specs.Prelude.{◌≡◌, [], IfOk};
ghost use Rattle.std.specs.Thread.{IsSync};
ghost use Rattle.bridge_relay.specs.Legal.{IsOpenEnd};
ghost use Rattle.turn_gate.specs.Known.{HasAllBack, IsOutside, first_pass};

use bridge_port::BridgeSide;
use bridge_relay::Bridge;
use gated_sides::{BridgeCell, GatedBridge};
use mstr_block::CallId;
use plant_types::{BridgePlan, Pdu, Route};
use std::alloc::{AllocError, Global};
use std::sync::Wait;
use std::test::Fail;
use std::thread::{Threads, join_mut};
use turn_gate::{Gate, Pass};

/// A bridge with an end 9 on network 1 and an end 12 on network 2.
fn new_bridge(alloc: Global) -> Result<Bridge, AllocError>
    ensures left { IfOk result (λ bridge. bridge.plan.left ≡ 9) }
    ensures right { IfOk result (λ bridge. bridge.plan.right ≡ 12) }
    ensures unused { IfOk result (λ bridge. bridge.history ≡ []) }
{
    let plan = BridgePlan {
        left_net: 1,
        left: 9,
        right_net: 2,
        right: 12,
    };
    Bridge::new(alloc, &plan)
}

/// A read of two registers.
fn read(alloc: Global) -> Result<Pdu, Fail> {
    match Pdu::of(alloc, &[3, 0, 0, 0, 2])? {
        Some(pdu) => Ok(pdu),
        None => Err("a PDU")?,
    }
}

/// An end takes the first request of a node, to another.
fn takes<R: Wait>(side: &mut GatedBridge<'_, R>, end: u8, from: u8, to: u8, request: &Pdu) -> bool
    requires number { side.old.number ≡ end }
    requires is_open { IsOpenEnd side.old.gate.fixed side.old.seen end }
    ensures number { side.new.number ≡ side.old.number }
    ensures gate { side.new.gate ≡ side.old.gate }
{
    let id = CallId {
        node: from,
        path: 1,
        seq: 1,
    };
    side.accept(end, id, Route::of(&[to]), request).is_ok()
}

/// Each end takes a request, in a thread.
fn take_at_once<R: Threads + Wait + Sync>(
    rt: &R,
    left: &mut GatedBridge<'_, R>,
    right: &mut GatedBridge<'_, R>,
    request: &Pdu,
) -> (bool, bool)
    requires numbers { (left.old.number ≡ 9) × (right.old.number ≡ 12) }
    requires left { IsOpenEnd left.old.gate.fixed left.old.seen 9 }
    requires right { IsOpenEnd right.old.gate.fixed right.old.seen 12 }
    ensures left_number { left.new.number ≡ left.old.number }
    ensures left_gate { left.new.gate ≡ left.old.gate }
    ensures right_number { right.new.number ≡ right.old.number }
    ensures right_gate { right.new.gate ≡ right.old.gate }
{
    join_mut(
        rt,
        &mut || -> bool
            requires sync { IsSync R.row }
            requires number { left.now.number ≡ 9 }
            requires is_open { IsOpenEnd left.now.gate.fixed left.now.seen 9 }
            ensures number { left.exit.now.number ≡ left.entry.now.number }
            ensures gate { left.exit.now.gate ≡ left.entry.now.gate }
        { takes(left, 9, 2, 5, request) },
        &mut || -> bool
            requires sync { IsSync R.row }
            requires number { right.now.number ≡ 12 }
            requires is_open { IsOpenEnd right.now.gate.fixed right.now.seen 12 }
            ensures number { right.exit.now.number ≡ right.entry.now.number }
            ensures gate { right.exit.now.gate ≡ right.entry.now.gate }
        { takes(right, 12, 5, 2, request) },
    )
}

/// A side of each end over the gate takes a request; its pass comes back.
fn both_take<'x, R: Threads + Wait + Sync>(
    rt: &'x R,
    gate: &'x Gate<BridgeCell>,
    zero: Pass<BridgeCell>,
    request: &Pdu,
) -> (Pass<BridgeCell>, bool)
    requires zero { zero ≡ first_pass gate.now.name }
    requires unused { gate.now.name.opening ≡ [] }
    requires ends { (gate.now.fixed.left ≡ 9) × (gate.now.fixed.right ≡ 12) }
    ensures gate { result.0.gate ≡ gate.now.name }
    ensures outside { IsOutside result.0 }
    ensures zero { result.0.number ≡ 0 }
    ensures all_back { HasAllBack result.0 }
{
    let (zero, nine) = gate.split(zero, 9);
    let (zero, twelve) = gate.split(zero, 12);
    let mut left = GatedBridge::new(rt, gate, nine);
    let mut right = GatedBridge::new(rt, gate, twelve);
    let (one, other) = take_at_once(rt, &mut left, &mut right, request);
    let zero = gate.join(zero, left.into_pass());
    let zero = gate.join(zero, right.into_pass());
    (zero, one & other)
}

/// The node to which an end sends on.
fn sends_to(bridge: &mut Bridge, side: u8) -> Result<Option<u8>, AllocError> {
    if !bridge.is_open(side) {
        return Ok(None);
    }
    Ok(bridge.forward(side)?.map(|frame| frame.to))
}

#[test]
fn both_ends_take(rt: HostRuntime) -> Result<(), Fail> {
    let request = read(rt.alloc())?;
    let cell = BridgeCell::new(new_bridge(rt.alloc())?);
    let (gate, zero) = Gate::new(rt.alloc(), cell)?;
    let (zero, took) = both_take(&rt, &gate, zero, &request);
    let mut bridge = gate.close(zero).into_inner();
    if !took {
        return Err(AllocError)?;
    }
    assert_eq!(rt; bridge.history().len(), 2);
    assert_eq!(rt; sends_to(&mut bridge, 12)?, Some(5));
    assert_eq!(rt; sends_to(&mut bridge, 9)?, Some(2));
    Ok(())
}
