//! Runs of two networks in which a host on the one asks a controller on the other, over a bridge,
//! and what one change makes of them.
ghost use Rattle.std.specs.Prelude.{◌≡◌, ◌∷◌, [], IfOk};
ghost use Rattle.judge_tests.specs.Bridged.{bridge_plan, far_controller, far_net, near_host};
ghost use Rattle.judge_tests.specs.Bridged.{near_net};
ghost use Rattle.joint_law.specs.Spots.{CanBeJudged};

use crate::ends::{ONWARD, accept, back, finish, forward, reply, request};
use crate::histories::{CALL, REPLY, pass};
use crate::plans::{REQUEST, controller_of, host_of, net_of, pdu_of};
use bridge_relay::BridgeEntry;
use controller_core::Entry;
use host_port::{HostEntry, HostResult};
use joint_history::{BridgeLog, ControllerLog, HostLog, Joint, RingLog};
use joint_law::{Spot, Verdict, judge};
use plant_types::{BridgePlan, ControllerPlan, HostPlan, List, NetPlan, Plant, Route};
use ring_core::{Heard, LeaveCause, RingEntry};
use std::alloc::{AllocError, Global};

/// What is not as it should be.
#[derive(Clone, Copy, PartialEq, Eq)]
enum Change {
    Nothing,
    /// The far end says done before it sends the request on, and takes it back.
    DoneOnce,
    /// It says done throughout, though it sends the request on.
    DoneThroughout,
    /// The near end leaves its ring, but not its bridge's list.
    NoGone,
    /// The call by which the far end sends the request on has not ended yet.
    NoFinish,
    NoForward,
    /// The controller's scan has not ended yet.
    NoEnd,
    /// The far ring begins with its last member.
    AnotherHolder,
}

fn nets(alloc: Global) -> Result<List<NetPlan>, AllocError>
    ensures { IfOk result (λ nets. nets ≡ near_net ∷ far_net ∷ []) }
{
    let mut nets = List::new(alloc);
    nets.push(net_of(alloc, 1, &[2, 3], &[3])?)?;
    nets.push(net_of(alloc, 2, &[1, 5], &[1])?)?;
    Ok(nets)
}

fn controllers(alloc: Global) -> Result<List<ControllerPlan>, AllocError>
    ensures { IfOk result (λ plans. plans ≡ far_controller ∷ []) }
{
    let mut plans = List::new(alloc);
    plans.push(controller_of(alloc, 5, 2, List::new(alloc)))?;
    Ok(plans)
}

fn hosts(alloc: Global) -> Result<List<HostPlan>, AllocError>
    ensures { IfOk result (λ plans. plans ≡ near_host ∷ []) }
{
    let mut plans = List::new(alloc);
    plans.push(host_of(alloc, 1, Route::of(&[3, 5]))?)?;
    Ok(plans)
}

fn bridges(alloc: Global) -> Result<List<BridgePlan>, AllocError>
    ensures { IfOk result (λ plans. plans ≡ bridge_plan ∷ []) }
{
    let mut plans = List::new(alloc);
    plans.push(BridgePlan {
        left_net: 1,
        left: 3,
        right_net: 2,
        right: 1,
    })?;
    Ok(plans)
}

fn plant(alloc: Global) -> Result<Plant, AllocError>
    ensures { IfOk result (λ plant. CanBeJudged plant 1) }
{
    Ok(Plant {
        scan_time: 10,
        watchdog: 500,
        nets: nets(alloc)?,
        controllers: controllers(alloc)?,
        hosts: hosts(alloc)?,
        bridges: bridges(alloc)?,
    })
}

/// A scan, and the request that is answered in it.
fn scan(alloc: Global, change: Change) -> Result<List<Entry>, AllocError> {
    let mut entries = List::new(alloc);
    entries.push(Entry::Begin)?;
    entries.push(Entry::Peer {
        id: ONWARD,
        request: pdu_of(alloc, &REQUEST)?,
        reply: pdu_of(alloc, &REPLY)?,
    })?;
    if change != Change::NoEnd {
        entries.push(Entry::End)?;
    }
    Ok(entries)
}

/// The request, and what it came to.
fn asking(alloc: Global, change: Change) -> Result<List<HostEntry>, AllocError> {
    let mut entries = List::new(alloc);
    entries.push(HostEntry::Ask {
        id: CALL,
        route: Route::of(&[3, 5]),
        pdu: pdu_of(alloc, &REQUEST)?,
    })?;
    if change != Change::NoFinish {
        let result = HostResult::Reply(pdu_of(alloc, &REPLY)?);
        entries.push(HostEntry::Answer { id: CALL, result })?;
    }
    Ok(entries)
}

/// What the ends of the bridge made of it.
fn relaying(alloc: Global, change: Change) -> Result<List<BridgeEntry>, AllocError> {
    let mut entries = List::new(alloc);
    entries.push(accept(alloc)?)?;
    if change != Change::NoForward {
        entries.push(forward(alloc)?)?;
    }
    if change == Change::NoFinish {
        return Ok(entries);
    }
    entries.push(finish(alloc)?)?;
    entries.push(back(alloc)?)?;
    if change != Change::NoGone {
        entries.push(BridgeEntry::Gone { side: 3 })?;
    }
    entries.push(BridgeEntry::Gone { side: 1 })?;
    Ok(entries)
}

/// A node leaves as all was done.
fn push_leave(ring: &mut List<RingEntry>, node: u8) -> Result<(), AllocError> {
    let cause = LeaveCause::Ended;
    ring.push(RingEntry::Leave { node, cause })
}

/// The near ring: the host asks, and the end of the bridge takes it.
fn push_near_request(alloc: Global, ring: &mut List<RingEntry>) -> Result<(), AllocError> {
    let heard = Heard::Acked;
    let rest = Route::of(&[5]);
    let frame = request(alloc, CALL, 3, rest)?;
    ring.push(RingEntry::Post { node: 2, frame })?;
    ring.push(RingEntry::Send { node: 2, heard })?;
    ring.push(pass(alloc, 2, false)?)?;
    let frame = request(alloc, CALL, 3, rest)?;
    ring.push(RingEntry::Take { node: 3, frame })?;
    ring.push(pass(alloc, 3, false)?)
}

/// The end gives the reply back, and both leave.
fn push_near_reply(alloc: Global, ring: &mut List<RingEntry>) -> Result<(), AllocError> {
    let heard = Heard::Acked;
    ring.push(pass(alloc, 2, false)?)?;
    let frame = reply(alloc, CALL)?;
    ring.push(RingEntry::Post { node: 3, frame })?;
    ring.push(RingEntry::Send { node: 3, heard })?;
    ring.push(pass(alloc, 3, false)?)?;
    let frame = reply(alloc, CALL)?;
    ring.push(RingEntry::Take { node: 2, frame })?;
    ring.push(pass(alloc, 2, true)?)?;
    ring.push(pass(alloc, 3, false)?)?;
    push_leave(ring, 2)?;
    ring.push(pass(alloc, 3, true)?)?;
    push_leave(ring, 3)
}

fn near_ring(alloc: Global, change: Change) -> Result<List<RingEntry>, AllocError> {
    let mut ring = List::new(alloc);
    push_near_request(alloc, &mut ring)?;
    if change != Change::NoFinish {
        push_near_reply(alloc, &mut ring)?;
    }
    Ok(ring)
}

/// The far ring: the end of the bridge sends the request on, and the controller replies.
fn push_far_request(
    alloc: Global,
    ring: &mut List<RingEntry>,
    change: Change,
) -> Result<(), AllocError> {
    let heard = Heard::Acked;
    let rest = Route::of(&[]);
    let first = if change == Change::AnotherHolder {
        5
    } else {
        1
    };
    let done = change == Change::DoneOnce || change == Change::DoneThroughout;
    ring.push(pass(alloc, first, done)?)?;
    ring.push(pass(alloc, 5, false)?)?;
    let frame = request(alloc, ONWARD, 5, rest)?;
    ring.push(RingEntry::Post { node: 1, frame })?;
    ring.push(RingEntry::Send { node: 1, heard })?;
    ring.push(pass(alloc, 1, change == Change::DoneThroughout)?)?;
    let frame = request(alloc, ONWARD, 5, rest)?;
    ring.push(RingEntry::Take { node: 5, frame })?;
    let frame = reply(alloc, ONWARD)?;
    ring.push(RingEntry::Post { node: 5, frame })?;
    ring.push(RingEntry::Send { node: 5, heard })?;
    ring.push(pass(alloc, 5, true)?)
}

/// The end has the reply, and both leave.
fn push_far_reply(
    alloc: Global,
    ring: &mut List<RingEntry>,
    change: Change,
) -> Result<(), AllocError> {
    let frame = reply(alloc, ONWARD)?;
    ring.push(RingEntry::Take { node: 1, frame })?;
    ring.push(pass(alloc, 1, change == Change::DoneThroughout)?)?;
    push_leave(ring, 5)?;
    ring.push(pass(alloc, 1, true)?)?;
    push_leave(ring, 1)
}

fn far_ring(alloc: Global, change: Change) -> Result<List<RingEntry>, AllocError> {
    let mut ring = List::new(alloc);
    push_far_request(alloc, &mut ring, change)?;
    if change != Change::NoFinish {
        push_far_reply(alloc, &mut ring, change)?;
    }
    Ok(ring)
}

fn bridge_logs(alloc: Global, change: Change) -> Result<List<BridgeLog>, AllocError> {
    let (left, right) = (3, 1);
    let entries = relaying(alloc, change)?;
    let mut logs = List::new(alloc);
    logs.push(BridgeLog {
        left,
        right,
        entries,
    })?;
    Ok(logs)
}

fn ring_logs(alloc: Global, change: Change) -> Result<List<RingLog>, AllocError> {
    let mut logs = List::new(alloc);
    let (network, entries) = (1, near_ring(alloc, change)?);
    logs.push(RingLog { network, entries })?;
    let (network, entries) = (2, far_ring(alloc, change)?);
    logs.push(RingLog { network, entries })?;
    Ok(logs)
}

fn joint(alloc: Global, change: Change) -> Result<Joint, AllocError> {
    let mut controllers = List::new(alloc);
    let entries = scan(alloc, change)?;
    controllers.push(ControllerLog { node: 5, entries })?;
    let mut hosts = List::new(alloc);
    let entries = asking(alloc, change)?;
    hosts.push(HostLog { node: 2, entries })?;
    Ok(Joint {
        controllers,
        hosts,
        bridges: bridge_logs(alloc, change)?,
        rings: ring_logs(alloc, change)?,
    })
}

fn judged(alloc: Global, change: Change) -> Result<Verdict, AllocError> {
    let plant = plant(alloc)?;
    let joint = joint(alloc, change)?;
    judge(alloc, &plant, &joint, 1)
}

#[test]
fn a_run_over_a_bridge_is_legal(rt: HostRuntime) -> Result<(), AllocError> {
    let verdict = judged(rt.alloc(), Change::Nothing)?;
    assert!(rt; verdict == Verdict::Legal);
    Ok(())
}

/// Only the row of done Passes that stands last has to be quiet.
#[test]
fn an_end_may_have_been_done_before(rt: HostRuntime) -> Result<(), AllocError> {
    let verdict = judged(rt.alloc(), Change::DoneOnce)?;
    assert!(rt; verdict == Verdict::Legal);
    Ok(())
}

/// What each change comes to.
const SPOTS: [(Change, Spot); 6] = [
    (Change::DoneThroughout, Spot::Incomplete(1)),
    (Change::NoGone, Spot::Incomplete(3)),
    (Change::NoFinish, Spot::Incomplete(1)),
    (Change::NoForward, Spot::Bridge { left: 3, entry: 2 }),
    (Change::NoEnd, Spot::Incomplete(5)),
    (
        Change::AnotherHolder,
        Spot::Ring {
            network: 2,
            entry: 1,
        },
    ),
];

#[test]
fn each_change_at_a_bridge_has_its_spot(rt: HostRuntime) -> Result<(), AllocError> {
    for (change, spot) in SPOTS {
        let verdict = judged(rt.alloc(), change)?;
        assert!(rt; verdict == Verdict::Illegal(spot));
    }
    Ok(())
}
