//! A request that goes on over a bridge, from a host on one network to a controller on another, and
//! what one change makes of the laws at the bridge's ends.
use crate::histories::{CALL, REPLY};
use crate::plans::{REQUEST, pdu_of};
use bridge_relay::{BridgeEntry, RelayResult};
use controller_core::Entry;
use host_port::{HostEntry, HostResult};
use joint_history::{BridgeLog, ControllerLog, HostLog, Joint, RingLog};
use joint_law::{Spot, broken_law};
use mstr_block::CallId;
use plant_types::{List, Route};
use ring_core::{Frame, FrameKind, LeaveCause, RingEntry};
use std::alloc::{AllocError, Global};

/// What is not as it should be.
#[derive(Clone, Copy, PartialEq, Eq)]
enum Fault {
    Nothing,
    NoAccept,
    NoForward,
    NoBack,
    NoFinish,
    /// The near end goes down, though a bridge's power never fails.
    Down,
    /// What the far ring noted is missing.
    NoFarRing,
}

/// The call by which the far end sends the request on.
pub(crate) const ONWARD: CallId = CallId {
    node: 1,
    path: 1,
    seq: 1,
};

/// The host at 2, on the near network.
fn hosts(alloc: Global) -> Result<List<HostLog>, AllocError> {
    let mut entries = List::new(alloc);
    entries.push(HostEntry::Ask {
        id: CALL,
        route: Route::of(&[3, 5]),
        pdu: pdu_of(alloc, &REQUEST)?,
    })?;
    let result = HostResult::Reply(pdu_of(alloc, &REPLY)?);
    entries.push(HostEntry::Answer { id: CALL, result })?;
    let mut logs = List::new(alloc);
    logs.push(HostLog { node: 2, entries })?;
    Ok(logs)
}

/// The controller at 5, on the far network.
fn controllers(alloc: Global) -> Result<List<ControllerLog>, AllocError> {
    let mut entries = List::new(alloc);
    entries.push(Entry::Peer {
        id: ONWARD,
        request: pdu_of(alloc, &REQUEST)?,
        reply: pdu_of(alloc, &REPLY)?,
    })?;
    let mut logs = List::new(alloc);
    logs.push(ControllerLog { node: 5, entries })?;
    Ok(logs)
}

pub(crate) fn accept(alloc: Global) -> Result<BridgeEntry, AllocError> {
    Ok(BridgeEntry::Accept {
        side: 3,
        id: CALL,
        route: Route::of(&[5]),
        request: pdu_of(alloc, &REQUEST)?,
    })
}

pub(crate) fn forward(alloc: Global) -> Result<BridgeEntry, AllocError> {
    Ok(BridgeEntry::Forward {
        side: 1,
        old: CALL,
        id: ONWARD,
        route: Route::of(&[5]),
        request: pdu_of(alloc, &REQUEST)?,
    })
}

pub(crate) fn finish(alloc: Global) -> Result<BridgeEntry, AllocError> {
    Ok(BridgeEntry::Finish {
        side: 1,
        id: ONWARD,
        result: RelayResult::Reply(pdu_of(alloc, &REPLY)?),
    })
}

pub(crate) fn back(alloc: Global) -> Result<BridgeEntry, AllocError> {
    Ok(BridgeEntry::Back {
        side: 3,
        id: CALL,
        reply: pdu_of(alloc, &REPLY)?,
    })
}

/// The bridge from 3 to 1.
fn bridges(alloc: Global, fault: Fault) -> Result<List<BridgeLog>, AllocError> {
    let mut entries = List::new(alloc);
    if fault != Fault::NoAccept {
        entries.push(accept(alloc)?)?;
    }
    if fault != Fault::NoForward {
        entries.push(forward(alloc)?)?;
    }
    if fault != Fault::NoFinish {
        entries.push(finish(alloc)?)?;
    }
    if fault != Fault::NoBack {
        entries.push(back(alloc)?)?;
    }
    let (left, right) = (3, 1);
    let mut logs = List::new(alloc);
    logs.push(BridgeLog {
        left,
        right,
        entries,
    })?;
    Ok(logs)
}

pub(crate) fn request(alloc: Global, id: CallId, to: u8, rest: Route) -> Result<Frame, AllocError> {
    Ok(Frame {
        kind: FrameKind::Request,
        to,
        rest,
        id,
        pdu: pdu_of(alloc, &REQUEST)?,
    })
}

pub(crate) fn reply(alloc: Global, id: CallId) -> Result<Frame, AllocError> {
    Ok(Frame {
        kind: FrameKind::Reply,
        to: id.node,
        rest: Route::of(&[]),
        id,
        pdu: pdu_of(alloc, &REPLY)?,
    })
}

/// A Request and its Reply, each posted and taken.
fn exchange(
    alloc: Global,
    id: CallId,
    target: u8,
    rest: Route,
) -> Result<List<RingEntry>, AllocError> {
    let node = id.node;
    let mut ring = List::new(alloc);
    let frame = request(alloc, id, target, rest)?;
    ring.push(RingEntry::Post { node, frame })?;
    let frame = request(alloc, id, target, rest)?;
    ring.push(RingEntry::Take {
        node: target,
        frame,
    })?;
    let frame = reply(alloc, id)?;
    ring.push(RingEntry::Post {
        node: target,
        frame,
    })?;
    let frame = reply(alloc, id)?;
    ring.push(RingEntry::Take { node, frame })?;
    Ok(ring)
}

fn rings(alloc: Global, fault: Fault) -> Result<List<RingLog>, AllocError> {
    let mut entries = exchange(alloc, CALL, 3, Route::of(&[5]))?;
    if fault == Fault::Down {
        let cause = LeaveCause::Down(1);
        entries.push(RingEntry::Leave { node: 3, cause })?;
    }
    let mut logs = List::new(alloc);
    let network = 1;
    logs.push(RingLog { network, entries })?;
    if fault != Fault::NoFarRing {
        let entries = exchange(alloc, ONWARD, 5, Route::of(&[]))?;
        let network = 2;
        logs.push(RingLog { network, entries })?;
    }
    Ok(logs)
}

fn broken(alloc: Global, fault: Fault) -> Result<Option<Spot>, AllocError> {
    let joint = Joint {
        controllers: controllers(alloc)?,
        hosts: hosts(alloc)?,
        bridges: bridges(alloc, fault)?,
        rings: rings(alloc, fault)?,
    };
    broken_law(alloc, &joint)
}

/// Which law each fault breaks first, at which node.
const BROKEN: [(Fault, u8, u8); 6] = [
    (Fault::NoAccept, 2, 3),
    (Fault::NoForward, 1, 1),
    (Fault::NoBack, 3, 3),
    (Fault::NoFinish, 4, 1),
    (Fault::Down, 5, 3),
    (Fault::NoFarRing, 1, 1),
];

/// The laws read all rings, and the bridge's list for each of its ends.
#[test]
fn a_request_over_a_bridge_keeps_the_laws(rt: HostRuntime) -> Result<(), AllocError> {
    let found = broken(rt.alloc(), Fault::Nothing)?;
    assert!(rt; found.is_none());
    Ok(())
}

#[test]
fn each_fault_at_a_bridge_breaks_its_law(rt: HostRuntime) -> Result<(), AllocError> {
    for (fault, law, node) in BROKEN {
        let found = broken(rt.alloc(), fault)?;
        let place = 1;
        assert!(rt; found == Some(Spot::Law { law, node, place }));
    }
    Ok(())
}
