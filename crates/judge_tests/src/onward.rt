//! Requests that are to go on from the station that took them: a controller and a host answer none.
use crate::histories::{CALL, REPLY};
use crate::plans::{REQUEST, pdu_of};
use controller_core::Entry;
use host_port::{HostEntry, HostResult};
use joint_history::{ControllerLog, HostLog, Joint, RingLog};
use joint_law::{Spot, broken_law};
use mstr_block::MstrResult;
use plant_types::{Block, List, Route};
use ring_core::{CLEAR_STATISTICS, Frame, FrameKind, LocalOp, RingEntry};
use std::alloc::{AllocError, Global};

/// A call of node 2: its request, the reply, and the route of its Ask.
#[derive(Drop)]
struct Asked<'a> {
    request: &'a [u8],
    reply: &'a [u8],
    route: Route,
}

/// What node 1 notes: it answers the request, or leaves that to its port.
fn controllers(
    alloc: Global,
    asked: &Asked<'_>,
    by_port: bool,
) -> Result<List<ControllerLog>, AllocError> {
    let mut entries = List::new(alloc);
    if !by_port {
        entries.push(Entry::Peer {
            id: CALL,
            request: pdu_of(alloc, asked.request)?,
            reply: pdu_of(alloc, asked.reply)?,
        })?;
    }
    let mut logs = List::new(alloc);
    logs.push(ControllerLog { node: 1, entries })?;
    Ok(logs)
}

fn hosts(alloc: Global, asked: &Asked<'_>) -> Result<List<HostLog>, AllocError> {
    let mut entries = List::new(alloc);
    entries.push(HostEntry::Ask {
        id: CALL,
        route: asked.route,
        pdu: pdu_of(alloc, asked.request)?,
    })?;
    let result = HostResult::Reply(pdu_of(alloc, asked.reply)?);
    entries.push(HostEntry::Answer { id: CALL, result })?;
    let mut logs = List::new(alloc);
    logs.push(HostLog { node: 2, entries })?;
    Ok(logs)
}

/// The Request, with these addresses after node 1.
fn request(alloc: Global, asked: &Asked<'_>, rest: Route) -> Result<Frame, AllocError> {
    Ok(Frame {
        kind: FrameKind::Request,
        to: 1,
        rest,
        id: CALL,
        pdu: pdu_of(alloc, asked.request)?,
    })
}

fn reply(alloc: Global, asked: &Asked<'_>) -> Result<Frame, AllocError> {
    Ok(Frame {
        kind: FrameKind::Reply,
        to: 2,
        rest: Route::of(&[]),
        id: CALL,
        pdu: pdu_of(alloc, asked.reply)?,
    })
}

/// The Request and its Reply, each posted and taken, and what the port of node 1 did.
fn ring(
    alloc: Global,
    asked: &Asked<'_>,
    rest: Route,
    by_port: bool,
) -> Result<List<RingEntry>, AllocError> {
    let mut ring = List::new(alloc);
    let frame = request(alloc, asked, rest)?;
    ring.push(RingEntry::Post { node: 2, frame })?;
    let frame = request(alloc, asked, rest)?;
    ring.push(RingEntry::Take { node: 1, frame })?;
    if by_port {
        let op = LocalOp::RemoteClear;
        let result = MstrResult::Good(Block::of(&[]));
        ring.push(RingEntry::Local {
            node: 1,
            id: CALL,
            op,
            result,
        })?;
    }
    let frame = reply(alloc, asked)?;
    ring.push(RingEntry::Post { node: 1, frame })?;
    let frame = reply(alloc, asked)?;
    ring.push(RingEntry::Take { node: 2, frame })?;
    Ok(ring)
}

fn rings(
    alloc: Global,
    asked: &Asked<'_>,
    rest: Route,
    by_port: bool,
) -> Result<List<RingLog>, AllocError> {
    let network = 0;
    let entries = ring(alloc, asked, rest, by_port)?;
    let mut logs = List::new(alloc);
    logs.push(RingLog { network, entries })?;
    Ok(logs)
}

/// The law that is broken where node 1 takes a request with these addresses after it.
fn broken(
    alloc: Global,
    asked: &Asked<'_>,
    rest: Route,
    by_port: bool,
) -> Result<Option<Spot>, AllocError> {
    let joint = Joint {
        controllers: controllers(alloc, asked, by_port)?,
        hosts: hosts(alloc, asked)?,
        bridges: List::new(alloc),
        rings: rings(alloc, asked, rest, by_port)?,
    };
    broken_law(alloc, &joint)
}

fn law_at(law: u8, node: u8) -> Option<Spot> {
    Some(Spot::Law {
        law,
        node,
        place: 1,
    })
}

/// A read of one register.
fn read(route: Route) -> Asked<'static> {
    Asked {
        request: &REQUEST,
        reply: &REPLY,
        route,
    }
}

/// A request to clear the statistics, which is repeated as its reply.
fn clear(route: Route) -> Asked<'static> {
    Asked {
        request: &CLEAR_STATISTICS,
        reply: &CLEAR_STATISTICS,
        route,
    }
}

/// The first law reads the whole route.
#[test]
fn a_post_goes_by_the_route_that_was_asked(rt: HostRuntime) -> Result<(), AllocError> {
    let alloc = rt.alloc();
    let near = Route::of(&[]);
    let far = Route::of(&[9]);
    let farther = Route::of(&[9, 2]);
    let one = read(Route::of(&[1]));
    let two = read(Route::of(&[1, 9]));
    assert!(rt; broken(alloc, &one, near, false)?.is_none());
    assert!(rt; broken(alloc, &one, far, false)? == law_at(1, 2));
    assert!(rt; broken(alloc, &two, near, false)? == law_at(1, 2));
    assert!(rt; broken(alloc, &two, farther, false)? == law_at(1, 2));
    Ok(())
}

/// The second reads what of it is left: a controller answers no request that is to go on.
#[test]
fn a_controller_answers_what_goes_no_further(rt: HostRuntime) -> Result<(), AllocError> {
    let alloc = rt.alloc();
    let far = Route::of(&[9]);
    let two = read(Route::of(&[1, 9]));
    assert!(rt; broken(alloc, &two, far, false)? == law_at(2, 1));
    Ok(())
}

/// A request for statistics that is to go on is none: the port answers it no more than others.
#[test]
fn a_port_answers_what_goes_no_further(rt: HostRuntime) -> Result<(), AllocError> {
    let alloc = rt.alloc();
    let near = Route::of(&[]);
    let far = Route::of(&[9]);
    let one = clear(Route::of(&[1]));
    let two = clear(Route::of(&[1, 9]));
    assert!(rt; broken(alloc, &one, near, true)?.is_none());
    assert!(rt; broken(alloc, &two, far, true)? == law_at(2, 1));
    assert!(rt; broken(alloc, &two, far, false)? == law_at(2, 1));
    Ok(())
}
