//! How many entries a second a ring takes: each node asks the next one, which answers.
use anyhow::{Result, bail, ensure};
use mstr_block::CallId;
use plant_types::{Fate, List, NetPlan, Pdu, Route};
use ring_core::{Frame, FrameKind, Ring, is_from, is_net};
use std::alloc::Global;
use std::io::Print;
use std::time::{Clock, Instant};

/// More frames than a node sends or takes in one turn.
const MOST_FRAMES: usize = 8;

/// A ring of so many members, on which nothing is lost.
fn ring_of(alloc: Global, members: u8) -> Result<Ring> {
    let mut nodes = Vec::new(alloc);
    for node in 0..members {
        nodes.push(node + 1)?;
    }
    let plan = NetPlan {
        number: 0,
        members: List::from_vec(nodes),
        bridges: List::new(alloc),
        fates: List::from_vec(Vec::from_slice(alloc, &[Fate::D])?),
        answer: 2,
        rotations: 1,
        rounds: 1,
        holds: 1,
    };
    ensure!(is_net(&plan), "a ring has at most 64 members");
    Ok(Ring::new(alloc, &plan)?)
}

/// A node posts a frame with a PDU of 5 bytes.
fn post(
    alloc: Global,
    ring: &mut Ring,
    node: u8,
    kind: FrameKind,
    to: u8,
    id: CallId,
) -> Result<()> {
    let Some(pdu) = Pdu::of(alloc, &[3, 0, 0, 0, 1])? else {
        bail!("a PDU has 1 to 253 bytes");
    };
    let frame = Frame {
        kind,
        to,
        rest: Route::of(&[]),
        id,
        pdu,
    };
    ensure!(ring.is_member(node), "a node that posts is a member");
    ensure!(
        is_from(node, &frame) && ring.is_next(node, kind, id),
        "a frame is in order"
    );
    ensure!(ring.post(node, frame).is_ok(), "a Post was refused");
    Ok(())
}

/// The first frame of the node's inbox: its kind and its call.
fn take(ring: &mut Ring, node: u8) -> Result<Option<(FrameKind, CallId)>> {
    ensure!(ring.is_member(node), "a node that takes is a member");
    match ring.take(node) {
        Ok(Some(frame)) => Ok(Some((frame.kind, frame.id))),
        Ok(None) => Ok(None),
        Err(_) => bail!("a Take was refused"),
    }
}

/// All frames of the inbox are taken, and each Request is answered.
fn take_all(alloc: Global, ring: &mut Ring, node: u8) -> Result<()> {
    for _ in 0..MOST_FRAMES {
        match take(ring, node)? {
            Some((FrameKind::Request, id)) => {
                post(alloc, ring, node, FrameKind::Reply, id.node, id)?;
            }
            Some((FrameKind::Reply, _)) => {}
            None => return Ok(()),
        }
    }
    Ok(())
}

/// All frames of the outbox are sent.
fn send_all(ring: &mut Ring, node: u8) -> Result<()> {
    for _ in 0..MOST_FRAMES {
        ensure!(ring.is_member(node), "a node that sends is a member");
        if ring.send(node).is_err() {
            return Ok(());
        }
    }
    Ok(())
}

/// One hold turn: of the 7 entries two are Posts, two Sends, two Takes and one is a Pass.
fn turn(alloc: Global, ring: &mut Ring, number: u32) -> Result<()> {
    let node = ring.holder();
    take_all(alloc, ring, node)?;
    let id = CallId {
        node,
        path: 1,
        seq: number,
    };
    let to = ring.successor(node);
    post(alloc, ring, node, FrameKind::Request, to, id)?;
    send_all(ring, node)?;
    ensure!(ring.is_member(node), "a node that passes is a member");
    ensure!(ring.pass(node, false).is_ok(), "a Pass was refused");
    Ok(())
}

/// Prints how many entries were made, and in how many nanoseconds.
pub fn print_time<R: Clock + Print>(
    rt: &R,
    alloc: Global,
    members: u8,
    entries: u32,
) -> Result<()> {
    let mut ring = ring_of(alloc, members)?;
    let start = Instant::now(rt)?;
    for number in 0..entries {
        if ring.history().len() >= entries as usize {
            break;
        }
        turn(alloc, &mut ring, number + 1)?;
    }
    let spent = start.elapsed(rt)?.as_nanos();
    let made = ring.history().len();
    println!(rt; "{made} {spent}")?;
    Ok(())
}
