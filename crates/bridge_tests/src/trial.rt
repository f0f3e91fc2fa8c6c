//! A bridge with an end 9 on network 1 and an end 12 on network 2, and what becomes of it.
//!
//! Acts are played one by one, and each that has an answer writes a line:
//!
//! | Act | Line |
//! |---|---|
//! | a side takes a read of two registers, under a name and with what is left of its route | |
//! | a side sends, or gives back | the frame: `Q` or `R`, to whom, its rest, its call, its PDU |
//! | a side hears a reply, or a word, on a path with a number | |
//! | a side leaves | |
//! | whether a side has nothing to do, or has not left | `true` or `false` |
use bridge_relay::{Bridge, BridgeEntry, RelayResult};
use mstr_block::CallId;
use plant_types::{BridgePlan, Pdu, ROUTE_LIMIT, Route};
use ring_core::{Frame, FrameKind};
use std::alloc::{AllocError, AllocGlobal, Global};
use std::fmt::Write;
use std::process::Abort;
use std::test::Fail;

/// The name of a call: node, path and number.
pub(crate) type Name = (u8, u8, u32);

/// What an end of the bridge does; its address is first.
#[derive(Drop)]
pub(crate) enum Act {
    Takes(u8, Name, &'static [u8]),
    Sends(u8),
    HearsReply(u8, Name),
    HearsWord(u8, Name, u16),
    Gives(u8),
    Leaves(u8),
    IsIdle(u8),
    IsOpen(u8),
}

/// A read of two registers, and its reply.
const READ: [u8; 5] = [3, 0, 0, 0, 2];

const REPLY: [u8; 6] = [3, 4, 0, 0x2a, 0, 0x2b];

fn call((node, path, seq): Name) -> CallId {
    CallId { node, path, seq }
}

fn pdu(alloc: Global, bytes: &[u8]) -> Result<Pdu, Fail> {
    match Pdu::of(alloc, bytes)? {
        Some(pdu) => Ok(pdu),
        None => Err("a PDU")?,
    }
}

fn write_call(text: &mut String, id: CallId) -> Result<(), AllocError> {
    let CallId { node, path, seq } = id;
    write!(text, " {node}.{path}.{seq}")?;
    Ok(())
}

fn write_pdu(text: &mut String, pdu: &Pdu) -> Result<(), AllocError> {
    write!(text, " ")?;
    for byte in pdu.bytes() {
        let byte = *byte;
        write!(text, "{byte:02x}")?;
    }
    Ok(())
}

fn write_route(text: &mut String, route: Route) -> Result<(), AllocError> {
    if route.addresses().is_empty() {
        write!(text, " -")?;
    }
    let mut before = ' ';
    for address in route.addresses() {
        let address = *address;
        write!(text, "{before}{address}")?;
        before = '.';
    }
    Ok(())
}

fn write_result(text: &mut String, outcome: &RelayResult) -> Result<(), AllocError> {
    match outcome {
        RelayResult::Reply(reply) => {
            write!(text, " R")?;
            write_pdu(text, reply)
        }
        RelayResult::Bad(word) => {
            let word = *word;
            write!(text, " B {word:04x}")?;
            Ok(())
        }
    }
}

/// The line of an entry.
fn write_entry(text: &mut String, entry: &BridgeEntry) -> Result<(), AllocError> {
    let side = entry.side();
    match entry {
        BridgeEntry::Accept {
            id,
            route,
            request,
            ..
        } => {
            write!(text, "T {side}")?;
            write_call(text, *id)?;
            write_route(text, *route)?;
            write_pdu(text, request)?;
        }
        BridgeEntry::Forward {
            old,
            id,
            route,
            request,
            ..
        } => {
            write!(text, "U {side}")?;
            write_call(text, *old)?;
            write_call(text, *id)?;
            write_route(text, *route)?;
            write_pdu(text, request)?;
        }
        BridgeEntry::Finish { id, result, .. } => {
            write!(text, "A {side}")?;
            write_call(text, *id)?;
            write_result(text, result)?;
        }
        BridgeEntry::Back { id, reply, .. } => {
            write!(text, "V {side}")?;
            write_call(text, *id)?;
            write_pdu(text, reply)?;
        }
        BridgeEntry::Gone { .. } => write!(text, "G {side}")?,
    }
    writeln!(text)?;
    Ok(())
}

/// A frame: to whom it goes and its rest, the call and the PDU.
fn write_frame(text: &mut String, frame: &Frame) -> Result<(), AllocError> {
    let to = frame.to;
    match frame.kind {
        FrameKind::Request => write!(text, "Q {to}")?,
        FrameKind::Reply => write!(text, "R {to}")?,
    }
    write_route(text, frame.rest)?;
    write_call(text, frame.id)?;
    write_pdu(text, &frame.pdu)?;
    writeln!(text)?;
    Ok(())
}

fn write_told(text: &mut String, frame: Option<Frame>) -> Result<(), AllocError> {
    match frame {
        Some(frame) => write_frame(text, &frame),
        None => {
            writeln!(text, "none")?;
            Ok(())
        }
    }
}

fn bridge(alloc: Global) -> Result<Bridge, AllocError> {
    let plan = BridgePlan {
        left_net: 1,
        left: 9,
        right_net: 2,
        right: 12,
    };
    Bridge::new(alloc, &plan)
}

/// How many entries a new bridge follows.
pub(crate) fn followed(alloc: Global, entries: &[BridgeEntry]) -> Result<usize, AllocError> {
    let mut bridge = bridge(alloc)?;
    for at in 0..entries.len() {
        if !bridge.follow(&entries[at])? {
            return Ok(at);
        }
    }
    Ok(entries.len())
}

/// A side takes a read.
fn takes(
    alloc: Global,
    bridge: &mut Bridge,
    side: u8,
    id: CallId,
    route: &[u8],
) -> Result<(), Fail> {
    if route.len() > ROUTE_LIMIT || !bridge.is_open(side) {
        return Err("a request to take")?;
    }
    let request = pdu(alloc, &READ)?;
    bridge.accept(side, id, Route::of(route), &request)?;
    Ok(())
}

/// A side hears what came of a call.
fn hears(bridge: &mut Bridge, side: u8, id: CallId, outcome: RelayResult) -> Result<(), Fail> {
    if !bridge.is_open(side) {
        return Err("a side that hears")?;
    }
    if !bridge.is_out(side, id) {
        return Err("a call that is out")?;
    }
    bridge.finish(side, id, outcome)?;
    Ok(())
}

/// A side sends on what waits there.
fn sends(bridge: &mut Bridge, side: u8) -> Result<Option<Frame>, Fail> {
    if !bridge.is_open(side) {
        return Err("a side to send on")?;
    }
    Ok(bridge.forward(side)?)
}

/// A side gives back what waits there.
fn gives(bridge: &mut Bridge, side: u8) -> Result<Option<Frame>, Fail> {
    if !bridge.is_open(side) {
        return Err("a side to give back")?;
    }
    Ok(bridge.back(side)?)
}

/// A side leaves.
fn leaves(bridge: &mut Bridge, side: u8) -> Result<(), Fail> {
    if !bridge.is_open(side) {
        return Err("a side to leave")?;
    }
    if !bridge.has_none_out(side) {
        return Err("a side with no call out")?;
    }
    bridge.gone(side)?;
    Ok(())
}

/// Whether a side has nothing to do.
fn is_idle(bridge: &Bridge, side: u8) -> Result<bool, Fail> {
    if !bridge.is_open(side) {
        return Err("a side")?;
    }
    Ok(bridge.is_idle(side))
}

fn write_bool(text: &mut String, said: bool) -> Result<(), AllocError> {
    writeln!(text, "{said}")?;
    Ok(())
}

/// Plays one act, and writes its answer.
fn play(alloc: Global, bridge: &mut Bridge, text: &mut String, act: &Act) -> Result<(), Fail> {
    match act {
        Act::Takes(side, name, route) => takes(alloc, bridge, *side, call(*name), route),
        Act::Sends(side) => {
            write_told(text, sends(bridge, *side)?)?;
            Ok(())
        }
        Act::HearsReply(side, name) => {
            let reply = pdu(alloc, &REPLY)?;
            hears(bridge, *side, call(*name), RelayResult::Reply(reply))
        }
        Act::HearsWord(side, name, word) => {
            hears(bridge, *side, call(*name), RelayResult::Bad(*word))
        }
        Act::Gives(side) => {
            write_told(text, gives(bridge, *side)?)?;
            Ok(())
        }
        Act::Leaves(side) => leaves(bridge, *side),
        Act::IsIdle(side) => Ok(write_bool(text, is_idle(bridge, *side)?)?),
        Act::IsOpen(side) => Ok(write_bool(text, bridge.is_open(*side))?),
    }
}

/// A new bridge behind these acts, and what it answered.
pub(crate) fn played(alloc: Global, acts: &[Act]) -> Result<(Bridge, String), Fail> {
    let mut bridge = bridge(alloc)?;
    let mut text = String::new(alloc);
    for at in 0..acts.len() {
        play(alloc, &mut bridge, &mut text, &acts[at])?;
    }
    Ok((bridge, text))
}

/// The history of a bridge, a line for each entry.
pub(crate) fn lines(alloc: Global, history: &[BridgeEntry]) -> Result<String, AllocError> {
    let mut text = String::new(alloc);
    for at in 0..history.len() {
        write_entry(&mut text, &history[at])?;
    }
    Ok(text)
}

/// Acts are answered so.
pub(crate) fn answers(
    rt: &(impl Abort + AllocGlobal),
    acts: &[Act],
    want: &str,
) -> Result<(), Fail> {
    let (_, text) = played(rt.alloc(), acts)?;
    assert_eq!(rt; text.as_str(), want);
    Ok(())
}
