//! Journals with bridges and several rings, whose every line was written by hand.
ghost use Rattle.plant_types.specs.Routes.{FitsRoute};

use crate::written::{READS, TELLS, frame, id, new_joint, pdu, push_ring, tells};
use bridge_relay::{BridgeEntry, RelayResult};
use joint_history::{BridgeLog, Joint};
use journal_text::is_plain;
use mstr_block::CallId;
use plant_types::{List, Route};
use ring_core::{FrameKind, RingEntry};
use std::alloc::{AllocError, Global};
use std::test::Fail;

/// Two bridges, of which one gives a read on across it, and the rings of two networks.
const ACROSS: &str = "%JOURNAL
W 9 12
T 9 2.1.1 5 0300000002
U 12 2.1.1 12.1.1 5 0300000002
A 12 12.1.1 R 0304002a002b
V 9 2.1.1 0304002a002b
T 12 5.4.7 - 0300000002
A 12 12.1.2 B 6103
G 9
G 12
W 10 3
R
PO 2 Q 2.1.1 9.5 0300000002
TA 9 Q 2.1.1 0300000002 5
PO 9 R 2.1.1 0304002a002b
R 2
JN 5
%END
";

fn push_accept(
    alloc: Global,
    entries: &mut List<BridgeEntry>,
    side: u8,
    id: CallId,
    route: &[u8],
) -> Result<(), Fail>
    requires { FitsRoute route.now }
{
    let request = pdu(alloc, &READS)?;
    let route = Route::of(route);
    entries.push(BridgeEntry::Accept {
        side,
        id,
        route,
        request,
    })?;
    Ok(())
}

fn push_forward(alloc: Global, entries: &mut List<BridgeEntry>, route: &[u8]) -> Result<(), Fail>
    requires { FitsRoute route.now }
{
    let request = pdu(alloc, &READS)?;
    let route = Route::of(route);
    entries.push(BridgeEntry::Forward {
        side: 12,
        old: id(2, 1, 1),
        id: id(12, 1, 1),
        route,
        request,
    })?;
    Ok(())
}

fn push_finish(
    entries: &mut List<BridgeEntry>,
    id: CallId,
    outcome: RelayResult,
) -> Result<(), AllocError> {
    entries.push(BridgeEntry::Finish {
        side: 12,
        id,
        result: outcome,
    })
}

fn push_back(alloc: Global, entries: &mut List<BridgeEntry>) -> Result<(), Fail> {
    let reply = pdu(alloc, &TELLS)?;
    let id = id(2, 1, 1);
    entries.push(BridgeEntry::Back { side: 9, id, reply })?;
    Ok(())
}

fn push_across(alloc: Global, entries: &mut List<BridgeEntry>) -> Result<(), Fail> {
    push_accept(alloc, entries, 9, id(2, 1, 1), &[5])?;
    push_forward(alloc, entries, &[5])?;
    let reply = RelayResult::Reply(pdu(alloc, &TELLS)?);
    push_finish(entries, id(12, 1, 1), reply)?;
    push_back(alloc, entries)?;
    push_accept(alloc, entries, 12, id(5, 4, 7), &[])?;
    push_finish(entries, id(12, 1, 2), RelayResult::Bad(0x6103))?;
    entries.push(BridgeEntry::Gone { side: 9 })?;
    entries.push(BridgeEntry::Gone { side: 12 })?;
    Ok(())
}

fn push_bridge(
    joint: &mut Joint,
    left: u8,
    right: u8,
    entries: List<BridgeEntry>,
) -> Result<(), AllocError> {
    joint.bridges.push(BridgeLog {
        left,
        right,
        entries,
    })
}

fn push_request(alloc: Global, ring: &mut List<RingEntry>) -> Result<(), Fail> {
    let mut sent = frame(alloc, FrameKind::Request, 9, &READS)?;
    sent.rest = Route::of(&[5]);
    let frame = sent;
    ring.push(RingEntry::Post { node: 2, frame })?;
    Ok(())
}

fn push_taken(alloc: Global, ring: &mut List<RingEntry>) -> Result<(), Fail> {
    let mut taken = frame(alloc, FrameKind::Request, 9, &READS)?;
    taken.rest = Route::of(&[5]);
    let frame = taken;
    ring.push(RingEntry::Take { node: 9, frame })?;
    Ok(())
}

fn push_reply(alloc: Global, ring: &mut List<RingEntry>) -> Result<(), Fail> {
    let frame = frame(alloc, FrameKind::Reply, 2, &TELLS)?;
    ring.push(RingEntry::Post { node: 9, frame })?;
    Ok(())
}

fn add_bridges(alloc: Global, joint: &mut Joint) -> Result<(), Fail> {
    let mut entries = List::new(alloc);
    push_across(alloc, &mut entries)?;
    push_bridge(joint, 9, 12, entries)?;
    push_bridge(joint, 10, 3, List::new(alloc))?;
    Ok(())
}

fn add_rings(alloc: Global, joint: &mut Joint) -> Result<(), Fail> {
    let mut first = List::new(alloc);
    push_request(alloc, &mut first)?;
    push_taken(alloc, &mut first)?;
    push_reply(alloc, &mut first)?;
    push_ring(joint, 0, first)?;
    let mut second = List::new(alloc);
    second.push(RingEntry::Join { node: 5 })?;
    push_ring(joint, 2, second)?;
    Ok(())
}

#[test]
fn a_read_across(rt: HostRuntime) -> Result<(), Fail> {
    let alloc = rt.alloc();
    let mut joint = new_joint(alloc);
    add_bridges(alloc, &mut joint)?;
    add_rings(alloc, &mut joint)?;
    let told = tells(alloc, &joint, ACROSS)?;
    assert!(rt; told);
    Ok(())
}

/// A request that a bridge sends on to nobody is in no plain history.
#[test]
fn a_forward_to_nobody(rt: HostRuntime) -> Result<(), Fail> {
    let alloc = rt.alloc();
    let mut joint = new_joint(alloc);
    let mut entries = List::new(alloc);
    push_forward(alloc, &mut entries, &[])?;
    push_bridge(&mut joint, 9, 12, entries)?;
    let plain = is_plain(&joint);
    assert!(rt; !plain);
    Ok(())
}

/// Nor are two bridges of one left address, whatever their right ones.
#[test]
fn one_left_address_twice(rt: HostRuntime) -> Result<(), Fail> {
    let alloc = rt.alloc();
    let mut joint = new_joint(alloc);
    push_bridge(&mut joint, 9, 12, List::new(alloc))?;
    push_bridge(&mut joint, 9, 13, List::new(alloc))?;
    let plain = is_plain(&joint);
    assert!(rt; !plain);
    Ok(())
}

/// Nor two rings of one network.
#[test]
fn one_network_twice(rt: HostRuntime) -> Result<(), Fail> {
    let alloc = rt.alloc();
    let mut joint = new_joint(alloc);
    push_ring(&mut joint, 2, List::new(alloc))?;
    push_ring(&mut joint, 2, List::new(alloc))?;
    let plain = is_plain(&joint);
    assert!(rt; !plain);
    Ok(())
}
