//! Journals whose every line was written by hand.
ghost use Rattle.plant_types.specs.Routes.{FitsRoute};

use controller_core::{Call, CallKind, Entry};
use host_port::{HostEntry, HostResult};
use joint_history::{ControllerLog, HostLog, Joint, RingLog};
use journal_text::{is_plain, journal_text};
use mstr_block::{CallId, MstrResult};
use plant_types::{Block, List, Pdu, Route, Words};
use ring_core::{Frame, FrameKind, Heard, LeaveCause, LocalOp, RingEntry};
use std::alloc::{AllocError, Global};
use std::test::Fail;

/// Two controllers, of which one reads two registers of the other, whose power fails then.
const READ: &str = "%JOURNAL
C 2
B
S 1
E
L 2.1.1=5:0300000002
F 2.1.1 G 002a002b
C 5
I 1
O 1 -
O 2 00ffabcd
P 2.1.1 0300000002 0304002a002b
X
N 2.1.1 0300000002
K
R
PO 2 Q 2.1.1 5 0300000002
SE 2 A
PA 2 0 -
TA 5 Q 2.1.1 0300000002
PO 5 R 2.1.1 0304002a002b
SE 5 S
SE 5 B
TA 2 R 2.1.1 0304002a002b
GU 2.1.2 6101
PA 2 1 00070008
LE 2 E
LE 5 D2
JN 5
LE 5 S
%END
";

/// A controller that asks its own port, and a host.
const LOCAL: &str = "%JOURNAL
C 3
L 3.0.1=GS 3.0.2=CS 3.0.3=PG:00070008 3.0.4=GG:64:32
F 3.0.4 B 200a
H 10
Q 10.1.1 2 0300000001
A 10.1.1 R 03020000
A 10.1.2 B 6103
P 2.4.4294967295 01 8101
R
LO 3 3.0.4 GG:64:32 B 200a
LO 3 2.1.1 RG G 0003
LO 3 2.1.2 RC G -
%END
";

pub(crate) fn id(node: u8, path: u8, seq: u32) -> CallId {
    CallId { node, path, seq }
}

pub(crate) fn pdu(alloc: Global, bytes: &[u8]) -> Result<Pdu, Fail> {
    let pdu = Pdu::of(alloc, bytes)?;
    Ok(pdu.ok_or("a PDU has a byte")?)
}

// What follows is put into lists that are lent, so that a call that fails drops nothing.

pub(crate) const READS: [u8; 5] = [3, 0, 0, 0, 2];

pub(crate) const TELLS: [u8; 6] = [3, 4, 0, 42, 0, 43];

/// Calls of a controller, and its entry for them.
fn push_call(alloc: Global, calls: &mut List<Call>, to: u8, bytes: &[u8]) -> Result<(), Fail> {
    let pdu = pdu(alloc, bytes)?;
    let route = Route::of(&[to]);
    let kind = CallKind::Net { route, pdu };
    let id = id(2, 1, 1);
    calls.push(Call { id, kind })?;
    Ok(())
}

fn push_own_call(calls: &mut List<Call>, seq: u32, op: LocalOp) -> Result<(), AllocError> {
    let kind = CallKind::Local(op);
    let id = id(3, 0, seq);
    calls.push(Call { id, kind })
}

fn push_own_calls(alloc: Global, calls: &mut List<Call>) -> Result<(), AllocError> {
    push_own_call(calls, 1, LocalOp::GetStats)?;
    push_own_call(calls, 2, LocalOp::ClearStats)?;
    let words = Words::of(alloc, &[7, 8])?;
    push_own_call(calls, 3, LocalOp::PutGlobal(words))?;
    let (node, length) = (64, 32);
    push_own_call(calls, 4, LocalOp::GetGlobal { node, length })
}

fn push_collect(alloc: Global, entries: &mut List<Entry>) -> Result<(), Fail> {
    let mut calls = List::new(alloc);
    push_call(alloc, &mut calls, 5, &READS)?;
    entries.push(Entry::Collect(calls))?;
    Ok(())
}

fn push_own_collect(alloc: Global, entries: &mut List<Entry>) -> Result<(), AllocError> {
    let mut calls = List::new(alloc);
    push_own_calls(alloc, &mut calls)?;
    entries.push(Entry::Collect(calls))
}

fn push_finish(
    entries: &mut List<Entry>,
    id: CallId,
    outcome: MstrResult,
) -> Result<(), AllocError> {
    entries.push(Entry::Finish {
        id,
        result: outcome,
    })
}

fn push_output(entries: &mut List<Entry>, row: u16, words: Block) -> Result<(), AllocError> {
    entries.push(Entry::Output { row, words })
}

fn push_peer(alloc: Global, entries: &mut List<Entry>) -> Result<(), Fail> {
    let id = id(2, 1, 1);
    let request = pdu(alloc, &READS)?;
    let reply = pdu(alloc, &TELLS)?;
    entries.push(Entry::Peer { id, request, reply })?;
    Ok(())
}

fn push_failure(alloc: Global, entries: &mut List<Entry>) -> Result<(), Fail> {
    entries.push(Entry::Fail)?;
    let id = id(2, 1, 1);
    let request = pdu(alloc, &READS)?;
    entries.push(Entry::Off { id, request })?;
    entries.push(Entry::Dark)?;
    Ok(())
}

/// The entries of the controllers: of one that reads, of the one that it reads, and of one that
/// asks its own port.
fn push_reader(alloc: Global, entries: &mut List<Entry>) -> Result<(), Fail> {
    entries.push(Entry::Begin)?;
    entries.push(Entry::Solve(1))?;
    entries.push(Entry::End)?;
    push_collect(alloc, entries)?;
    let words = Block::of(&[42, 43]);
    push_finish(entries, id(2, 1, 1), MstrResult::Good(words))?;
    Ok(())
}

fn push_target(alloc: Global, entries: &mut List<Entry>) -> Result<(), Fail> {
    entries.push(Entry::Input(1))?;
    push_output(entries, 1, Block::of(&[]))?;
    push_output(entries, 2, Block::of(&[255, 0xabcd]))?;
    push_peer(alloc, entries)?;
    push_failure(alloc, entries)
}

fn push_asker(alloc: Global, entries: &mut List<Entry>) -> Result<(), Fail> {
    push_own_collect(alloc, entries)?;
    push_finish(entries, id(3, 0, 4), MstrResult::Bad(0x200a))?;
    Ok(())
}

/// The entries of a host.
fn push_ask(alloc: Global, entries: &mut List<HostEntry>, route: &[u8]) -> Result<(), Fail>
    requires { FitsRoute route.now }
{
    let pdu = pdu(alloc, &[3, 0, 0, 0, 1])?;
    let id = id(10, 1, 1);
    let route = Route::of(route);
    entries.push(HostEntry::Ask { id, route, pdu })?;
    Ok(())
}

fn push_answers(alloc: Global, entries: &mut List<HostEntry>) -> Result<(), Fail> {
    let result = HostResult::Reply(pdu(alloc, &[3, 2, 0, 0])?);
    let first = id(10, 1, 1);
    entries.push(HostEntry::Answer { id: first, result })?;
    let result = HostResult::Bad(0x6103);
    let second = id(10, 1, 2);
    entries.push(HostEntry::Answer { id: second, result })?;
    Ok(())
}

fn push_served(alloc: Global, entries: &mut List<HostEntry>) -> Result<(), Fail> {
    let id = id(2, 4, u32::MAX);
    let request = pdu(alloc, &[1])?;
    let reply = pdu(alloc, &[0x81, 1])?;
    entries.push(HostEntry::Served { id, request, reply })?;
    Ok(())
}

/// Entries of the ring, with frames of the call 2.1.1.
pub(crate) fn frame(alloc: Global, kind: FrameKind, to: u8, bytes: &[u8]) -> Result<Frame, Fail> {
    let pdu = pdu(alloc, bytes)?;
    let id = id(2, 1, 1);
    let rest = Route::of(&[]);
    Ok(Frame {
        kind,
        to,
        rest,
        id,
        pdu,
    })
}

fn push_post(alloc: Global, ring: &mut List<RingEntry>, node: u8, to: u8) -> Result<(), Fail> {
    let frame = if to == 5 {
        frame(alloc, FrameKind::Request, to, &READS)?
    } else {
        frame(alloc, FrameKind::Reply, to, &TELLS)?
    };
    ring.push(RingEntry::Post { node, frame })?;
    Ok(())
}

fn push_take(alloc: Global, ring: &mut List<RingEntry>, node: u8) -> Result<(), Fail> {
    let frame = if node == 5 {
        frame(alloc, FrameKind::Request, node, &READS)?
    } else {
        frame(alloc, FrameKind::Reply, node, &TELLS)?
    };
    ring.push(RingEntry::Take { node, frame })?;
    Ok(())
}

fn push_send(ring: &mut List<RingEntry>, node: u8, heard: Heard) -> Result<(), AllocError> {
    ring.push(RingEntry::Send { node, heard })
}

fn push_pass(
    alloc: Global,
    ring: &mut List<RingEntry>,
    done: bool,
    words: &[u16],
) -> Result<(), AllocError> {
    let words = Words::of(alloc, words)?;
    let node = 2;
    ring.push(RingEntry::Pass { node, done, words })
}

fn push_give_up(ring: &mut List<RingEntry>) -> Result<(), AllocError> {
    let id = id(2, 1, 2);
    ring.push(RingEntry::GiveUp { id, word: 0x6101 })
}

fn push_leave(ring: &mut List<RingEntry>, node: u8, cause: LeaveCause) -> Result<(), AllocError> {
    ring.push(RingEntry::Leave { node, cause })
}

fn push_local(
    ring: &mut List<RingEntry>,
    id: CallId,
    op: LocalOp,
    outcome: MstrResult,
) -> Result<(), AllocError> {
    let node = 3;
    ring.push(RingEntry::Local {
        node,
        id,
        op,
        result: outcome,
    })
}

fn push_turns(alloc: Global, ring: &mut List<RingEntry>) -> Result<(), Fail> {
    push_post(alloc, ring, 2, 5)?;
    push_send(ring, 2, Heard::Acked)?;
    push_pass(alloc, ring, false, &[])?;
    push_take(alloc, ring, 5)?;
    push_post(alloc, ring, 5, 2)?;
    push_send(ring, 5, Heard::Silent)?;
    push_send(ring, 5, Heard::Busy)?;
    push_take(alloc, ring, 2)?;
    push_give_up(ring)?;
    push_pass(alloc, ring, true, &[7, 8])?;
    push_leave(ring, 2, LeaveCause::Ended)?;
    push_leave(ring, 5, LeaveCause::Down(2))?;
    ring.push(RingEntry::Join { node: 5 })?;
    push_leave(ring, 5, LeaveCause::Spent)?;
    Ok(())
}

fn push_locals(ring: &mut List<RingEntry>) -> Result<(), AllocError> {
    let (node, length) = (64, 32);
    let get = LocalOp::GetGlobal { node, length };
    push_local(ring, id(3, 0, 4), get, MstrResult::Bad(0x200a))?;
    let three = MstrResult::Good(Block::of(&[3]));
    push_local(ring, id(2, 1, 1), LocalOp::RemoteGet, three)?;
    let none = MstrResult::Good(Block::of(&[]));
    push_local(ring, id(2, 1, 2), LocalOp::RemoteClear, none)
}

pub(crate) fn new_joint(alloc: Global) -> Joint {
    Joint {
        controllers: List::new(alloc),
        hosts: List::new(alloc),
        bridges: List::new(alloc),
        rings: List::new(alloc),
    }
}

/// The entries of a ring, under the number of its network.
pub(crate) fn push_ring(
    joint: &mut Joint,
    network: u8,
    entries: List<RingEntry>,
) -> Result<(), AllocError> {
    joint.rings.push(RingLog { network, entries })
}

pub(crate) fn push_controller(
    joint: &mut Joint,
    node: u8,
    entries: List<Entry>,
) -> Result<(), AllocError> {
    joint.controllers.push(ControllerLog { node, entries })
}

fn add_reader(alloc: Global, joint: &mut Joint) -> Result<(), Fail> {
    let mut entries = List::new(alloc);
    push_reader(alloc, &mut entries)?;
    push_controller(joint, 2, entries)?;
    Ok(())
}

fn add_target(alloc: Global, joint: &mut Joint) -> Result<(), Fail> {
    let mut entries = List::new(alloc);
    push_target(alloc, &mut entries)?;
    push_controller(joint, 5, entries)?;
    Ok(())
}

fn add_asker(alloc: Global, joint: &mut Joint) -> Result<(), Fail> {
    let mut entries = List::new(alloc);
    push_asker(alloc, &mut entries)?;
    push_controller(joint, 3, entries)?;
    Ok(())
}

fn push_host_entries(alloc: Global, entries: &mut List<HostEntry>) -> Result<(), Fail> {
    push_ask(alloc, entries, &[2])?;
    push_answers(alloc, entries)?;
    push_served(alloc, entries)
}

fn add_host(alloc: Global, joint: &mut Joint) -> Result<(), Fail> {
    let mut entries = List::new(alloc);
    push_host_entries(alloc, &mut entries)?;
    let node = 10;
    joint.hosts.push(HostLog { node, entries })?;
    Ok(())
}

fn add_read(alloc: Global, joint: &mut Joint) -> Result<(), Fail> {
    add_reader(alloc, joint)?;
    add_target(alloc, joint)?;
    let mut ring = List::new(alloc);
    push_turns(alloc, &mut ring)?;
    push_ring(joint, 0, ring)?;
    Ok(())
}

fn add_local(alloc: Global, joint: &mut Joint) -> Result<(), Fail> {
    add_asker(alloc, joint)?;
    add_host(alloc, joint)?;
    let mut ring = List::new(alloc);
    push_locals(&mut ring)?;
    push_ring(joint, 0, ring)?;
    Ok(())
}

/// Whether the journal of a plain joint history is a text.
pub(crate) fn tells(alloc: Global, joint: &Joint, text: &str) -> Result<bool, AllocError> {
    if !is_plain(joint) {
        return Ok(false);
    }
    let journal = journal_text(alloc, joint)?;
    Ok(journal.as_slice() == text.as_bytes())
}

#[test]
fn a_read(rt: HostRuntime) -> Result<(), Fail> {
    let alloc = rt.alloc();
    let mut joint = new_joint(alloc);
    add_read(alloc, &mut joint)?;
    let told = tells(alloc, &joint, READ)?;
    assert!(rt; told);
    Ok(())
}

#[test]
fn own_ports_and_a_host(rt: HostRuntime) -> Result<(), Fail> {
    let alloc = rt.alloc();
    let mut joint = new_joint(alloc);
    add_local(alloc, &mut joint)?;
    let told = tells(alloc, &joint, LOCAL)?;
    assert!(rt; told);
    Ok(())
}

/// A Reply to another node than who asked is in no plain history.
#[test]
fn a_reply_that_strays(rt: HostRuntime) -> Result<(), Fail> {
    let alloc = rt.alloc();
    let mut joint = new_joint(alloc);
    let mut ring = List::new(alloc);
    push_post(alloc, &mut ring, 5, 9)?;
    push_ring(&mut joint, 0, ring)?;
    let plain = is_plain(&joint);
    assert!(rt; !plain);
    Ok(())
}

/// A Reply that goes on from there is in none either.
#[test]
fn a_reply_that_goes_on(rt: HostRuntime) -> Result<(), Fail> {
    let alloc = rt.alloc();
    let mut joint = new_joint(alloc);
    let mut frame = frame(alloc, FrameKind::Reply, 2, &TELLS)?;
    frame.rest = Route::of(&[6]);
    let mut ring = List::new(alloc);
    ring.push(RingEntry::Post { node: 5, frame })?;
    push_ring(&mut joint, 0, ring)?;
    let plain = is_plain(&joint);
    assert!(rt; !plain);
    Ok(())
}

/// Nor is a request without an address.
#[test]
fn a_request_to_nobody(rt: HostRuntime) -> Result<(), Fail> {
    let alloc = rt.alloc();
    let mut joint = new_joint(alloc);
    let mut entries = List::new(alloc);
    push_ask(alloc, &mut entries, &[])?;
    joint.hosts.push(HostLog { node: 10, entries })?;
    let plain = is_plain(&joint);
    assert!(rt; !plain);
    Ok(())
}

/// Two logs of one node are in none either.
#[test]
fn one_node_twice(rt: HostRuntime) -> Result<(), Fail> {
    let alloc = rt.alloc();
    let mut joint = new_joint(alloc);
    push_controller(&mut joint, 2, List::new(alloc))?;
    push_controller(&mut joint, 2, List::new(alloc))?;
    let plain = is_plain(&joint);
    assert!(rt; !plain);
    Ok(())
}
