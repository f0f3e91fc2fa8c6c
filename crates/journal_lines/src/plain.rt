//! Which entries are plain.
ghost use Rattle.std.specs.Prelude.{◌≡◌, true, All};
ghost use Rattle.journal_lines.specs.Plain.{IsOwnOp, IsPlainCall, IsPlainEntry, IsPlainFrame};
ghost use Rattle.journal_lines.specs.Plain.{IsPlainGot, IsPlainHostEntry, IsPlainBridgeEntry};
ghost use Rattle.journal_lines.specs.Plain.{IsPlainReply, IsPlainRing};

use bridge_relay::BridgeEntry;
use controller_core::{Call, CallKind, Entry};
use host_port::HostEntry;
use ring_core::{Frame, FrameKind, LocalOp, RingEntry};

fn is_own_op(op: &LocalOp) -> bool
    ensures only { result ≡ true → IsOwnOp op.now }
    ensures all { IsOwnOp op.now → result ≡ true }
{
    match op {
        LocalOp::RemoteGet => false,
        LocalOp::RemoteClear => false,
        _ => true,
    }
}

fn is_plain_call(call: &Call) -> bool
    ensures only { result ≡ true → IsPlainCall call.now }
    ensures all { IsPlainCall call.now → result ≡ true }
{
    match &call.kind {
        CallKind::Net { route, .. } => !route.addresses().is_empty(),
        CallKind::Local(op) => is_own_op(op),
    }
}

fn are_plain_calls(calls: &[Call]) -> bool
    ensures only { result ≡ true → All IsPlainCall calls.now }
    ensures all { All IsPlainCall calls.now → result ≡ true }
{
    for at in 0..calls.len() {
        if !is_plain_call(&calls[at]) {
            return false;
        }
    }
    true
}

fn is_plain_entry(entry: &Entry) -> bool
    ensures only { result ≡ true → IsPlainEntry entry.now }
    ensures all { IsPlainEntry entry.now → result ≡ true }
{
    match entry {
        Entry::Collect(calls) => {
            let calls = calls.as_slice();
            !calls.is_empty() && are_plain_calls(calls)
        }
        _ => true,
    }
}

/// Whether the lines of these entries of a controller tell all of them.
pub fn are_plain_entries(entries: &[Entry]) -> bool
    ensures only { result ≡ true → All IsPlainEntry entries.now }
    ensures all { All IsPlainEntry entries.now → result ≡ true }
{
    for at in 0..entries.len() {
        if !is_plain_entry(&entries[at]) {
            return false;
        }
    }
    true
}

fn is_plain_host_entry(entry: &HostEntry) -> bool
    ensures only { result ≡ true → IsPlainHostEntry entry.now }
    ensures all { IsPlainHostEntry entry.now → result ≡ true }
{
    match entry {
        HostEntry::Ask { route, .. } => !route.addresses().is_empty(),
        _ => true,
    }
}

/// Whether the lines of these entries of a host tell all of them.
pub fn are_plain_host_entries(entries: &[HostEntry]) -> bool
    ensures only { result ≡ true → All IsPlainHostEntry entries.now }
    ensures all { All IsPlainHostEntry entries.now → result ≡ true }
{
    for at in 0..entries.len() {
        if !is_plain_host_entry(&entries[at]) {
            return false;
        }
    }
    true
}

fn is_plain_bridge_entry(entry: &BridgeEntry) -> bool
    ensures only { result ≡ true → IsPlainBridgeEntry entry.now }
    ensures all { IsPlainBridgeEntry entry.now → result ≡ true }
{
    match entry {
        BridgeEntry::Forward { route, .. } => !route.addresses().is_empty(),
        _ => true,
    }
}

/// Whether the lines of these entries of a bridge tell all of them.
pub fn are_plain_bridge_entries(entries: &[BridgeEntry]) -> bool
    ensures only { result ≡ true → All IsPlainBridgeEntry entries.now }
    ensures all { All IsPlainBridgeEntry entries.now → result ≡ true }
{
    for at in 0..entries.len() {
        if !is_plain_bridge_entry(&entries[at]) {
            return false;
        }
    }
    true
}

fn is_plain_reply(frame: &Frame) -> bool
    ensures only { result ≡ true → IsPlainReply frame.now }
    ensures all { IsPlainReply frame.now → result ≡ true }
{
    frame.to == frame.id.node && frame.rest.addresses().is_empty()
}

fn is_plain_frame(frame: &Frame) -> bool
    ensures only { result ≡ true → IsPlainFrame frame.now.kind frame.now }
    ensures all { IsPlainFrame frame.now.kind frame.now → result ≡ true }
{
    match frame.kind {
        FrameKind::Request => true,
        FrameKind::Reply => is_plain_reply(frame),
    }
}

fn is_plain_got(node: u8, frame: &Frame) -> bool
    ensures only { result ≡ true → IsPlainGot node frame.now.kind frame.now }
    ensures all { IsPlainGot node frame.now.kind frame.now → result ≡ true }
{
    match frame.kind {
        FrameKind::Request => frame.to == node,
        FrameKind::Reply => is_plain_reply(frame),
    }
}

fn is_plain_ring(entry: &RingEntry) -> bool
    ensures only { result ≡ true → IsPlainRing entry.now }
    ensures all { IsPlainRing entry.now → result ≡ true }
{
    match entry {
        RingEntry::Post { frame, .. } => is_plain_frame(frame),
        RingEntry::Take { node, frame } => is_plain_got(*node, frame),
        _ => true,
    }
}

/// Whether the lines of these entries of a ring tell all of them.
pub fn are_plain_ring(entries: &[RingEntry]) -> bool
    ensures only { result ≡ true → All IsPlainRing entries.now }
    ensures all { All IsPlainRing entries.now → result ≡ true }
{
    for at in 0..entries.len() {
        if !is_plain_ring(&entries[at]) {
            return false;
        }
    }
    true
}
