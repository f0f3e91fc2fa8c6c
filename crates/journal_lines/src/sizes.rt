//! That entries have numbers and lists of their types. Calls made for the prover alone.
ghost use Rattle.std.specs.Prelude.{All};
ghost use Rattle.bridge_relay.specs.declared.entry.BridgeEntry.TheVariants as bridge_entries;
ghost use Rattle.journal_lines.specs.Sizes.{AreWords, FitsAnswer, FitsCall, FitsCause, FitsEntry};
ghost use Rattle.journal_lines.specs.Sizes.{FitsBridgeEntry, FitsFrame, FitsRelay, FitsHostEntry};
ghost use Rattle.journal_lines.specs.Sizes.{FitsKind, FitsOp, FitsResult, FitsRingEntry};
ghost use Rattle.journal_lines.specs.Sizes.{AreBlockWords, IsId, IsLong, IsPdu, IsRoute, IsSmall};
ghost use Rattle.journal_lines.specs.Sizes.{IsWord};

use bridge_relay::{BridgeEntry, RelayResult};
use controller_core::{Call, CallKind, Entry};
use host_port::{HostEntry, HostResult};
use mstr_block::{CallId, MstrResult};
use plant_types::{Block, Pdu, Route};
use ring_core::{Frame, LeaveCause, LocalOp, RingEntry};

/// A byte is small.
pub fn small_fits(number: u8)
    ensures { IsSmall number }
{}

fn word(number: u16)
    ensures { IsWord number }
{}

fn long(number: u32)
    ensures { IsLong number }
{}

fn bytes(bytes: &[u8])
    ensures { All IsSmall bytes.now }
{}

fn words(words: &[u16])
    ensures { AreWords words.now }
{}

fn pdu(pdu: &Pdu)
    ensures { IsPdu pdu.now }
{
    bytes(pdu.bytes());
}

fn way(route: Route)
    ensures { IsRoute route }
{
    bytes(route.addresses());
}

fn block(block: &Block)
    ensures { AreBlockWords block.now }
{
    words(block.words());
}

fn name(id: CallId)
    ensures { IsId id }
{
    small_fits(id.node);
    small_fits(id.path);
    long(id.seq);
}

fn op(op: &LocalOp)
    ensures { FitsOp op.now }
{
    match op {
        LocalOp::PutGlobal(global) => words(global.words()),
        LocalOp::GetGlobal { node, length } => {
            small_fits(*node);
            word(*length);
        }
        LocalOp::GetStats | LocalOp::ClearStats | LocalOp::RemoteGet | LocalOp::RemoteClear => {}
    }
}

fn outcome(outcome: &MstrResult)
    ensures { FitsResult outcome.now }
{
    match outcome {
        MstrResult::Good(told) => block(told),
        MstrResult::Bad(told) => word(*told),
    }
}

fn kind(kind: &CallKind)
    ensures { FitsKind kind.now }
{
    match kind {
        CallKind::Net {
            route,
            pdu: request,
        } => {
            way(*route);
            pdu(request);
        }
        CallKind::Local(local) => op(local),
    }
}

fn call(call: &Call)
    ensures { FitsCall call.now }
{
    name(call.id);
    kind(&call.kind);
}

fn calls(calls: &[Call])
    ensures { All FitsCall calls.now }
{
    for at in 0..calls.len() {
        call(&calls[at]);
    }
}

fn entry(entry: &Entry)
    ensures { FitsEntry entry.now }
{
    match entry {
        Entry::Begin | Entry::End | Entry::Fail | Entry::Dark => {}
        Entry::Input(row) | Entry::Solve(row) => word(*row),
        Entry::Output { row, words } => {
            word(*row);
            block(words);
        }
        Entry::Collect(made) => calls(made.as_slice()),
        Entry::Peer { id, request, reply } => {
            name(*id);
            pdu(request);
            pdu(reply);
        }
        Entry::Off { id, request } => {
            name(*id);
            pdu(request);
        }
        Entry::Finish { id, result } => {
            name(*id);
            outcome(result);
        }
    }
}

/// Entries of a controller fit their types.
pub fn entries_fit(entries: &[Entry])
    ensures { All FitsEntry entries.now }
{
    for at in 0..entries.len() {
        entry(&entries[at]);
    }
}

fn answer(answer: &HostResult)
    ensures { FitsAnswer answer.now }
{
    match answer {
        HostResult::Reply(reply) => pdu(reply),
        HostResult::Bad(told) => word(*told),
    }
}

fn host_entry(entry: &HostEntry)
    ensures { FitsHostEntry entry.now }
{
    match entry {
        HostEntry::Ask {
            id,
            route,
            pdu: request,
        } => {
            name(*id);
            way(*route);
            pdu(request);
        }
        HostEntry::Answer { id, result } => {
            name(*id);
            answer(result);
        }
        HostEntry::Served { id, request, reply } => {
            name(*id);
            pdu(request);
            pdu(reply);
        }
    }
}

/// Entries of a host fit their types.
pub fn host_entries_fit(entries: &[HostEntry])
    ensures { All FitsHostEntry entries.now }
{
    for at in 0..entries.len() {
        host_entry(&entries[at]);
    }
}

fn relay(outcome: &RelayResult)
    ensures { FitsRelay outcome.now }
{
    match outcome {
        RelayResult::Reply(reply) => pdu(reply),
        RelayResult::Bad(told) => word(*told),
    }
}

fn forward(side: u8, old: CallId, id: CallId, route: Route, request: &Pdu)
    ensures { FitsBridgeEntry (bridge_entries.Forward side old id route request.now) }
{
    small_fits(side);
    name(old);
    name(id);
    way(route);
    pdu(request);
}

fn bridge_entry(entry: &BridgeEntry)
    ensures { FitsBridgeEntry entry.now }
{
    match entry {
        BridgeEntry::Accept {
            side,
            id,
            route,
            request,
        } => {
            small_fits(*side);
            name(*id);
            way(*route);
            pdu(request);
        }
        BridgeEntry::Forward {
            side,
            old,
            id,
            route,
            request,
        } => forward(*side, *old, *id, *route, request),
        BridgeEntry::Finish { side, id, result } => {
            small_fits(*side);
            name(*id);
            relay(result);
        }
        BridgeEntry::Back { side, id, reply } => {
            small_fits(*side);
            name(*id);
            pdu(reply);
        }
        BridgeEntry::Gone { side } => small_fits(*side),
    }
}

/// Entries of a bridge fit their types.
pub fn bridge_entries_fit(entries: &[BridgeEntry])
    ensures { All FitsBridgeEntry entries.now }
{
    for at in 0..entries.len() {
        bridge_entry(&entries[at]);
    }
}

fn frame(frame: &Frame)
    ensures { FitsFrame frame.now }
{
    small_fits(frame.to);
    way(frame.rest);
    name(frame.id);
    pdu(&frame.pdu);
}

fn cause(cause: LeaveCause)
    ensures { FitsCause cause }
{
    match cause {
        LeaveCause::Ended | LeaveCause::Spent => {}
        LeaveCause::Down(number) => long(number),
    }
}

fn ring_entry(entry: &RingEntry)
    ensures { FitsRingEntry entry.now }
{
    match entry {
        RingEntry::Post { node, frame: sent } | RingEntry::Take { node, frame: sent } => {
            small_fits(*node);
            frame(sent);
        }
        RingEntry::Send { node, .. } | RingEntry::Join { node } => small_fits(*node),
        RingEntry::Local {
            node,
            id,
            op: local,
            result,
        } => {
            small_fits(*node);
            name(*id);
            op(local);
            outcome(result);
        }
        RingEntry::GiveUp { id, word: told } => {
            name(*id);
            word(*told);
        }
        RingEntry::Pass {
            node,
            words: global,
            ..
        } => {
            small_fits(*node);
            words(global.words());
        }
        RingEntry::Leave { node, cause: told } => {
            small_fits(*node);
            cause(*told);
        }
    }
}

/// Entries of a ring fit their types.
pub fn ring_entries_fit(entries: &[RingEntry])
    ensures { All FitsRingEntry entries.now }
{
    for at in 0..entries.len() {
        ring_entry(&entries[at]);
    }
}
