//! The calls that a controller's MSTR blocks make.
ghost use Rattle.std.specs.Prelude.{◌≡◌, ◌↔◌, IfOk, IsTrue};
ghost use Rattle.mstr_block.specs.Running.{MayBeAsked, IsCall};
ghost use Rattle.modbus_pdu.specs.Spelling.{IsRequestInRange};
ghost use Rattle.controller_core.specs.Calls.{call_of, kind_of, net_request};

use modbus_pdu::{Request, encode_request};
use mstr_block::{CallId, MstrAsk, MstrCall};
use plant_types::{Copied, Pdu, Route, Words};
use ring_core::LocalOp;
use std::alloc::{AllocError, Global};

/// What a call is for (*Modicon Ladder Logic Block Library User Guide*).
pub enum CallKind {
    /// A request by a route to another node: at least one address, each 1 to 64.
    Net { route: Route, pdu: Pdu },
    /// What the own station does itself.
    Local(LocalOp),
}

impl Drop for CallKind {
    fn drop(self) {
        match self {
            CallKind::Net { route: _, pdu: _ } | CallKind::Local(_) => {}
        }
    }
}

/// A call with its name.
pub struct Call {
    pub id: CallId,
    pub kind: CallKind,
}

impl Drop for Call {
    fn drop(self) {
        let Call { id: _, kind: _ } = self;
    }
}

fn net_request(alloc: Global, route: Route, request: &Request) -> Result<CallKind, AllocError>
    requires { IsRequestInRange request.now }
    ensures { IfOk result (λ kind. kind ≡ net_request route request.now) }
{
    Ok(CallKind::Net {
        route,
        pdu: encode_request(alloc, request)?,
    })
}

impl CallKind {
    /// What a block of the station at an address asks for.
    fn of(alloc: Global, routed: bool, own: u8, ask: &MstrAsk) -> Result<CallKind, AllocError>
        requires { MayBeAsked routed own ask.now }
        ensures { IfOk result (λ kind. kind ≡ kind_of ask.now) }
    {
        match ask {
            MstrAsk::Write {
                route,
                start,
                words,
            } => {
                let address = *start - 1;
                let words = Words::of(alloc, words.words())?;
                net_request(alloc, *route, &Request::WriteRegisters { address, words })
            }
            MstrAsk::Read {
                route,
                start,
                length,
            } => {
                let (address, quantity) = (*start - 1, *length);
                net_request(alloc, *route, &Request::ReadRegisters { address, quantity })
            }
            MstrAsk::RemoteStats { route } => {
                net_request(alloc, *route, &Request::Stats { clear: false })
            }
            MstrAsk::ClearRemote { route } => {
                net_request(alloc, *route, &Request::Stats { clear: true })
            }
            MstrAsk::LocalStats => Ok(CallKind::Local(LocalOp::GetStats)),
            MstrAsk::ClearLocal => Ok(CallKind::Local(LocalOp::ClearStats)),
            MstrAsk::PutGlobal(words) => {
                let words = Words::of(alloc, words.words())?;
                Ok(CallKind::Local(LocalOp::PutGlobal(words)))
            }
            MstrAsk::GetGlobal { node, length } => Ok(CallKind::Local(LocalOp::GetGlobal {
                node: *node,
                length: *length,
            })),
        }
    }
}

impl Call {
    /// The call that a block of the station at an address started.
    pub(crate) fn of(
        alloc: Global,
        routed: bool,
        own: u8,
        call: &MstrCall,
    ) -> Result<Call, AllocError>
        requires { IsCall routed own call.now }
        ensures { IfOk result (λ made. made ≡ call_of call.now) }
    {
        Ok(Call {
            id: call.id,
            kind: CallKind::of(alloc, routed, own, &call.ask)?,
        })
    }
}

/// Whether two calls are for one thing.
fn is_same_kind(one: &CallKind, other: &CallKind) -> bool
    ensures { IsTrue result ↔ (one.now ≡ other.now) }
{
    match one {
        CallKind::Net { route, pdu } => match other {
            CallKind::Net {
                route: way,
                pdu: bytes,
            } => route.addresses() == way.addresses() && pdu.bytes() == bytes.bytes(),
            CallKind::Local(_) => false,
        },
        CallKind::Local(op) => match other {
            CallKind::Local(done) => op.is_same(done),
            CallKind::Net { .. } => false,
        },
    }
}

/// Whether two calls are one.
fn is_same_call(one: &Call, other: &Call) -> bool
    ensures { IsTrue result ↔ (one.now ≡ other.now) }
{
    one.id == other.id && is_same_kind(&one.kind, &other.kind)
}

/// Whether these calls are the others, in their order.
pub(crate) fn same_calls(calls: &[Call], others: &[Call]) -> bool
    ensures { IsTrue result ↔ (calls.now ≡ others.now) }
{
    if calls.len() != others.len() {
        return false;
    }
    for (place, call) in calls.iter().enumerate() {
        if !is_same_call(call, &others[place]) {
            return false;
        }
    }
    true
}
