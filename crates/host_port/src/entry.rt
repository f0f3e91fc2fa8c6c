//! The entries of a host's history. This project's own.
ghost use Rattle.std.specs.Prelude.{◌≡◌};
ghost use Rattle.host_port.specs.Calls.{is_ask};

use plant_types::{Copied, Pdu, Route};
use ring_core::CallId;
use std::alloc::{AllocError, Global};

/// What came of a host's request: a reply, which may be that of an exception, or an error word.
#[derive(Drop)]
pub enum HostResult {
    Reply(Pdu),
    Bad(u16),
}

/// One event of a host.
pub enum HostEntry {
    /// It made this request, under this name, by a route of at least one address.
    Ask {
        id: CallId,
        route: Route,
        pdu: Pdu,
    },
    /// The request of this name came to this.
    Answer {
        id: CallId,
        result: HostResult,
    },
    /// A request of another node, named by who asked, was given this reply.
    Served {
        id: CallId,
        request: Pdu,
        reply: Pdu,
    },
}

impl Drop for HostEntry {
    fn drop(self) {
        match self {
            HostEntry::Ask {
                id: _,
                route: _,
                pdu: _,
            }
            | HostEntry::Answer { id: _, result: _ }
            | HostEntry::Served {
                id: _,
                request: _,
                reply: _,
            } => {}
        }
    }
}

impl HostEntry {
    pub(crate) fn is_ask(&self) -> bool
        ensures { result ≡ is_ask self.now }
    {
        matches!(self, HostEntry::Ask { .. })
    }
}

impl Copied for HostResult {
    fn copied(&self, alloc: Global) -> Result<Self, AllocError> {
        match self {
            HostResult::Reply(reply) => Ok(HostResult::Reply(reply.copied(alloc)?)),
            HostResult::Bad(word) => Ok(HostResult::Bad(*word)),
        }
    }
}

impl Copied for HostEntry {
    fn copied(&self, alloc: Global) -> Result<Self, AllocError> {
        match self {
            HostEntry::Ask { id, route, pdu } => Ok(HostEntry::Ask {
                id: *id,
                route: *route,
                pdu: pdu.copied(alloc)?,
            }),
            HostEntry::Answer { id, result } => Ok(HostEntry::Answer {
                id: *id,
                result: result.copied(alloc)?,
            }),
            HostEntry::Served { id, request, reply } => Ok(HostEntry::Served {
                id: *id,
                request: request.copied(alloc)?,
                reply: reply.copied(alloc)?,
            }),
        }
    }
}
