//! The entries of a bridge's history. This project's own.
ghost use Rattle.std.specs.Prelude.{◌≡◌, IfOk};
ghost use Rattle.bridge_relay.specs.Machine.{side_of};
ghost use Rattle.bridge_relay.specs.Bridge.{frame_made};

use plant_types::{Copied, Pdu, Route};
use ring_core::{CallId, Frame, FrameKind};
use std::alloc::{AllocError, Global};

/// What came of a request that a bridge gave on: a reply, which may be that of an exception, or an
/// error word.
#[derive(Drop)]
pub enum RelayResult {
    Reply(Pdu),
    Bad(u16),
}

/// One event of a bridge. The side is the address of the end that makes it.
pub enum BridgeEntry {
    /// It took this request, under this name, with what is left of its route.
    Accept {
        side: u8,
        id: CallId,
        route: Route,
        request: Pdu,
    },
    /// It sent on the request of the old name under a new one.
    Forward {
        side: u8,
        old: CallId,
        id: CallId,
        route: Route,
        request: Pdu,
    },
    /// The request that it sent on under this name came to this.
    Finish {
        side: u8,
        id: CallId,
        result: RelayResult,
    },
    /// It gave back this reply to the request that it took under this name.
    Back {
        side: u8,
        id: CallId,
        reply: Pdu,
    },
    /// It left for good.
    Gone {
        side: u8,
    },
}

impl Drop for BridgeEntry {
    fn drop(self) {
        match self {
            BridgeEntry::Accept {
                side: _,
                id: _,
                route: _,
                request: _,
            }
            | BridgeEntry::Forward {
                side: _,
                old: _,
                id: _,
                route: _,
                request: _,
            }
            | BridgeEntry::Finish {
                side: _,
                id: _,
                result: _,
            }
            | BridgeEntry::Back {
                side: _,
                id: _,
                reply: _,
            }
            | BridgeEntry::Gone { side: _ } => {}
        }
    }
}

impl BridgeEntry {
    /// The side that makes it.
    pub fn side(&self) -> u8
        ensures { result ≡ side_of self.now }
    {
        match self {
            BridgeEntry::Accept { side, .. } => *side,
            BridgeEntry::Forward { side, .. } => *side,
            BridgeEntry::Finish { side, .. } => *side,
            BridgeEntry::Back { side, .. } => *side,
            BridgeEntry::Gone { side } => *side,
        }
    }

    /// The frame that goes to the ring with it, if one does.
    pub(crate) fn frame(&self, alloc: Global) -> Result<Option<Frame>, AllocError>
        ensures { IfOk result (λ frame. frame ≡ frame_made self.now) }
    {
        match self {
            BridgeEntry::Forward {
                id,
                route,
                request,
                ..
            } => Ok(Some(Frame::request(*id, *route, request.copied(alloc)?))),
            BridgeEntry::Back { id, reply, .. } => Ok(Some(Frame {
                kind: FrameKind::Reply,
                to: id.node,
                rest: Route::of(&[]),
                id: *id,
                pdu: reply.copied(alloc)?,
            })),
            _ => Ok(None),
        }
    }
}

impl Copied for RelayResult {
    fn copied(&self, alloc: Global) -> Result<Self, AllocError> {
        match self {
            RelayResult::Reply(reply) => Ok(RelayResult::Reply(reply.copied(alloc)?)),
            RelayResult::Bad(word) => Ok(RelayResult::Bad(*word)),
        }
    }
}

impl Copied for BridgeEntry {
    fn copied(&self, alloc: Global) -> Result<Self, AllocError> {
        match self {
            BridgeEntry::Accept {
                side,
                id,
                route,
                request,
            } => Ok(BridgeEntry::Accept {
                side: *side,
                id: *id,
                route: *route,
                request: request.copied(alloc)?,
            }),
            BridgeEntry::Forward {
                side,
                old,
                id,
                route,
                request,
            } => Ok(BridgeEntry::Forward {
                side: *side,
                old: *old,
                id: *id,
                route: *route,
                request: request.copied(alloc)?,
            }),
            BridgeEntry::Finish { side, id, result } => Ok(BridgeEntry::Finish {
                side: *side,
                id: *id,
                result: result.copied(alloc)?,
            }),
            BridgeEntry::Back { side, id, reply } => Ok(BridgeEntry::Back {
                side: *side,
                id: *id,
                reply: reply.copied(alloc)?,
            }),
            BridgeEntry::Gone { side } => Ok(BridgeEntry::Gone { side: *side }),
        }
    }
}
