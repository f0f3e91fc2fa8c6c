//! Frames.
ghost use Rattle.std.specs.Prelude.{◌≡◌};
ghost use Rattle.ring_core.specs.Words.{request_along, is_request, is_onward, asks_for};

use mstr_block::CallId;
use plant_types::{Pdu, Route};

/// Whether a frame asks or answers.
#[derive(Clone, Copy, Debug, Drop, PartialEq, Eq)]
pub enum FrameKind {
    Request,
    Reply,
}

/// A message of one node to another (*Modbus Plus Network Planning and Installation Guide*).
#[derive(Drop)]
pub struct Frame {
    pub kind: FrameKind,
    /// The address that it goes to.
    pub to: u8,
    /// The addresses behind that one; a Reply has none.
    pub rest: Route,
    /// The call that it asks or answers.
    pub id: CallId,
    pub pdu: Pdu,
}

impl Frame {
    /// The Request of a call along a route: to its first address, 0 where there is none, with the
    /// others as its rest. Takes no memory.
    pub fn request(id: CallId, route: Route, pdu: Pdu) -> Frame
        ensures { result ≡ request_along id route pdu }
    {
        let kind = FrameKind::Request;
        let (to, rest) = route.split_first().unwrap_or((0, route));
        Frame {
            kind,
            to,
            rest,
            id,
            pdu,
        }
    }

    pub(crate) fn is_request(&self) -> bool
        ensures { result ≡ is_request self.now }
    {
        match self.kind {
            FrameKind::Request => true,
            FrameKind::Reply => false,
        }
    }

    /// Whether it is to go on from its target.
    pub(crate) fn is_onward(&self) -> bool
        ensures { result ≡ is_onward self.now }
    {
        !self.rest.addresses().is_empty()
    }

    // Whether it is the Request of this call.
    pub(crate) fn asks_for(&self, id: CallId) -> bool
        ensures { result ≡ asks_for id self.now }
    {
        self.is_request() && self.id.is_same(id)
    }
}
