//! One end of a bridge: what it has to send and to give back, and its paths.
ghost use Rattle.std.specs.Prelude.{◌≡◌, ◌↔◌, ◌∷◌, [], true, Some, is_some, IfOk, IfSome, OnOk};
ghost use Rattle.std.specs.Prelude.{OnErr, slice_get, option_map, length};
ghost use Rattle.ring_core.specs.Legal.{IsPath};
ghost use Rattle.bridge_relay.specs.Machine.{new_end, unused_path, relay_path, is_out_on, none_out};
ghost use Rattle.bridge_relay.specs.Machine.{is_free_relay_path, free_relay_path, is_idle_end};
ghost use Rattle.bridge_relay.specs.Machine.{queues, gives, out_call};
ghost use Rattle.bridge_relay.specs.Machine.{sent_on, freed, given_back, left_for_good};
ghost use Rattle.bridge_relay.specs.Legal.{forward_id, forward_by};
ghost use Rattle.bridge_relay.specs.Kept.{IsFreePath, returned_by};

use crate::entry::BridgeEntry;
use plant_types::{Copied, NETWORK_PATH_COUNT, NETWORK_PATHS, Pdu, Route};
use ring_core::CallId;
use std::alloc::{AllocError, Global};
use std::collections::VecDeque;
use std::marker::Model;

/// A request that an end has to send, under the name with which it came, and the way that is left.
pub(crate) struct Waiting {
    pub id: CallId,
    pub route: Route,
    pub request: Pdu,
}

impl Drop for Waiting {
    fn drop(self) {
        let Waiting {
            id: _,
            route: _,
            request: _,
        } = self;
    }
}

/// A reply that an end has to give back, under the name of its request.
pub(crate) struct Returned {
    pub id: CallId,
    pub reply: Pdu,
}

impl Drop for Returned {
    fn drop(self) {
        let Returned { id: _, reply: _ } = self;
    }
}

/// A call that is out: the name with which its request came, and the function code of that.
#[derive(Clone, Copy)]
pub(crate) struct OutCall {
    pub old: CallId,
    pub function: u8,
}

/// A path of an end: the number that it gave last, 0 for none, and the call that is out on it.
#[derive(Drop)]
pub(crate) struct RelayPath {
    pub last: u32,
    pub out: Option<OutCall>,
}

/// An end with its paths, and whether it has left for good.
pub(crate) struct End {
    to_send: VecDeque<Waiting>,
    to_give: VecDeque<Returned>,
    paths: [RelayPath; NETWORK_PATH_COUNT],
    gone: bool,
}

impl Model for End {
    ghost use Rattle.bridge_relay.specs.Machine.{EndIs};

    ghost Value = { EndIs };

    ghost view = { λ e. record {
      to_send = e.to_send.items;
      to_give = e.to_give.items;
      paths = e.paths;
      gone = e.gone;
    } };
}

impl Drop for End {
    fn drop(self) {
        let End {
            to_send: _,
            to_give: _,
            paths: _,
            gone: _,
        } = self;
    }
}

/// A path that was not used yet.
fn unused_path() -> RelayPath
    ensures { result ≡ unused_path }
{
    RelayPath { last: 0, out: None }
}

impl RelayPath {
    /// A call is out on it.
    fn is_taken(&self) -> bool
        ensures { result ≡ is_some self.now.out }
    {
        self.out.is_some()
    }
}

impl Waiting {
    /// This request, with memory of its own.
    pub fn of(alloc: Global, id: CallId, route: Route, request: &Pdu) -> Result<Waiting, AllocError>
        ensures { IfOk result
            (λ item. item ≡ record { id = id; route = route; request = request.now }) }
    {
        let request = request.copied(alloc)?;
        Ok(Waiting { id, route, request })
    }

    /// Whether it is this request, under this name and by this route.
    fn is(&self, id: CallId, route: Route, request: &Pdu) -> bool
        ensures { (result ≡ true)
            ↔ (self.now ≡ record { id = id; route = route; request = request.now }) }
    {
        self.id == id
            && self.route.addresses() == route.addresses()
            && self.request.bytes() == request.bytes()
    }
}

impl OutCall {
    /// The call that sends this request on.
    pub fn of(old: CallId, request: &Pdu) -> OutCall
        ensures { result ≡ out_call old request.now }
    {
        let bytes = request.bytes();
        let function = bytes[0];
        OutCall { old, function }
    }
}

impl Returned {
    /// Whether it is this reply, under this name.
    fn is(&self, id: CallId, reply: &Pdu) -> bool
        ensures { (result ≡ true) ↔ (self.now ≡ record { id = id; reply = reply.now }) }
    {
        self.id == id && self.reply.bytes() == reply.bytes()
    }
}

impl End {
    /// An end that has done nothing yet.
    pub fn new(alloc: Global) -> End
        ensures { result ≡ new_end }
    {
        End {
            to_send: VecDeque::new(alloc),
            to_give: VecDeque::new(alloc),
            paths: [unused_path(), unused_path(), unused_path(), unused_path()],
            gone: false,
        }
    }

    /// It has left for good.
    pub fn is_gone(&self) -> bool
        ensures { result ≡ self.now.gone }
    {
        self.gone
    }

    /// How many requests it has to send.
    pub fn waiting(&self) -> usize
        ensures { result ≡ length self.now.to_send }
    {
        self.to_send.len()
    }

    /// No call is out.
    pub fn none_out(&self) -> bool
        ensures { result ≡ none_out self.now }
    {
        self.paths.iter().all(|path| !path.is_taken())
    }

    /// Nothing is to be sent, out or to be given back.
    pub fn is_idle(&self) -> bool
        ensures { result ≡ is_idle_end self.now }
    {
        self.to_send.len() == 0 && self.to_give.len() == 0 && self.none_out()
    }

    /// The number that a path gave last; 0 for none.
    fn last(&self, path: u8) -> u32
        requires { IsPath path }
        ensures { result ≡ (relay_path self.now path).last }
    {
        self.paths[usize::from(path) - 1].last
    }

    /// A call is out on a path.
    fn is_taken(&self, path: u8) -> bool
        requires { IsPath path }
        ensures { result ≡ is_some (relay_path self.now path).out }
    {
        self.paths[usize::from(path) - 1].is_taken()
    }

    /// The call of this name is out.
    pub fn is_out(&self, id: CallId) -> bool
        requires { IsPath id.path }
        ensures { result ≡ is_out_on (relay_path self.now id.path) id }
    {
        self.is_taken(id.path) && self.last(id.path) == id.seq
    }

    /// No call is out on a path, and it can give a number.
    fn is_free(&self, path: u8) -> bool
        requires { IsPath path }
        ensures { result ≡ is_free_relay_path self.now path }
    {
        !self.is_taken(path) && self.last(path) < u32::MAX
    }

    /// The least free path.
    fn free_path(&self) -> Option<u8>
        ensures free { result ≡ free_relay_path self.now }
        ensures path { IfSome result (IsFreePath self.now) }
    {
        for path in NETWORK_PATHS {
            if self.is_free(path) {
                return Some(path);
            }
        }
        None
    }

    /// The name of the next call on a free path.
    fn forward_id(&self, side: u8, path: u8) -> CallId
        requires { IsFreePath self.now path }
        ensures { result ≡ forward_id side self.now path }
    {
        CallId {
            node: side,
            path,
            seq: self.last(path) + 1,
        }
    }

    /// The Forward that is due, the end having this address.
    pub fn due_forward(&self, alloc: Global, side: u8) -> Result<Option<BridgeEntry>, AllocError>
        ensures { IfOk result (λ due. due ≡ forward_by side self.now
            (slice_get self.now.to_send 0) (free_relay_path self.now)) }
    {
        let (Some(item), Some(path)) = (self.to_send.front(), self.free_path()) else {
            return Ok(None);
        };
        Ok(Some(BridgeEntry::Forward {
            side,
            old: item.id,
            id: self.forward_id(side, path),
            route: item.route,
            request: item.request.copied(alloc)?,
        }))
    }

    /// The Back that is due, the end having this address.
    pub fn due_back(&self, alloc: Global, side: u8) -> Result<Option<BridgeEntry>, AllocError>
        ensures { IfOk result (λ due.
            due ≡ option_map (returned_by side) (slice_get self.now.to_give 0)) }
    {
        match self.to_give.front() {
            None => Ok(None),
            Some(item) => Ok(Some(BridgeEntry::Back {
                side,
                id: item.id,
                reply: item.reply.copied(alloc)?,
            })),
        }
    }

    /// Whether a Forward is due, the end having this address.
    pub fn is_due_forward(
        &self,
        side: u8,
        old: CallId,
        id: CallId,
        route: Route,
        request: &Pdu,
    ) -> bool
        ensures { (result ≡ true) ↔ (forward_by side self.now (slice_get self.now.to_send 0)
            (free_relay_path self.now) ≡ Some (BridgeEntry.Forward side old id route request.now)) }
    {
        let (Some(item), Some(path)) = (self.to_send.front(), self.free_path()) else {
            return false;
        };
        item.is(old, route, request) && self.forward_id(side, path) == id
    }

    /// Whether a Back is due, whatever the address of the end.
    pub fn is_due_back(&self, id: CallId, reply: &Pdu) -> bool
        ensures { (result ≡ true) ↔ (slice_get self.now.to_give 0
            ≡ Some (record { id = id; reply = reply.now })) }
    {
        match self.to_give.front() {
            None => false,
            Some(item) => item.is(id, reply),
        }
    }

    /// One more request to send.
    pub fn wait_for(&mut self, item: Waiting) -> Result<(), AllocError>
        ensures ok { OnOk result (self.new ≡ queues self.old item) }
        ensures err { OnErr result (self.new ≡ self.old) }
    {
        self.to_send.push_back(item)?;
        Ok(())
    }

    /// One more reply to give back.
    pub fn give(&mut self, item: Returned) -> Result<(), AllocError>
        ensures ok { OnOk result (self.new ≡ gives self.old (item ∷ [])) }
        ensures err { OnErr result (self.new ≡ self.old) }
    {
        self.to_give.push_back(item)?;
        Ok(())
    }

    /// Several more replies to give back.
    pub fn give_all(&mut self, mut items: VecDeque<Returned>) -> Result<(), AllocError>
        ensures ok { OnOk result (self.new ≡ gives self.old items.items) }
        ensures err { OnErr result (self.new ≡ self.old) }
    {
        self.to_give.append(&mut items)?;
        Ok(())
    }

    /// The first request that waits goes out as this call.
    pub fn send_on(&mut self, id: CallId, call: OutCall)
        requires { IsPath id.path }
        ensures { self.new ≡ sent_on self.old id call }
    {
        let _ = self.to_send.pop_front();
        self.paths[usize::from(id.path) - 1] = RelayPath {
            last: id.seq,
            out: Some(call),
        };
    }

    /// The call that is out on a path.
    pub fn call_out(&self, path: u8) -> Option<OutCall>
        requires { IsPath path }
        ensures { result ≡ (relay_path self.now path).out }
    {
        self.paths[usize::from(path) - 1].out
    }

    /// A path is free again.
    pub fn free(&mut self, path: u8)
        requires { IsPath path }
        ensures { self.new ≡ freed self.old path }
    {
        self.paths[usize::from(path) - 1].out = None;
    }

    /// The first reply leaves.
    pub fn give_back(&mut self)
        ensures { self.new ≡ given_back self.old }
    {
        let _ = self.to_give.pop_front();
    }

    /// The requests that wait.
    pub fn to_send(&self) -> &VecDeque<Waiting>
        ensures { result.now.items ≡ self.now.to_send }
    {
        &self.to_send
    }

    /// The end leaves for good.
    pub fn leave(&mut self)
        ensures { self.new ≡ left_for_good self.old }
    {
        self.to_send.clear();
        self.gone = true;
    }
}
