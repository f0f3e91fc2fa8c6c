//! The bridge: its plan, its ends and its history.
ghost use Rattle.std.specs.Prelude.{◌≡◌, ◌+◌, ◌<◌, ◌≤◌, ◌++◌, ◌∷◌, [], ◌↔◌, true, Some, None, IfOk};
ghost use Rattle.std.specs.Prelude.{OnOk, OnErr, MatchOption, vec_len, vec_capacity};
ghost use Rattle.std.specs.Option.{option_and_then};
ghost use Rattle.plant_types.specs.Plans.{IsBridgePlan};
ghost use Rattle.bridge_relay.specs.Machine.{near_end, relay_after, is_idle_end, none_out};
ghost use Rattle.bridge_relay.specs.Legal.{IsEnd, IsOpenEnd, is_call_out, due_forward, due_back};
ghost use Rattle.bridge_relay.specs.Legal.{IsBridgeStep, IsBridgeHistory};
ghost use Rattle.bridge_relay.specs.Bridge.{frame_made, entry_made, entry_due, BridgeWentOn};
ghost use Rattle.bridge_relay.specs.Bridge.{IsForwarded, IsGivenBack};

use crate::entry::{BridgeEntry, RelayResult};
use crate::relay::Relay;
use plant_types::{BridgePlan, Copied, List, Pdu, Route};
use ring_core::{CallId, Frame, is_path};
use std::alloc::{AllocError, Global};
use std::marker::Model;

/// A bridge with the history of what it took, sent on, was told and gave back. This project's own.
pub struct Bridge {
    alloc: Global,
    plan: BridgePlan,
    relay: Relay,
    history: Vec<BridgeEntry>,
}

impl Model for Bridge {
    ghost use Rattle.bridge_relay.specs.Bridge.{BridgeIs};
    ghost use Rattle.bridge_relay.specs.Kept.{IsBridge};

    ghost Value = { BridgeIs };

    ghost view = { λ b. record { plan = b.plan; history = b.history.items } };

    ghost invariant = { λ b. IsBridge b.plan b.relay b.history.items };
}

impl Drop for Bridge {
    fn drop(self) {
        let Bridge {
            alloc: _,
            plan: _,
            relay: _,
            history: _,
        } = self;
    }
}

/// Room for one more entry.
fn make_room(history: &mut Vec<BridgeEntry>) -> Result<(), AllocError>
    ensures items { history.new.items ≡ history.old.items }
    ensures ok { OnOk result (vec_len history.new < vec_capacity history.new) }
{
    history.try_reserve(1)
}

/// One more entry, for which there is room.
fn put(history: &mut Vec<BridgeEntry>, entry: BridgeEntry)
    requires { vec_len history.old < vec_capacity history.old }
    ensures { history.new.items ≡ history.old.items ++ entry ∷ [] }
{
    let _ = history.push(entry);
}

impl Bridge {
    /// A bridge that has done nothing yet.
    pub fn new(alloc: Global, plan: &BridgePlan) -> Result<Bridge, AllocError>
        requires { IsBridgePlan plan.now }
        ensures { IfOk result (λ bridge. bridge ≡ record { plan = plan.now; history = [] }) }
    {
        Ok(Bridge {
            alloc,
            plan: *plan,
            relay: Relay::new(alloc),
            history: Vec::new(alloc),
        })
    }

    /// What it takes memory from.
    pub(crate) fn alloc(&self) -> Global {
        self.alloc
    }

    /// What it took, sent on, was told and gave back so far. It is always legal.
    pub fn history(&self) -> &[BridgeEntry]
        ensures history { result.now ≡ self.now.history }
        ensures legal { IsBridgeHistory self.now.plan self.now.history }
        ensures sound { IsBridgePlan self.now.plan }
    {
        self.history.as_slice()
    }

    /// The history alone; takes no memory.
    pub fn into_history(self) -> List<BridgeEntry>
        ensures history { result ≡ self.history }
        ensures legal { IsBridgeHistory self.plan self.history }
    {
        let Bridge {
            alloc: _,
            plan: _,
            relay: _,
            history,
        } = self;
        List::from_vec(history)
    }

    /// Whether this is the address of an end that has not left.
    pub fn is_open(&self, side: u8) -> bool
        ensures only { result ≡ true → IsOpenEnd self.now.plan self.now.history side }
        ensures all { IsOpenEnd self.now.plan self.now.history side → result ≡ true }
    {
        if side != self.plan.left && side != self.plan.right {
            return false;
        }
        !self.relay.near(&self.plan, side).is_gone()
    }

    /// Whether no call of an end is out.
    pub fn has_none_out(&self, side: u8) -> bool
        requires { IsEnd self.now.plan side }
        ensures { result
            ≡ none_out (near_end self.now.plan (relay_after self.now.plan self.now.history) side) }
    {
        self.relay.near(&self.plan, side).none_out()
    }

    /// Whether the call of this name is out at an end.
    pub fn is_out(&self, side: u8, id: CallId) -> bool
        requires { IsEnd self.now.plan side }
        ensures { result ≡ is_call_out self.now.plan self.now.history side id }
    {
        if id.node != side || !is_path(id.path) {
            return false;
        }
        self.relay.near(&self.plan, side).is_out(id)
    }

    /// Whether an end has nothing to send, out or to give back.
    pub fn is_idle(&self, side: u8) -> bool
        requires { IsEnd self.now.plan side }
        ensures { result
            ≡ is_idle_end (near_end self.now.plan (relay_after self.now.plan self.now.history)
            side) }
    {
        self.relay.near(&self.plan, side).is_idle()
    }

    /// Whether a Forward is due.
    pub(crate) fn is_due_forward(
        &self,
        side: u8,
        old: CallId,
        id: CallId,
        route: Route,
        request: &Pdu,
    ) -> bool
        requires { IsEnd self.now.plan side }
        ensures { (result ≡ true) ↔ (due_forward self.now.plan self.now.history side
            ≡ Some (BridgeEntry.Forward side old id route request.now)) }
    {
        let end = self.relay.near(&self.plan, side);
        end.is_due_forward(side, old, id, route, request)
    }

    /// Whether a Back is due.
    pub(crate) fn is_due_back(&self, side: u8, id: CallId, reply: &Pdu) -> bool
        requires { IsEnd self.now.plan side }
        ensures { (result ≡ true) ↔ (due_back self.now.plan self.now.history side
            ≡ Some (BridgeEntry.Back side id reply.now)) }
    {
        self.relay.near(&self.plan, side).is_due_back(id, reply)
    }

    /// Takes up an entry that may come next.
    pub(crate) fn note(&mut self, entry: BridgeEntry) -> Result<(), AllocError>
        requires { IsBridgeStep self.old.plan self.old.history entry }
        ensures err { OnErr result (self.new ≡ self.old) }
        ensures went_on { BridgeWentOn (entry_made entry result) self.old self.new }
    {
        make_room(&mut self.history)?;
        self.relay.step(self.alloc, &self.plan, &entry)?;
        put(&mut self.history, entry);
        Ok(())
    }

    /// Takes a request that came to an end, under its name and with what is left of its route: it
    /// waits to go on from the end across, or is answered at once.
    pub fn accept(
        &mut self,
        side: u8,
        id: CallId,
        route: Route,
        request: &Pdu,
    ) -> Result<(), AllocError>
        requires { IsOpenEnd self.old.plan self.old.history side }
        ensures err { OnErr result (self.new ≡ self.old) }
        ensures went_on { BridgeWentOn
            (entry_made (BridgeEntry.Accept side id route request.now) result) self.old self.new }
    {
        self.note(BridgeEntry::Accept {
            side,
            id,
            route,
            request: request.copied(self.alloc)?,
        })
    }

    /// Sends the first request of an end on, and answers its frame, which goes to the ring of that
    /// side: None exactly where nothing waits there or no path of the end is free.
    pub fn forward(&mut self, side: u8) -> Result<Option<Frame>, AllocError>
        requires { IsOpenEnd self.old.plan self.old.history side }
        ensures frame { IfOk result (λ frame. frame
            ≡ option_and_then frame_made (due_forward self.old.plan self.old.history side)) }
        ensures due { IfOk result (λ frame. MatchOption frame
            (due_forward self.old.plan self.old.history side ≡ None)
            (IsForwarded self.old.plan self.old.history side)) }
        ensures err { OnErr result (self.new ≡ self.old) }
        ensures went_on { BridgeWentOn
            (entry_due (due_forward self.old.plan self.old.history side) result)
            self.old self.new }
    {
        let end = self.relay.near(&self.plan, side);
        let Some(entry) = end.due_forward(self.alloc, side)? else {
            return Ok(None);
        };
        self.send(entry)
    }

    /// Takes up an entry that is due, and answers its frame.
    fn send(&mut self, entry: BridgeEntry) -> Result<Option<Frame>, AllocError>
        requires { IsBridgeStep self.old.plan self.old.history entry }
        ensures frame { IfOk result (λ frame. frame ≡ frame_made entry) }
        ensures err { OnErr result (self.new ≡ self.old) }
        ensures went_on { BridgeWentOn (entry_made entry result) self.old self.new }
    {
        let frame = entry.frame(self.alloc)?;
        self.note(entry)?;
        Ok(frame)
    }

    /// The call of this name came to this: its path is free, and its reply waits at the end across.
    pub fn finish(&mut self, side: u8, id: CallId, outcome: RelayResult) -> Result<(), AllocError>
        requires open { IsOpenEnd self.old.plan self.old.history side }
        requires out { is_call_out self.old.plan self.old.history side id ≡ true }
        ensures err { OnErr result (self.new ≡ self.old) }
        ensures went_on { BridgeWentOn
            (entry_made (BridgeEntry.Finish side id outcome) result) self.old self.new }
    {
        self.note(BridgeEntry::Finish {
            side,
            id,
            result: outcome,
        })
    }

    /// Gives the first reply of an end back, and answers its frame, which goes to the ring of that
    /// side: None exactly where no reply waits there.
    pub fn back(&mut self, side: u8) -> Result<Option<Frame>, AllocError>
        requires { IsOpenEnd self.old.plan self.old.history side }
        ensures frame { IfOk result (λ frame. frame
            ≡ option_and_then frame_made (due_back self.old.plan self.old.history side)) }
        ensures due { IfOk result (λ frame. MatchOption frame
            (due_back self.old.plan self.old.history side ≡ None)
            (IsGivenBack self.old.plan self.old.history side)) }
        ensures err { OnErr result (self.new ≡ self.old) }
        ensures went_on { BridgeWentOn
            (entry_due (due_back self.old.plan self.old.history side) result)
            self.old self.new }
    {
        let end = self.relay.near(&self.plan, side);
        let Some(entry) = end.due_back(self.alloc, side)? else {
            return Ok(None);
        };
        self.send(entry)
    }

    /// An end leaves for good: each request that it had to send is answered, that the path is not
    /// there.
    pub fn gone(&mut self, side: u8) -> Result<(), AllocError>
        requires open { IsOpenEnd self.old.plan self.old.history side }
        requires none_out { none_out (near_end self.old.plan
            (relay_after self.old.plan self.old.history) side) ≡ true }
        ensures err { OnErr result (self.new ≡ self.old) }
        ensures went_on { BridgeWentOn
            (entry_made (BridgeEntry.Gone side) result) self.old self.new }
    {
        self.note(BridgeEntry::Gone { side })
    }
}
