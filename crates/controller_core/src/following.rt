//! Following a history entry by entry, on the calls of a controller.
ghost use Rattle.std.specs.Prelude.{◌≡◌, ◌↔◌, Some, None, true, false, [], ◌∷◌, ◌++◌};
ghost use Rattle.std.specs.Prelude.{IfOk, IsTrue, OnErr};
ghost use Rattle.controller_core.specs.Controller.{answering, due_entry};
ghost use Rattle.controller_core.specs.Event.{maker_of};
ghost use Rattle.controller_core.specs.Following.{followed, followed_step, HasWords, MayFollow};

use crate::call::{Call, same_calls};
use crate::controller::Controller;
use crate::entry::{Entry, Maker};
use mstr_block::{CallId, MstrResult};
use plant_types::{Copied, List, Pdu};
use std::alloc::AllocError;

/// Whether a request has this reply.
fn is_reply(made: &Option<Pdu>, reply: &Pdu) -> bool
    ensures { IsTrue result ↔ (made.now ≡ Some reply.now) }
{
    match made {
        Some(made) => made.bytes() == reply.bytes(),
        None => false,
    }
}

/// Whether a request has no reply.
fn is_silence(made: &Option<Pdu>) -> bool
    ensures { IsTrue result ↔ (made.now ≡ None) }
{
    match made {
        Some(_) => false,
        None => true,
    }
}

impl Controller {
    /// Whether an entry is that of the step that is due.
    pub fn is_due(&self, entry: &Entry) -> bool
        ensures due { result ≡ true → due_entry self.now ≡ Some entry.now }
        ensures other { result ≡ false → ¬ (due_entry self.now ≡ Some entry.now) }
    {
        let Some(due) = self.due() else {
            return false;
        };
        let Some(step) = entry.step() else {
            return false;
        };
        due == step && self.has_words(entry)
    }

    /// Makes the step that is due, if an entry is that of it, and answers whether it is.
    fn follow_step(&mut self, entry: &Entry) -> Result<bool, AllocError>
        requires { maker_of entry.now ≡ Maker.Scan }
        ensures state { IfOk result (λ same. self.new ≡ followed_step self.old same) }
        ensures legal { IfOk result (λ same. (same ≡ true) ↔ MayFollow self.old entry.now) }
        ensures err { OnErr result (self.new ≡ self.old) }
    {
        if !self.is_due(entry) {
            return Ok(false);
        }
        self.reserve_scan()?;
        self.step();
        Ok(true)
    }

    /// Collects, if a call is there to collect, and answers whether these are the calls.
    fn follow_collect(&mut self, calls: &List<Call>) -> Result<bool, AllocError>
        ensures state { IfOk result (λ same.
            self.new ≡ followed self.old (Entry.Collect calls.now) same) }
        ensures legal { IfOk result (λ same.
            (same ≡ true) ↔ MayFollow self.old (Entry.Collect calls.now)) }
        ensures err { OnErr result (self.new ≡ self.old) }
    {
        if !self.has_started() {
            return Ok(false);
        }
        let made = self.collect()?;
        Ok(same_calls(made.as_slice(), calls.as_slice()))
    }

    /// Takes a request, and answers whether this is the reply.
    fn follow_peer(&mut self, id: CallId, request: &Pdu, reply: &Pdu) -> Result<bool, AllocError>
        ensures state { IfOk result (λ same.
            self.new ≡ answering self.old id request.now) }
        ensures legal { IfOk result (λ same.
            (same ≡ true) ↔ MayFollow self.old (Entry.Peer id request.now reply.now)) }
        ensures err { OnErr result (self.new ≡ self.old) }
    {
        let made = self.peer(id, request)?;
        Ok(is_reply(&made, reply))
    }

    /// Takes a request, and answers whether it has no reply.
    fn follow_off(&mut self, id: CallId, request: &Pdu) -> Result<bool, AllocError>
        ensures state { IfOk result (λ same.
            self.new ≡ answering self.old id request.now) }
        ensures legal { IfOk result (λ same.
            (same ≡ true) ↔ MayFollow self.old (Entry.Off id request.now)) }
        ensures err { OnErr result (self.new ≡ self.old) }
    {
        let made = self.peer(id, request)?;
        Ok(is_silence(&made))
    }

    /// Gives a call its result, if it is one that was collected and has none, and answers whether
    /// it is.
    fn follow_finish(&mut self, id: CallId, outcome: &MstrResult) -> Result<bool, AllocError>
        ensures state { IfOk result (λ same.
            self.new ≡ followed self.old (Entry.Finish id outcome.now) same) }
        ensures legal { IfOk result (λ same.
            (same ≡ true) ↔ MayFollow self.old (Entry.Finish id outcome.now)) }
        ensures err { OnErr result (self.new ≡ self.old) }
    {
        if !self.is_out(id) {
            return Ok(false);
        }
        let outcome = outcome.copied(self.alloc())?;
        self.finish(id, outcome)?;
        Ok(true)
    }

    /// Makes what an entry says, as far as it goes, and answers whether it may come next.
    fn follow_entry(&mut self, entry: &Entry) -> Result<bool, AllocError>
        ensures state { IfOk result (λ same. self.new ≡ followed self.old entry.now same) }
        ensures legal { IfOk result (λ same. (same ≡ true) ↔ MayFollow self.old entry.now) }
        ensures err { OnErr result (self.new ≡ self.old) }
    {
        match entry {
            Entry::Collect(calls) => self.follow_collect(calls),
            Entry::Peer { id, request, reply } => self.follow_peer(*id, request, reply),
            Entry::Off { id, request } => self.follow_off(*id, request),
            Entry::Finish { id, result } => self.follow_finish(*id, result),
            _ => self.follow_step(entry),
        }
    }

    /// Follows an entry, and answers whether it may come next: the step that is due is made if it
    /// is the one of the entry; calls are collected, and compared with those of the entry; a
    /// request is taken, and its reply compared, if it has one; a call that is out comes to its
    /// result. Where the answer is false, the entry isn't legal here.
    pub fn follow(&mut self, entry: &Entry) -> Result<bool, AllocError>
        ensures state { IfOk result (λ same. self.new ≡ followed self.old entry.now same) }
        ensures legal { IfOk result (λ same. (same ≡ true) ↔ MayFollow self.old entry.now) }
        ensures takes { IfOk result (λ same. same ≡ true
            → self.new.history ≡ self.old.history ++ entry.now ∷ []) }
        ensures fixed { self.new.fixed ≡ self.old.fixed }
        ensures err { OnErr result (self.new ≡ self.old) }
    {
        self.follow_entry(entry)
    }
}
