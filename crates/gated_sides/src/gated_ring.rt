//! The ring behind a gate, as one node's worker goes through it.
ghost use Rattle.std.specs.Prelude.{◌≡◌, ◌<◌, All};
ghost use Rattle.ring_core.specs.Words.{maker};
ghost use Rattle.ring_core.specs.Machine.{addresses};
ghost use Rattle.turn_gate.specs.Known.{IsPassReady};

use crate::cells::RingCell;
use crate::meets::Meet;
use crate::tallies::{Outside, Tally};
use bridge_port::RingSide;
use mstr_block::{CallId, MstrResult};
use ring_core::{Frame, Heard, LeaveCause, LocalOp, NodeStatus, Ring, RingNo};
use std::marker::Model;
use std::sync::Wait;
use std::sync::atomic::AtomicU64;
use turn_gate::{Gate, Pass};

/// The side of the ring over its gate: each call is one stay, and adds at most its own entry, in
/// the name of the node that is the number of the pass.
pub struct GatedRing<'a, M: Meet, R: Wait> {
    rt: &'a R,
    tally: Tally<'a, M>,
    gate: &'a Gate<RingCell>,
    pass: Pass<RingCell>,
}

impl<'a, M: Meet, R: Wait> Model for GatedRing<'a, M, R> {
    ghost use Rattle.gated_sides.specs.Sides.{GatedRingIs, IsAtRing};

    ghost Value = { GatedRingIs };

    ghost view = { λ s. record { gate = s.gate.now; number = s.pass.number; seen = s.pass.seen } };

    ghost invariant = { λ s. IsAtRing s.pass.number s.gate.now s.pass };
}

impl<'a, M: Meet, R: Wait> GatedRing<'a, M, R> {
    /// A side with a pass whose number is the node in whose name it writes. All sides of a ring
    /// share one word, which tells outside the gate which node was given the token last.
    pub fn new(
        rt: &'a R,
        meet: &'a M,
        token: &'a AtomicU64,
        gate: &'a Gate<RingCell>,
        pass: Pass<RingCell>,
    ) -> GatedRing<'a, M, R>
        requires ready { IsPassReady maker pass.number gate.now.name pass }
        requires members { All (λ m. m < addresses) gate.now.fixed.members }
        ensures { result ≡ record { gate = gate.now; number = pass.number; seen = pass.seen } }
    {
        GatedRing {
            rt,
            tally: Tally::new(meet, token),
            gate,
            pass,
        }
    }

    /// Its pass, with all that it has seen.
    pub fn into_pass(self) -> Pass<RingCell>
        ensures ready { IsPassReady maker self.entry.number self.entry.gate.name result }
        ensures seen { result.seen ≡ self.entry.seen }
    {
        let GatedRing {
            rt: _,
            tally: _,
            gate: _,
            pass,
        } = self;
        pass
    }
}

impl<'a, M: Meet, R: Wait> Outside for GatedRing<'a, M, R> {
    fn entries(&self) -> u64 {
        self.tally.entries()
    }

    fn may_hold(&self, node: u8) -> bool {
        self.tally.may_hold(node)
    }
}

impl<'a, M: Meet, R: Wait> RingSide for GatedRing<'a, M, R> {
    ghost use Rattle.std.specs.Prelude.{false, Some};

    type Place = Gate<RingCell>;

    ghost side = { λ s. record { net = s.gate.fixed; writer = Some s.number; place = s.gate } };

    ghost known = { λ s. s.seen };

    ghost alone = { false };

    ghost room = { λ s. 0 };

    fn post(&mut self, node: u8, frame: Frame) -> Result<(), RingNo> {
        let mut held = self.gate.enter(self.rt, &mut self.pass);
        let ring = held.value().get_mut();
        let _ = ring.history();
        let answer = RingSide::post(ring, node, frame);
        self.gate.leave(&mut self.pass, held);
        if answer.is_ok() {
            self.tally.tell(node);
        }
        answer
    }

    fn send(&mut self, node: u8) -> Result<Heard, RingNo> {
        let mut held = self.gate.enter(self.rt, &mut self.pass);
        let ring = held.value().get_mut();
        let answer = RingSide::send(ring, node);
        self.gate.leave(&mut self.pass, held);
        if answer.is_ok() {
            self.tally.tell(node);
        }
        answer
    }

    fn take(&mut self, node: u8) -> Result<Option<Frame>, RingNo> {
        let mut held = self.gate.enter(self.rt, &mut self.pass);
        let ring = held.value().get_mut();
        let answer = RingSide::take(ring, node);
        self.gate.leave(&mut self.pass, held);
        if matches!(&answer, Ok(Some(_))) {
            self.tally.tell(node);
        }
        answer
    }

    fn local(&mut self, node: u8, id: CallId, op: LocalOp) -> Result<MstrResult, RingNo> {
        let mut held = self.gate.enter(self.rt, &mut self.pass);
        let ring = held.value().get_mut();
        let answer = RingSide::local(ring, node, id, op);
        self.gate.leave(&mut self.pass, held);
        if answer.is_ok() {
            self.tally.tell(node);
        }
        answer
    }

    fn give_up(&mut self, id: CallId) -> Result<u16, RingNo> {
        let mut held = self.gate.enter(self.rt, &mut self.pass);
        let ring = held.value().get_mut();
        let answer = RingSide::give_up(ring, id);
        self.gate.leave(&mut self.pass, held);
        if answer.is_ok() {
            self.tally.tell(id.node);
        }
        answer
    }

    fn awaits(&mut self, node: u8, path: u8) -> u32 {
        let mut held = self.gate.enter(self.rt, &mut self.pass);
        let ring = held.value().get_mut();
        let answer = RingSide::awaits(ring, node, path);
        self.gate.leave(&mut self.pass, held);
        answer
    }

    fn holder(&mut self) -> u8 {
        let mut held = self.gate.enter(self.rt, &mut self.pass);
        let ring = held.value().get_mut();
        let answer = RingSide::holder(ring);
        self.gate.leave(&mut self.pass, held);
        answer
    }

    fn quiet(&mut self, node: u8) -> u64 {
        let mut held = self.gate.enter(self.rt, &mut self.pass);
        let ring = held.value().get_mut();
        let answer = RingSide::quiet(ring, node);
        self.gate.leave(&mut self.pass, held);
        answer
    }

    fn only_bridges(&mut self, node: u8) -> bool {
        let mut held = self.gate.enter(self.rt, &mut self.pass);
        let ring = held.value().get_mut();
        let answer = RingSide::only_bridges(ring, node);
        self.gate.leave(&mut self.pass, held);
        answer
    }

    fn pass(&mut self, node: u8, done: bool) -> Result<(), RingNo> {
        let mut held = self.gate.enter(self.rt, &mut self.pass);
        let ring = held.value().get_mut();
        let _ = ring.history();
        let answer = RingSide::pass(ring, node, done);
        self.tally.note(Ring::holder(ring));
        self.gate.leave(&mut self.pass, held);
        if answer.is_ok() {
            self.tally.tell(node);
        }
        answer
    }

    fn leave(&mut self, node: u8, cause: LeaveCause) -> Result<(), RingNo> {
        let mut held = self.gate.enter(self.rt, &mut self.pass);
        let ring = held.value().get_mut();
        let answer = RingSide::leave(ring, node, cause);
        self.tally.note(Ring::holder(ring));
        self.gate.leave(&mut self.pass, held);
        if answer.is_ok() {
            self.tally.tell(node);
        }
        answer
    }

    fn join(&mut self, node: u8) -> Result<(), RingNo> {
        let mut held = self.gate.enter(self.rt, &mut self.pass);
        let ring = held.value().get_mut();
        let answer = RingSide::join(ring, node);
        self.tally.note(Ring::holder(ring));
        self.gate.leave(&mut self.pass, held);
        if answer.is_ok() {
            self.tally.tell(node);
        }
        answer
    }

    fn status(&mut self, node: u8) -> NodeStatus {
        let mut held = self.gate.enter(self.rt, &mut self.pass);
        let ring = held.value().get_mut();
        let answer = RingSide::status(ring, node);
        self.gate.leave(&mut self.pass, held);
        answer
    }
}
