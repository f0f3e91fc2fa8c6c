//! A tape behind a gate.
ghost use Rattle.std.specs.Prelude.{◌≡◌};
ghost use Rattle.gated_tape.specs.Marks.{node_of};
ghost use Rattle.turn_gate.specs.Known.{IsPassReady};

use crate::cells::TapeCell;
use crate::refusals::PutNo;
use crate::sides::Side;
use crate::tapes::Tape;
use std::marker::Model;
use std::sync::Wait;
use turn_gate::{Gate, Pass};

/// The side of one pass of a gate. Each call is one stay.
pub struct GatedSide<'a, R: Wait> {
    rt: &'a R,
    gate: &'a Gate<TapeCell>,
    pass: Pass<TapeCell>,
}

impl<'a, R: Wait> Model for GatedSide<'a, R> {
    ghost use Rattle.turn_gate.specs.Known.{IsPassReady};
    ghost use Rattle.gated_tape.specs.Marks.{node_of};
    ghost use Rattle.gated_tape.specs.Sides.{SideFacts};

    ghost Value = { SideFacts };

    ghost view = { λ s. record { gate = s.gate.now; number = s.pass.number; seen = s.pass.seen } };

    ghost invariant = { λ s. IsPassReady node_of s.pass.number s.gate.now.name s.pass };
}

impl<'a, R: Wait> GatedSide<'a, R> {
    /// A side that goes through this pass.
    pub fn new(rt: &'a R, gate: &'a Gate<TapeCell>, pass: Pass<TapeCell>) -> GatedSide<'a, R>
        requires { IsPassReady node_of pass.number gate.now.name pass }
        ensures { result ≡ record { gate = gate.now; number = pass.number; seen = pass.seen } }
    {
        GatedSide { rt, gate, pass }
    }

    /// Gives the pass back.
    pub fn into_pass(self) -> Pass<TapeCell>
        ensures ready { IsPassReady node_of self.entry.number self.entry.gate.name result }
        ensures seen { result.seen ≡ self.entry.seen }
    {
        let GatedSide {
            rt: _,
            gate: _,
            pass,
        } = self;
        pass
    }
}

impl<'a, R: Wait> Side for GatedSide<'a, R> {
    ghost use Rattle.std.specs.Prelude.{false};
    ghost use Rattle.gated_tape.specs.Sides.{gated_frame};

    type Place = Gate<TapeCell>;

    ghost frame = { gated_frame };

    ghost known = { λ s. s.seen };

    ghost alone = { false };

    fn count(&mut self, node: u32) -> u64 {
        let mut held = self.gate.enter(self.rt, &mut self.pass);
        let tape = held.value().get_mut();
        let answer = Tape::count(tape, node);
        let _ = tape.marks();
        self.gate.leave(&mut self.pass, held);
        answer
    }

    fn put(&mut self, node: u32, word: u64) -> Result<(), PutNo> {
        let mut held = self.gate.enter(self.rt, &mut self.pass);
        let tape = held.value().get_mut();
        let answer = Tape::put(tape, node, word);
        let _ = tape.marks();
        self.gate.leave(&mut self.pass, held);
        answer
    }
}
