//! A controller behind a gate, as its communication goes through it.
ghost use Rattle.std.specs.Prelude.{◌≡◌};
ghost use Rattle.turn_gate.specs.Known.{IsPassReady};
ghost use Rattle.gated_sides.specs.Cells.{maker_number};

use crate::cells::RamCell;
use bridge_port::RamSide;
use controller_core::{Call, conditions_stay};
use mstr_block::{CallId, MstrResult};
use plant_types::{List, Pdu};
use std::alloc::AllocError;
use std::marker::Model;
use std::sync::Wait;
use turn_gate::{Gate, Pass};

/// The side of a controller over its gate: each call is one stay, and adds at most its own entry.
pub struct GatedRam<'a, R: Wait> {
    rt: &'a R,
    gate: &'a Gate<RamCell>,
    pass: Pass<RamCell>,
}

impl<'a, R: Wait> Model for GatedRam<'a, R> {
    ghost use Rattle.gated_sides.specs.Cells.{maker_number};
    ghost use Rattle.turn_gate.specs.Known.{IsPassReady};
    ghost use Rattle.gated_sides.specs.Sides.{GatedRamIs};

    ghost Value = { GatedRamIs };

    ghost view = { λ s. record { gate = s.gate.now; seen = s.pass.seen } };

    ghost invariant = { λ s. IsPassReady maker_number 2 s.gate.now.name s.pass };
}

impl<'a, R: Wait> GatedRam<'a, R> {
    /// A side with the pass of a controller's communication, which has the number 2.
    pub fn new(rt: &'a R, gate: &'a Gate<RamCell>, pass: Pass<RamCell>) -> GatedRam<'a, R>
        requires ready { IsPassReady maker_number 2 gate.now.name pass }
        ensures { result ≡ record { gate = gate.now; seen = pass.seen } }
    {
        GatedRam { rt, gate, pass }
    }

    /// Its pass, with all that it has seen.
    pub fn into_pass(self) -> Pass<RamCell>
        ensures ready { IsPassReady maker_number 2 self.entry.gate.name result }
        ensures seen { result.seen ≡ self.entry.seen }
    {
        let GatedRam {
            rt: _,
            gate: _,
            pass,
        } = self;
        pass
    }
}

impl<'a, R: Wait> RamSide for GatedRam<'a, R> {
    ghost use Rattle.std.specs.Prelude.{false};
    ghost use Rattle.turn_gate.specs.Known.{GateFacts};
    ghost use Rattle.controller_core.specs.declared.entry.Entry.{Entry};
    ghost use Rattle.controller_core.specs.declared.fixed.Fixed.{Fixed};

    type Place = Gate<RamCell>;

    ghost side = { λ s. record { fixed = s.gate.fixed; place = s.gate } };

    ghost known = { λ s. s.seen };

    ghost alone = { false };

    ghost reserved = { λ s. false };

    fn collect(&mut self) -> Result<List<Call>, AllocError> {
        conditions_stay();
        let mut held = self.gate.enter(self.rt, &mut self.pass);
        let controller = held.value().get_mut();
        let answer = RamSide::collect(controller);
        self.gate.leave(&mut self.pass, held);
        answer
    }

    fn peer(&mut self, id: CallId, request: &Pdu) -> Result<Option<Pdu>, AllocError> {
        let mut held = self.gate.enter(self.rt, &mut self.pass);
        let controller = held.value().get_mut();
        let answer = RamSide::peer(controller, id, request);
        self.gate.leave(&mut self.pass, held);
        answer
    }

    fn finish(&mut self, id: CallId, outcome: MstrResult) -> Result<(), AllocError> {
        let mut held = self.gate.enter(self.rt, &mut self.pass);
        let controller = held.value().get_mut();
        let answer = RamSide::finish(controller, id, outcome);
        self.gate.leave(&mut self.pass, held);
        answer
    }

    fn has_started(&mut self) -> bool {
        let mut held = self.gate.enter(self.rt, &mut self.pass);
        let controller = held.value().get_mut();
        let answer = RamSide::has_started(controller);
        self.gate.leave(&mut self.pass, held);
        answer
    }

    fn has_ended(&mut self) -> bool {
        let mut held = self.gate.enter(self.rt, &mut self.pass);
        let controller = held.value().get_mut();
        let answer = RamSide::has_ended(controller);
        self.gate.leave(&mut self.pass, held);
        answer
    }

    fn failures(&mut self) -> u32 {
        let mut held = self.gate.enter(self.rt, &mut self.pass);
        let controller = held.value().get_mut();
        let answer = RamSide::failures(controller);
        self.gate.leave(&mut self.pass, held);
        answer
    }

    fn is_off(&mut self) -> bool {
        let mut held = self.gate.enter(self.rt, &mut self.pass);
        let controller = held.value().get_mut();
        let answer = RamSide::is_off(controller);
        self.gate.leave(&mut self.pass, held);
        answer
    }
}
