//! The bridge behind a gate, as the worker of one of its ends goes through it.
ghost use Rattle.std.specs.Prelude.{◌≡◌};
ghost use Rattle.bridge_relay.specs.Machine.{side_of};
ghost use Rattle.bridge_relay.specs.Legal.{IsEnd};
ghost use Rattle.turn_gate.specs.Known.{IsPassReady};

use crate::cells::BridgeCell;
use bridge_port::BridgeSide;
use bridge_relay::RelayResult;
use mstr_block::CallId;
use plant_types::{Pdu, Route};
use ring_core::Frame;
use std::alloc::AllocError;
use std::marker::Model;
use std::sync::Wait;
use turn_gate::{Gate, Pass};

/// The side of a bridge over its gate: each call is one stay, and adds at most its own entry, in
/// the name of the end that is the number of the pass.
pub struct GatedBridge<'a, R: Wait> {
    rt: &'a R,
    gate: &'a Gate<BridgeCell>,
    pass: Pass<BridgeCell>,
}

impl<'a, R: Wait> Model for GatedBridge<'a, R> {
    ghost use Rattle.gated_sides.specs.Sides.{GatedBridgeIs, IsAtBridge};

    ghost Value = { GatedBridgeIs };

    ghost view = { λ s. record { gate = s.gate.now; number = s.pass.number; seen = s.pass.seen } };

    ghost invariant = { λ s. IsAtBridge s.pass.number s.gate.now s.pass };
}

impl<'a, R: Wait> GatedBridge<'a, R> {
    /// A side with a pass whose number is the address of the end in whose name it writes.
    pub fn new(rt: &'a R, gate: &'a Gate<BridgeCell>, pass: Pass<BridgeCell>) -> GatedBridge<'a, R>
        requires ready { IsPassReady side_of pass.number gate.now.name pass }
        requires end { IsEnd gate.now.fixed pass.number }
        ensures { result ≡ record { gate = gate.now; number = pass.number; seen = pass.seen } }
    {
        GatedBridge { rt, gate, pass }
    }

    /// Its pass, with all that it has seen.
    pub fn into_pass(self) -> Pass<BridgeCell>
        ensures ready { IsPassReady side_of self.entry.number self.entry.gate.name result }
        ensures seen { result.seen ≡ self.entry.seen }
    {
        let GatedBridge {
            rt: _,
            gate: _,
            pass,
        } = self;
        pass
    }
}

impl<'a, R: Wait> BridgeSide for GatedBridge<'a, R> {
    ghost use Rattle.std.specs.Prelude.{false, Some};

    type Place = Gate<BridgeCell>;

    ghost bridge = { λ s. record { plan = s.gate.fixed; writer = Some s.number; place = s.gate } };

    ghost known = { λ s. s.seen };

    ghost alone = { false };

    fn is_idle(&mut self, side: u8) -> bool {
        let mut held = self.gate.enter(self.rt, &mut self.pass);
        let bridge = held.value().get_mut();
        let answer = BridgeSide::is_idle(bridge, side);
        self.gate.leave(&mut self.pass, held);
        answer
    }

    fn accept(
        &mut self,
        side: u8,
        id: CallId,
        route: Route,
        request: &Pdu,
    ) -> Result<(), AllocError> {
        let mut held = self.gate.enter(self.rt, &mut self.pass);
        let bridge = held.value().get_mut();
        let _ = bridge.history();
        let answer = BridgeSide::accept(bridge, side, id, route, request);
        self.gate.leave(&mut self.pass, held);
        answer
    }

    fn forward(&mut self, side: u8) -> Result<Option<Frame>, AllocError> {
        let mut held = self.gate.enter(self.rt, &mut self.pass);
        let bridge = held.value().get_mut();
        let _ = bridge.history();
        let answer = BridgeSide::forward(bridge, side);
        self.gate.leave(&mut self.pass, held);
        answer
    }

    fn finish(&mut self, side: u8, id: CallId, outcome: RelayResult) -> Result<(), AllocError> {
        let mut held = self.gate.enter(self.rt, &mut self.pass);
        let bridge = held.value().get_mut();
        let _ = bridge.history();
        let answer = BridgeSide::finish(bridge, side, id, outcome);
        self.gate.leave(&mut self.pass, held);
        answer
    }

    fn back(&mut self, side: u8) -> Result<Option<Frame>, AllocError> {
        let mut held = self.gate.enter(self.rt, &mut self.pass);
        let bridge = held.value().get_mut();
        let _ = bridge.history();
        let answer = BridgeSide::back(bridge, side);
        self.gate.leave(&mut self.pass, held);
        answer
    }

    fn gone(&mut self, side: u8) -> Result<(), AllocError> {
        let mut held = self.gate.enter(self.rt, &mut self.pass);
        let bridge = held.value().get_mut();
        let _ = bridge.history();
        let answer = BridgeSide::gone(bridge, side);
        self.gate.leave(&mut self.pass, held);
        answer
    }
}
