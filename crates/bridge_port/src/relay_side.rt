//! A bridge by itself, as the workers of its ends have it where nobody else writes.
ghost use Rattle.std.specs.Prelude.{true, None};

use crate::bridge_side::BridgeSide;
use bridge_relay::{Bridge, RelayResult};
use mstr_block::CallId;
use plant_types::{Pdu, Route};
use ring_core::Frame;
use std::alloc::AllocError;

impl BridgeSide for Bridge {
    type Place = ();

    ghost bridge = { λ b. record { plan = b.plan; writer = None; place = tt } };

    ghost known = { λ b. b.history };

    ghost alone = { true };

    fn is_idle(&mut self, side: u8) -> bool {
        let _ = self.history();
        Bridge::is_idle(self, side)
    }

    fn accept(
        &mut self,
        side: u8,
        id: CallId,
        route: Route,
        request: &Pdu,
    ) -> Result<(), AllocError> {
        Bridge::accept(self, side, id, route, request)
    }

    fn forward(&mut self, side: u8) -> Result<Option<Frame>, AllocError> {
        Bridge::forward(self, side)
    }

    fn finish(&mut self, side: u8, id: CallId, outcome: RelayResult) -> Result<(), AllocError> {
        Bridge::finish(self, side, id, outcome)
    }

    fn back(&mut self, side: u8) -> Result<Option<Frame>, AllocError> {
        Bridge::back(self, side)
    }

    fn gone(&mut self, side: u8) -> Result<(), AllocError> {
        Bridge::gone(self, side)
    }
}
