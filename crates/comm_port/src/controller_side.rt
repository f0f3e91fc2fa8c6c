//! A controller by itself, as its worker has it where nobody else writes.
ghost use Rattle.std.specs.Prelude.{true};

use crate::ram_side::RamSide;
use controller_core::{Call, Controller, segments_keep_calls};
use mstr_block::{
    CallId, MstrResult, calls_are_taken_in_order, finishes_end_one_call, stays_table,
};
use plant_types::{List, Pdu};
use std::alloc::AllocError;

impl RamSide for Controller {
    type Place = ();

    ghost side = { λ c. record { fixed = c.fixed; place = tt } };

    ghost known = { λ c. c.history };

    ghost alone = { true };

    ghost reserved = { λ c. c.reserved };

    fn collect(&mut self) -> Result<List<Call>, AllocError> {
        segments_keep_calls();
        calls_are_taken_in_order();
        finishes_end_one_call();
        stays_table();
        let _ = self.history();
        Controller::collect(self)
    }

    fn peer(&mut self, id: CallId, request: &Pdu) -> Result<Option<Pdu>, AllocError> {
        Controller::peer(self, id, request)
    }

    fn finish(&mut self, id: CallId, outcome: MstrResult) -> Result<(), AllocError> {
        segments_keep_calls();
        calls_are_taken_in_order();
        finishes_end_one_call();
        stays_table();
        let _ = self.history();
        Controller::finish(self, id, outcome)
    }

    fn has_started(&mut self) -> bool {
        let _ = self.history();
        Controller::has_started(self)
    }

    fn has_ended(&mut self) -> bool {
        let _ = self.history();
        Controller::has_ended(self)
    }

    fn failures(&mut self) -> u32 {
        let _ = self.history();
        Controller::failures(self)
    }

    fn is_off(&mut self) -> bool {
        let _ = self.history();
        Controller::is_off(self)
    }
}
