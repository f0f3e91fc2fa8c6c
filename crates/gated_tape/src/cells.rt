//! A tape in a gate.
ghost use Rattle.std.specs.Prelude.{◌≡◌};
ghost use Rattle.std.specs.Borrow.{Lends, sem};
ghost use Rattle.gated_tape.specs.Cells.{tape_in, with_tape};
ghost use Rattle.gated_tape.specs.contracts.cells.TapeCell.{the_row};
ghost use Rattle.gated_tape.specs.contracts.tapes.Tape.{the_row as tape_row};

use crate::tapes::{Mark, Tape};
use turn_gate::Journal;

/// What a gate keeps: its entries are the tape's marks, and the limit stays.
#[derive(Drop)]
pub struct TapeCell {
    tape: Tape,
}

impl TapeCell {
    /// A tape that a gate is to keep, with its marks and its limit.
    pub fn new(tape: Tape) -> TapeCell
        ensures { tape_in result ≡ tape }
    {
        TapeCell { tape }
    }

    /// The tape that was kept.
    pub fn into_inner(self) -> Tape
        ensures { result ≡ tape_in self }
    {
        self.tape
    }

    /// Lends the tape.
    pub fn get_mut(&mut self) -> &mut Tape
        ensures* writes_back { sem 𝓛 (Lends the_row tape_row self.entry result
            (with_tape self.old)) }
        ensures value { result.now ≡ tape_in self.old }
    {
        &mut self.tape
    }
}

impl Journal for TapeCell {
    type Entry = Mark;

    type Fixed = u64;

    ghost entries = { λ c. c.tape.marks };

    ghost fixed = { λ c. c.tape.limit };

    ghost maker = { λ m. m.node };
}
