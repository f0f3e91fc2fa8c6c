//! The value while a pass is inside.
ghost use Rattle.std.specs.Prelude.{◌≡◌};
ghost use Rattle.std.specs.Borrow.{Lends, sem};
ghost use Rattle.turn_gate.specs.Known.{with_value};
ghost use Rattle.turn_gate.specs.contracts.stays.Held.{the_row};

use crate::journals::Journal;
use crate::views::SeatOf;
use std::marker::Model;
use std::snapshot::Snapshot;

/// The value that a pass was handed. It is put back by `leave`, with that pass.
pub struct Held<V: Journal> {
    pub(crate) value: V,
    pub(crate) seat: Snapshot<SeatOf<V>>,
}

impl<V: Journal> Model for Held<V> {
    ghost use Rattle.turn_gate.specs.Known.{HeldFacts};
    ghost use Rattle.turn_gate.specs.Seats.{held_facts};

    ghost Value = { HeldFacts V };

    ghost view = { λ h. held_facts h.value h.seat.value.table_id h.seat.value.me.0.phase };
}

impl<V: Journal> Held<V> {
    /// Lends the value.
    pub fn value(&mut self) -> &mut V
        ensures* writes_back { let held = the_row V.row V.Entry.row V.Fixed.row V.Journal in
            sem 𝓛 (Lends held V.row self.entry result (with_value self.old)) }
        ensures value { result.now ≡ self.old.value }
    {
        &mut self.value
    }
}
