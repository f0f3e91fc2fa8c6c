//! What a thread enters with.
use crate::journals::Journal;
use crate::views::SeatOf;
use std::marker::Model;

/// The right to enter a gate, under a number of its own. It has no bytes, and is spent by `join` or
/// `close`.
pub struct Pass<V: Journal> {
    pub(crate) seat: SeatOf<V>,
}

impl<V: Journal> Model for Pass<V> {
    ghost use Rattle.turn_gate.specs.Known.{PassFacts};
    ghost use Rattle.turn_gate.specs.Seats.{pass_facts, IsSettled};

    ghost Value = { PassFacts V.Entry };

    ghost view = { λ p. pass_facts p.seat.table_id p.seat.me };

    ghost invariant = { λ p. IsSettled p.seat.me };
}
