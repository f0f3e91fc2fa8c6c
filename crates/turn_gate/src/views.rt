//! What the table knows of a pass, and the rule that each step keeps.
use crate::journals::Journal;
use atomic_table::{Seat, TableRule};
use std::collections::LinkedList;
use std::marker::PhantomData;
use std::snapshot::Snapshot;

/// How far a pass is with a stay.
pub enum Phase {
    Idle,
    /// It has drawn this ticket.
    Waiting(u64),
    /// It holds the value.
    Inside(u64),
}

/// Clauses alone have values of it. `kept` has the pass's number with its own entries, and then
/// those of the passes that were joined into it; `heard` has what each of those had seen. The view
/// of a pass that was joined into another keeps nothing.
pub struct View<E> {
    pub opening: LinkedList<E>,
    pub seen: LinkedList<E>,
    pub kept: LinkedList<(u32, LinkedList<E>)>,
    pub heard: LinkedList<LinkedList<E>>,
    pub given: LinkedList<u32>,
    pub phase: Phase,
}

/// The seat of a pass.
pub type SeatOf<V> = Seat<Option<V>, View<<V as Journal>::Entry>>;

/// The rule of a gate.
pub struct Turns<V> {
    value: PhantomData<V>,
}

impl<V: Journal> TableRule<Option<V>, View<V::Entry>, Snapshot<V>> for Turns<V> {
    ghost use Rattle.turn_gate.specs.Rule.{Rule, first_view};

    ghost holds = { λ opening. Rule V.entries V.fixed V.maker opening.value };

    ghost first = { λ opening. first_view (V.entries opening.value) };
}
