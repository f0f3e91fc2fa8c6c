//! The gate.
ghost use Rattle.std.specs.Prelude.{◌≡◌, ◌≢◌, ℕ, false, [], ◌∷◌, All, IfOk, Some, None};
ghost use Rattle.turn_gate.specs.Known.{first_pass, entered, left_after, split_off, with_pass};
ghost use Rattle.turn_gate.specs.Known.{is_among};
ghost use Rattle.turn_gate.specs.Known.{StartsWith, IsOutside, IsPassReady, HandedTo, HasAllBack};
ghost use Rattle.turn_gate.specs.Known.{PassFinds, Owns, NamesKept, PassAdds};
ghost use Rattle.turn_gate.specs.Rule.{KeepsNumber};
ghost use Rattle.turn_gate.specs.Moves.{giver, newcomer, emptied_by, left_with};
ghost use Rattle.turn_gate.specs.Moves.{HasEmptied, Handed, Exact, MayLeave};
ghost use Rattle.turn_gate.specs.declared.views.Phase.TheVariants.{Idle};

use crate::cuts::{Cut, Glue, Numbering};
use crate::journals::Journal;
use crate::passes::Pass;
use crate::plays::{Draw, Fixing, Heed, Look, Release};
use crate::stays::Held;
use crate::views::{SeatOf, Turns, View};
use atomic_table::{Refused, Table};
use crossbeam_utils::Backoff;
use std::alloc::{AllocError, Global};
use std::marker::{Brand, Model};
use std::snapshot::Snapshot;
use std::sync::Wait;

/// The word with the next ticket.
const TICKET: usize = 0;

/// The word with the ticket that is served.
const SERVING: usize = 1;

/// The slot of the value.
const SLOT: usize = 0;

/// A lock whose holders take turns.
pub struct Gate<V: Journal> {
    table: Table<Option<V>, View<V::Entry>, Snapshot<V>, Turns<V>, Global>,
}

impl<V: Journal> Model for Gate<V> {
    ghost use Rattle.turn_gate.specs.Known.{GateFacts};
    ghost use Rattle.turn_gate.specs.Seats.{gate_facts, IsGateTable};

    ghost Value = { GateFacts V.Entry V.Fixed };

    ghost view = { λ g. let t = g.table.shared in
        gate_facts V.entries V.fixed t.table_id t.key.value };

    ghost invariant = { λ g. IsGateTable g.table.shared.table_id };
}

impl<V: Journal> Gate<V> {
    /// Makes a gate round the value, and pass 0. Where memory is short, the value is dropped.
    pub fn new(alloc: Global, value: V) -> Result<(Gate<V>, Pass<V>), AllocError>
        ensures opening { IfOk result (λ g. g.0.name.opening ≡ V.entries value) }
        ensures fixed { IfOk result (λ g. g.0.fixed ≡ V.fixed value) }
        ensures pass { IfOk result (λ g. g.1 ≡ first_pass g.0.name) }
    {
        let first = Snapshot::of(&value);
        let mut slots = Vec::with_capacity(alloc, 1)?;
        slots.push_reserved(Some(value));
        match Table::new(alloc, &[0, 0], slots, &first) {
            Ok((table, seat)) => Ok((Gate { table }, Pass { seat })),
            Err(Refused { slots: _ }) => Err(AllocError),
        }
    }

    /// Waits for its turn, and hands out the value that was left last. It takes no memory.
    pub fn enter<R: Wait>(&self, rt: &R, pass: &mut Pass<V>) -> Held<V>
        requires gate { pass.old.gate ≡ self.now.name }
        requires outside { IsOutside pass.old }
        ensures held { HandedTo pass.new result }
        ensures pass { pass.new ≡ entered pass.old (V.entries result.value) result.ticket }
        ensures fixed { V.fixed result.value ≡ self.now.fixed }
        ensures found { PassFinds V.maker pass.old (V.entries result.value) }
        ensures own { Owns V.maker pass.old (V.entries result.value) }
    {
        let value = self.await_turn::<Brand, R>(rt, &mut pass.seat);
        let seat = Snapshot::of(&pass.seat);
        Held { value, seat }
    }

    fn await_turn<N: Fixing<V::Fixed>, R: Wait>(&self, rt: &R, seat: &mut SeatOf<V>) -> V
        requires gate { seat.old.table_id ≡ self.now.name.table }
        requires fixed { N.fixed ≡ Some self.now.fixed }
        requires idle { (seat.old.me.0.phase ≡ Idle) × (seat.old.me.1 ≡ []) }
        requires keeps { (n : ℕ) × KeepsNumber seat.old.me.0 n }
        ensures gate { seat.new.table_id ≡ seat.old.table_id }
        ensures handed { Handed V.entries V.fixed V.maker N.fixed seat.old.me.0 result }
        ensures entered { (t : ℕ) × (seat.new.me ≡ emptied_by seat.old.me.0 t (V.entries result)) }
    {
        let shared = &self.table.shared;
        let ticket = shared.fetch_add::<Draw>(seat, TICKET, 1);
        let backoff = Backoff::new();
        for _ in rt.forever() {
            if shared.load::<Look<V, N>>(seat, SERVING) == ticket {
                return self.take_out(seat);
            }
            backoff.snooze();
        }
        unreachable!()
    }

    fn take_out(&self, seat: &mut SeatOf<V>) -> V
        requires gate { seat.old.table_id ≡ self.now.name.table }
        requires carries { (x : V) × (seat.old.me.1 ≡ (SLOT, Some x) ∷ []) }
        ensures gate { seat.new.table_id ≡ seat.old.table_id }
        ensures value { seat.old.me.1 ≡ (SLOT, Some result) ∷ [] }
        ensures taken { seat.new.me ≡ (seat.old.me.0, (SLOT, None) ∷ []) }
    {
        match self.table.shared.exchange(seat, SLOT, None) {
            Some(value) => value,
            None => unreachable!(),
        }
    }

    /// Puts the value back, with the entries that were added to it. The next ticket is served. It
    /// takes no memory.
    pub fn leave(&self, pass: &mut Pass<V>, held: Held<V>)
        requires gate { pass.old.gate ≡ self.now.name }
        requires held { HandedTo pass.old held }
        requires fixed { V.fixed held.value ≡ self.now.fixed }
        requires added { PassAdds V.maker pass.old (V.entries held.value) }
        ensures pass { pass.new ≡ left_after pass.old (V.entries held.value) }
        ensures own { Owns V.maker pass.new (V.entries held.value) }
    {
        let Held { value, seat: _ } = held;
        self.put_back(&mut pass.seat, value);
    }

    fn put_back(&self, seat: &mut SeatOf<V>, value: V)
        requires gate { seat.old.table_id ≡ self.now.name.table }
        requires inside { HasEmptied seat.old.me }
        requires fixed { V.fixed value ≡ self.now.fixed }
        requires may { MayLeave V.entries V.maker seat.old.me.0 value }
        ensures gate { seat.new.table_id ≡ seat.old.table_id }
        ensures left { seat.new.me ≡ (left_with seat.old.me.0 (V.entries value), []) }
        ensures exact { Exact V.maker seat.new.me.0 (V.entries value) }
    {
        let shared = &self.table.shared;
        let None = shared.exchange(seat, SLOT, Some(value)) else {
            unreachable!()
        };
        shared.fetch_add::<Release<V>>(seat, SERVING, 1);
    }

    /// Makes a pass with this number. The first pass of the answer is pass 0.
    pub fn split(&self, mut pass: Pass<V>, number: u32) -> (Pass<V>, Pass<V>)
        requires gate { pass.gate ≡ self.now.name }
        requires outside { IsOutside pass }
        requires zero { pass.number ≡ 0 }
        requires fresh { (number ≢ 0) × (is_among number pass.given ≡ false) }
        ensures zero { result.0 ≡ record pass { given = number ∷ pass.given } }
        ensures other { result.1 ≡ split_off number pass }
        ensures ready { IsPassReady V.maker number self.now.name result.1 }
    {
        let mut seat = self.cut::<Brand>(&mut pass.seat, number);
        self.heed(&mut seat);
        (pass, Pass { seat })
    }

    fn cut<N: Numbering>(&self, seat: &mut SeatOf<V>, number: u32) -> SeatOf<V>
        requires gate { seat.old.table_id ≡ self.now.name.table }
        requires zero { KeepsNumber seat.old.me.0 0 }
        requires picked { number ≡ N.number }
        requires fresh { (number ≢ 0) × (is_among number seat.old.me.0.given ≡ false) }
        ensures gate { seat.new.table_id ≡ seat.old.table_id }
        ensures new_gate { result.table_id ≡ seat.old.table_id }
        ensures giver { seat.new.me ≡ (giver number seat.old.me.0, seat.old.me.1) }
        ensures newcomer { result.me ≡ (newcomer number seat.old.me.0, []) }
    {
        let _ = number;
        self.table.shared.split_seat::<Cut<N>>(seat)
    }

    fn heed(&self, seat: &mut SeatOf<V>)
        requires gate { seat.old.table_id ≡ self.now.name.table }
        requires keeps { (n : ℕ) × KeepsNumber seat.old.me.0 n }
        ensures gate { seat.new.table_id ≡ seat.old.table_id }
        ensures same { seat.new.me ≡ seat.old.me }
        ensures exact { Exact V.maker seat.old.me.0 seat.old.me.0.seen }
    {
        self.table.shared.load::<Heed<V>>(seat, SERVING);
    }

    /// Puts the second pass into the first, which keeps the numbers, the own entries and what was
    /// heard of both.
    pub fn join(&self, mut one: Pass<V>, other: Pass<V>) -> Pass<V>
        requires gate { (one.gate ≡ self.now.name) × (other.gate ≡ self.now.name) }
        requires outside { IsOutside one × IsOutside other }
        requires other { other.number ≢ 0 }
        ensures { result ≡ with_pass one other }
    {
        let Pass { seat } = other;
        self.table.shared.join_seat::<Glue>(&mut one.seat, seat);
        one
    }

    /// Gives the value that was left last: the pass, with all others joined into it, has seen all
    /// its entries.
    pub fn close(self, pass: Pass<V>) -> V
        requires gate { pass.gate ≡ self.name }
        requires outside { IsOutside pass }
        requires zero { pass.number ≡ 0 }
        requires all_back { HasAllBack pass }
        ensures fixed { V.fixed result ≡ self.fixed }
        ensures entries { V.entries result ≡ pass.seen }
        ensures own { Owns V.maker pass (V.entries result) }
        ensures named { NamesKept V.maker pass (V.entries result) }
        ensures heard { All (StartsWith (V.entries result)) pass.heard }
    {
        let Gate { table } = self;
        let Pass { seat } = pass;
        let mut closed = table.close_with(seat);
        let value = closed.take(SLOT);
        closed.free();
        match value {
            Some(value) => value,
            None => unreachable!(),
        }
    }
}
