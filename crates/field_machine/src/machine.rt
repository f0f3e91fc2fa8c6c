//! The field as a machine over keys.
ghost use Rattle.std.specs.Prelude.{◌≡◌, ◌+◌, ◌++◌, ◌≤◌, drop, length, slice_index, OnOk};
ghost use Rattle.plant_types.specs.Checks.{sizes_of};
ghost use Rattle.plant_types.specs.Sizes.{discretes_of};
ghost use Rattle.state_ram.specs.Packed.{packed_sizes};
ghost use Rattle.ladder_solver.specs.Edges.{network_counts};
ghost use Rattle.key_store.specs.Words.{word_count};
ghost use Rattle.field_machine.specs.Counters.{HaveEdgeBits};
ghost use Rattle.field_machine.specs.Keys.{edge_words, edges_set, state_in, IsKeyOf};
ghost use Rattle.field_machine.specs.Work.{IsReadyWork, IsWorkOf, work_state};

use crate::asked::Asked;
use crate::field::Field;
use crate::work::Work;
use key_store::{KeyRam, is_on_in};
use ladder_solver::{BlockPlace, Ladder, Watch};
use plant_types::{Sizes, discretes_follow};
use state_space::Machine;
use std::alloc::AllocError;
use timer_ops::Clock;

/// The word at a place of a key, or 0.
pub fn word_at(key: &[u16], place: usize) -> u16
    ensures { result ≡ slice_index key.now place }
{
    match key.get(place) {
        Some(word) => *word,
        None => 0,
    }
}

/// The words behind so many.
pub fn words_behind(key: &[u16], many: usize) -> &[u16]
    ensures { result.now ≡ drop many key.now }
{
    if many < key.len() { &key[many..] } else { &[] }
}

/// Sets edge bits by words.
pub(crate) fn set_edges(ladder: &mut Ladder, counters: &[BlockPlace], words: &[u16])
    requires { HaveEdgeBits (network_counts ladder.old.grids) counters.now }
    ensures { ladder.new ≡ record ladder.old {
      edges = edges_set ladder.old.edges counters.now words.now;
    } }
{
    for (index, place) in counters.iter().enumerate() {
        ladder.set_edge(*place, word_at(words, index) != 0);
    }
}

/// Goes on where a store has the references of these sizes and no others, as each of a search has.
fn hold_sizes(ram: &KeyRam, sizes: Sizes) -> Result<(), AllocError>
    ensures { OnOk result (packed_sizes ram.now ≡ sizes) }
{
    if ram.has_sizes(sizes) {
        Ok(())
    } else {
        Err(AllocError)
    }
}

/// The sizes of the discretes alone.
fn discretes_of(sizes: Sizes) -> Sizes
    ensures { result ≡ discretes_of sizes }
{
    Sizes {
        input_registers: 0,
        registers: 0,
        ..sizes
    }
}

impl Field {
    ghost use Rattle.field_machine.specs.Field.{IsField};

    /// The words of a key that hold references.
    pub(crate) fn references<'a>(&self, key: &'a [u16]) -> &'a [u16]
        ensures { result.now ≡ drop (length self.now.counters.items) (drop 2 key.now) }
    {
        words_behind(words_behind(key, 2), self.counters.len())
    }

    /// Puts a work into the state of a key. A key of too few words has no state.
    pub(crate) fn unpack(&self, work: &mut Work, key: &[u16]) -> Result<(), AllocError>
        requires field { IsField self.now }
        requires work { IsWorkOf self.now.fixed.plan work.old }
        ensures work { IsWorkOf self.now.fixed.plan work.new }
        ensures state { OnOk result (work_state work.new
            ≡ state_in self.now.fixed.plan self.now.counters.items key.now) }
        ensures ready { OnOk result (IsReadyWork self.now.fixed.plan work.new) }
        ensures clock { OnOk result (work.new.clock.now ≤ 65536) }
    {
        discretes_follow();
        let sizes = self.fixed.plan.sizes();
        let words = self.references(key);
        work.ram.fill(sizes, words)?;
        work.past.fill(discretes_of(sizes), words)?;
        hold_sizes(&work.ram, sizes)?;
        let edges = words_behind(key, 2);
        set_edges(&mut work.ladder, self.counters.as_slice(), edges);
        work.clock = Clock {
            before: 0,
            now: u64::from(word_at(key, 0)),
        };
        work.watch = Watch { left: 0 };
        work.stop = word_at(key, 1);
        Ok(())
    }

    /// Writes the key of the state of a work.
    pub(crate) fn pack(&self, work: &Work, key: &mut Vec<u16>) -> Result<(), AllocError>
        requires field { IsField self.now }
        requires work { IsWorkOf self.now.fixed.plan work.now }
        ensures { OnOk result (IsKeyOf self.now.fixed.plan self.now.counters.items
            (work_state work.now) key.new.items) }
    {
        hold_sizes(&work.ram, self.fixed.plan.sizes())?;
        key.clear();
        key.push((work.clock.now % 100) as u16)?;
        key.push(work.stop)?;
        self.push_edges(&work.ladder, key)?;
        work.ram.push_to(key)
    }

    /// Adds a word for each edge bit.
    fn push_edges(&self, ladder: &Ladder, key: &mut Vec<u16>) -> Result<(), AllocError>
        requires { HaveEdgeBits (network_counts ladder.now.grids) self.now.counters.items }
        ensures { OnOk result (key.new.items ≡ key.old.items
            ++ edge_words ladder.now.edges self.now.counters.items) }
    {
        for place in self.counters.as_slice() {
            key.push(u16::from(ladder.edge(*place)))?;
        }
        Ok(())
    }

    /// How many words a key has.
    pub fn key_size(&self) -> usize
        ensures { result ≡ 2 + length self.now.counters.items
            + word_count (sizes_of self.now.fixed.plan) }
    {
        let sizes = self.fixed.plan.sizes();
        2 + self.counters.len()
            + usize::from(sizes.coils / 16)
            + usize::from(sizes.inputs / 16)
            + usize::from(sizes.input_registers)
            + usize::from(sizes.registers)
    }
}

impl Machine<Work> for Field {
    ghost use Rattle.scan_order.specs.Due.{full_scan};
    ghost use Rattle.controller_core.specs.Replay.{start};
    ghost use Rattle.field_runs.specs.Scan.{scanned};
    ghost use Rattle.field_machine.specs.Asked.{is_so};
    ghost use Rattle.field_machine.specs.Choices.{told_by};
    ghost use Rattle.field_machine.specs.Field.{FitsWork};

    ghost fits = { FitsWork };

    ghost starts = { λ field key.
        IsKeyOf field.fixed.plan field.counters.items (start field.fixed.plan) key };

    ghost count = { λ field. field.moves };

    ghost leads = { λ field from by key. IsKeyOf field.fixed.plan field.counters.items
        (scanned field.fixed (told_by field.fixed.plan (full_scan field.fixed.plan) by)
        (state_in field.fixed.plan field.counters.items from)) key };

    ghost bad = { λ field key.
        is_so field.asked (state_in field.fixed.plan field.counters.items key) };

    fn start(&self, _work: &mut Work, key: &mut Vec<u16>) -> Result<(), AllocError> {
        key.clear();
        for _ in 0..self.key_size() {
            key.push(0)?;
        }
        Ok(())
    }

    fn moves(&self) -> usize {
        self.moves
    }

    fn next(
        &self,
        work: &mut Work,
        from: &[u16],
        by: usize,
        key: &mut Vec<u16>,
    ) -> Result<(), AllocError> {
        self.unpack(work, from)?;
        self.scan(work, by);
        self.pack(work, key)
    }

    fn is_bad(&self, key: &[u16]) -> bool {
        match self.asked {
            Asked::On(at) => { is_on_in(self.fixed.plan.sizes(), self.references(key), at) }
            Asked::Stopped => word_at(key, 1) != 0,
        }
    }
}
