//! A flag that tells all workers that memory ran out.
ghost use Rattle.std.specs.Prelude.{◌≡◌, ◌<◌, true};

use atomic_table::{Play, Seat, Table, TableRule};
use std::alloc::{AllocError, Global};
use std::marker::Model;

/// The one word of a flag: 0, and 1 once it is raised.
const WORD: usize = 0;

/// The word of a flag never falls below what somebody saw.
struct OnlyRises;

impl TableRule<u64, u64, u64> for OnlyRises {
    ghost use Rattle.live_workers.specs.Flags.{NeverLowered};

    ghost holds = { λ _. NeverLowered };

    ghost first = { λ _. 0 };
}

/// Reads the word.
struct Look;

impl Play<u64, u64> for Look {
    ghost use Rattle.live_workers.specs.Flags.{WatchLooked};

    ghost then = { WatchLooked };
}

/// Writes 1.
struct Raise;

impl Play<u64, u64> for Raise {
    ghost use Rattle.live_workers.specs.Flags.{Raised};

    ghost then = { Raised };
}

/// A flag that is raised once and never lowered. Each worker reads it before each step, turn and
/// wait, so that none waits for one that has given up.
#[derive(Drop)]
pub(crate) struct Flag {
    table: Table<u64, u64, u64, OnlyRises, Global>,
}

impl Model for Flag {
    ghost use Rattle.std.specs.Prelude.{◌≡◌};
    ghost use Rattle.atomic_table.specs.Seated.{TableId};

    ghost Value = { TableId };

    ghost view = { λ f. f.table.shared.table_id };

    ghost invariant = { λ f. f.table.shared.table_id.words ≡ 1 };
}

/// What a worker knows of a flag: 1 where it saw it raised, and else 0.
#[derive(Drop)]
pub(crate) struct Watch<'a> {
    flag: &'a Flag,
    seat: Seat<u64, u64>,
}

impl<'a> Model for Watch<'a> {
    ghost use Rattle.std.specs.Prelude.{◌≡◌, ℕ};

    ghost Value = { ℕ };

    ghost view = { λ w. w.seat.me.0 };

    ghost invariant = { λ w. w.seat.table_id ≡ w.flag.now };
}

impl Flag {
    /// A flag that is not raised. The only error is that memory ran out.
    pub(crate) fn new(alloc: Global) -> Result<Flag, AllocError> {
        let (table, _) = Table::of_words(alloc, &[0], &0)?;
        Ok(Flag { table })
    }

    /// A worker's own view of it.
    pub(crate) fn watch(&self) -> Watch<'_> {
        let (_, seat) = self.table.shared.load_new_seat::<Look>(WORD);
        Watch { flag: self, seat }
    }

    /// Tells all workers that one has given up.
    pub(crate) fn raise(&self) {
        let mut watch = self.watch();
        watch.raise();
    }
}

impl<'a> Watch<'a> {
    /// Whoever saw the flag raised finds it raised.
    pub(crate) fn is_raised(&mut self) -> bool
        ensures stays { 0 < self.old → result ≡ true }
        ensures sees { result ≡ true → 0 < self.new }
    {
        let flag = self.flag;
        flag.table.shared.load::<Look>(&mut self.seat, WORD) != 0
    }

    /// Raises the flag, and knows it.
    pub(crate) fn raise(&mut self)
        ensures { 0 < self.new }
    {
        let flag = self.flag;
        flag.table.shared.store::<Raise>(&mut self.seat, WORD, 1);
    }
}
