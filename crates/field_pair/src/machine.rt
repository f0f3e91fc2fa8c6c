//! Two controllers side by side as a machine over keys.
ghost use Rattle.std.specs.Prelude.{◌≡◌, ◌<◌, OnOk, nat_eq, take};
ghost use Rattle.std.specs.Cmp.Lexicographic.{pointwise};

use crate::exchanges::{bring, way_of};
use crate::pair::{Pair, PairWork};
use field_machine::{word_at, words_behind};
use state_space::Machine;
use std::alloc::AllocError;

/// The first words of a key, so many of them.
pub(crate) fn words_before(key: &[u16], many: usize) -> &[u16]
    ensures { result.now ≡ take many key.now }
{
    if many < key.len() { &key[..many] } else { key }
}

impl Pair {
    ghost use Rattle.field_pair.specs.Pair.{FitsPair, IsNewKey, IsOldKey, new_behind, new_values};
    ghost use Rattle.field_pair.specs.Pair.{old_behind, old_values};

    /// Whether both panels show the same in the states of two keys.
    fn shows_same(&self, old: &[u16], new: &[u16]) -> bool
        ensures { result ≡ pointwise nat_eq (old_values self.now old.now)
            (new_values self.now new.now) }
    {
        for at in self.panel.as_slice() {
            if self.old.value_in(old, *at) != self.new.value_in(new, *at) {
                return false;
            }
        }
        true
    }

    /// Writes the key of the old one's state behind a scan.
    fn scan_old(
        &self,
        work: &mut PairWork,
        from: &[u16],
        by: usize,
        key: &mut Vec<u16>,
    ) -> Result<(), AllocError>
        requires fits { FitsPair self.now work.old }
        requires by { by < self.now.moves }
        ensures fits { FitsPair self.now work.new }
        ensures key { OnOk result (IsOldKey self.now (old_behind self.now by from.now)
            key.new.items) }
    {
        bring(&mut work.exchanges, self.choices.as_slice(), by)?;
        let _most = self.old.moves();
        let way = way_of(self.old_reads.as_slice(), &mut work.exchanges);
        self.old.next(&mut work.old_work, words_before(from, self.size), way, key)
    }

    /// Writes the key of the new one's state behind a scan.
    fn scan_new(&self, work: &mut PairWork, from: &[u16], by: usize) -> Result<(), AllocError>
        requires fits { FitsPair self.now work.old }
        requires by { by < self.now.moves }
        ensures fits { FitsPair self.now work.new }
        ensures key { OnOk result (IsNewKey self.now (new_behind self.now by from.now)
            work.new.key.items) }
    {
        bring(&mut work.exchanges, self.choices.as_slice(), by)?;
        let _most = self.new.moves();
        let way = way_of(self.new_reads.as_slice(), &mut work.exchanges);
        let from = words_behind(from, self.size);
        self.new.next(&mut work.new_work, from, way, &mut work.key)
    }
}

impl Machine<PairWork> for Pair {
    ghost use Rattle.field_pair.specs.Pair.{FitsPair, are_apart, pair_leads, pair_starts};
    ghost use Rattle.field_pair.specs.Pair.{states_in};

    ghost fits = { FitsPair };

    ghost starts = { pair_starts };

    ghost count = { λ pair. pair.moves };

    ghost leads = { pair_leads };

    ghost bad = { λ pair key. are_apart pair (states_in pair key) };

    fn start(&self, work: &mut PairWork, key: &mut Vec<u16>) -> Result<(), AllocError> {
        self.old.start(&mut work.old_work, key)?;
        self.new.start(&mut work.new_work, &mut work.key)?;
        key.extend_from_slice(work.key.as_slice())
    }

    fn moves(&self) -> usize {
        self.moves
    }

    fn next(
        &self,
        work: &mut PairWork,
        from: &[u16],
        by: usize,
        key: &mut Vec<u16>,
    ) -> Result<(), AllocError> {
        self.scan_old(work, from, by, key)?;
        self.scan_new(work, from, by)?;
        key.extend_from_slice(work.key.as_slice())
    }

    fn is_bad(&self, key: &[u16]) -> bool {
        let (old, new) = (words_before(key, self.size), words_behind(key, self.size));
        let (stop, other) = (word_at(old, 1), word_at(new, 1));
        if stop != other {
            return true;
        }
        stop == 0 && !self.shows_same(old, new)
    }
}
