//! The store.
ghost use Rattle.std.specs.Prelude.{◌≡◌, ◌↔◌, ◌++◌, true, slice_index, IsTrue, OnOk};
ghost use Rattle.plant_types.specs.Reference.{is_discrete};
ghost use Rattle.plant_types.specs.Sizes.{has_reference};
ghost use Rattle.plant_types.specs.Store.{is_on};
ghost use Rattle.state_ram.specs.Packed.{packed_contents, packed_sizes};
ghost use Rattle.key_store.specs.Words.{flat_words, no_words, words_cut};
ghost use Rattle.key_store.specs.Words.{HasWholeGroups};

use crate::banks::Banks;
use crate::bits::bit_of;
use plant_types::{Ref, RefKind, RefStore, Sizes};
use std::alloc::{AllocError, Global};
use std::marker::Model;

/// A store over 16-bit words, as `PackedRam` is one: sixteen discretes to a word, the first in the
/// highest bit, and a register to a word. What it holds are those words, which are taken out and put
/// in as one list: coils, inputs, input registers, registers. This project's own.
pub struct KeyRam {
    banks: Banks,
}

impl Model for KeyRam {
    ghost use Rattle.state_ram.specs.Packed.{Words};
    ghost use Rattle.key_store.specs.Words.{coded_words};
    ghost use Rattle.key_store.specs.Banks.{bank_words};

    ghost Value = { Words };

    ghost coded = { coded_words };

    ghost view = { λ a. bank_words a.banks };
}

impl Drop for KeyRam {
    fn drop(self) {
        let KeyRam { banks: _ } = self;
    }
}

impl KeyRam {
    /// A store without references; takes no memory.
    pub fn new(alloc: Global) -> KeyRam
        ensures { result ≡ no_words }
    {
        KeyRam {
            banks: Banks::new(alloc),
        }
    }

    /// Takes these words in place of its own, as many of each kind as the sizes take. Takes memory
    /// only where it never had as many.
    pub fn fill(&mut self, sizes: Sizes, words: &[u16]) -> Result<(), AllocError>
        ensures { OnOk result (self.new ≡ words_cut sizes words.now) }
    {
        self.banks.fill(sizes, words)
    }

    /// Adds its words to a list.
    pub fn push_to(&self, words: &mut Vec<u16>) -> Result<(), AllocError>
        ensures { OnOk result (words.new.items ≡ words.old.items ++ flat_words self.now) }
    {
        self.banks.push_to(words)
    }

    /// Whether it has the references of these sizes and no others.
    pub fn has_sizes(&self, sizes: Sizes) -> bool
        ensures { IsTrue result ↔ (packed_sizes self.now ≡ sizes) }
    {
        self.banks.has_sizes(sizes)
    }
}

impl RefStore for KeyRam {
    ghost contents = { packed_contents };

    fn has(&self, at: Ref) -> bool {
        self.banks.has(at)
    }

    fn bit(&self, at: Ref) -> bool {
        self.banks.bit(at)
    }

    fn set_bit(&mut self, at: Ref, on: bool) {
        self.banks.set_bit(at, on);
    }

    fn word(&self, at: Ref) -> u16 {
        self.banks.word(at)
    }

    fn set_word(&mut self, at: Ref, value: u16) {
        self.banks.set_word(at, value);
    }
}

/// The word at a place, or 0.
fn word_at(words: &[u16], place: usize) -> u16
    ensures { result ≡ slice_index words.now place }
{
    match words.get(place) {
        Some(word) => *word,
        None => 0,
    }
}

/// Whether a discrete is on in the store that has these words.
pub fn is_on_in(sizes: Sizes, words: &[u16], at: Ref) -> bool
    requires whole { HasWholeGroups sizes }
    requires held { has_reference sizes at ≡ true }
    requires kind { is_discrete at.kind ≡ true }
    ensures { result ≡ is_on (packed_contents (words_cut sizes words.now)) at }
{
    let place = at.number - 1;
    let group = usize::from(place / 16);
    match at.kind {
        RefKind::Coil => bit_of(word_at(words, group), place % 16),
        _ => {
            let before = usize::from(sizes.coils / 16);
            bit_of(word_at(words, before + group), place % 16)
        }
    }
}
