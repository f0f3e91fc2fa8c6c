//! The packed store.
ghost use Rattle.std.specs.Prelude.{◌≡◌, ◌%◌, true, IfOk};
ghost use Rattle.std.specs.FinMap as map;
ghost use Rattle.plant_types.specs.Reference.{is_discrete};
ghost use Rattle.plant_types.specs.Sizes.{cleared, sizes_from};
ghost use Rattle.plant_types.specs.Store.{Keeps, part_within};
ghost use Rattle.plant_types.specs.Discretes.{word_bits, bits_from, with_bits};

use crate::banks::Banks;
use plant_types::{Ref, RefStore};
use std::alloc::{AllocError, Global};
use std::marker::Model;

/// A store over 16-bit words: sixteen discretes to a word, the first in the highest bit, and a
/// register to a word. Only `new` takes memory. This project's own.
pub struct PackedRam {
    banks: Banks,
}

impl Model for PackedRam {
    ghost use Rattle.plant_types.specs.Store.{Contents};
    ghost use Rattle.plant_types.specs.MapRam.{coded_contents};
    ghost use Rattle.state_ram.specs.Packed.{packed_contents};
    ghost use Rattle.state_ram.specs.Banks.{bank_words};

    ghost Value = { Contents };

    ghost coded = { coded_contents };

    ghost view = { λ a. packed_contents (bank_words a.banks) };
}

impl Drop for PackedRam {
    fn drop(self) {
        let PackedRam { banks: _ } = self;
    }
}

impl PackedRam {
    /// A store with all references of these sizes, each 0. Discretes come in sixteens.
    pub fn new(
        alloc: Global,
        coils: u16,
        inputs: u16,
        input_registers: u16,
        registers: u16,
    ) -> Result<PackedRam, AllocError>
        requires coils { coils % 16 ≡ 0 }
        requires inputs { inputs % 16 ≡ 0 }
        ensures { IfOk result (λ ram.
            ram ≡ cleared (sizes_from coils inputs input_registers registers)) }
    {
        let banks = Banks::new(alloc, coils / 16, inputs / 16, input_registers, registers)?;
        Ok(PackedRam { banks })
    }

    /// Each reference of this store takes the number that it has in another, word by word.
    pub fn copy_from(&mut self, other: &PackedRam)
        requires { Keeps self.old other.now }
        ensures copied { self.new ≡ part_within self.old other.now }
        ensures keeps { Keeps self.old self.new }
        ensures no_more { Keeps self.new self.old }
    {
        self.banks.copy_from(&other.banks);
    }

    /// Sixteen discretes as a word, the first in the highest bit: those from 1 on, from 17 on, ..
    pub fn group16(&self, at: Ref) -> u16
        requires held { map.contains_key self.now at ≡ true }
        requires kind { is_discrete at.kind ≡ true }
        requires first { at.number % 16 ≡ 1 }
        ensures { word_bits result ≡ bits_from self.now at 16 }
    {
        self.banks.group(at)
    }

    /// Sets sixteen discretes by a word, the first by the highest bit.
    pub fn set_group16(&mut self, at: Ref, value: u16)
        requires held { map.contains_key self.old at ≡ true }
        requires kind { is_discrete at.kind ≡ true }
        requires first { at.number % 16 ≡ 1 }
        ensures stored { self.new ≡ with_bits self.old at (word_bits value) }
        ensures keeps { Keeps self.old self.new }
    {
        self.banks.set_group(at, value);
    }
}

impl RefStore for PackedRam {
    ghost contents = { λ s. s };

    fn has(&self, at: Ref) -> bool {
        self.banks.has(at)
    }

    fn bit(&self, at: Ref) -> bool {
        self.banks.bit(at)
    }

    fn set_bit(&mut self, at: Ref, on: bool) {
        self.banks.set_bit(at, on);
    }

    fn word(&self, at: Ref) -> u16 {
        self.banks.word(at)
    }

    fn set_word(&mut self, at: Ref, value: u16) {
        self.banks.set_word(at, value);
    }
}
