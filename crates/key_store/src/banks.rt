//! The words of each kind: sixteen discretes to a word, the first in the highest bit.
ghost use Rattle.std.specs.Prelude.{◌≡◌, ◌↔◌, true, false, if◌then◌else◌, IsTrue, OnOk};
ghost use Rattle.std.specs.Prelude.{◌++◌, take, drop};
ghost use Rattle.plant_types.specs.Reference.{is_discrete};
ghost use Rattle.plant_types.specs.Sizes.{has_reference};
ghost use Rattle.state_ram.specs.Packed.{HasPlaceFor, Sets, packed_number, packed_sizes};
ghost use Rattle.state_ram.specs.Packed.{group_of, with_group};
ghost use Rattle.key_store.specs.Words.{flat_words, no_words, words_cut};

use crate::bits::{bit_of, with_bit};
use plant_types::{Ref, RefKind, Sizes};
use std::alloc::{AllocError, Global};

#[derive(Drop)]
pub(crate) struct Banks {
    pub(crate) coils: Vec<u16>,
    pub(crate) inputs: Vec<u16>,
    pub(crate) input_registers: Vec<u16>,
    pub(crate) registers: Vec<u16>,
}

/// At most so many words from the front of a list, and the others.
fn cut_at(words: &[u16], count: u16) -> (&[u16], &[u16])
    ensures front { result.0.now ≡ take count words.now }
    ensures rest { result.1.now ≡ drop count words.now }
{
    words.split_at(usize::from(count).min(words.len()))
}

/// A bank takes these words in place of its own.
fn refill(bank: &mut Vec<u16>, words: &[u16]) -> Result<(), AllocError>
    ensures { OnOk result (bank.new.items ≡ words.now) }
{
    bank.clear();
    bank.extend_from_slice(words)
}

impl Banks {
    ghost use Rattle.key_store.specs.Banks.{bank_words};

    /// No words of any kind; takes no memory.
    pub(crate) fn new(alloc: Global) -> Banks
        ensures { bank_words result ≡ no_words }
    {
        Banks {
            coils: Vec::new(alloc),
            inputs: Vec::new(alloc),
            input_registers: Vec::new(alloc),
            registers: Vec::new(alloc),
        }
    }

    /// Takes these words in place of its own, as many of each kind as the sizes take.
    pub(crate) fn fill(&mut self, sizes: Sizes, words: &[u16]) -> Result<(), AllocError>
        ensures { OnOk result (bank_words self.new ≡ words_cut sizes words.now) }
    {
        let (coils, rest) = cut_at(words, sizes.coils / 16);
        let (inputs, rest) = cut_at(rest, sizes.inputs / 16);
        let (input_registers, rest) = cut_at(rest, sizes.input_registers);
        let (registers, _) = cut_at(rest, sizes.registers);
        refill(&mut self.coils, coils)?;
        refill(&mut self.inputs, inputs)?;
        refill(&mut self.input_registers, input_registers)?;
        refill(&mut self.registers, registers)
    }

    /// Adds its words to a list.
    pub(crate) fn push_to(&self, words: &mut Vec<u16>) -> Result<(), AllocError>
        ensures { OnOk result (words.new.items ≡ words.old.items ++ flat_words (bank_words self.now)) }
    {
        words.extend_from_slice(self.coils.as_slice())?;
        words.extend_from_slice(self.inputs.as_slice())?;
        words.extend_from_slice(self.input_registers.as_slice())?;
        words.extend_from_slice(self.registers.as_slice())
    }

    /// Whether it has the references of these sizes and no others.
    pub(crate) fn has_sizes(&self, sizes: Sizes) -> bool
        ensures { IsTrue result ↔ (packed_sizes (bank_words self.now) ≡ sizes) }
    {
        sizes.coils % 16 == 0
            && sizes.inputs % 16 == 0
            && self.coils.len() == usize::from(sizes.coils / 16)
            && self.inputs.len() == usize::from(sizes.inputs / 16)
            && self.input_registers.len() == usize::from(sizes.input_registers)
            && self.registers.len() == usize::from(sizes.registers)
    }

    pub(crate) fn has(&self, at: Ref) -> bool
        ensures { result ≡ has_reference (packed_sizes (bank_words self.now)) at }
    {
        if at.number == 0 {
            return false;
        }
        let place = usize::from(at.number - 1);
        match at.kind {
            RefKind::Coil => place / 16 < self.coils.len(),
            RefKind::Input => place / 16 < self.inputs.len(),
            RefKind::InputRegister => place < self.input_registers.len(),
            RefKind::Register => place < self.registers.len(),
        }
    }

    /// The word of sixteen discretes that holds one of them.
    fn group(&self, at: Ref) -> u16
        requires place { HasPlaceFor (bank_words self.now) at }
        requires kind { is_discrete at.kind ≡ true }
        ensures { result ≡ group_of (bank_words self.now) at }
    {
        let place = usize::from((at.number - 1) / 16);
        if at.kind == RefKind::Coil {
            self.coils[place]
        } else {
            self.inputs[place]
        }
    }

    /// Stores the word of sixteen discretes that holds one of them.
    fn set_group(&mut self, at: Ref, word: u16)
        requires place { HasPlaceFor (bank_words self.old) at }
        requires kind { is_discrete at.kind ≡ true }
        ensures { bank_words self.new ≡ with_group (bank_words self.old) at word }
    {
        let place = usize::from((at.number - 1) / 16);
        match at.kind {
            RefKind::Coil => self.coils[place] = word,
            RefKind::Input => self.inputs[place] = word,
            RefKind::InputRegister | RefKind::Register => unreachable!(),
        }
    }

    pub(crate) fn bit(&self, at: Ref) -> bool
        requires place { HasPlaceFor (bank_words self.now) at }
        requires kind { is_discrete at.kind ≡ true }
        ensures { (if result then 1 else 0) ≡ packed_number (bank_words self.now) at }
    {
        bit_of(self.group(at), (at.number - 1) % 16)
    }

    pub(crate) fn set_bit(&mut self, at: Ref, on: bool)
        requires place { HasPlaceFor (bank_words self.old) at }
        requires kind { is_discrete at.kind ≡ true }
        ensures { Sets (bank_words self.old) (bank_words self.new) at (if on then 1 else 0) }
    {
        let word = with_bit(self.group(at), (at.number - 1) % 16, on);
        self.set_group(at, word);
    }

    pub(crate) fn word(&self, at: Ref) -> u16
        requires place { HasPlaceFor (bank_words self.now) at }
        requires kind { is_discrete at.kind ≡ false }
        ensures { result ≡ packed_number (bank_words self.now) at }
    {
        let place = usize::from(at.number - 1);
        if at.kind == RefKind::Register {
            self.registers[place]
        } else {
            self.input_registers[place]
        }
    }

    pub(crate) fn set_word(&mut self, at: Ref, value: u16)
        requires place { HasPlaceFor (bank_words self.old) at }
        requires kind { is_discrete at.kind ≡ false }
        ensures { Sets (bank_words self.old) (bank_words self.new) at value }
    {
        let place = usize::from(at.number - 1);
        match at.kind {
            RefKind::InputRegister => self.input_registers[place] = value,
            RefKind::Register => self.registers[place] = value,
            RefKind::Coil | RefKind::Input => unreachable!(),
        }
    }
}
