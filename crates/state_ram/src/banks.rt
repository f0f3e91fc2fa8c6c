//! The words of each kind: sixteen discretes to a word, the first in the highest bit.
ghost use Rattle.std.specs.Prelude.{◌≡◌, ◌≤◌, true, false, length, take, IfOk, if◌then◌else◌};
ghost use Rattle.plant_types.specs.Reference.{is_discrete};
ghost use Rattle.plant_types.specs.Sizes.{has_reference};
ghost use Rattle.state_ram.specs.Packed.{HasPlaceFor, AreNoMore, Sets, packed_number, packed_sizes};
ghost use Rattle.state_ram.specs.Packed.{group_of, with_group, words_taken, zero_words};

use crate::bits::{bit_of, with_bit};
use plant_types::{Ref, RefKind};
use std::alloc::{AllocError, Global};

pub(crate) struct Banks {
    pub(crate) coils: Vec<u16>,
    pub(crate) inputs: Vec<u16>,
    pub(crate) input_registers: Vec<u16>,
    pub(crate) registers: Vec<u16>,
}

impl Drop for Banks {
    fn drop(self) {
        let Banks {
            coils: _,
            inputs: _,
            input_registers: _,
            registers: _,
        } = self;
    }
}

/// As many words as there are, taken from others.
fn copy_words(words: &mut Vec<u16>, other: &Vec<u16>)
    requires { length words.old.items ≤ length other.now.items }
    ensures { words.new.items ≡ take (length words.old.items) other.now.items }
{
    let count = words.len();
    words
        .as_mut_slice()
        .copy_from_slice(&other.as_slice()[..count]);
}

impl Banks {
    ghost use Rattle.state_ram.specs.Banks.{bank_words};

    /// So many words of each kind, all 0.
    pub(crate) fn new(
        alloc: Global,
        coils: u16,
        inputs: u16,
        input_registers: u16,
        registers: u16,
    ) -> Result<Banks, AllocError>
        ensures { IfOk result (λ banks.
            bank_words banks ≡ zero_words coils inputs input_registers registers) }
    {
        Ok(Banks {
            coils: vec![in alloc; 0; usize::from(coils)]?,
            inputs: vec![in alloc; 0; usize::from(inputs)]?,
            input_registers: vec![in alloc; 0; usize::from(input_registers)]?,
            registers: vec![in alloc; 0; usize::from(registers)]?,
        })
    }

    pub(crate) fn has(&self, at: Ref) -> bool
        ensures { result ≡ has_reference (packed_sizes (bank_words self.now)) at }
    {
        if at.number == 0 {
            return false;
        }
        let place = usize::from(at.number - 1);
        match at.kind {
            RefKind::Coil => place / 16 < self.coils.len(),
            RefKind::Input => place / 16 < self.inputs.len(),
            RefKind::InputRegister => place < self.input_registers.len(),
            RefKind::Register => place < self.registers.len(),
        }
    }

    /// The word of sixteen discretes that holds one of them.
    pub(crate) fn group(&self, at: Ref) -> u16
        requires place { HasPlaceFor (bank_words self.now) at }
        requires kind { is_discrete at.kind ≡ true }
        ensures { result ≡ group_of (bank_words self.now) at }
    {
        let place = usize::from((at.number - 1) / 16);
        if at.kind == RefKind::Coil {
            self.coils[place]
        } else {
            self.inputs[place]
        }
    }

    /// Stores the word of sixteen discretes that holds one of them.
    pub(crate) fn set_group(&mut self, at: Ref, word: u16)
        requires place { HasPlaceFor (bank_words self.old) at }
        requires kind { is_discrete at.kind ≡ true }
        ensures { bank_words self.new ≡ with_group (bank_words self.old) at word }
    {
        let place = usize::from((at.number - 1) / 16);
        match at.kind {
            RefKind::Coil => self.coils[place] = word,
            RefKind::Input => self.inputs[place] = word,
            RefKind::InputRegister | RefKind::Register => unreachable!(),
        }
    }

    pub(crate) fn bit(&self, at: Ref) -> bool
        requires place { HasPlaceFor (bank_words self.now) at }
        requires kind { is_discrete at.kind ≡ true }
        ensures { (if result then 1 else 0) ≡ packed_number (bank_words self.now) at }
    {
        bit_of(self.group(at), (at.number - 1) % 16)
    }

    pub(crate) fn set_bit(&mut self, at: Ref, on: bool)
        requires place { HasPlaceFor (bank_words self.old) at }
        requires kind { is_discrete at.kind ≡ true }
        ensures { Sets (bank_words self.old) (bank_words self.new) at (if on then 1 else 0) }
    {
        let word = with_bit(self.group(at), (at.number - 1) % 16, on);
        self.set_group(at, word);
    }

    pub(crate) fn word(&self, at: Ref) -> u16
        requires place { HasPlaceFor (bank_words self.now) at }
        requires kind { is_discrete at.kind ≡ false }
        ensures { result ≡ packed_number (bank_words self.now) at }
    {
        let place = usize::from(at.number - 1);
        if at.kind == RefKind::Register {
            self.registers[place]
        } else {
            self.input_registers[place]
        }
    }

    pub(crate) fn set_word(&mut self, at: Ref, value: u16)
        requires place { HasPlaceFor (bank_words self.old) at }
        requires kind { is_discrete at.kind ≡ false }
        ensures { Sets (bank_words self.old) (bank_words self.new) at value }
    {
        let place = usize::from(at.number - 1);
        match at.kind {
            RefKind::InputRegister => self.input_registers[place] = value,
            RefKind::Register => self.registers[place] = value,
            RefKind::Coil | RefKind::Input => unreachable!(),
        }
    }

    pub(crate) fn copy_from(&mut self, other: &Banks)
        requires { AreNoMore (bank_words self.old) (bank_words other.now) }
        ensures { bank_words self.new ≡ words_taken (bank_words self.old) (bank_words other.now) }
    {
        copy_words(&mut self.coils, &other.coils);
        copy_words(&mut self.inputs, &other.inputs);
        copy_words(&mut self.input_registers, &other.input_registers);
        copy_words(&mut self.registers, &other.registers);
    }
}
