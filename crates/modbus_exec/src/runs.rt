//! Runs of references: whether the map has them, and what they hold.
ghost use Rattle.std.specs.Prelude.{◌≡◌, ◌+◌, ◌<◌, ◌≤◌, true, false, length, IsTrue, IfOk};
ghost use Rattle.plant_types.specs.Reference.{is_discrete, ref_from};
ghost use Rattle.plant_types.specs.Store.{words_from, with_words};
ghost use Rattle.modbus_pdu.specs.Quantities.{most_discretes_read, most_registers_read};
ghost use Rattle.plant_types.specs.Discretes.{bits_from, with_bits};
ghost use Rattle.modbus_exec.specs.Runs.{reference_at, is_in_map, are_in_map, HasReferences};

use plant_types::{List, Ref, RefKind, RefStore, Words};
use std::alloc::{AllocError, Global};

/// Whether the map has the reference at an address.
pub(crate) fn is_in_map<R: RefStore>(ram: &R, kind: RefKind, address: u16) -> bool
    ensures { result ≡ is_in_map (R.contents ram.now) (reference_at kind address) }
{
    if address == 65535 {
        return false;
    }
    ram.has(reference_of(kind, address))
}

/// Whether the map has the reference so many places behind an address.
fn is_in_map_behind<R: RefStore>(ram: &R, kind: RefKind, address: u16, place: usize) -> bool
    requires { place ≤ most_discretes_read }
    ensures { result ≡ is_in_map (R.contents ram.now) (ref_from (reference_at kind address) place) }
{
    let number = u32::from(address) + 1 + place as u32;
    if number > 65535 {
        return false;
    }
    ram.has(Ref {
        kind,
        number: number as u16,
    })
}

/// Whether the map has so many references from an address on.
pub(crate) fn are_in_map<R: RefStore>(ram: &R, kind: RefKind, address: u16, count: usize) -> bool
    requires { count ≤ most_discretes_read }
    ensures all { result ≡ are_in_map (R.contents ram.now) (reference_at kind address) count }
    ensures run { IsTrue result →
        HasReferences (R.contents ram.now) (reference_at kind address) count }
{
    for place in 0..count {
        if !is_in_map_behind(ram, kind, address, place) {
            return false;
        }
    }
    true
}

/// The reference at an address.
pub(crate) fn reference_of(kind: RefKind, address: u16) -> Ref
    requires { address < 65535 }
    ensures { result ≡ reference_at kind address }
{
    Ref {
        kind,
        number: address + 1,
    }
}

/// The reference so many places behind an address.
pub(crate) fn reference_behind(kind: RefKind, address: u16, place: usize) -> Ref
    requires { address + 1 + place < 65536 }
    ensures { result ≡ ref_from (reference_at kind address) place }
{
    Ref {
        kind,
        number: address + 1 + place as u16,
    }
}

/// Whether so many discretes are on.
pub(crate) fn read_bits<R: RefStore>(
    alloc: Global,
    ram: &R,
    kind: RefKind,
    address: u16,
    count: usize,
) -> Result<List<bool>, AllocError>
    requires run { HasReferences (R.contents ram.now) (reference_at kind address) count }
    requires kind { is_discrete kind ≡ true }
    ensures { IfOk result (λ bits.
        bits ≡ bits_from (R.contents ram.now) (reference_at kind address) count) }
{
    let mut bits = Vec::with_capacity(alloc, count)?;
    for place in 0..count {
        bits.push(ram.bit(reference_behind(kind, address, place)))?;
    }
    Ok(List::from_vec(bits))
}

/// Reads the registers from an address on, as many as `words` has places.
fn read_words<R: RefStore>(ram: &R, kind: RefKind, address: u16, words: &mut [u16])
    requires run { HasReferences (R.contents ram.now) (reference_at kind address)
        (length words.old) }
    requires kind { is_discrete kind ≡ false }
    ensures { words.new ≡
        words_from (R.contents ram.now) (reference_at kind address) (length words.old) }
{
    for (place, word) in words.iter_mut().enumerate() {
        *word = ram.word(reference_behind(kind, address, place));
    }
}

/// The words of so many registers from an address on.
pub(crate) fn read_run<R: RefStore>(
    alloc: Global,
    ram: &R,
    kind: RefKind,
    address: u16,
    count: usize,
) -> Result<Words, AllocError>
    requires run { HasReferences (R.contents ram.now) (reference_at kind address) count }
    requires kind { is_discrete kind ≡ false }
    requires most { count ≤ most_registers_read }
    ensures { IfOk result (λ words.
        words ≡ words_from (R.contents ram.now) (reference_at kind address) count) }
{
    let mut words = [0; 125];
    let words = &mut words[..count];
    read_words(ram, kind, address, words);
    Words::of(alloc, words)
}

/// Sets the coils from an address on.
pub(crate) fn write_bits<R: RefStore>(ram: &mut R, address: u16, bits: &[bool])
    requires { HasReferences (R.contents ram.old) (reference_at RefKind.Coil address)
        (length bits.now) }
    ensures { R.contents ram.new ≡
        with_bits (R.contents ram.old) (reference_at RefKind.Coil address) bits.now }
{
    for (place, on) in bits.iter().enumerate() {
        ram.set_bit(reference_behind(RefKind::Coil, address, place), *on);
    }
}

/// Stores words in the registers from an address on.
pub(crate) fn write_words<R: RefStore>(ram: &mut R, address: u16, words: &[u16])
    requires { HasReferences (R.contents ram.old)
        (reference_at RefKind.Register address) (length words.now) }
    ensures { R.contents ram.new ≡
        with_words (R.contents ram.old) (reference_at RefKind.Register address) words.now }
{
    for (place, word) in words.iter().enumerate() {
        ram.set_word(reference_behind(RefKind::Register, address, place), *word);
    }
}
