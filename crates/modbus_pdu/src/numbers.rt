//! Two-byte numbers.
ghost use Rattle.std.specs.Prelude.{◌≡◌, ◌∷◌, ◌++◌, ◌<◌, ◌*◌, ◌≤◌, length, MatchOption, IfOk};
ghost use Rattle.modbus_pdu.specs.Bytes.{word_bytes, words_bytes};
ghost use Rattle.modbus_pdu.specs.Quantities.{most_registers_read};
ghost use Rattle.modbus_pdu.specs.Steps.{AreTwoWords, HasNoTwoWords, IsRange, HasNoRange};
ghost use Rattle.modbus_pdu.specs.Steps.{AreThreeWords, HasNoThreeWords, IsUncounted, Counts};
ghost use Rattle.modbus_pdu.specs.Steps.{CountsNone, CountsBoth, CountsNoBoth};

use crate::limits::REGISTERS_READ;
use byteorder::{BigEndian, ByteOrder};
use plant_types::Words;
use std::alloc::{AllocError, Global};

/// The number at the front, and the bytes behind it.
pub(crate) fn word_at(bytes: &[u8]) -> Option<(u16, &[u8])>
    ensures { MatchOption result (length bytes.now < 2)
        (λ found. bytes.now ≡ word_bytes found.0 ++ found.1.now) }
{
    if bytes.len() < 2 {
        return None;
    }
    Some((BigEndian::read_u16(bytes), &bytes[2..]))
}

/// Two numbers and nothing else.
pub(crate) fn two_words(bytes: &[u8]) -> Option<(u16, u16)>
    ensures { MatchOption result (HasNoTwoWords bytes.now)
        (λ found. AreTwoWords bytes.now found.0 found.1) }
{
    if bytes.len() != 4 {
        return None;
    }
    let (first, rest) = word_at(bytes)?;
    let (second, _) = word_at(rest)?;
    Some((first, second))
}

/// An address and a quantity from one up to the most, and nothing else.
pub(crate) fn range_in(bytes: &[u8], most: u16) -> Option<(u16, u16)>
    ensures { MatchOption result (HasNoRange most bytes.now)
        (λ found. IsRange most bytes.now found.0 found.1) }
{
    let (address, quantity) = two_words(bytes)?;
    if quantity < 1 || quantity > most {
        return None;
    }
    Some((address, quantity))
}

/// Three numbers and nothing else.
pub(crate) fn three_words(bytes: &[u8]) -> Option<(u16, u16, u16)>
    ensures { MatchOption result (HasNoThreeWords bytes.now)
        (λ w. AreThreeWords bytes.now w.0 w.1 w.2) }
{
    if bytes.len() != 6 {
        return None;
    }
    let (first, rest) = word_at(bytes)?;
    let (second, third) = two_words(rest)?;
    Some((first, second, third))
}

fn read_words(bytes: &[u8], words: &mut [u16])
    requires { length bytes.now ≡ 2 * length words.old }
    ensures { words_bytes words.new ≡ bytes.now }
{
    BigEndian::read_u16_into(bytes, words);
}

/// So many numbers, all of the bytes.
pub(crate) fn words_in(alloc: Global, bytes: &[u8], count: usize) -> Result<Words, AllocError>
    requires even { length bytes.now ≡ 2 * count }
    requires fits { count ≤ most_registers_read }
    ensures { IfOk result (λ words. words_bytes words ≡ bytes.now) }
{
    let mut words = [0; REGISTERS_READ as usize];
    let words = &mut words[..count];
    read_words(bytes, words);
    Words::of(alloc, words)
}

/// What a byte counts: the bytes behind it, no more and no fewer.
pub(crate) fn counted(bytes: &[u8]) -> Option<&[u8]>
    ensures { MatchOption result (IsUncounted bytes.now)
        (λ rest. bytes.now ≡ length rest.now ∷ rest.now) }
{
    match bytes {
        [count, rest @ ..] if *count as usize == rest.len() => Some(rest),
        _ => None,
    }
}

/// An address, a quantity and what a byte counts.
pub(crate) fn written(bytes: &[u8]) -> Option<(u16, u16, &[u8])>
    ensures { MatchOption result (CountsNone bytes.now)
        (λ found. Counts bytes.now found.0 found.1 found.2.now) }
{
    let (address, rest) = word_at(bytes)?;
    let (quantity, rest) = word_at(rest)?;
    let rest = counted(rest)?;
    Some((address, quantity, rest))
}

/// Two addresses with a quantity each, and what a byte counts.
pub(crate) fn read_written(bytes: &[u8]) -> Option<(u16, u16, u16, u16, &[u8])>
    ensures { MatchOption result (CountsNoBoth bytes.now)
        (λ w. CountsBoth bytes.now w.0 w.1 w.2 w.3 w.4.now) }
{
    let (read, rest) = word_at(bytes)?;
    let (quantity, rest) = word_at(rest)?;
    let (write, count, rest) = written(rest)?;
    Some((read, quantity, write, count, rest))
}
