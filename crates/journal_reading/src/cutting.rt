//! The parts of a line, and the numbers in it.
ghost use Rattle.std.specs.Prelude.{◌≡◌, ◌<◌, ◌≤◌, true, length, slice_index, option_map, IfOk};
ghost use Rattle.std.specs.List.{list_all};
ghost use Rattle.std.specs.Str.{bytes_eq};
ghost use Rattle.journal_reading.specs.declared.cutting.LineFault.TheVariants as faults;
ghost use Rattle.plant_types.specs.Numerals.{is_digit, is_numeral_up_to, value_of};
ghost use Rattle.journal_reading.specs.Reading.{Reads, behind, cut, read_id, read_long};
ghost use Rattle.journal_reading.specs.Reading.{read_number, read_small, read_word};

use memchr::memchr;
use mstr_block::CallId;
use plant_types::{are_digits, is_digit};
use std::alloc::AllocError;

/// Why a line, or a part of one, was not read.
#[derive(Clone, Copy, Debug, PartialEq, Eq)]
pub enum LineFault {
    Wrong,
    NoMemory,
}

impl From<AllocError> for LineFault {
    ghost from_gives = { λ _ fault. fault ≡ faults.NoMemory };

    fn from(_: AllocError) -> LineFault {
        LineFault::NoMemory
    }
}

/// What stands before the first byte of its kind, and after it.
pub fn parted(text: &[u8], at: u8) -> Option<(&[u8], &[u8])>
    ensures { option_map (λ parts. (parts.0.now, parts.1.now)) result ≡ cut at text.now }
{
    match memchr(at, text) {
        Some(place) => Some((text.split_at(place).0, text.split_at(place + 1).1)),
        None => None,
    }
}

/// The same, where a line without such a byte is wrong.
pub fn cut(text: &[u8], at: u8) -> Result<(&[u8], &[u8]), LineFault>
    ensures { Reads (λ parts. (parts.0.now, parts.1.now)) result (cut at text.now) }
{
    match parted(text, at) {
        Some(parts) => Ok(parts),
        None => Err(LineFault::Wrong),
    }
}

/// What stands after a prefix.
pub fn behind<'a>(text: &'a [u8], front: &str) -> Option<&'a [u8]>
    ensures { option_map (λ rest. rest.now) result ≡ behind front.now text.now }
{
    text.strip_prefix(front.as_bytes())
}

/// Whether a text is this one.
pub fn is_text(text: &[u8], other: &str) -> bool
    ensures { result ≡ bytes_eq text.now other.now }
{
    text == other.as_bytes()
}

/// Whether a text begins with a digit.
pub(crate) fn has_digit_first(text: &[u8]) -> bool
    ensures { result ≡ is_digit (slice_index text.now 0) }
{
    match text.first() {
        Some(byte) => is_digit(*byte),
        None => false,
    }
}

/// The number that decimal digits stand for.
fn value_of(digits: &[u8]) -> u64
    requires read { list_all is_digit digits.now ≡ true }
    requires few { length digits.now ≤ 10 }
    ensures { result ≡ value_of digits.now }
{
    let mut value = 0u64;
    for digit in digits {
        value = value * 10 + u64::from(*digit - b'0');
    }
    value
}

/// Whether a text is decimal digits, one to ten, without a leading zero.
fn is_numeral(text: &[u8]) -> bool
    ensures { result ≡ is_numeral_up_to 10 text.now }
{
    let len = text.len();
    are_digits(text) && 1 <= len && len <= 10 && (len == 1 || text[0] != b'0')
}

/// A number below a limit, without a leading zero.
fn read_number(text: &[u8], limit: u64) -> Result<u64, LineFault>
    ensures number { Reads (λ number. number) result (read_number limit text.now) }
    ensures below { IfOk result (λ number. number < limit) }
{
    if !is_numeral(text) {
        return Err(LineFault::Wrong);
    }
    let value = value_of(text);
    if value < limit {
        Ok(value)
    } else {
        Err(LineFault::Wrong)
    }
}

/// A node, a path or a byte.
#[tactic(auto, unfolding(crate::specs::Reading::read_small))]
pub fn read_small(text: &[u8]) -> Result<u8, LineFault>
    ensures { Reads (λ number. number) result (read_small text.now) }
{
    let number = read_number(text, 1 << 8)?;
    Ok(number as u8)
}

#[tactic(auto, unfolding(crate::specs::Reading::read_word))]
pub(crate) fn read_word(text: &[u8]) -> Result<u16, LineFault>
    ensures { Reads (λ number. number) result (read_word text.now) }
{
    let number = read_number(text, 1 << 16)?;
    Ok(number as u16)
}

#[tactic(auto, unfolding(crate::specs::Reading::read_long))]
pub(crate) fn read_long(text: &[u8]) -> Result<u32, LineFault>
    ensures { Reads (λ number. number) result (read_long text.now) }
{
    let number = read_number(text, 1 << 32)?;
    Ok(number as u32)
}

#[tactic(auto, unfolding(crate::specs::Reading::read_id))]
pub(crate) fn read_id(text: &[u8]) -> Result<CallId, LineFault>
    ensures { Reads (λ id. id) result (read_id text.now) }
{
    let (node, rest) = cut(text, b'.')?;
    let node = read_small(node)?;
    let (path, seq) = cut(rest, b'.')?;
    let path = read_small(path)?;
    let seq = read_long(seq)?;
    Ok(CallId { node, path, seq })
}
