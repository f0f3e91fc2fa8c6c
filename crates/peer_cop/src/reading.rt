//! The line of a wire at the front of a text.
ghost use Rattle.std.specs.Prelude.{◌≡◌, ◌≢◌, ◌<◌, ◌≤◌, ◌^◌, ℕ, true, false, List, length};
ghost use Rattle.std.specs.Prelude.{MatchOption};
ghost use Rattle.std.specs.List.{list_all};
ghost use Rattle.std.specs.Fmt.{decimal};
ghost use Rattle.plant_types.specs.Numerals.{is_digit, is_numeral_up_to, value_of};
ghost use Rattle.peer_cop.specs.declared.wire.Wire.{Wire};
ghost use Rattle.peer_cop.specs.Lines.{BeginsWithNumber, BeginsWithWire};

use crate::wire::Wire;
use memchr::memchr;
use plant_types::are_digits;

/// The most digits of a number of sixteen bits.
const MOST_DIGITS: usize = 5;

/// The number that decimal digits stand for.
fn value_of(digits: &[u8]) -> u32
    requires read { list_all is_digit digits.now ≡ true }
    requires few { length digits.now ≤ 5 }
    ensures { result ≡ value_of digits.now }
{
    let mut value = 0u32;
    for digit in digits {
        value = value * 10 + u32::from(*digit - b'0');
    }
    value
}

/// Whether a text is decimal digits, one to five, without a leading zero.
fn is_numeral(text: &[u8]) -> bool
    ensures { result ≡ is_numeral_up_to 5 text.now }
{
    let len = text.len();
    are_digits(text) && 1 <= len && len <= MOST_DIGITS && (len == 1 || text[0] != b'0')
}

/// The number below a limit that a text is in decimal digits.
fn number_of(text: &[u8], limit: u32) -> Option<u32>
    requires { limit ≤ 2 ^ 16 }
    ensures { MatchOption result ((n : ℕ) → n < limit → text.now ≢ decimal n)
        (λ n. (n < limit) × (text.now ≡ decimal n)) }
{
    if !is_numeral(text) {
        return None;
    }
    let value = value_of(text);
    if value < limit { Some(value) } else { None }
}

/// The number below a limit at the front of a text that ends before a byte, and what stands after
/// that byte.
fn read_number(text: &[u8], limit: u32, end: u8) -> Option<(u32, &[u8])>
    requires small { limit ≤ 2 ^ 16 }
    requires end { is_digit end ≡ false }
    ensures { MatchOption result
        ((n : ℕ) (rest : List ℕ) → ¬ (BeginsWithNumber limit end text.now n rest))
        (λ read. BeginsWithNumber limit end text.now read.0 read.1.now) }
{
    let place = memchr(end, text)?;
    let number = number_of(text.split_at(place).0, limit)?;
    Some((number, text.split_at(place + 1).1))
}

/// The address of a node or the number of a drop, and what stands after the blank behind it.
fn read_small(text: &[u8]) -> Option<(u8, &[u8])>
    ensures { MatchOption result
        ((n : ℕ) (rest : List ℕ) → ¬ (BeginsWithNumber (2 ^ 8) 32 text.now n rest))
        (λ read. BeginsWithNumber (2 ^ 8) 32 text.now read.0 read.1.now) }
{
    let (number, rest) = read_number(text, 1 << 8, b' ')?;
    Some((number as u8, rest))
}

/// The number of a word or of words, and what stands after the byte behind it.
fn read_word(text: &[u8], end: u8) -> Option<(u16, &[u8])>
    requires { is_digit end ≡ false }
    ensures { MatchOption result
        ((n : ℕ) (rest : List ℕ) → ¬ (BeginsWithNumber (2 ^ 16) end text.now n rest))
        (λ read. BeginsWithNumber (2 ^ 16) end text.now read.0 read.1.now) }
{
    let (number, rest) = read_number(text, 1 << 16, end)?;
    Some((number as u16, rest))
}

/// The wire with whose line a text begins, and what stands after that line.
pub(crate) fn read_wire(text: &[u8]) -> Option<(Wire, &[u8])>
    ensures { MatchOption result
        ((wire : Wire) (rest : List ℕ) → ¬ (BeginsWithWire text.now wire rest))
        (λ read. BeginsWithWire text.now read.0 read.1.now) }
{
    let (node, rest) = read_small(text)?;
    let (drop, rest) = read_small(rest)?;
    let (word, rest) = read_word(rest, b' ')?;
    let (from, rest) = read_small(rest)?;
    let (from_drop, rest) = read_small(rest)?;
    let (from_word, rest) = read_word(rest, b' ')?;
    let (count, rest) = read_word(rest, b'\n')?;
    let wire = Wire {
        node,
        drop,
        word,
        from,
        from_drop,
        from_word,
        count,
    };
    Some((wire, rest))
}
