//! The numbers, places and references that words stand for.
ghost use Rattle.std.specs.Prelude.{◌≡◌, ◌≤◌, ◌==◌, true, length};
ghost use Rattle.std.specs.List.{list_all, position, before_first, after_first};
ghost use Rattle.plant_types.specs.Numerals.{is_digit, value_of};
ghost use Rattle.cell_text.specs.Numbers.{is_spelled_number, spelled_number};
ghost use Rattle.cell_text.specs.Numbers.{position_of, is_reference_word, reference_number};
ghost use Rattle.cell_text.specs.Numbers.{kind_by_digit, reference_of};

use plant_types::{REFERENCE_LIMIT, Ref, RefKind, are_digits};

/// The rows of a network, and its columns.
pub const ROWS: u16 = 7;

const COLUMNS: u16 = 11;

/// The number that decimal digits stand for.
fn value_of(digits: &[u8]) -> u16
    requires read { list_all is_digit digits.now ≡ true }
    requires few { length digits.now ≤ 4 }
    ensures { result ≡ value_of digits.now }
{
    let mut value = 0u16;
    for digit in digits {
        value = value * 10 + u16::from(*digit - b'0');
    }
    value
}

/// Whether a word is one to four digits without a leading zero.
pub fn is_spelled_number(word: &[u8]) -> bool
    ensures { result ≡ is_spelled_number word.now }
{
    let len = word.len();
    are_digits(word) && 1 <= len && len <= 4 && (len == 1 || word[0] != b'0')
}

/// The number that one to four digits without a leading zero stand for.
pub fn spelled_number(word: &[u8]) -> Option<u16>
    ensures { result ≡ spelled_number word.now }
{
    if is_spelled_number(word) {
        Some(value_of(word))
    } else {
        None
    }
}

fn comma_of(word: &[u8]) -> Option<usize>
    ensures { result ≡ position (λ byte. byte == 44) word.now }
{
    word.iter().position(|byte| *byte == b',')
}

/// What stands before the first comma of a word, and what stands behind it.
fn comma_parts(word: &[u8]) -> (&[u8], &[u8])
    ensures before { result.0.now ≡ before_first (λ byte. byte == 44) word.now }
    ensures behind { result.1.now ≡ after_first (λ byte. byte == 44) word.now }
{
    match comma_of(word) {
        Some(comma) => (word.split_at(comma).0, word.split_at(comma + 1).1),
        None => (word, &[]),
    }
}

/// The row and the column that a word stands for.
pub fn position_of(word: &[u8]) -> Option<(u8, u8)>
    ensures { result ≡ position_of word.now }
{
    let (row, column) = comma_parts(word);
    let Some(row) = spelled_number(row) else {
        return None;
    };
    let Some(column) = spelled_number(column) else {
        return None;
    };
    if 1 <= row && row <= ROWS && 1 <= column && column <= COLUMNS {
        Some((row as u8, column as u8))
    } else {
        None
    }
}

/// Whether a word is a reference, or the fault of one: it has five digits.
pub fn is_reference_word(word: &[u8]) -> bool
    ensures { result ≡ is_reference_word word.now }
{
    are_digits(word) && word.len() == 5
}

/// The number of a word of five digits, whether or not it is a reference: its last four.
pub fn reference_number(word: &[u8]) -> Option<u16>
    ensures { result ≡ reference_number word.now }
{
    if is_reference_word(word) {
        Some(value_of(&word[1..]))
    } else {
        None
    }
}

fn kind_by_digit(digit: u8) -> Option<RefKind>
    ensures { result ≡ kind_by_digit digit }
{
    match digit {
        b'0' => Some(RefKind::Coil),
        b'1' => Some(RefKind::Input),
        b'3' => Some(RefKind::InputRegister),
        b'4' => Some(RefKind::Register),
        _ => None,
    }
}

/// The reference that a word of five digits stands for; numbers go from 1 to 9984.
pub fn reference_of(word: &[u8]) -> Option<Ref>
    ensures { result ≡ reference_of word.now }
{
    if !is_reference_word(word) {
        return None;
    }
    let kind = kind_by_digit(word[0])?;
    let number = value_of(&word[1..]);
    if 1 <= number && number <= REFERENCE_LIMIT {
        Some(Ref { kind, number })
    } else {
        None
    }
}
