//! Decimal numbers of any length.
ghost use Rattle.std.specs.Prelude.{◌≡◌, ◌<◌, min, true};
ghost use Rattle.std.specs.List.{list_all};
ghost use Rattle.plant_types.specs.Numerals.{is_digit, is_numeral, value_of};
ghost use Rattle.plant_tables.specs.Numerals.{numeral_within, most_told};

use plant_types::are_digits;

/// Numbers from here on are told apart from lower ones alone.
pub const MOST_TOLD: u32 = 100_000;

/// Whether a word is decimal digits without a leading zero.
pub fn is_numeral(word: &[u8]) -> bool
    ensures { result ≡ is_numeral word.now }
{
    let len = word.len();
    are_digits(word) && 1 <= len && (len == 1 || word[0] != b'0')
}

/// The number of digits, or the most that is told where it is more.
fn told_value(digits: &[u8]) -> u32
    requires { list_all is_digit digits.now ≡ true }
    ensures { result ≡ min (value_of digits.now) most_told }
{
    let mut value = 0u32;
    for digit in digits {
        value = (value * 10 + u32::from(*digit - b'0')).min(MOST_TOLD);
    }
    value
}

/// The number of a word, where it reads and is from low to high.
pub fn numeral_within(low: u32, high: u32, word: &[u8]) -> Option<u32>
    requires { high < MOST_TOLD }
    ensures { result ≡ numeral_within low high word.now }
{
    if !is_numeral(word) {
        return None;
    }
    let value = told_value(word);
    if low <= value && value <= high {
        Some(value)
    } else {
        None
    }
}
