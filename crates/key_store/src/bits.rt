//! The bits of a word; places count from 0, from the highest bit on.
ghost use Rattle.std.specs.Prelude.{◌≡◌, ◌<◌};
ghost use Rattle.state_ram.specs.Bits.{word_bit, IsWithBit};

/// The bit at a place of a word.
pub(crate) fn bit_of(word: u16, place: u16) -> bool
    requires { place < 16 }
    ensures { result ≡ word_bit word place }
{
    word >> (15 - place) & 1 == 1
}

/// A word with the bit at a place set on or off.
pub(crate) fn with_bit(word: u16, place: u16, on: bool) -> u16
    requires { place < 16 }
    ensures { IsWithBit word place on result }
{
    let shift = 15 - place;
    word & !(1 << shift) | u16::from(on) << shift
}
