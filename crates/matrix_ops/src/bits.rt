//! Bits of words and of matrices; places count from 0, from the highest bit on.
ghost use Rattle.std.specs.Prelude.{◌≡◌, ◌<◌, ◌*◌, false, length, slice_index_or, slice_set};
ghost use Rattle.plant_types.specs.Discretes.{word_bits, number_of_bits};
ghost use Rattle.matrix_ops.specs.Bits.{matrix_bits};

/// The bit at a place of a word.
pub(crate) fn word_bit(word: u16, place: u16) -> bool
    requires { place < 16 }
    ensures { result ≡ slice_index_or (word_bits word) place false }
{
    word >> (15 - place) & 1 == 1
}

/// The bit at a place of a matrix.
pub(crate) fn matrix_bit(words: &[u16], place: u16) -> bool
    requires { place < 16 * length words.now }
    ensures { result ≡ slice_index_or (matrix_bits words.now) place false }
{
    word_bit(words[usize::from(place / 16)], place % 16)
}

/// A word with the bit at a place set on or off.
pub(crate) fn with_word_bit(word: u16, place: u16, on: bool) -> u16
    requires { place < 16 }
    ensures { result ≡ number_of_bits (slice_set (word_bits word) place on) }
{
    let mask = 1 << (15 - place);
    if on { word | mask } else { word & !mask }
}
