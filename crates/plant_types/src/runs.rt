//! Runs of registers, read and stored as lists.
ghost use Rattle.std.specs.Prelude.{◌≡◌, ◌+◌, ◌<◌, ◌^◌, length};
ghost use Rattle.plant_types.specs.Reference.{ref_from};
ghost use Rattle.plant_types.specs.Store.{HasRegisters, Keeps, words_from, with_words};

use crate::reference::Ref;
use crate::store::RefStore;

/// The reference of the same kind that stands `count` places on.
pub fn ref_after(at: Ref, count: u16) -> Ref
    requires { at.number + count < 2 ^ 16 }
    ensures { result ≡ ref_from at count }
{
    Ref {
        kind: at.kind,
        number: at.number + count,
    }
}

/// Reads the registers from one on, as many as `words` has places.
pub fn load_words<R: RefStore>(ram: &R, at: Ref, words: &mut [u16])
    requires { HasRegisters (R.contents ram.now) at (length words.old) }
    ensures { words.new ≡ words_from (R.contents ram.now) at (length words.old) }
{
    for (i, word) in words.iter_mut().enumerate() {
        *word = ram.word(ref_after(at, i as u16));
    }
}

/// Stores words in the registers from one on.
pub fn store_words<R: RefStore>(ram: &mut R, at: Ref, words: &[u16])
    requires { HasRegisters (R.contents ram.old) at (length words.now) }
    ensures stored { R.contents ram.new ≡ with_words (R.contents ram.old) at words.now }
    ensures keeps { Keeps (R.contents ram.old) (R.contents ram.new) }
{
    for (i, word) in words.iter().enumerate() {
        ram.set_word(ref_after(at, i as u16), *word);
    }
}
