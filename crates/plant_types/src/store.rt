//! A store of references, by the finite map that it stands for.
ghost use Rattle.std.specs.Prelude.{◌≡◌, true, false};
ghost use Rattle.std.specs.FinMap as map;
ghost use Rattle.plant_types.specs.Reference.{is_discrete};
ghost use Rattle.plant_types.specs.Store.{Contents, Keeps, word_at, is_on, with_bit};

use crate::reference::Ref;

/// The references of one controller and their numbers. A set changes that reference and no other.
pub trait RefStore {
    /// Each reference that is there, with its number.
    ghost contents: { Self → Contents };

    fn has(&self, at: Ref) -> bool
        ensures { result ≡ map.contains_key (contents self.now) at };

    /// Whether a coil or an input is on.
    fn bit(&self, at: Ref) -> bool
        requires held { map.contains_key (contents self.now) at ≡ true }
        requires kind { is_discrete at.kind ≡ true }
        ensures { result ≡ is_on (contents self.now) at };

    fn set_bit(&mut self, at: Ref, on: bool)
        requires held { map.contains_key (contents self.old) at ≡ true }
        requires kind { is_discrete at.kind ≡ true }
        ensures stored { contents self.new ≡ with_bit (contents self.old) at on }
        ensures keeps { Keeps (contents self.old) (contents self.new) };

    /// The number in a register.
    fn word(&self, at: Ref) -> u16
        requires held { map.contains_key (contents self.now) at ≡ true }
        requires kind { is_discrete at.kind ≡ false }
        ensures { result ≡ word_at (contents self.now) at };

    fn set_word(&mut self, at: Ref, value: u16)
        requires held { map.contains_key (contents self.old) at ≡ true }
        requires kind { is_discrete at.kind ≡ false }
        ensures stored { contents self.new ≡ map.insert (contents self.old) at value }
        ensures keeps { Keeps (contents self.old) (contents self.new) };
}
