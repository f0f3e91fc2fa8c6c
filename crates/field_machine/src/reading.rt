//! What a key shows of the state that it stands for.
ghost use Rattle.std.specs.Prelude.{◌≡◌, false, length, true};
ghost use Rattle.plant_types.specs.Checks.{sizes_of};
ghost use Rattle.plant_types.specs.Reference.{is_discrete};
ghost use Rattle.plant_types.specs.Sizes.{has_reference};
ghost use Rattle.plant_types.specs.Store.{value_at};
ghost use Rattle.state_ram.specs.Packed.{packed_contents};
ghost use Rattle.key_store.specs.Words.{words_cut};
ghost use Rattle.field_machine.specs.Keys.{map_in};

use crate::field::Field;
use crate::machine::word_at;
use key_store::is_on_in;
use plant_types::{Ref, RefKind, Sizes};

/// The number of a register in the store that has these words.
fn register_in(sizes: Sizes, words: &[u16], at: Ref) -> u16
    requires held { has_reference sizes at ≡ true }
    requires kind { is_discrete at.kind ≡ false }
    ensures { result ≡ value_at (packed_contents (words_cut sizes words.now)) at }
{
    let before = usize::from(sizes.coils / 16) + usize::from(sizes.inputs / 16);
    let place = usize::from(at.number - 1);
    match at.kind {
        RefKind::InputRegister => word_at(words, before + place),
        _ => word_at(words, before + usize::from(sizes.input_registers) + place),
    }
}

impl Field {
    /// The number at a reference in the state of a key: 0 or 1 for a discrete.
    pub fn value_in(&self, key: &[u16], at: Ref) -> u16
        requires { has_reference (sizes_of self.now.fixed.plan) at ≡ true }
        ensures { result ≡ value_at
            (map_in self.now.fixed.plan (length self.now.counters.items) key.now) at }
    {
        let sizes = self.fixed.plan.sizes();
        let words = self.references(key);
        match at.kind {
            RefKind::Coil | RefKind::Input => u16::from(is_on_in(sizes, words, at)),
            RefKind::InputRegister | RefKind::Register => register_in(sizes, words, at),
        }
    }
}
