//! The words of modules: what the field gives them, and what they give the field.
ghost use Rattle.std.specs.Prelude.{◌≡◌, ◌-◌, ◌≤◌, ◌<◌, ◌==◌, length, take};
ghost use Rattle.std.specs.Int.{bit_at};
ghost use Rattle.plant_types.specs.Discretes.{bits_from, with_bits, word_bits, number_of_bits};
ghost use Rattle.plant_types.specs.Store.{Keeps};
ghost use Rattle.traffic_cop.specs.Exchange.{module_at, input_count, output_count};
ghost use Rattle.traffic_cop.specs.Exchange.{words_given, put_words, put_all, HasGroup, HasModule};
ghost use Rattle.traffic_cop.specs.Exchange.{HasModules};
ghost use Rattle.traffic_cop.specs.Exchange.{input_total, output_total, output_words};

use crate::testing::kind_of;
use plant_types::{
    DROP_WORDS, Module, ModuleKind, Ref, RefStore, load_words, ref_after, store_words,
};

/// The first reference of a module.
fn module_at(io_module: Module) -> Ref
    ensures { result ≡ module_at io_module }
{
    Ref {
        kind: kind_of(io_module.kind),
        number: io_module.first,
    }
}

/// How many words a module takes from the field.
pub(crate) fn input_count(io_module: Module) -> usize
    ensures { result ≡ input_count io_module }
{
    match io_module.kind {
        ModuleKind::In => 1,
        ModuleKind::InWords => usize::from(io_module.count),
        ModuleKind::Out | ModuleKind::OutWords => 0,
    }
}

/// How many words all modules take from the field.
pub fn input_total(modules: &[Module]) -> usize
    requires { input_total modules.now ≤ DROP_WORDS }
    ensures { result ≡ input_total modules.now }
{
    let mut total = 0;
    for io_module in modules {
        total += input_count(*io_module);
    }
    total
}

/// The bit at a place of a word, from the highest on.
fn bit_of(word: u16, place: u16) -> bool
    requires { place < 16 }
    ensures { result ≡ (bit_at word (15 - place) == 1) }
{
    word >> (15 - place) & 1 == 1
}

/// Sets sixteen discretes by a word, the first by the highest bit.
fn put_word<R: RefStore>(ram: &mut R, at: Ref, word: u16)
    requires { HasGroup (R.contents ram.old) at }
    ensures stored { R.contents ram.new ≡ with_bits (R.contents ram.old) at (word_bits word) }
    ensures keeps { Keeps (R.contents ram.old) (R.contents ram.new) }
{
    for place in 0..16 {
        ram.set_bit(ref_after(at, place), bit_of(word, place));
    }
}

/// The word of sixteen discretes, the first in the highest bit.
fn word_of<R: RefStore>(ram: &R, at: Ref) -> u16
    requires { HasGroup (R.contents ram.now) at }
    ensures { result ≡ number_of_bits (bits_from (R.contents ram.now) at 16) }
{
    let mut word = 0;
    for place in 0..16 {
        word = 2 * word + u16::from(ram.bit(ref_after(at, place)));
    }
    word
}

/// Puts the words that the field gives into the references of a module.
#[tactic(auto, unfolding(crate::specs::Exchange::put_words))]
fn put_words<R: RefStore>(ram: &mut R, io_module: Module, words: &[u16])
    requires room { HasModule (R.contents ram.old) io_module }
    requires words { length words.now ≡ input_count io_module }
    ensures stored { R.contents ram.new ≡ put_words io_module words.now (R.contents ram.old) }
    ensures keeps { Keeps (R.contents ram.old) (R.contents ram.new) }
{
    match io_module.kind {
        ModuleKind::In => put_word(ram, module_at(io_module), words[0]),
        ModuleKind::InWords => store_words(ram, module_at(io_module), words),
        ModuleKind::Out | ModuleKind::OutWords => {}
    }
}

/// Puts the words that the field gives into the references of input modules, in their order.
pub(crate) fn put_all<R: RefStore>(ram: &mut R, modules: &[Module], words: &[u16])
    requires room { HasModules (R.contents ram.old) modules.now }
    requires words { length words.now ≡ input_total modules.now }
    ensures stored { R.contents ram.new ≡ put_all modules.now words.now (R.contents ram.old) }
    ensures keeps { Keeps (R.contents ram.old) (R.contents ram.new) }
{
    let mut rest = words;
    for io_module in modules {
        let (now, later) = rest.split_at(input_count(*io_module));
        put_words(ram, *io_module, now);
        rest = later;
    }
}

/// How many words a module gives the field.
pub(crate) fn output_count(io_module: Module) -> usize
    ensures { result ≡ output_count io_module }
{
    match io_module.kind {
        ModuleKind::Out => 1,
        ModuleKind::OutWords => usize::from(io_module.count),
        ModuleKind::In | ModuleKind::InWords => 0,
    }
}

/// Takes the words that a module gives the field, and answers how many they are.
#[tactic(auto, unfolding(crate::specs::Exchange::words_given))]
fn take_words<R: RefStore>(ram: &R, io_module: Module, words: &mut [u16]) -> usize
    requires room { HasModule (R.contents ram.now) io_module }
    requires words { output_count io_module ≤ length words.old }
    ensures count { result ≡ output_count io_module }
    ensures taken { take (output_count io_module) words.new
        ≡ words_given (R.contents ram.now) io_module }
{
    match io_module.kind {
        ModuleKind::Out => {
            words[0] = word_of(ram, module_at(io_module));
            1
        }
        ModuleKind::OutWords => {
            let count = usize::from(io_module.count);
            load_words(ram, module_at(io_module), &mut words[..count]);
            count
        }
        ModuleKind::In | ModuleKind::InWords => 0,
    }
}

/// The words that output modules give the field, in their order, and how many they are.
pub(crate) fn take_all<R: RefStore>(ram: &R, modules: &[Module], words: &mut [u16]) -> usize
    requires room { HasModules (R.contents ram.now) modules.now }
    requires words { output_total modules.now ≤ length words.old }
    ensures count { result ≡ output_total modules.now }
    ensures taken { take (output_total modules.now) words.new
        ≡ output_words (R.contents ram.now) modules.now }
{
    let mut count = 0;
    for io_module in modules {
        count += take_words(ram, *io_module, &mut words[count..]);
    }
    count
}
