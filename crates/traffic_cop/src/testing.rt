//! The tests of a drop's modules and rows.
ghost use Rattle.std.specs.Prelude.{◌≡◌, ◌≤◌, nat_le, length};
ghost use Rattle.traffic_cop.specs.Exchange.{carried_kind, input_total, output_count, output_total};
ghost use Rattle.traffic_cop.specs.Exchange.{fits_row};
ghost use Rattle.traffic_cop.specs.Tests.{is_word_count, is_aligned, is_regular, carries};
ghost use Rattle.traffic_cop.specs.Tests.{references_by, has_references, module_fault};
ghost use Rattle.traffic_cop.specs.Tests.{has_few_words};

use crate::modules::{input_count, input_total, output_count};
use plant_types::{DROP_WORDS, Module, ModuleKind, PlantFault, RefKind, ScriptRow};

/// The most words that a module of registers carries.
const MODULE_WORDS: u16 = 16;

/// How many discretes a word carries.
const WORD_BITS: u16 = 16;

/// The kind of reference that a module carries.
pub fn kind_of(kind: ModuleKind) -> RefKind
    ensures { result ≡ carried_kind kind }
{
    match kind {
        ModuleKind::In => RefKind::Input,
        ModuleKind::Out => RefKind::Coil,
        ModuleKind::InWords => RefKind::InputRegister,
        ModuleKind::OutWords => RefKind::Register,
    }
}

/// Whether a module carries references of this kind.
pub fn carries(kind: ModuleKind, carried: RefKind) -> bool
    ensures { result ≡ carries kind carried }
{
    matches!(
        (kind, carried),
        (ModuleKind::In, RefKind::Input)
            | (ModuleKind::Out, RefKind::Coil)
            | (ModuleKind::InWords, RefKind::InputRegister)
            | (ModuleKind::OutWords, RefKind::Register)
    )
}

fn is_word_count(kind: ModuleKind, count: u16) -> bool
    ensures { result ≡ is_word_count kind count }
{
    match kind {
        ModuleKind::In | ModuleKind::Out => count == 1,
        ModuleKind::InWords | ModuleKind::OutWords => 1 <= count && count <= MODULE_WORDS,
    }
}

fn is_aligned(kind: ModuleKind, first: u16) -> bool
    ensures { result ≡ is_aligned kind first }
{
    match kind {
        ModuleKind::In | ModuleKind::Out => first % WORD_BITS == 1,
        ModuleKind::InWords | ModuleKind::OutWords => true,
    }
}

/// Whether a module can begin at that number and carry so many words.
pub fn is_regular(kind: ModuleKind, first: u16, count: u16) -> bool
    ensures { result ≡ is_regular kind first count }
{
    is_word_count(kind, count) && is_aligned(kind, first)
}

fn references_by(kind: ModuleKind, count: u16) -> u16
    ensures { result ≡ references_by kind count }
{
    match kind {
        ModuleKind::In | ModuleKind::Out => WORD_BITS,
        ModuleKind::InWords | ModuleKind::OutWords => count,
    }
}

fn has_references(held: u16, io_module: Module) -> bool
    ensures { result ≡ has_references held io_module }
{
    let count = references_by(io_module.kind, io_module.count);
    let behind = u32::from(io_module.first) + u32::from(count);
    1 <= io_module.first && behind <= u32::from(held) + 1
}

/// The first fault of a module, where its controller has so many references of its kind: BadDrop
/// where it isn't regular, BadRef where a reference of it isn't there.
#[tactic(auto, unfolding(crate::specs::Tests::module_fault))]
pub fn module_fault(held: u16, io_module: Module) -> Option<PlantFault>
    ensures { result ≡ module_fault held io_module }
{
    if !is_regular(io_module.kind, io_module.first, io_module.count) {
        return Some(PlantFault::BadDrop);
    }
    if has_references(held, io_module) {
        None
    } else {
        Some(PlantFault::BadRef)
    }
}

/// Whether modules take at most 64 words from the field.
fn takes_few_words(modules: &[Module]) -> bool
    ensures { result ≡ nat_le (input_total modules.now) DROP_WORDS }
{
    let mut left = DROP_WORDS;
    for io_module in modules {
        let count = input_count(*io_module);
        if left < count {
            return false;
        }
        left -= count;
    }
    true
}

/// Whether modules give the field at most 64 words.
fn gives_few_words(modules: &[Module]) -> bool
    ensures { result ≡ nat_le (output_total modules.now) DROP_WORDS }
{
    let mut left = DROP_WORDS;
    for io_module in modules {
        let count = output_count(*io_module);
        if left < count {
            return false;
        }
        left -= count;
    }
    true
}

/// Whether modules have at most 64 words in and 64 words out.
pub fn has_few_words(modules: &[Module]) -> bool
    ensures { result ≡ has_few_words modules.now }
{
    takes_few_words(modules) && gives_few_words(modules)
}

/// Whether a row is silent, or has a word for each input word of the modules.
pub fn fits_row(modules: &[Module], row: &ScriptRow) -> bool
    requires { input_total modules.now ≤ DROP_WORDS }
    ensures { result ≡ fits_row modules.now row.now }
{
    match row {
        ScriptRow::Silent => true,
        ScriptRow::Row(words) => words.words().len() == input_total(modules),
    }
}
