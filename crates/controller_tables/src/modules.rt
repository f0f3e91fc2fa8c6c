//! The modules of a drop by their texts.
ghost use Rattle.std.specs.Prelude.{◌≡◌, option_map};
ghost use Rattle.plant_types.specs.FirstFault.{first_failed};
ghost use Rattle.traffic_cop.specs.Tests.{module_tests, held_of};
ghost use Rattle.cell_text.specs.Words.{text_words};
ghost use Rattle.controller_tables.specs.Drops.{module_in, length_in, discretes_spelled};
ghost use Rattle.controller_tables.specs.Drops.{registers_spelled, module_spelled, module_of};

use cell_text::{is_text, next_word, only_word, reference_number, reference_of, spelled_number};
use plant_tables::Refusal;
use plant_types::{Module, ModuleKind, Place, PlantFault, Sizes};
use traffic_cop::{carries, is_regular, kind_of, module_fault};

/// A module as its text has it: its kind, the word of its first reference, and how many words it
/// carries.
#[derive(Clone, Copy)]
struct SpelledModule<'a> {
    kind: ModuleKind,
    first: &'a [u8],
    count: u16,
}

fn discretes_spelled<'a>(name: &[u8], first: &'a [u8]) -> Option<SpelledModule<'a>>
    ensures { option_map module_in result ≡ discretes_spelled name.now first.now }
{
    let kind = if is_text(name, "in") {
        ModuleKind::In
    } else if is_text(name, "out") {
        ModuleKind::Out
    } else {
        return None;
    };
    Some(SpelledModule {
        kind,
        first,
        count: 1,
    })
}

fn registers_spelled<'a>(name: &[u8], first: &'a [u8], count: u16) -> Option<SpelledModule<'a>>
    ensures { option_map module_in result ≡ registers_spelled name.now first.now count }
{
    let kind = if is_text(name, "inw") {
        ModuleKind::InWords
    } else if is_text(name, "outw") {
        ModuleKind::OutWords
    } else {
        return None;
    };
    Some(SpelledModule { kind, first, count })
}

fn length_in(rest: &[u8]) -> Option<u16>
    ensures { result ≡ length_in (text_words rest.now) }
{
    let count = only_word(rest)?;
    spelled_number(count)
}

fn module_spelled(text: &[u8]) -> Option<SpelledModule<'_>>
    ensures { option_map module_in result ≡ module_spelled (text_words text.now) }
{
    let (name, rest) = next_word(text)?;
    let (first, rest) = next_word(rest)?;
    match next_word(rest) {
        None => discretes_spelled(name, first),
        Some(_) => registers_spelled(name, first, length_in(rest)?),
    }
}

#[tactic(auto, unfolding(traffic_cop::specs::Tests::module_fault))]
fn test_module(sizes: Sizes, io_module: Module) -> Result<(), PlantFault>
    ensures { result ≡ first_failed (module_tests (held_of sizes io_module) io_module) }
{
    match module_fault(sizes.count_of(kind_of(io_module.kind)), io_module) {
        Some(fault) => Err(fault),
        None => Ok(()),
    }
}

/// A module of a drop: it reads and is regular, and its references are there.
#[tactic(auto, unfolding(crate::specs::Drops::module_of))]
pub fn module_of(sizes: Sizes, place: Place, text: &str) -> Result<Module, Refusal>
    ensures { result ≡ module_of sizes place text.now }
{
    let bad_drop = (PlantFault::BadDrop, place);
    let Some(spelled) = module_spelled(text.as_bytes()) else {
        return Err(bad_drop);
    };
    let Some(number) = reference_number(spelled.first) else {
        return Err(bad_drop);
    };
    if !is_regular(spelled.kind, number, spelled.count) {
        return Err(bad_drop);
    }
    let Some(at) = reference_of(spelled.first) else {
        return Err((PlantFault::BadRef, place));
    };
    if !carries(spelled.kind, at.kind) {
        return Err((PlantFault::BadRef, place));
    }
    let io_module = Module {
        kind: spelled.kind,
        first: at.number,
        count: spelled.count,
    };
    match test_module(sizes, io_module) {
        Ok(()) => Ok(io_module),
        Err(fault) => Err((fault, place)),
    }
}
