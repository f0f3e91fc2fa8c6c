//! What the operands of each name have to be.
ghost use Rattle.std.specs.Prelude.{◌≡◌, ◌≤◌, length};
ghost use lib.Pointwise.{pointwise};
ghost use Rattle.cell_text.specs.Words.{text_words};
ghost use Rattle.cell_text.specs.Slots.{slots_of_piece, takes_form, takes_value, passes_word_test};
ghost use Rattle.cell_text.specs.Slots.{takes_kind, taken_reference, operand_in, operands_in};
ghost use Rattle.cell_text.specs.Slots.{read_operands};

use crate::names::PieceName;
use crate::numbers::{is_reference_word, is_spelled_number, reference_of, spelled_number};
use crate::piece::CellFault;
use crate::words::next_word;
use plant_types::{OPERAND_LIMIT, Operand, Operands, Ref, RefKind, Slot, is_up_to, slots_of};

impl PieceName {
    /// The operands that a piece of this name takes, in their order.
    pub fn slots(self) -> &'static [Slot]
        ensures slots { result.now ≡ slots_of_piece self }
        ensures few { length result.now ≤ OPERAND_LIMIT }
    {
        match self {
            PieceName::Element(name) => slots_of(name),
            PieceName::Short => &[],
        }
    }
}

/// The tests that the words of all operands pass before their references are read.
#[derive(Clone, Copy, Debug, PartialEq, Eq)]
pub enum WordTest {
    Form,
    Value,
}

fn takes_form(slot: Slot, word: &[u8]) -> bool
    ensures { result ≡ takes_form slot word.now }
{
    match slot {
        Slot::Number(_) => is_spelled_number(word) || is_reference_word(word),
        Slot::Constant(_) => is_spelled_number(word),
        Slot::Discrete | Slot::Driven | Slot::Source(_) | Slot::Target(_) => is_reference_word(
            word,
        ),
    }
}

fn takes_value(slot: Slot, word: &[u8]) -> bool
    ensures { result ≡ takes_value slot word.now }
{
    match slot {
        Slot::Constant(most) => spelled_number(word).is_some_and(|number| is_up_to(most, number)),
        _ => true,
    }
}

fn passes_word_test(test: WordTest, slot: Slot, word: &[u8]) -> bool
    ensures { result ≡ passes_word_test test slot word.now }
{
    match test {
        WordTest::Form => takes_form(slot, word),
        WordTest::Value => takes_value(slot, word),
    }
}

fn takes_kind(slot: Slot, kind: RefKind) -> bool
    ensures { result ≡ takes_kind slot kind }
{
    match slot {
        Slot::Discrete => matches!(kind, RefKind::Coil | RefKind::Input),
        Slot::Driven => matches!(kind, RefKind::Coil),
        Slot::Number(_) | Slot::Source(_) => {
            matches!(kind, RefKind::InputRegister | RefKind::Register)
        }
        Slot::Target(_) => matches!(kind, RefKind::Register),
        Slot::Constant(_) => false,
    }
}

fn taken_reference(slot: Slot, at: Ref) -> Option<Operand>
    ensures { result ≡ taken_reference slot at }
{
    if takes_kind(slot, at.kind) {
        Some(Operand::At(at))
    } else {
        None
    }
}

fn operand_in(slot: Slot, word: &[u8]) -> Option<Operand>
    ensures { result ≡ operand_in slot word.now }
{
    if is_reference_word(word) {
        return taken_reference(slot, reference_of(word)?);
    }
    spelled_number(word).map(Operand::Const)
}

fn all_pass(test: WordTest, slots: &[Slot], text: &[u8]) -> bool
    ensures { result ≡ pointwise (passes_word_test test) slots.now (text_words text.now) }
{
    let mut rest = text;
    for slot in slots {
        let Some((word, behind)) = next_word(rest) else {
            return false;
        };
        if !passes_word_test(test, *slot, word) {
            return false;
        }
        rest = behind;
    }
    next_word(rest).is_none()
}

#[tactic(auto, unfolding(crate::specs::Slots::operands_in))]
fn operands_in(slots: &[Slot], text: &[u8]) -> Option<Operands>
    requires { length slots.now ≤ OPERAND_LIMIT }
    ensures { result ≡ operands_in slots.now (text_words text.now) }
{
    let mut operands = Operands::new();
    let mut rest = text;
    for slot in slots {
        let (word, behind) = next_word(rest)?;
        operands.push(operand_in(*slot, word)?);
        rest = behind;
    }
    if next_word(rest).is_some() {
        return None;
    }
    Some(operands)
}

/// The operands of a piece, or the fault of the first test that fails.
#[tactic(auto, unfolding(crate::specs::Slots::read_operands))]
pub fn read_operands(slots: &[Slot], text: &[u8]) -> Result<Operands, CellFault>
    requires { length slots.now ≤ OPERAND_LIMIT }
    ensures { result ≡ read_operands slots.now (text_words text.now) }
{
    if !all_pass(WordTest::Form, slots, text) {
        return Err(CellFault::BadCell);
    }
    if !all_pass(WordTest::Value, slots, text) {
        return Err(CellFault::BadValue);
    }
    operands_in(slots, text).ok_or(CellFault::BadRef)
}
