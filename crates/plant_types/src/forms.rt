//! What the operands of an element have to be.
ghost use Rattle.std.specs.Prelude.{◌≡◌};
ghost use Rattle.std.specs.List.{list_all, zip};
ghost use lib.Pointwise.{pointwise};
ghost use Rattle.plant_types.specs.Reference.{is_discrete, is_coil, is_register, is_holding};
ghost use Rattle.plant_types.specs.Operands.{named_at, fits_form, fits_value, have_kinds};
ghost use Rattle.plant_types.specs.Operands.{has_kinds_at, has_form, has_values, has_kinds};

use crate::element::{Element, Operand};
use crate::reference::RefKind;
use crate::slot::{Slot, slots_of};

/// The largest constant.
const CONSTANT_LIMIT: u16 = 9999;

impl RefKind {
    pub(crate) fn is_discrete(self) -> bool
        ensures { result ≡ is_discrete self }
    {
        matches!(self, RefKind::Coil | RefKind::Input)
    }

    fn is_register(self) -> bool
        ensures { result ≡ is_register self }
    {
        matches!(self, RefKind::InputRegister | RefKind::Register)
    }
}

fn fits_form(slot: Slot, operand: Operand) -> bool
    ensures { result ≡ fits_form slot operand }
{
    match slot {
        Slot::Number(_) => true,
        Slot::Constant(_) => matches!(operand, Operand::Const(_)),
        _ => matches!(operand, Operand::At(_)),
    }
}

fn fits_value(slot: Slot, operand: Operand) -> bool
    ensures { result ≡ fits_value slot operand }
{
    match (slot, operand) {
        (_, Operand::At(_)) => true,
        (Slot::Constant(most), Operand::Const(number)) => 1 <= number && number <= most,
        (_, Operand::Const(number)) => number <= CONSTANT_LIMIT,
    }
}

/// Whether an operand is no reference, or one of a kind that its slot takes.
fn fits_kind(length: u16, slot: Slot, operand: Operand) -> bool
    ensures { result ≡ have_kinds (named_at length slot operand) }
{
    let Operand::At(at) = operand else {
        return true;
    };
    match slot {
        Slot::Discrete => at.kind.is_discrete(),
        Slot::Driven => at.kind == RefKind::Coil,
        Slot::Number(_) | Slot::Source(_) => at.kind.is_register(),
        Slot::Target(_) => at.kind == RefKind::Register,
        Slot::Constant(_) => true,
    }
}

fn all_fit_kind(length: u16, slots: &[Slot], operands: &[Operand]) -> bool
    ensures { result ≡ list_all (has_kinds_at length) (zip slots.now operands.now) }
{
    slots
        .iter()
        .zip(operands)
        .all(|(slot, operand)| fits_kind(length, *slot, *operand))
}

fn all_fit_form(slots: &[Slot], operands: &[Operand]) -> bool
    ensures { result ≡ list_all (λ at. fits_form at.0 at.1) (zip slots.now operands.now) }
{
    slots
        .iter()
        .zip(operands)
        .all(|(slot, operand)| fits_form(*slot, *operand))
}

fn fit_form(slots: &[Slot], operands: &[Operand]) -> bool
    ensures { result ≡ pointwise fits_form slots.now operands.now }
{
    slots.len() == operands.len() && all_fit_form(slots, operands)
}

fn all_fit_value(slots: &[Slot], operands: &[Operand]) -> bool
    ensures { result ≡ list_all (λ at. fits_value at.0 at.1) (zip slots.now operands.now) }
{
    slots
        .iter()
        .zip(operands)
        .all(|(slot, operand)| fits_value(*slot, *operand))
}

fn fit_value(slots: &[Slot], operands: &[Operand]) -> bool
    ensures { result ≡ pointwise fits_value slots.now operands.now }
{
    slots.len() == operands.len() && all_fit_value(slots, operands)
}

impl Element {
    /// Whether it has a constant only where it takes one.
    pub fn has_form(self) -> bool
        ensures { result ≡ has_form self }
    {
        let operands = self.operands();
        fit_form(slots_of(self.name()), operands.as_slice())
    }

    /// Whether its constants are in their ranges.
    pub fn has_values(self) -> bool
        ensures { result ≡ has_values self }
    {
        let operands = self.operands();
        fit_value(slots_of(self.name()), operands.as_slice())
    }

    /// Whether its references are of the kinds that it takes.
    pub fn has_kinds(self) -> bool
        ensures { result ≡ has_kinds self }
    {
        let operands = self.operands();
        all_fit_kind(self.length(), slots_of(self.name()), operands.as_slice())
    }
}
