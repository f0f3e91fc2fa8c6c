//! How many references of each kind a controller has.
ghost use Rattle.std.specs.Prelude.{◌≡◌};
ghost use Rattle.std.specs.List.{list_all, zip};
ghost use Rattle.plant_types.specs.Sizes.{count_of, has_reference, has_run};
ghost use Rattle.plant_types.specs.Operands.{named_in, named_at};
ghost use Rattle.plant_types.specs.Checks.{has_room, have_room, has_room_at, sizes_of};

use crate::element::{Element, Operand};
use crate::plan::ControllerPlan;
use crate::reference::{Ref, RefKind};
use crate::slot::{Slot, slots_of};

/// How many references of each kind there are. This project's own.
#[derive(Clone, Copy, Debug, PartialEq, Eq)]
pub struct Sizes {
    /// 0x
    pub coils: u16,
    /// 1x
    pub inputs: u16,
    /// 3x
    pub input_registers: u16,
    /// 4x
    pub registers: u16,
}

impl Sizes {
    /// How many of a kind there are.
    pub fn count_of(self, kind: RefKind) -> u16
        ensures { result ≡ count_of self kind }
    {
        match kind {
            RefKind::Coil => self.coils,
            RefKind::Input => self.inputs,
            RefKind::InputRegister => self.input_registers,
            RefKind::Register => self.registers,
        }
    }

    /// Whether a reference stands in the map.
    pub fn has_reference(self, at: Ref) -> bool
        ensures { result ≡ has_reference self at }
    {
        1 <= at.number && at.number <= self.count_of(at.kind)
    }

    /// Whether so many references from one on stand in the map.
    fn has_run(self, at: Ref, count: u32) -> bool
        ensures { result ≡ has_run self at count }
    {
        let behind = u64::from(at.number) + u64::from(count);
        1 <= at.number && behind <= u64::from(self.count_of(at.kind)) + 1
    }

    fn has_operand(self, operand: Operand, count: u32) -> bool
        ensures { result ≡ have_room self (named_in operand count) }
    {
        match operand {
            Operand::Const(_) => true,
            Operand::At(at) => self.has_run(at, count),
        }
    }

    fn has_slot(self, length: u16, slot: Slot, operand: Operand) -> bool
        ensures { result ≡ have_room self (named_at length slot operand) }
    {
        match slot {
            Slot::Discrete | Slot::Driven => self.has_operand(operand, 1),
            Slot::Number(run) | Slot::Source(run) | Slot::Target(run) => {
                self.has_operand(operand, run.count(length))
            }
            Slot::Constant(_) => true,
        }
    }

    fn has_slots(self, length: u16, slots: &[Slot], operands: &[Operand]) -> bool
        ensures { result ≡ list_all (has_room_at self length) (zip slots.now operands.now) }
    {
        slots
            .iter()
            .zip(operands)
            .all(|(slot, operand)| self.has_slot(length, *slot, *operand))
    }

    /// Whether the references of an element stand in the map, with all that it uses from them on.
    pub fn has_room(self, element: Element) -> bool
        ensures { result ≡ has_room self element }
    {
        let operands = element.operands();
        self.has_slots(
            element.length(),
            slots_of(element.name()),
            operands.as_slice(),
        )
    }
}

impl ControllerPlan {
    /// How many references of each kind it has.
    pub fn sizes(&self) -> Sizes
        ensures { result ≡ sizes_of self.now }
    {
        Sizes {
            coils: self.coils,
            inputs: self.inputs,
            input_registers: self.input_registers,
            registers: self.registers,
        }
    }
}
