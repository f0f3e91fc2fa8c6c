//! The table of operands: what each element takes.
ghost use Rattle.std.specs.Prelude.{◌≡◌, ◌≤◌, length};
ghost use Rattle.plant_types.specs.Elements.{length_of};
ghost use Rattle.plant_types.specs.Slots.{run_count, math_slots, move_slots, matrix_slots};
ghost use Rattle.plant_types.specs.Slots.{slots_of};

use crate::element::{Element, MathOp, MatrixOp, MoveOp};
use crate::name::ElementName;
use crate::operands::OPERAND_LIMIT;

/// How many references an operand uses from its own on.
#[derive(Clone, Copy, Debug, PartialEq, Eq)]
pub enum Run {
    /// So many.
    Fixed(u16),
    /// As many as the length operand says.
    Table,
    /// A pointer, and behind it as many as the length operand says.
    PointerAndTable,
}

impl Run {
    /// The references of a run, where the length operand is this.
    pub fn count(self, length: u16) -> u32
        ensures { result ≡ run_count self length }
    {
        match self {
            Run::Fixed(count) => u32::from(count),
            Run::Table => u32::from(length),
            Run::PointerAndTable => u32::from(length) + 1,
        }
    }
}

/// What an operand of an element has to be.
#[derive(Clone, Copy, Debug, PartialEq, Eq)]
pub enum Slot {
    /// A coil or an input.
    Discrete,
    /// A coil, which the element drives.
    Driven,
    /// A constant, or registers that are read.
    Number(Run),
    /// Registers that are read.
    Source(Run),
    /// Registers that are stored in.
    Target(Run),
    /// A constant from 1 to a largest.
    Constant(u16),
}

/// The largest length of a table.
pub const TABLE_LIMIT: u16 = 255;

/// The largest length of a matrix, and of the data area of a message.
pub const MATRIX_LIMIT: u16 = 100;

/// The largest number of a label.
pub const LABEL_LIMIT: u16 = 255;

/// The registers of a message's control block.
pub const CONTROL_BLOCK: u16 = 9;

const ONE: Run = Run::Fixed(1);

const TWO: Run = Run::Fixed(2);

fn math_slots(op: MathOp) -> &'static [Slot]
    ensures slots { result.now ≡ math_slots op }
    ensures few { length result.now ≤ OPERAND_LIMIT }
{
    match op {
        MathOp::Add | MathOp::Sub => &[Slot::Number(ONE), Slot::Number(ONE), Slot::Target(ONE)],
        MathOp::Mul => &[Slot::Number(ONE), Slot::Number(ONE), Slot::Target(TWO)],
        MathOp::Div => &[Slot::Number(TWO), Slot::Number(ONE), Slot::Target(TWO)],
    }
}

fn move_slots(op: MoveOp) -> &'static [Slot]
    ensures slots { result.now ≡ move_slots op }
    ensures few { length result.now ≤ OPERAND_LIMIT }
{
    match op {
        MoveOp::RegToTable | MoveOp::FirstIn => &[
            Slot::Source(ONE),
            Slot::Target(Run::PointerAndTable),
            Slot::Constant(TABLE_LIMIT),
        ],
        MoveOp::TableToReg | MoveOp::Search => &[
            Slot::Source(Run::Table),
            Slot::Target(TWO),
            Slot::Constant(TABLE_LIMIT),
        ],
        MoveOp::TableToTable => &[
            Slot::Source(Run::Table),
            Slot::Target(Run::PointerAndTable),
            Slot::Constant(TABLE_LIMIT),
        ],
        MoveOp::Copy => &[
            Slot::Source(Run::Table),
            Slot::Target(Run::Table),
            Slot::Constant(TABLE_LIMIT),
        ],
        MoveOp::FirstOut => &[
            Slot::Target(Run::PointerAndTable),
            Slot::Target(ONE),
            Slot::Constant(TABLE_LIMIT),
        ],
    }
}

fn matrix_slots(op: MatrixOp) -> &'static [Slot]
    ensures slots { result.now ≡ matrix_slots op }
    ensures few { length result.now ≤ OPERAND_LIMIT }
{
    match op {
        MatrixOp::And | MatrixOp::Or | MatrixOp::Xor | MatrixOp::Comp | MatrixOp::Brot => &[
            Slot::Source(Run::Table),
            Slot::Target(Run::Table),
            Slot::Constant(MATRIX_LIMIT),
        ],
        MatrixOp::Cmpr => &[
            Slot::Source(Run::Table),
            Slot::Target(Run::PointerAndTable),
            Slot::Constant(MATRIX_LIMIT),
        ],
        MatrixOp::Mbit => &[
            Slot::Number(ONE),
            Slot::Target(Run::Table),
            Slot::Constant(MATRIX_LIMIT),
        ],
        MatrixOp::Sens => &[
            Slot::Number(ONE),
            Slot::Source(Run::Table),
            Slot::Constant(MATRIX_LIMIT),
        ],
    }
}

/// The operands that an element of a name takes, in their order.
pub fn slots_of(name: ElementName) -> &'static [Slot]
    ensures slots { result.now ≡ slots_of name }
    ensures few { length result.now ≤ OPERAND_LIMIT }
{
    match name {
        ElementName::Open | ElementName::Closed | ElementName::Rise | ElementName::Fall => {
            &[Slot::Discrete]
        }
        ElementName::Coil | ElementName::Latch => &[Slot::Driven],
        ElementName::Wire | ElementName::Return => &[],
        ElementName::Timer(_) | ElementName::Counter { .. } => {
            &[Slot::Number(ONE), Slot::Target(ONE)]
        }
        ElementName::Math(op) => math_slots(op),
        ElementName::Move(op) => move_slots(op),
        ElementName::Matrix(op) => matrix_slots(op),
        ElementName::Skip | ElementName::Call => &[Slot::Number(ONE)],
        ElementName::Label => &[Slot::Constant(LABEL_LIMIT)],
        ElementName::Mstr => &[
            Slot::Target(Run::Fixed(CONTROL_BLOCK)),
            Slot::Target(Run::Table),
            Slot::Constant(MATRIX_LIMIT),
        ],
    }
}

impl Element {
    /// Its length operand, 0 where it has none.
    pub fn length(&self) -> u16
        ensures { result ≡ length_of self.now }
    {
        match *self {
            Element::Move { length, .. }
            | Element::Matrix { length, .. }
            | Element::Mstr { length, .. } => length,
            _ => 0,
        }
    }
}
