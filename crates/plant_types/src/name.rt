//! What elements are called, apart from their operands.
ghost use Rattle.std.specs.Prelude.{◌≡◌};
ghost use Rattle.plant_types.specs.Elements.{name_of};

use crate::element::{Element, MathOp, MatrixOp, MoveOp, Unit};

/// What an element is, apart from its operands
/// (*Modicon Ladder Logic Block Library User Guide*).
#[derive(Clone, Copy, Debug, PartialEq, Eq)]
pub enum ElementName {
    Open,
    Closed,
    Rise,
    Fall,
    Coil,
    Latch,
    Wire,
    Timer(Unit),
    Counter {
        /// Counts up from 0, or down from the preset.
        up: bool,
    },
    Math(MathOp),
    Move(MoveOp),
    Matrix(MatrixOp),
    Skip,
    Label,
    Call,
    Return,
    Mstr,
}

impl Element {
    /// Its name.
    pub fn name(&self) -> ElementName
        ensures { result ≡ name_of self.now }
    {
        match *self {
            Element::Open(_) => ElementName::Open,
            Element::Closed(_) => ElementName::Closed,
            Element::Rise(_) => ElementName::Rise,
            Element::Fall(_) => ElementName::Fall,
            Element::Coil(_) => ElementName::Coil,
            Element::Latch(_) => ElementName::Latch,
            Element::Wire => ElementName::Wire,
            Element::Timer { unit, .. } => ElementName::Timer(unit),
            Element::Counter { up, .. } => ElementName::Counter { up },
            Element::Math { op, .. } => ElementName::Math(op),
            Element::Move { op, .. } => ElementName::Move(op),
            Element::Matrix { op, .. } => ElementName::Matrix(op),
            Element::Skip(_) => ElementName::Skip,
            Element::Label(_) => ElementName::Label,
            Element::Call(_) => ElementName::Call,
            Element::Return => ElementName::Return,
            Element::Mstr { .. } => ElementName::Mstr,
        }
    }
}
