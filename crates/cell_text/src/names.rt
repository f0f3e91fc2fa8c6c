//! The names of pieces.
ghost use Rattle.std.specs.Prelude.{◌≡◌};
ghost use Rattle.cell_text.specs.Names.{element_text, name_text, spelled_name};
ghost use Rattle.plant_types.specs.declared.name.ElementName.TheVariants as names;

use crate::words::is_text;
use plant_types::{ElementName, MathOp, MatrixOp, MoveOp, Unit};

/// What the second word of a piece names.
#[derive(Clone, Copy, Debug, PartialEq, Eq)]
pub enum PieceName {
    Element(ElementName),
    /// A vertical short.
    Short,
}

const NAMES: [PieceName; 37] = [
    PieceName::Short,
    PieceName::Element(ElementName::Open),
    PieceName::Element(ElementName::Closed),
    PieceName::Element(ElementName::Rise),
    PieceName::Element(ElementName::Fall),
    PieceName::Element(ElementName::Coil),
    PieceName::Element(ElementName::Latch),
    PieceName::Element(ElementName::Wire),
    PieceName::Element(ElementName::Timer(Unit::Second)),
    PieceName::Element(ElementName::Timer(Unit::Tenth)),
    PieceName::Element(ElementName::Timer(Unit::Hundredth)),
    PieceName::Element(ElementName::Counter { up: true }),
    PieceName::Element(ElementName::Counter { up: false }),
    PieceName::Element(ElementName::Math(MathOp::Add)),
    PieceName::Element(ElementName::Math(MathOp::Sub)),
    PieceName::Element(ElementName::Math(MathOp::Mul)),
    PieceName::Element(ElementName::Math(MathOp::Div)),
    PieceName::Element(ElementName::Move(MoveOp::RegToTable)),
    PieceName::Element(ElementName::Move(MoveOp::TableToReg)),
    PieceName::Element(ElementName::Move(MoveOp::TableToTable)),
    PieceName::Element(ElementName::Move(MoveOp::Copy)),
    PieceName::Element(ElementName::Move(MoveOp::FirstIn)),
    PieceName::Element(ElementName::Move(MoveOp::FirstOut)),
    PieceName::Element(ElementName::Move(MoveOp::Search)),
    PieceName::Element(ElementName::Matrix(MatrixOp::And)),
    PieceName::Element(ElementName::Matrix(MatrixOp::Or)),
    PieceName::Element(ElementName::Matrix(MatrixOp::Xor)),
    PieceName::Element(ElementName::Matrix(MatrixOp::Comp)),
    PieceName::Element(ElementName::Matrix(MatrixOp::Brot)),
    PieceName::Element(ElementName::Matrix(MatrixOp::Cmpr)),
    PieceName::Element(ElementName::Matrix(MatrixOp::Mbit)),
    PieceName::Element(ElementName::Matrix(MatrixOp::Sens)),
    PieceName::Element(ElementName::Skip),
    PieceName::Element(ElementName::Label),
    PieceName::Element(ElementName::Call),
    PieceName::Element(ElementName::Return),
    PieceName::Element(ElementName::Mstr),
];

#[tactic(auto, unfolding(crate::specs::Names::element_text))]
fn math_text(op: MathOp) -> &'static str
    ensures { result.now ≡ element_text (names.Math op) }
{
    match op {
        MathOp::Add => "ADD",
        MathOp::Sub => "SUB",
        MathOp::Mul => "MUL",
        MathOp::Div => "DIV",
    }
}

#[tactic(auto, unfolding(crate::specs::Names::element_text))]
fn move_text(op: MoveOp) -> &'static str
    ensures { result.now ≡ element_text (names.Move op) }
{
    match op {
        MoveOp::RegToTable => "R>T",
        MoveOp::TableToReg => "T>R",
        MoveOp::TableToTable => "T>T",
        MoveOp::Copy => "BLKM",
        MoveOp::FirstIn => "FIN",
        MoveOp::FirstOut => "FOUT",
        MoveOp::Search => "SRCH",
    }
}

#[tactic(auto, unfolding(crate::specs::Names::element_text))]
fn matrix_text(op: MatrixOp) -> &'static str
    ensures { result.now ≡ element_text (names.Matrix op) }
{
    match op {
        MatrixOp::And => "AND",
        MatrixOp::Or => "OR",
        MatrixOp::Xor => "XOR",
        MatrixOp::Comp => "COMP",
        MatrixOp::Brot => "BROT",
        MatrixOp::Cmpr => "CMPR",
        MatrixOp::Mbit => "MBIT",
        MatrixOp::Sens => "SENS",
    }
}

#[tactic(auto, unfolding(crate::specs::Names::element_text))]
fn element_text(name: ElementName) -> &'static str
    ensures { result.now ≡ element_text name }
{
    match name {
        ElementName::Open => "NO",
        ElementName::Closed => "NC",
        ElementName::Rise => "PT",
        ElementName::Fall => "NT",
        ElementName::Coil => "CO",
        ElementName::Latch => "CL",
        ElementName::Wire => "H",
        ElementName::Timer(Unit::Second) => "T1.0",
        ElementName::Timer(Unit::Tenth) => "T0.1",
        ElementName::Timer(Unit::Hundredth) => "T.01",
        ElementName::Counter { up: true } => "UCTR",
        ElementName::Counter { up: false } => "DCTR",
        ElementName::Math(op) => math_text(op),
        ElementName::Move(op) => move_text(op),
        ElementName::Matrix(op) => matrix_text(op),
        ElementName::Skip => "SKP",
        ElementName::Label => "LAB",
        ElementName::Call => "JSR",
        ElementName::Return => "RET",
        ElementName::Mstr => "MSTR",
    }
}

impl PieceName {
    /// The letters of a name.
    #[tactic(auto, unfolding(crate::specs::Names::name_text))]
    pub fn text(self) -> &'static str
        ensures { result.now ≡ name_text self }
    {
        match self {
            PieceName::Element(name) => element_text(name),
            PieceName::Short => "V",
        }
    }
}

/// What a word names.
#[tactic(auto, unfolding(crate::specs::Names::spelled_name, crate::specs::Names::all_names))]
pub fn spelled_name(word: &[u8]) -> Option<PieceName>
    ensures { result ≡ spelled_name word.now }
{
    NAMES
        .iter()
        .copied()
        .find(|name| is_text(word, name.text()))
}
