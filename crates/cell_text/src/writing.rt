//! Writes one piece of a network's text.
ghost use Rattle.std.specs.Prelude.{◌≡◌, true, Some, Ok, IfOk, string_bytes};
ghost use Rattle.cell_text.specs.Words.{text_words};
ghost use Rattle.cell_text.specs.Pieces.{piece_of};
ghost use Rattle.cell_text.specs.Texts.{operand_text, piece_name, piece_operands, piece_position};
ghost use Rattle.cell_text.specs.Texts.{has_text, piece_text};

use crate::names::PieceName;
use crate::piece::Piece;
use plant_types::{Operand, Operands};
use std::alloc::{AllocError, Global};
use std::fmt;

/// An operand as it is written.
#[derive(Clone, Copy)]
struct Written(Operand);

/// A constant in decimal, or the five digits of a reference.
impl fmt::Display for Written {
    ghost output = { λ written. Some (operand_text written.0) };

    fn fmt<W: fmt::Write>(&self, f: &mut fmt::Formatter<W>) -> fmt::Result {
        match self.0 {
            Operand::Const(number) => write!(f, "{number}"),
            Operand::At(at) => write!(f, "{at}"),
        }
    }
}

impl Piece {
    fn place(&self) -> (u8, u8)
        ensures { result ≡ piece_position self.now }
    {
        match *self {
            Piece::Cell(cell) => (cell.row, cell.column),
            Piece::Short(short) => (short.row, short.column),
        }
    }

    fn name(&self) -> PieceName
        ensures { result ≡ piece_name self.now }
    {
        match self {
            Piece::Cell(cell) => PieceName::Element(cell.element.name()),
            Piece::Short(_) => PieceName::Short,
        }
    }

    fn operands(&self) -> Operands
        ensures { result ≡ piece_operands self.now }
    {
        match self {
            Piece::Cell(cell) => cell.element.operands(),
            Piece::Short(_) => Operands::new(),
        }
    }
}

/// A piece with one space between words, as in `1,2 CO 00001`.
impl fmt::Display for Piece {
    ghost output = { λ piece. Some (piece_text piece) };

    fn fmt<W: fmt::Write>(&self, f: &mut fmt::Formatter<W>) -> fmt::Result {
        let (row, column) = self.place();
        let name = self.name().text();
        let operands = self.operands();
        write!(f, "{row},{column} {name}")?;
        for operand in operands.as_slice() {
            let written = Written(*operand);
            write!(f, " {written}")?;
        }
        Ok(())
    }
}

/// The text of a piece, with one space between words. Reading it gives the piece back.
pub fn cell_text(alloc: Global, piece: &Piece) -> Result<String, AllocError>
    requires { has_text piece.now ≡ true }
    ensures text { IfOk result (λ text. string_bytes text ≡ piece_text piece.now) }
    ensures reads_back { IfOk result (λ text. piece_of (text_words (string_bytes text))
        ≡ Ok piece.now) }
{
    piece.to_string(alloc)
}
