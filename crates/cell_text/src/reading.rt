//! Reads one piece of a network's text.
ghost use Rattle.std.specs.Prelude.{◌≡◌, true, IfOk};
ghost use Rattle.cell_text.specs.Words.{text_words};
ghost use Rattle.cell_text.specs.Texts.{has_text};
ghost use Rattle.cell_text.specs.Pieces.{short_at, piece_at, piece_of, name_in_piece};

use crate::names::{PieceName, spelled_name};
use crate::numbers::{ROWS, position_of};
use crate::piece::{CellFault, Piece};
use crate::slots::read_operands;
use crate::words::next_word;
use plant_types::{Cell, Operand, Short, element_of};

/// A short joins a row to the next one.
fn short_at(row: u8, column: u8) -> Option<Piece>
    ensures { result ≡ short_at row column }
{
    if u16::from(row) < ROWS {
        Some(Piece::Short(Short { row, column }))
    } else {
        None
    }
}

fn piece_at(row: u8, column: u8, name: PieceName, operands: &[Operand]) -> Option<Piece>
    ensures { result ≡ piece_at row column name operands.now }
{
    let PieceName::Element(name) = name else {
        return short_at(row, column);
    };
    let element = element_of(name, operands)?;
    Some(Piece::Cell(Cell {
        row,
        column,
        element,
    }))
}

#[tactic(auto, unfolding(crate::specs::Pieces::piece_of))]
fn read_piece(text: &[u8]) -> Result<Piece, CellFault>
    ensures { result ≡ piece_of (text_words text.now) }
{
    let Some((position, rest)) = next_word(text) else {
        return Err(CellFault::BadCell);
    };
    let Some((name, words)) = next_word(rest) else {
        return Err(CellFault::BadCell);
    };
    let (row, column) = position_of(position).ok_or(CellFault::BadCell)?;
    let name = spelled_name(name).ok_or(CellFault::BadCell)?;
    let operands = read_operands(name.slots(), words)?;
    piece_at(row, column, name, operands.as_slice()).ok_or(CellFault::BadCell)
}

/// Reads a piece: `<row>,<column> <name> <operands>`. The fault is that of the first test that
/// fails.
pub fn read_cell(text: &str) -> Result<Piece, CellFault>
    ensures read { result ≡ piece_of (text_words text.now) }
    ensures has_text { IfOk result (λ piece. has_text piece ≡ true) }
{
    read_piece(text.as_bytes())
}

/// What the second word of a piece names.
pub fn name_in_piece(text: &[u8]) -> Option<PieceName>
    ensures { result ≡ name_in_piece (text_words text.now) }
{
    let (_, rest) = next_word(text)?;
    let (name, _) = next_word(rest)?;
    spelled_name(name)
}
