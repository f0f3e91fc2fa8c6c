//! The pieces of the texts of networks.
ghost use Rattle.std.specs.Prelude.{◌≡◌, ◌+◌, ◌<◌, ◌≤◌, [], length, map, IfOk};
ghost use Rattle.plant_tables.specs.Given.{tables_in, texts_in};
ghost use Rattle.plant_tables.specs.Refusals.{Gives};
ghost use Rattle.plant_types.specs.Fault.{at_place};
ghost use Rattle.toml.specs.View.{table_view};
ghost use Rattle.controller_tables.specs.Pieces.{plant_fault, has_word, pieces_of_line, pieces_of};
ghost use Rattle.controller_tables.specs.Pieces.{segments_of};
ghost use Rattle.controller_tables.specs.Program.{with_next_piece, with_piece, with_pieces};
ghost use Rattle.controller_tables.specs.Program.{with_text, with_texts, with_segment_texts};
ghost use Rattle.controller_tables.specs.Program.{with_segment_table, with_segment_tables};
ghost use Rattle.controller_tables.specs.Program.{IsBetweenSegments};

use crate::owner::Owner;
use crate::program::Program;
use crate::texts::network_texts;
use cell_text::{CellFault, Piece, next_word, read_cell};
use plant_tables::LoadEnd;
use plant_types::{List, NETWORK_LIMIT, Place, PlantFault, SEGMENT_LIMIT, Segment, Sizes};
use std::alloc::Global;
use toml::Table;

fn plant_fault(fault: CellFault) -> PlantFault
    ensures { result ≡ plant_fault fault }
{
    match fault {
        CellFault::BadCell => PlantFault::BadCell,
        CellFault::BadValue => PlantFault::BadValue,
        CellFault::BadRef => PlantFault::BadRef,
    }
}

fn has_word(piece: &str) -> bool
    ensures { result ≡ has_word piece.now }
{
    next_word(piece.as_bytes()).is_some()
}

#[tactic(auto, unfolding(crate::specs::Pieces::piece_behind))]
fn with_piece(program: Program, sizes: Sizes, place: Place, piece: &str) -> Result<Program, LoadEnd>
    ensures { Gives (λ p. p) result (at_place place (with_piece sizes program piece.now)) }
{
    match read_cell(piece) {
        Ok(Piece::Cell(cell)) => program.with_cell(sizes, place, cell),
        Ok(Piece::Short(short)) => program.with_short(place, short),
        Err(fault) => Err(LoadEnd::Refused(plant_fault(fault), place)),
    }
}

fn with_next_piece(program: Program, owner: Owner, piece: &str) -> Result<Program, LoadEnd>
    ensures { Gives (λ p. p) result (with_next_piece owner program piece.now) }
{
    let place = program.place_of_next(owner.position);
    with_piece(program, owner.sizes, place, piece)
}

fn with_line(mut program: Program, owner: Owner, line: &str) -> Result<Program, LoadEnd>
    ensures { Gives (λ p. p) result (with_pieces owner program (pieces_of_line line.now)) }
{
    for piece in line.split(';') {
        if has_word(piece) {
            program = with_next_piece(program, owner, piece)?;
        }
    }
    Ok(program)
}

fn with_lines(mut program: Program, owner: Owner, text: &str) -> Result<Program, LoadEnd>
    ensures { Gives (λ p. p) result (with_pieces owner program (pieces_of text.now)) }
{
    for line in text.lines() {
        program = with_line(program, owner, line)?;
    }
    Ok(program)
}

#[tactic(auto, unfolding(crate::specs::Program::with_text))]
fn with_text(alloc: Global, program: Program, owner: Owner, text: &str) -> Result<Program, LoadEnd>
    requires { length program.networks < NETWORK_LIMIT }
    ensures { Gives (λ p. p) result (with_text owner program text.now) }
{
    let program = with_lines(program, owner, text)?;
    program.with_network(alloc)
}

#[tactic(auto, unfolding(crate::specs::Program::with_texts))]
fn with_texts(
    alloc: Global,
    mut program: Program,
    owner: Owner,
    texts: &[&str],
) -> Result<Program, LoadEnd>
    requires { length program.networks + length texts.now ≤ NETWORK_LIMIT }
    ensures { Gives (λ p. p) result (with_texts owner program (texts_in texts.now)) }
{
    for text in texts {
        program = with_text(alloc, program, owner, text)?;
    }
    Ok(program)
}

#[tactic(auto, unfolding(crate::specs::Program::with_segment_texts))]
fn with_segment_texts(
    alloc: Global,
    program: Program,
    owner: Owner,
    texts: &[&str],
) -> Result<Program, LoadEnd>
    requires segments { length program.segments < SEGMENT_LIMIT }
    requires between { IsBetweenSegments program }
    requires networks { length texts.now ≤ NETWORK_LIMIT }
    ensures { Gives (λ p. p) result (with_segment_texts owner program (texts_in texts.now)) }
{
    let program = with_texts(alloc, program, owner, texts)?;
    program.with_segment(alloc)
}

#[tactic(auto, unfolding(crate::specs::Program::with_segment_table))]
fn with_segment_table(
    alloc: Global,
    program: Program,
    owner: Owner,
    table: &Table,
) -> Result<Program, LoadEnd>
    requires segments { length program.segments < SEGMENT_LIMIT }
    requires between { IsBetweenSegments program }
    ensures { Gives (λ p. p) result (with_segment_table owner program (table_view table.now)) }
{
    let texts = network_texts(alloc, owner.position, program.segment_number(), table)?;
    with_segment_texts(alloc, program, owner, texts.as_slice())
}

#[tactic(auto, unfolding(crate::specs::Program::with_segment_tables))]
fn with_segment_tables(
    alloc: Global,
    mut program: Program,
    owner: Owner,
    tables: &[&Table],
) -> Result<Program, LoadEnd>
    requires few { length program.segments + length tables.now ≤ SEGMENT_LIMIT }
    requires between { IsBetweenSegments program }
    ensures read { Gives (λ p. p) result
        (with_segment_tables owner program (tables_in tables.now)) }
    ensures count { IfOk result
        (λ p. length p.segments ≡ length program.segments + length tables.now) }
{
    for table in tables {
        program = with_segment_table(alloc, program, owner, table)?;
    }
    Ok(program)
}

/// The segments of a controller by their tables, or their first fault.
pub fn segments_of(alloc: Global, owner: Owner, tables: &[&Table]) -> Result<List<Segment>, LoadEnd>
    requires { length tables.now ≤ SEGMENT_LIMIT }
    ensures read { Gives (λ segments. segments) result
        (segments_of owner (tables_in tables.now)) }
    ensures count { IfOk result (λ segments. length segments ≡ length tables.now) }
{
    let program = with_segment_tables(alloc, Program::new(alloc, tables.len()), owner, tables)?;
    Ok(program.into_segments())
}
