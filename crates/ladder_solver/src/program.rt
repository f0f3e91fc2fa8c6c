//! Networks as solving walks them, and where each subroutine stands among them.
ghost use Rattle.std.specs.Prelude.{◌≡◌, ◌<◌, ◌≤◌, length, IfOk, IfSome, OnOk};
ghost use Rattle.std.specs.Option.{option_copied};
ghost use Rattle.grid_compile.specs.Lists.{op_at};
ghost use Rattle.ladder_solver.specs.Numbers.{mstr_count};
ghost use Rattle.ladder_solver.specs.Subroutine.{label_number};
ghost use Rattle.ladder_solver.specs.Program.{label_in, CanLay, last_grids, spots_at};
ghost use Rattle.ladder_solver.specs.Program.{with_room, put_span, spans_of};
ghost use Rattle.ladder_solver.specs.Program.{IsSpanOf, IsWithinNetworks};

use crate::layout::{Spot, spots_of};
use grid_compile::{Column, Grid, Op};
use plant_types::{Element, List};
use std::alloc::{AllocError, Global};
use std::marker::Model;

/// The networks of a subroutine in the last segment, counted from 0.
#[derive(Clone, Copy)]
pub(crate) struct Span {
    pub first: usize,
    /// The network behind the last.
    pub end: usize,
}

/// Where the subroutine of each number stands, up to the largest that a LAB has.
type Spans = Vec<Option<Span>>;

fn label_number(element: Element) -> Option<u16>
    ensures { result ≡ label_number element }
{
    match element {
        Element::Label(number) => Some(number),
        _ => None,
    }
}

fn op_at(ops: &[Op], row: u8) -> Option<&Op>
    ensures { option_copied result ≡ op_at ops.now row }
{
    ops.iter().find(|op| op.row == row)
}

/// The number of a network's LAB, which stands in row 1 and column 1.
fn label_in(grid: &Grid) -> Option<u16>
    ensures { result ≡ label_in grid.now }
{
    let column = grid.columns.as_slice().first()?;
    let op = op_at(column.ops.as_slice(), 1)?;
    label_number(op.element)
}

/// Sees that there is a place for each number below `count`.
fn make_room(spans: &mut Spans, count: usize) -> Result<(), AllocError>
    ensures { OnOk result (spans.new.items ≡ with_room count spans.old.items) }
{
    let missing = count.saturating_sub(spans.len());
    for _ in 0..missing {
        spans.push(None)?;
    }
    Ok(())
}

fn put_span(spans: &mut Spans, number: u16, span: Span) -> Result<(), AllocError>
    ensures { OnOk result (spans.new.items ≡ put_span number span spans.old.items) }
{
    let number = usize::from(number);
    make_room(spans, number + 1)?;
    spans[number] = Some(span);
    Ok(())
}

/// Where the subroutines of these networks stand: each goes on up to the next LAB.
fn spans_of(alloc: Global, grids: &[Grid]) -> Result<Spans, AllocError>
    ensures { IfOk result (λ spans. spans.items ≡ spans_of grids.now) }
{
    let mut spans = Vec::new(alloc);
    let mut end = grids.len();
    for first in (0..grids.len()).rev() {
        if let Some(number) = label_in(&grids[first]) {
            put_span(&mut spans, number, Span { first, end })?;
            end = first;
        }
    }
    Ok(spans)
}

fn last_spans(alloc: Global, segments: &[List<Grid>]) -> Result<Spans, AllocError>
    ensures { IfOk result (λ spans. spans.items ≡ spans_of (last_grids segments.now)) }
{
    if segments.is_empty() {
        return Ok(Vec::new(alloc));
    }
    spans_of(alloc, segments[segments.len() - 1].as_slice())
}

/// The grids of all segments, their cells as solving walks them, how many MSTR blocks they have,
/// and their subroutines.
pub(crate) struct Program {
    grids: List<List<Grid>>,
    networks: List<List<List<Spot>>>,
    blocks: u16,
    spans: Spans,
}

impl Model for Program {
    ghost use Rattle.std.specs.Prelude.{List};
    ghost use Rattle.std.specs.Coded.{coded_list};
    ghost use Rattle.grid_compile.specs.declared.grid.Grid.{Grid};
    ghost use Rattle.grid_compile.specs.contracts.grid.Grid.{the_row};

    ghost Value = { List (List Grid) };

    ghost coded = { coded_list (coded_list the_row.coded) };

    ghost use Rattle.ladder_solver.specs.Program.{program_of, IsProgram};

    ghost view = { program_of };

    ghost invariant = { IsProgram };
}

impl Drop for Program {
    fn drop(self) {
        let Program {
            grids: _,
            networks: _,
            blocks: _,
            spans: _,
        } = self;
    }
}

impl Program {
    /// Lays out these grids, by segment.
    pub fn new(alloc: Global, grids: List<List<Grid>>) -> Result<Program, AllocError>
        requires { CanLay grids }
        ensures { IfOk result (λ program. program ≡ grids) }
    {
        let mut block = 1;
        let spans = last_spans(alloc, grids.as_slice())?;
        let networks = spots_of(alloc, grids.as_slice(), &mut block)?;
        Ok(Program {
            grids,
            networks,
            blocks: block - 1,
            spans,
        })
    }

    /// The networks of a segment, counted from 1.
    pub fn networks(&self, segment: usize) -> &[List<Spot>]
        requires first { 0 < segment }
        requires last { segment ≤ length self.now }
        ensures { result.now ≡ spots_at self.now segment }
    {
        self.networks.as_slice()[segment - 1].as_slice()
    }

    /// How many MSTR blocks there are.
    pub fn blocks(&self) -> u16
        ensures { result ≡ mstr_count self.now }
    {
        self.blocks
    }

    /// The grids of each segment.
    pub fn grids(&self) -> &[List<Grid>]
        ensures { result.now ≡ self.now }
    {
        self.grids.as_slice()
    }

    /// How many segments there are: the number of the last.
    pub fn last(&self) -> usize
        ensures { result ≡ length self.now }
    {
        self.grids().len()
    }

    /// Where the subroutine of a number stands in the last segment, if there is one.
    pub fn subroutine(&self, label: u16) -> Option<Span>
        ensures span { IsSpanOf self.now label result }
        ensures within { IfSome result (IsWithinNetworks (length (last_grids self.now))) }
    {
        let number = usize::from(label);
        if number >= self.spans.len() {
            return None;
        }
        self.spans[number]
    }
}
