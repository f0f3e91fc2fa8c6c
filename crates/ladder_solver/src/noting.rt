//! Cells, networks and subroutines, solved in their order as `solving` does, with a note of what
//! conducted in each network.
ghost use Rattle.std.specs.Prelude.{◌≡◌, ◌+◌, ◌<◌, ◌≤◌, length};
ghost use Rattle.plant_types.specs.Operands.{HasOperands, HasPast};
ghost use Rattle.plant_types.specs.Store.{Keeps};
ghost use Rattle.ladder_solver.specs.Edges.{HasNetworks, HasEdgeBit};
ghost use Rattle.ladder_solver.specs.Program.{grids_at};
ghost use Rattle.ladder_solver.specs.Conditions.{CanCall, CanSolveSpot, CanSolveNetwork};
ghost use Rattle.ladder_solver.specs.Conditions.{CanSolveSegment, HasMstr};
ghost use Rattle.ladder_solver.specs.Agreement.{KeepsScan, given, SolvesCall, SolvesElement};
ghost use Rattle.ladder_solver.specs.Agreement.{SolvesSpot, SolvesNetwork, SolvesTurn, SolvesRun};
ghost use Rattle.ladder_solver.specs.Noting.{HasRoom, NotesCall, NotesElement, NotesNetwork};
ghost use Rattle.ladder_solver.specs.Noting.{NotesRun, NotesSpot, NotesSpots, NotesTurn, Spends};
ghost use Rattle.ladder_solver.specs.Noting.{IsStart};

use crate::elements::{block_outputs, is_relay, relay_output};
use crate::flow::{Flow, Solved};
use crate::layout::Spot;
use crate::note::{NetworkFlow, conducted, push_note};
use crate::places::{Placed, Site};
use crate::rows::{Borders, fed_rows, inputs_at};
use crate::run::Run;
use crate::scan::{Lent, Scan};
use crate::solving::At;
use plant_types::{Element, List, NodePower, RefStore};

/// Where a solve goes on behind a network, and how many of its columns were solved to their end.
#[derive(Clone, Copy)]
struct Ended {
    flow: Flow,
    columns: u8,
}

/// Solves the subroutine of a number, if there is one and calls can go so deep.
#[cycle(noting)]
fn note_call<R: RefStore, P: RefStore>(
    lent: &Lent<'_, P>,
    number: u16,
    depth: u8,
    scan: &mut Scan,
    notes: &mut Vec<NetworkFlow>,
    ram: &mut R,
) -> Solved
    requires calls { CanCall (R.contents ram.old) (P.contents lent.now.past.now) scan.old
        lent.now.program.now }
    requires room { HasRoom 0 notes.old scan.old.left }
    ensures keeps { Keeps (R.contents ram.old) (R.contents ram.new) }
    ensures scan { KeepsScan scan.old scan.new }
    ensures solved { SolvesCall (given P.contents lent.now) depth number R.contents
        ram.old ram.new scan.old scan.new result }
    ensures noted { NotesCall (given P.contents lent.now) depth number R.contents ram.old scan.old
        notes.old.items notes.new.items }
    ensures spends { Spends 0 notes.old scan.old.left notes.new scan.new.left }
{
    if depth == 0 {
        return Solved::with(NodePower::MIDDLE);
    }
    let Some(span) = lent.program.subroutine(number) else {
        return Solved::with(NodePower::MIDDLE);
    };
    let run = Run {
        segment: lent.program.last(),
        span,
        depth: depth - 1,
    };
    note_run(lent, run, scan, notes, ram);
    Solved {
        outputs: NodePower::TOP,
        flow: Flow::behind(scan.left),
    }
}

/// Solves an element from the power at its input nodes.
#[cycle(noting)]
fn note_element<R: RefStore, P: RefStore>(
    lent: &Lent<'_, P>,
    placed: Placed,
    depth: u8,
    inputs: NodePower,
    scan: &mut Scan,
    notes: &mut Vec<NetworkFlow>,
    ram: &mut R,
) -> Solved
    requires calls { CanCall (R.contents ram.old) (P.contents lent.now.past.now) scan.old
        lent.now.program.now }
    requires operands { HasOperands (R.contents ram.old) placed.element }
    requires past { HasPast (P.contents lent.now.past.now) placed.element }
    requires place { HasEdgeBit scan.old.edges.counts placed.place }
    requires block { HasMstr scan.old.bank placed.element placed.block }
    requires room { HasRoom 0 notes.old scan.old.left }
    ensures keeps { Keeps (R.contents ram.old) (R.contents ram.new) }
    ensures scan { KeepsScan scan.old scan.new }
    ensures solved { SolvesElement (given P.contents lent.now) depth placed inputs R.contents
        ram.old ram.new scan.old scan.new result }
    ensures noted { NotesElement (given P.contents lent.now) depth placed inputs R.contents ram.old
        scan.old notes.old.items notes.new.items }
    ensures spends { Spends 0 notes.old scan.old.left notes.new scan.new.left }
{
    if is_relay(placed.element) {
        let top = relay_output(placed.element, inputs.top, ram, lent.past);
        return Solved::with(NodePower {
            top,
            ..NodePower::OFF
        });
    }
    match placed.element {
        Element::Skip(count) => Solved::directed(inputs.top, Flow::Skips(count.number(ram))),
        Element::Return => Solved::directed(inputs.top, Flow::Returns),
        Element::Call(number) => {
            if inputs.top {
                note_call(lent, number.number(ram), depth, scan, notes, ram)
            } else {
                Solved::with(NodePower::OFF)
            }
        }
        Element::Label(_) => Solved::with(NodePower::OFF),
        _ => Solved::with(block_outputs(placed, inputs, scan, ram)),
    }
}

/// Solves a cell from the rows that are live at the left border of its column, and adds those that
/// its outputs reach at the right border.
#[cycle(noting)]
fn note_spot<R: RefStore, P: RefStore>(
    lent: &Lent<'_, P>,
    spot: &Spot,
    at: At,
    live: &mut Borders,
    scan: &mut Scan,
    notes: &mut Vec<NetworkFlow>,
    ram: &mut R,
) -> Flow
    requires calls { CanCall (R.contents ram.old) (P.contents lent.now.past.now) scan.old
        lent.now.program.now }
    requires can_solve { CanSolveSpot (R.contents ram.old) (P.contents lent.now.past.now) scan.old
        spot.now }
    requires networks { HasNetworks scan.old.edges.counts at.site.segment at.site.network }
    requires number { 1 ≤ at.site.network }
    requires room { HasRoom 0 notes.old scan.old.left }
    ensures keeps { Keeps (R.contents ram.old) (R.contents ram.new) }
    ensures scan { KeepsScan scan.old scan.new }
    ensures solved { SolvesSpot (given P.contents lent.now) spot.now at live.old live.new
        R.contents ram.old ram.new scan.old scan.new result }
    ensures noted { NotesSpot (given P.contents lent.now) spot.now at live.old R.contents ram.old
        scan.old notes.old.items notes.new.items }
    ensures spends { Spends 0 notes.old scan.old.left notes.new scan.new.left }
{
    let right = spot.column as usize;
    let inputs = inputs_at(live[right - 1], spot.row);
    let placed = Placed {
        element: spot.element,
        place: at.site.place(spot.column, spot.row),
        block: spot.block,
    };
    let solved = note_element(lent, placed, at.depth, inputs, scan, notes, ram);
    live[right] |= fed_rows(solved.outputs, &spot.reaches);
    solved.flow
}

/// Solves the cells of a network, column by column from the left, while the solve goes on.
#[cycle(noting)]
fn note_spots<R: RefStore, P: RefStore>(
    lent: &Lent<'_, P>,
    spots: &List<Spot>,
    at: At,
    live: &mut Borders,
    scan: &mut Scan,
    notes: &mut Vec<NetworkFlow>,
    ram: &mut R,
) -> Ended
    requires calls { CanCall (R.contents ram.old) (P.contents lent.now.past.now) scan.old
        lent.now.program.now }
    requires can_solve { CanSolveNetwork (R.contents ram.old) (P.contents lent.now.past.now)
        scan.old spots.now }
    requires networks { HasNetworks scan.old.edges.counts at.site.segment at.site.network }
    requires number { 1 ≤ at.site.network }
    requires start { IsStart live.old }
    requires room { HasRoom 0 notes.old scan.old.left }
    ensures keeps { Keeps (R.contents ram.old) (R.contents ram.new) }
    ensures scan { KeepsScan scan.old scan.new }
    ensures solved { SolvesNetwork (given P.contents lent.now) spots.now at R.contents
        ram.old ram.new scan.old scan.new result.flow }
    ensures noted { NotesSpots (given P.contents lent.now) spots.now at live.new R.contents ram.old
        scan.old notes.old.items notes.new.items result }
    ensures spends { Spends 0 notes.old scan.old.left notes.new scan.new.left }
{
    for spot in spots.as_slice() {
        let flow = note_spot(lent, spot, at, live, scan, notes, ram);
        if !flow.goes_on() {
            let columns = spot.column - 1;
            return Ended { flow, columns };
        }
    }
    Ended {
        flow: Flow::GoesOn,
        columns: 11,
    }
}

/// Solves a network, and notes what conducted.
#[cycle(noting)]
fn note_network<R: RefStore, P: RefStore>(
    lent: &Lent<'_, P>,
    spots: &List<Spot>,
    at: At,
    scan: &mut Scan,
    notes: &mut Vec<NetworkFlow>,
    ram: &mut R,
) -> Flow
    requires calls { CanCall (R.contents ram.old) (P.contents lent.now.past.now) scan.old
        lent.now.program.now }
    requires can_solve { CanSolveNetwork (R.contents ram.old) (P.contents lent.now.past.now)
        scan.old spots.now }
    requires networks { HasNetworks scan.old.edges.counts at.site.segment at.site.network }
    requires number { 1 ≤ at.site.network }
    requires room { HasRoom 1 notes.old scan.old.left }
    ensures keeps { Keeps (R.contents ram.old) (R.contents ram.new) }
    ensures scan { KeepsScan scan.old scan.new }
    ensures solved { SolvesNetwork (given P.contents lent.now) spots.now at R.contents
        ram.old ram.new scan.old scan.new result }
    ensures noted { NotesNetwork (given P.contents lent.now) spots.now at R.contents ram.old
        scan.old notes.old.items notes.new.items }
    ensures spends { Spends 1 notes.old scan.old.left notes.new scan.new.left }
{
    let mut live = [127, 0, 0, 0, 0, 0, 0, 0, 0, 0, 0, 0];
    let ended = note_spots(lent, spots, at, &mut live, scan, notes, ram);
    push_note(notes, conducted(at.site, &live, ended.columns));
    ended.flow
}

/// Begins a network, and answers how many networks are skipped behind it, or none where the run
/// ends with it.
#[cycle(noting)]
fn note_turn<R: RefStore, P: RefStore>(
    lent: &Lent<'_, P>,
    spots: &List<Spot>,
    at: At,
    scan: &mut Scan,
    notes: &mut Vec<NetworkFlow>,
    ram: &mut R,
) -> Option<u16>
    requires calls { CanCall (R.contents ram.old) (P.contents lent.now.past.now) scan.old
        lent.now.program.now }
    requires can_solve { CanSolveNetwork (R.contents ram.old) (P.contents lent.now.past.now)
        scan.old spots.now }
    requires networks { HasNetworks scan.old.edges.counts at.site.segment at.site.network }
    requires number { 1 ≤ at.site.network }
    requires room { HasRoom 0 notes.old scan.old.left }
    ensures keeps { Keeps (R.contents ram.old) (R.contents ram.new) }
    ensures scan { KeepsScan scan.old scan.new }
    ensures solved { SolvesTurn (given P.contents lent.now) spots.now at R.contents
        ram.old ram.new scan.old scan.new result }
    ensures noted { NotesTurn (given P.contents lent.now) spots.now at R.contents ram.old ram.new
        scan.old scan.new notes.old.items notes.new.items result }
    ensures spends { Spends 0 notes.old scan.old.left notes.new scan.new.left }
{
    scan.left = scan.left.saturating_sub(1);
    if scan.left == 0 {
        return None;
    }
    match note_network(lent, spots, at, scan, notes, ram) {
        Flow::GoesOn => Some(0),
        Flow::Skips(count) => count.checked_sub(1),
        Flow::Returns => None,
        Flow::Stopped => None,
    }
}

/// Solves networks of a segment, one after another, and notes what conducted in each.
#[cycle(noting)]
pub(crate) fn note_run<R: RefStore, P: RefStore>(
    lent: &Lent<'_, P>,
    run: Run,
    scan: &mut Scan,
    notes: &mut Vec<NetworkFlow>,
    ram: &mut R,
)
    requires calls { CanCall (R.contents ram.old) (P.contents lent.now.past.now) scan.old
        lent.now.program.now }
    requires here { CanSolveSegment (R.contents ram.old) (P.contents lent.now.past.now) scan.old
        lent.now.program.now run.segment }
    requires within { run.span.end ≤ length (grids_at lent.now.program.now run.segment) }
    requires room { HasRoom 0 notes.old scan.old.left }
    ensures keeps { Keeps (R.contents ram.old) (R.contents ram.new) }
    ensures scan { KeepsScan scan.old scan.new }
    ensures solved { SolvesRun (given P.contents lent.now) run R.contents
        ram.old ram.new scan.old scan.new }
    ensures noted { NotesRun (given P.contents lent.now) run R.contents ram.old scan.old
        notes.old.items notes.new.items }
    ensures spends { Spends 0 notes.old scan.old.left notes.new scan.new.left }
{
    let networks = lent.program.networks(run.segment);
    let mut i = run.span.first;
    while i < run.span.end {
        let site = Site {
            segment: run.segment,
            network: i + 1,
        };
        let at = At {
            site,
            depth: run.depth,
        };
        let Some(skipped) = note_turn(lent, &networks[i], at, scan, notes, ram) else {
            return;
        };
        i += 1 + usize::from(skipped);
    }
}
