//! Scans of networks that were worked out by hand. Coils count from 00001, inputs from 10001 and
//! registers from 40001.
ghost use Rattle.std.specs.Prelude.{◌≡◌, ◌≤◌, true, false, length, IfOk, IsTrue};
ghost use Rattle.plant_types.specs.Checks.{sizes_of};
ghost use Rattle.plant_types.specs.Reference.{is_discrete};
ghost use Rattle.plant_types.specs.Passing.{IsChecked};
ghost use Rattle.plant_types.specs.Sizes.{cleared, discretes_of};
ghost use Rattle.plant_types.specs.Store.{Keeps};
ghost use Rattle.grid_compile.specs.Layout.{grids_of};
ghost use Rattle.ladder_solver.specs.Numbers.{mstr_count};
ghost use Rattle.ladder_solver.specs.Ready.{IsReady};

use grid_compile::grids_of;
use ladder_solver::{Ladder, SolveEnd, Watch, grids_ask_no_more};
use mstr_block::{MstrBank, MstrResult};
use plant_types::{
    Block, Cell, ControllerPlan, Element, List, MapRam, Network, Ref, RefKind, RefStore, Segment,
    Short, checked_plans_find_all, checks_are_exact, discretes_follow, kept_stores_find_all,
};
use std::alloc::{AllocError, Global};
use std::process::Abort;
use std::test::Fail;
use timer_ops::Clock;

mod control_flow;
mod elements;
mod messages;
mod relays;

fn coil(number: u16) -> Ref
    ensures { is_discrete result.kind ≡ true }
{
    Ref {
        kind: RefKind::Coil,
        number,
    }
}

fn input(number: u16) -> Ref
    ensures { is_discrete result.kind ≡ true }
{
    Ref {
        kind: RefKind::Input,
        number,
    }
}

fn register(number: u16) -> Ref
    ensures { is_discrete result.kind ≡ false }
{
    Ref {
        kind: RefKind::Register,
        number,
    }
}

const COIL_1: Ref = Ref {
    kind: RefKind::Coil,
    number: 1,
};

const COIL_2: Ref = Ref {
    kind: RefKind::Coil,
    number: 2,
};

const COIL_3: Ref = Ref {
    kind: RefKind::Coil,
    number: 3,
};

const COIL_4: Ref = Ref {
    kind: RefKind::Coil,
    number: 4,
};

const COIL_5: Ref = Ref {
    kind: RefKind::Coil,
    number: 5,
};

const COIL_6: Ref = Ref {
    kind: RefKind::Coil,
    number: 6,
};

const COIL_7: Ref = Ref {
    kind: RefKind::Coil,
    number: 7,
};

const INPUT_1: Ref = Ref {
    kind: RefKind::Input,
    number: 1,
};

const INPUT_2: Ref = Ref {
    kind: RefKind::Input,
    number: 2,
};

const REGISTER_1: Ref = Ref {
    kind: RefKind::Register,
    number: 1,
};

const REGISTER_2: Ref = Ref {
    kind: RefKind::Register,
    number: 2,
};

const REGISTER_4: Ref = Ref {
    kind: RefKind::Register,
    number: 4,
};

const REGISTER_6: Ref = Ref {
    kind: RefKind::Register,
    number: 6,
};

const REGISTER_11: Ref = Ref {
    kind: RefKind::Register,
    number: 11,
};

const REGISTER_12: Ref = Ref {
    kind: RefKind::Register,
    number: 12,
};

const REGISTER_13: Ref = Ref {
    kind: RefKind::Register,
    number: 13,
};

/// A piece of a network: a cell with its row and column, or a vertical short.
#[derive(Clone, Copy)]
enum Piece {
    At(u8, u8, Element),
    Joins(u8, u8),
}

/// The networks of each segment.
type Segments = &'static [&'static [&'static [Piece]]];

/// What a scan finds, and what it leaves.
#[derive(Clone, Copy)]
struct Scan {
    /// The inputs 1 and 2 that are on.
    inputs: &'static [u16],
    /// The coils and registers that a peer set before it.
    coils_set: &'static [(u16, bool)],
    words_set: &'static [(u16, u16)],
    /// The networks left to the watchdog before it, and after it where that is told.
    before: u32,
    left: Option<u32>,
    /// The coils 1 to 8 that are on after it, and numbers of registers.
    coils: &'static [u16],
    words: &'static [(u16, u16)],
    /// The paths and numbers of the calls that it started, by their blocks. Each ends at once with
    /// the word 7.
    calls: &'static [(u8, u32)],
}

/// A scan that a peer changes nothing before, and that leaves nothing.
const SCAN: Scan = Scan {
    inputs: &[],
    coils_set: &[],
    words_set: &[],
    before: 1000,
    left: None,
    coils: &[],
    words: &[],
    calls: &[],
};

/// Scans of a plan, one after another.
struct Case {
    what: &'static str,
    segments: Segments,
    scans: &'static [Scan],
}

fn network_of(alloc: Global, pieces: &[Piece]) -> Result<Network, AllocError> {
    let mut cells = List::new(alloc);
    let mut shorts = List::new(alloc);
    for piece in pieces {
        match *piece {
            Piece::At(row, column, element) => cells.push(Cell {
                row,
                column,
                element,
            })?,
            Piece::Joins(row, column) => shorts.push(Short { row, column })?,
        }
    }
    Ok(Network { cells, shorts })
}

fn segment_of(alloc: Global, networks: &[&[Piece]]) -> Result<Segment, AllocError> {
    let mut list = List::new(alloc);
    for pieces in networks {
        list.push(network_of(alloc, pieces)?)?;
    }
    Ok(Segment { networks: list })
}

fn segments_of(alloc: Global, segments: Segments) -> Result<List<Segment>, AllocError> {
    let mut list = List::new(alloc);
    for networks in segments {
        list.push(segment_of(alloc, networks)?)?;
    }
    Ok(list)
}

fn plan_of(alloc: Global, segments: Segments) -> Result<ControllerPlan, AllocError> {
    let segments = segments_of(alloc, segments)?;
    Ok(ControllerPlan {
        node: 1,
        network: 0,
        coils: 16,
        inputs: 16,
        input_registers: 0,
        registers: 32,
        panel: List::new(alloc),
        orders: List::new(alloc),
        power: List::new(alloc),
        drops: List::new(alloc),
        segments,
    })
}

/// A plan, what solves it, and what its solves change.
#[derive(Drop)]
struct Plant {
    plan: ControllerPlan,
    ladder: Ladder,
    ram: MapRam,
    past: MapRam,
    bank: MstrBank,
}

/// The ladder of a plan, and the table of its message blocks.
#[derive(Drop)]
struct Solver {
    ladder: Ladder,
    bank: MstrBank,
}

fn solver_of(alloc: Global, plan: &ControllerPlan) -> Result<Solver, AllocError>
    requires { IsChecked plan.now }
    ensures laid { IfOk result (λ made. made.ladder.grids ≡ grids_of plan.now.segments) }
    ensures blocks { IfOk result (λ made.
        mstr_count made.ladder.grids ≤ length made.bank.blocks) }
{
    checked_plans_find_all();
    grids_ask_no_more();
    let grids = grids_of(alloc, plan.segments.as_slice())?;
    let ladder = Ladder::new(alloc, grids)?;
    let count = ladder.blocks();
    let bank = MstrBank::new(alloc, plan.node, count, false)?;
    Ok(Solver { ladder, bank })
}

/// The store of a plan, and one of its discretes alone.
#[derive(Drop)]
struct Stores {
    ram: MapRam,
    past: MapRam,
}

fn stores_of(alloc: Global, plan: &ControllerPlan) -> Result<Stores, AllocError>
    ensures stored { IfOk result (λ made. Keeps (cleared (sizes_of plan.now)) made.ram) }
    ensures discretes { IfOk result (λ made.
        Keeps (cleared (discretes_of (sizes_of plan.now))) made.past) }
    ensures ends { IfOk result (λ made. Keeps made.past made.ram) }
{
    discretes_follow();
    let (coils, inputs, words) = (plan.coils, plan.inputs, plan.registers);
    let ram = MapRam::new(alloc, coils, inputs, plan.input_registers, words)?;
    let past = MapRam::new(alloc, coils, inputs, 0, 0)?;
    Ok(Stores { ram, past })
}

/// What a plan's scans work on.
#[derive(Drop)]
struct Parts {
    solver: Solver,
    stores: Stores,
}

fn parts_of(alloc: Global, plan: &ControllerPlan) -> Result<Parts, AllocError>
    requires { IsChecked plan.now }
    ensures { IfOk result (λ made. IsReady plan.now made.solver.ladder made.stores.ram
        made.stores.past made.solver.bank) }
{
    let stores = stores_of(alloc, plan)?;
    let solver = solver_of(alloc, plan)?;
    Ok(Parts { solver, stores })
}

fn plant_of(alloc: Global, plan: ControllerPlan) -> Result<Plant, AllocError>
    requires { IsChecked plan }
    ensures { IfOk result (λ plant.
        IsReady plant.plan plant.ladder plant.ram plant.past plant.bank) }
{
    let parts = parts_of(alloc, &plan)?;
    let Parts {
        solver: Solver { ladder, bank },
        stores: Stores { ram, past },
    } = parts;
    Ok(Plant {
        plan,
        ladder,
        ram,
        past,
        bank,
    })
}

fn set_discrete(rt: &impl Abort, ram: &mut MapRam, at: Ref, on: bool)
    requires { is_discrete at.kind ≡ true }
    ensures { Keeps ram.old ram.new }
{
    assert!(rt; ram.has(at));
    ram.set_bit(at, on);
}

/// What peers and the field change before a scan.
fn set_numbers(rt: &impl Abort, ram: &mut MapRam, scan: &Scan)
    ensures { Keeps ram.old ram.new }
{
    for number in 1..3u16 {
        set_discrete(rt, ram, input(number), scan.inputs.contains(&number));
    }
    for (number, on) in scan.coils_set {
        set_discrete(rt, ram, coil(*number), *on);
    }
    for (number, value) in scan.words_set {
        let at = register(*number);
        assert!(rt; ram.has(at));
        ram.set_word(at, *value);
    }
}

fn compare_numbers(rt: &impl Abort, ram: &MapRam, what: &str, scan: &Scan) {
    for number in 1..9u16 {
        let at = coil(number);
        assert!(rt; ram.has(at));
        assert_eq!(rt;
            ram.bit(at),
            scan.coils.contains(&number),
            "{what}: coil {number}"
        );
    }
    for (number, value) in scan.words {
        let at = register(*number);
        assert!(rt; ram.has(at));
        assert_eq!(rt; ram.word(at), *value, "{what}: register {number}");
    }
}

/// Ends the calls that a scan started, by their blocks.
fn end_calls(rt: &impl Abort, bank: &mut MstrBank, what: &str, calls: &[(u8, u32)])
    ensures { length bank.new.blocks ≡ length bank.old.blocks }
{
    for (path, seq) in calls {
        let Some(call) = bank.take_started() else {
            panic!(rt; "{what}: no call on path {path}");
        };
        assert_eq!(rt; (call.id.path, call.id.seq), (*path, *seq), "{what}");
        assert!(rt; bank.is_out(call.id));
        bank.finish(call.id, MstrResult::Good(Block::of(&[7])));
    }
    assert!(rt; !bank.has_started());
}

impl Plant {
    /// Solves the first segment, and compares the networks left to the watchdog.
    fn solve(&mut self, rt: &impl Abort, clock: Clock, what: &str, scan: &Scan)
        requires { IsReady self.old.plan self.old.ladder self.old.ram self.old.past self.old.bank }
        ensures { IsReady self.new.plan self.new.ladder self.new.ram self.new.past self.new.bank }
    {
        checked_plans_find_all();
        kept_stores_find_all();
        grids_ask_no_more();
        assert!(rt; !self.plan.segments.as_slice().is_empty());
        assert!(rt; scan.before > 0);
        let mut watch = Watch { left: scan.before };
        let (ram, bank) = (&mut self.ram, &mut self.bank);
        let end = self
            .ladder
            .solve(1, clock, ram, &self.past, bank, &mut watch);
        assert_eq!(rt; end == SolveEnd::Watchdog, watch.left == 0, "{what}");
        if let Some(left) = scan.left {
            assert_eq!(rt; watch.left, left, "{what}");
        }
    }

    /// One scan.
    fn scan(&mut self, rt: &impl Abort, clock: Clock, what: &str, scan: &Scan)
        requires { IsReady self.old.plan self.old.ladder self.old.ram self.old.past self.old.bank }
        ensures { IsReady self.new.plan self.new.ladder self.new.ram self.new.past self.new.bank }
    {
        set_numbers(rt, &mut self.ram, scan);
        self.solve(rt, clock, what, scan);
        compare_numbers(rt, &self.ram, what, scan);
        end_calls(rt, &mut self.bank, what, scan.calls);
        self.past.copy_from(&self.ram);
    }
}

/// The plant of a case.
fn plant_in(rt: &(impl Abort + AllocGlobal), case: &Case) -> Result<Plant, AllocError>
    ensures { IfOk result (λ plant.
        IsReady plant.plan plant.ladder plant.ram plant.past plant.bank) }
{
    let plan = plan_of(rt.alloc(), case.segments)?;
    checks_are_exact();
    if plan.check().is_err() {
        let what = case.what;
        panic!(rt; "{what}: the plan has a fault");
    }
    plant_of(rt.alloc(), plan)
}

/// Scans the networks of a case, one scan every 30 ticks.
fn show_case(rt: &(impl Abort + AllocGlobal), case: &Case) -> Result<(), AllocError> {
    let mut plant = plant_in(rt, case)?;
    let mut before = 0u64;
    for scan in case.scans {
        let now = before.saturating_add(30);
        plant.scan(rt, Clock { before, now }, case.what, scan);
        before = now;
    }
    Ok(())
}

fn show(rt: &(impl Abort + AllocGlobal), cases: &[Case]) -> Result<(), Fail> {
    for case in cases {
        show_case(rt, case)?;
    }
    Ok(())
}
