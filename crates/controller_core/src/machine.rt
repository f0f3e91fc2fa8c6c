//! The state of a controller, with what each event of a scan does to it.
ghost use Rattle.std.specs.Prelude.{◌≡◌, ◌≤◌, ◌<◌, ◌+◌, ◌++◌, length, true, IfOk, OnErr, OnOk};
ghost use Rattle.std.specs.Prelude.{Some, vec_capacity, vec_len};
ghost use Rattle.controller_core.specs.Notes.{note_of_step};
ghost use Rattle.modbus_exec.specs.Answer.{answer_of};
ghost use Rattle.scan_order.specs.Due.{IsRow, IsStep};
ghost use Rattle.controller_core.specs.Event.{entry_of, outputs_at, peer_entry, reply_in};
ghost use Rattle.controller_core.specs.Replay.{control_is_on, start};
ghost use Rattle.traffic_cop.specs.Feeding.{fits_drop};
ghost use Rattle.traffic_cop.specs.Rows.{HasControl, HasDrop};
ghost use Rattle.controller_core.specs.Machine.{state_is, DoesEntry, Exchanges};
ghost use Rattle.controller_core.specs.StateView.{state_seen};
ghost use Rattle.controller_core.specs.Machine.{CanSolve, IsRunnable, IsSound, IsTimely};
ghost use Rattle.controller_core.specs.Machine.{most_steps};
ghost use Rattle.controller_core.specs.Calls.{calls_of};
ghost use Rattle.controller_core.specs.Feeding.{machine_fed};
ghost use Rattle.controller_core.specs.Machine.{AnswersRequest, Solves, Tells, stop_by};
ghost use Rattle.mstr_block.specs.Laws.{collected};
ghost use Rattle.mstr_block.specs.Table.{has_untaken, is_taken_out};

use crate::call::Call;
use crate::entry::Entry;
use crate::failing::switch_coils_off;
use crate::fixed::Fixed;
use crate::notes::{closes_scan, push_values};
use crate::parts::{Parts, Solver, Stores, parts_of};
use crate::state::StateView;
use ladder_solver::{Clock, Ladder, SolveEnd, Watch, grids_ask_no_more, segments_keep_calls};
use modbus_exec::answer_twice;
use mstr_block::{
    CallId, MstrBank, MstrResult, calls_are_taken_in_order, power_failures_keep_calls,
};
use plant_types::{
    Block, Copied, List, Pdu, Ref, RefStore, ScriptRow, checked_plans_find_all, discretes_are_on,
    discretes_follow, is_routed, kept_stores_find_all,
};
use scan_order::{ScanStep, row_of};
use state_ram::PackedRam;
use std::alloc::{AllocError, Global};
use traffic_cop::Cop;

/// The code with which the watchdog stops a controller.
const WATCHDOG_STOP: u16 = 1;

/// The store of a controller and all that its events change beside it.
pub(crate) struct Machine {
    pub(crate) fixed: Fixed,
    pub(crate) ladder: Ladder,
    pub(crate) bank: MstrBank,
    cop: Cop,
    pub(crate) ram: PackedRam,
    /// The discretes as the last scan ended or failed.
    pub(crate) past: PackedRam,
    pub(crate) clock: Clock,
    /// The networks that are left to the watchdog.
    pub(crate) watch: Watch,
    /// How many input exchanges each drop had, by its number.
    exchanges: Vec<u32>,
    /// How many scans are gone.
    pub(crate) gone: u32,
    /// The code with which the controller stopped; 0 while it goes on.
    pub(crate) stop: u16,
    /// Whether there is power.
    pub(crate) powered: bool,
    /// How often power failed.
    pub(crate) failures: u32,
}

impl Drop for Machine {
    fn drop(self) {
        let Machine {
            fixed: _,
            ladder: _,
            bank: _,
            cop: _,
            ram: _,
            past: _,
            clock: _,
            watch: _,
            exchanges: _,
            gone: _,
            stop: _,
            powered: _,
            failures: _,
        } = self;
    }
}

/// The stop code after a solve.
pub(crate) fn stop_behind(end: SolveEnd, stop: u16) -> u16
    ensures { result ≡ stop_by end stop }
{
    match end {
        SolveEnd::Done => stop,
        SolveEnd::Watchdog => WATCHDOG_STOP,
    }
}

/// All started calls count as taken. Takes no memory.
fn take_all(bank: &mut MstrBank)
    ensures { bank.new ≡ collected bank.old }
{
    calls_are_taken_in_order();
    while bank.take_started().is_some() {}
}

impl Machine {
    /// A controller at its start.
    pub(crate) fn new(alloc: Global, fixed: Fixed) -> Result<Machine, AllocError>
        requires { IsRunnable fixed }
        ensures plan { IfOk result (λ machine. machine.fixed ≡ fixed) }
        ensures sound { IfOk result IsSound }
        ensures state { IfOk result (λ machine. state_is machine ≡ start fixed.plan) }
        ensures timely { IfOk result (λ machine. IsTimely machine 0) }
    {
        discretes_follow();
        discretes_are_on();
        let parts = parts_of(alloc, &fixed.plan)?;
        let Parts {
            solver: Solver { ladder, bank },
            stores: Stores { ram, past },
            cop,
            exchanges,
        } = parts;
        Ok(Machine {
            fixed,
            ladder,
            bank,
            cop,
            ram,
            past,
            clock: Clock { before: 0, now: 0 },
            watch: Watch { left: 0 },
            exchanges,
            gone: 0,
            stop: 0,
            powered: true,
            failures: 0,
        })
    }

    /// The store.
    pub(crate) fn ram(&self) -> &PackedRam
        ensures { result.now ≡ self.now.ram }
    {
        &self.ram
    }

    /// All of its state.
    pub(crate) fn state(&self) -> StateView<'_>
        ensures { state_seen result ≡ state_is self.now }
    {
        StateView {
            ram: &self.ram,
            past: &self.past,
            ladder: &self.ladder,
            bank: &self.bank,
            clock: self.clock,
            left: self.watch.left,
            exchanges: self.exchanges.as_slice(),
            gone: self.gone,
            stop: self.stop,
            powered: self.powered,
            failures: self.failures,
        }
    }

    /// The references of the panel.
    pub(crate) fn panel(&self) -> &[Ref]
        ensures { result.now ≡ self.now.fixed.plan.panel }
    {
        self.fixed.plan.panel.as_slice()
    }

    /// Notes the values of the panel after a step, if that is the last of its scan. Takes no
    /// memory.
    pub(crate) fn note_panel(&self, step: ScanStep, values: &mut Vec<u16>)
        requires sound { IsSound self.now }
        requires room { vec_len values.old + length self.now.fixed.plan.panel
            ≤ vec_capacity values.old }
        ensures values { values.new.items ≡ values.old.items
            ++ note_of_step self.now.fixed.plan (Some step) (state_is self.now) }
        ensures capacity { vec_capacity values.old ≤ vec_capacity values.new }
    {
        checked_plans_find_all();
        kept_stores_find_all();
        if closes_scan(step, self.stop) {
            push_values(values, self.panel(), &self.ram);
        }
    }

    fn begin(&mut self)
        requires sound { IsSound self.old }
        requires timely { IsTimely self.old most_steps }
        ensures { DoesEntry Entry.Begin self.old self.new }
    {
        self.clock = Clock {
            before: self.clock.now,
            now: self.clock.now + u64::from(self.fixed.scan_time),
        };
        self.watch = Watch {
            left: self.fixed.watchdog,
        };
        self.powered = true;
    }

    /// The next input exchange of a drop.
    fn exchange(&mut self, drop: u8)
        requires sound { IsSound self.old }
        requires timely { IsTimely self.old most_steps }
        requires there { HasDrop self.old.fixed.plan drop }
        ensures { Exchanges drop self.old self.new }
    {
        let place = usize::from(drop) - 1;
        let count = self.exchanges[place] + 1;
        self.cop.input(drop, count, &mut self.ram);
        self.exchanges[place] = count;
    }

    fn input(&mut self, row: u16)
        requires sound { IsSound self.old }
        requires timely { IsTimely self.old most_steps }
        requires row { IsRow self.old.fixed.plan row }
        ensures { DoesEntry (Entry.Input row) self.old self.new }
    {
        let Some(found) = row_of(&self.fixed.plan, row) else {
            return;
        };
        match found.input {
            Some(drop) => self.exchange(drop),
            None => {}
        }
    }

    /// Whether the control of a row is on, if it has one.
    pub(crate) fn is_on(&self, control: Option<Ref>) -> bool
        requires { HasControl self.now.ram control }
        ensures { result ≡ control_is_on self.now.ram control }
    {
        match control {
            Some(at) => self.ram.bit(at),
            None => true,
        }
    }

    fn solve_segment(&mut self, segment: u16)
        requires sound { IsSound self.old }
        requires first { 1 ≤ segment }
        requires last { segment ≤ length self.old.fixed.plan.segments }
        requires watch { 0 < self.old.watch.left }
        ensures { Solves segment self.old self.new }
    {
        checked_plans_find_all();
        kept_stores_find_all();
        discretes_follow();
        grids_ask_no_more();
        segments_keep_calls();
        let end = self.ladder.solve(
            segment,
            self.clock,
            &mut self.ram,
            &self.past,
            &mut self.bank,
            &mut self.watch,
        );
        self.stop = stop_behind(end, self.stop);
    }

    fn solve(&mut self, row: u16)
        requires sound { IsSound self.old }
        requires row { IsRow self.old.fixed.plan row }
        requires watch { 0 < self.old.watch.left }
        ensures { DoesEntry (Entry.Solve row) self.old self.new }
    {
        let Some(found) = row_of(&self.fixed.plan, row) else {
            return;
        };
        if !self.is_on(found.control) {
            return;
        }
        self.solve_segment(found.segment);
    }

    /// The words that a row gives its output drop.
    pub(crate) fn output(&self, row: u16) -> Block
        requires sound { IsSound self.now }
        requires row { IsRow self.now.fixed.plan row }
        ensures { result ≡ outputs_at self.now.fixed (state_is self.now) row }
    {
        let Some(found) = row_of(&self.fixed.plan, row) else {
            return Block::of(&[]);
        };
        match found.output {
            Some(drop) => self.cop.output(drop, &self.ram),
            None => Block::of(&[]),
        }
    }

    fn end(&mut self)
        requires sound { IsSound self.old }
        requires timely { IsTimely self.old most_steps }
        ensures { DoesEntry Entry.End self.old self.new }
    {
        discretes_follow();
        self.past.copy_from(&self.ram);
        self.gone += 1;
    }

    /// Power fails: the coils of all COs go off, and the discretes are kept. Takes no memory.
    fn fail(&mut self)
        requires sound { IsSound self.old }
        requires timely { IsTimely self.old most_steps }
        ensures { DoesEntry Entry.Fail self.old self.new }
    {
        checked_plans_find_all();
        kept_stores_find_all();
        discretes_follow();
        power_failures_keep_calls();
        switch_coils_off(&mut self.ram, self.fixed.plan.segments.as_slice());
        self.past.copy_from(&self.ram);
        self.bank.power_fail();
        self.powered = false;
        self.failures += 1;
        self.gone += 1;
    }

    /// A scan goes by without power.
    fn go_dark(&mut self)
        requires sound { IsSound self.old }
        requires timely { IsTimely self.old most_steps }
        ensures { DoesEntry Entry.Dark self.old self.new }
    {
        self.gone += 1;
    }

    /// Whether a call was started and not yet collected.
    pub(crate) fn has_started(&self) -> bool
        ensures { result ≡ has_untaken self.now.bank }
    {
        self.bank.has_started()
    }

    /// Whether the call of this name was collected and has no result.
    pub(crate) fn is_out(&self, id: CallId) -> bool
        ensures { result ≡ is_taken_out self.now.bank id }
    {
        self.bank.is_out(id)
    }

    /// The calls that were started and not yet collected.
    pub(crate) fn uncollected(&self, alloc: Global) -> Result<List<Call>, AllocError>
        requires { IsSound self.now }
        ensures { IfOk result (λ calls. calls ≡ calls_of self.now.bank) }
    {
        let mut calls = List::new(alloc);
        let mut next = 1;
        let routed = is_routed(self.fixed.plan.network);
        while let Some(call) = self.bank.started(next) {
            calls.push(Call::of(alloc, routed, self.fixed.plan.node, &call)?)?;
            next += 1;
        }
        Ok(calls)
    }

    /// All started calls count as collected. Takes no memory.
    pub(crate) fn collect(&mut self)
        requires { IsSound self.old }
        ensures { Tells (Entry.Collect (calls_of self.old.bank)) self.old self.new }
    {
        take_all(&mut self.bank);
    }

    /// Executes a request of another node, and answers the bytes of its reply twice. Their memory
    /// is taken before anything changes.
    fn serve(&mut self, alloc: Global, request: &Pdu) -> Result<(Pdu, Pdu), AllocError>
        requires { IsSound self.old }
        ensures serves { OnOk result (AnswersRequest request.now self.old self.new) }
        ensures reply { IfOk result (λ pair.
            pair.0 ≡ (answer_of request.now self.old.ram).reply) }
        ensures same { IfOk result (λ pair. pair.1 ≡ pair.0) }
        ensures unchanged { OnErr result (self.new ≡ self.old) }
    {
        answer_twice(alloc, request.bytes(), &mut self.ram)
    }

    /// Takes a request of another node: its reply, where there is power, and the entry that notes
    /// both. Their memory is taken before anything changes.
    pub(crate) fn take_request(
        &mut self,
        alloc: Global,
        id: CallId,
        request: &Pdu,
    ) -> Result<(Option<Pdu>, Entry), AllocError>
        requires { IsSound self.old }
        ensures does { IfOk result (λ pair. Tells pair.1 self.old self.new) }
        ensures reply { IfOk result (λ pair. pair.0 ≡ reply_in (state_is self.old) request.now) }
        ensures entry { IfOk result (λ pair. pair.1 ≡ peer_entry id request.now pair.0) }
        ensures unchanged { OnErr result (self.new ≡ self.old) }
    {
        let kept = request.copied(alloc)?;
        if !self.powered {
            return Ok((None, Entry::Off { id, request: kept }));
        }
        let (reply, copy) = self.serve(alloc, request)?;
        let entry = Entry::Peer {
            id,
            request: kept,
            reply: copy,
        };
        Ok((Some(reply), entry))
    }

    /// A call comes to its result. Takes no memory.
    pub(crate) fn finish(&mut self, id: CallId, outcome: MstrResult)
        requires sound { IsSound self.old }
        requires out { is_taken_out self.old.bank id ≡ true }
        ensures { Tells (Entry.Finish id outcome) self.old self.new }
    {
        self.bank.finish(id, outcome);
    }

    /// Adds a row to the script of a drop, for the plan and the traffic cop or for neither.
    pub(crate) fn feed_row(
        &mut self,
        alloc: Global,
        drop: u8,
        row: ScriptRow,
    ) -> Result<(), AllocError>
        requires sound { IsSound self.old }
        requires fits { fits_drop self.old.fixed.plan.drops drop row ≡ true }
        ensures ok { OnOk result (self.new ≡ machine_fed self.old drop row) }
        ensures err { OnErr result (self.new ≡ self.old) }
    {
        let drops = &mut self.fixed.plan.drops;
        self.cop.feed_with_plan(drops, alloc, drop, row)
    }

    /// Makes an event, and answers its entry. Takes no memory.
    pub(crate) fn perform(&mut self, step: ScanStep) -> Entry
        requires sound { IsSound self.old }
        requires timely { IsTimely self.old most_steps }
        requires step { IsStep self.old.fixed.plan step }
        requires watch { CanSolve step self.old }
        ensures entry { result ≡ entry_of self.old.fixed (state_is self.old) step }
        ensures does { DoesEntry (entry_of self.old.fixed (state_is self.old) step) self.old
            self.new }
    {
        match step {
            ScanStep::Begin => {
                self.begin();
                Entry::Begin
            }
            ScanStep::In(row) => {
                self.input(row);
                Entry::Input(row)
            }
            ScanStep::Solve(row) => {
                self.solve(row);
                Entry::Solve(row)
            }
            ScanStep::Out(row) => Entry::Output {
                row,
                words: self.output(row),
            },
            ScanStep::End => {
                self.end();
                Entry::End
            }
            ScanStep::Fail => {
                self.fail();
                Entry::Fail
            }
            ScanStep::Dark => {
                self.go_dark();
                Entry::Dark
            }
        }
    }
}
