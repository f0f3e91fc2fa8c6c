//! A scan in which the field brings rows.
ghost use Rattle.std.specs.Prelude.{◌≡◌, ◌≤◌, ◌<◌, ◌+◌, ◌%◌, Some, length};
ghost use Rattle.scan_order.specs.Due.{full_scan};
ghost use Rattle.scan_order.specs.declared.due.ScanStep.TheVariants as steps;
ghost use Rattle.traffic_cop.specs.Rows.{FitsPlan, HasControl};
ghost use Rattle.controller_core.specs.Machine.{stop_by};
ghost use Rattle.controller_core.specs.Replay.{control_is_on, solved};
ghost use Rattle.state_ram.specs.Packed.{packed_contents};
ghost use Rattle.field_runs.specs.Alike.{IsAlike};
ghost use Rattle.field_runs.specs.Scan.{brought_to, scanned, stepped_with};
ghost use Rattle.field_machine.specs.Choices.{told_by};
ghost use Rattle.field_machine.specs.Work.{IsReadyWork, SolvesSegment, work_state};

use crate::field::Field;
use crate::work::Work;
use alike_states::{edges_stay_elsewhere, tables_stay_alone};
use key_store::KeyRam;
use ladder_solver::{SolveEnd, Watch, grids_ask_no_more};
use plant_types::{OrderRow, Ref, RefStore, checked_plans_find_all, kept_stores_find_all};
use timer_ops::Clock;

/// The code with which the watchdog stops a controller.
const WATCHDOG_STOP: u16 = 1;

/// The stop code behind a solve.
fn stop_behind(end: SolveEnd, stop: u16) -> u16
    ensures { result ≡ stop_by end stop }
{
    match end {
        SolveEnd::Done => stop,
        SolveEnd::Watchdog => WATCHDOG_STOP,
    }
}

/// The number of the row that the field brings at the first exchange of a way, where it has so many
/// rows for it.
fn row_in_way(many: u32, way: usize) -> u32
    requires { 1 ≤ many }
    ensures { result ≡ way % many + 1 }
{
    (way % many as usize) as u32 + 1
}

/// Whether the control of a row is on, if it has one.
fn control_is_on(ram: &KeyRam, control: Option<Ref>) -> bool
    requires { HasControl (packed_contents ram.now) control }
    ensures { result ≡ control_is_on (packed_contents ram.now) control }
{
    match control {
        Some(at) => ram.bit(at),
        None => true,
    }
}

impl Field {
    ghost use Rattle.field_machine.specs.Field.{IsField};

    /// Begins a scan.
    fn begin(&self, work: &mut Work)
        requires { work.old.clock.now ≤ 65536 }
        ensures state { work_state work.new
            ≡ stepped_with self.now.fixed 1 (work_state work.old) steps.Begin }
        ensures ready { IsReadyWork self.now.fixed.plan work.old
            → IsReadyWork self.now.fixed.plan work.new }
        ensures watch { work.new.watch.left ≡ self.now.fixed.watchdog }
    {
        work.clock = Clock {
            before: work.clock.now,
            now: work.clock.now + u64::from(self.fixed.scan_time),
        };
        work.watch = Watch {
            left: self.fixed.watchdog,
        };
    }

    /// The field brings the drop that a row reads, if it reads one, a row of this number.
    fn bring(&self, row: OrderRow, number: u32, work: &mut Work)
        requires field { IsField self.now }
        requires fits { FitsPlan self.now.fixed.plan row }
        requires ready { IsReadyWork self.now.fixed.plan work.old }
        requires number { 1 ≤ number }
        ensures state { work_state work.new
            ≡ brought_to self.now.fixed.plan.drops row.input number (work_state work.old) }
        ensures ready { IsReadyWork self.now.fixed.plan work.new }
        ensures watch { work.new.watch ≡ work.old.watch }
    {
        match row.input {
            Some(drop) => {
                let _ = self.cop.input(drop, number, &mut work.ram);
            }
            None => {}
        }
    }

    /// Solves the segment of a row.
    fn solve_segment(&self, segment: u16, work: &mut Work)
        requires field { IsField self.now }
        requires ready { IsReadyWork self.now.fixed.plan work.old }
        requires first { 1 ≤ segment }
        requires last { segment ≤ length self.now.fixed.plan.segments }
        requires watch { 0 < work.old.watch.left }
        ensures { SolvesSegment self.now.fixed.plan segment work.old work.new }
    {
        checked_plans_find_all();
        kept_stores_find_all();
        grids_ask_no_more();
        tables_stay_alone();
        edges_stay_elsewhere();
        let end = work.ladder.solve(
            segment,
            work.clock,
            &mut work.ram,
            &work.past,
            &mut work.bank,
            &mut work.watch,
        );
        work.stop = stop_behind(end, work.stop);
    }

    /// Solves the segment of a row, if its control is on.
    fn solve(&self, row: OrderRow, work: &mut Work)
        requires field { IsField self.now }
        requires fits { FitsPlan self.now.fixed.plan row }
        requires ready { IsReadyWork self.now.fixed.plan work.old }
        requires goes { work.old.stop ≡ 0 }
        requires watch { 0 < work.old.watch.left }
        ensures state { work_state work.new
            ≡ solved self.now.fixed.plan.segments (Some row) (work_state work.old) }
        ensures ready { IsReadyWork self.now.fixed.plan work.new }
        ensures watch { work.new.stop ≡ 0 → 0 < work.new.watch.left }
    {
        if control_is_on(&work.ram, row.control) {
            self.solve_segment(row.segment, work);
        }
    }

    /// Makes a scan, or the part of one up to a stop, in which the field brings rows in this way.
    pub(crate) fn scan(&self, work: &mut Work, way: usize)
        requires field { IsField self.now }
        requires ready { IsReadyWork self.now.fixed.plan work.old }
        requires clock { work.old.clock.now ≤ 65536 }
        ensures ready { IsReadyWork self.now.fixed.plan work.new }
        ensures behind { IsAlike (scanned self.now.fixed
            (told_by self.now.fixed.plan (full_scan self.now.fixed.plan) way) (work_state work.old))
            (work_state work.new) }
    {
        if work.stop != 0 {
            return;
        }
        self.begin(work);
        let mut left = way;
        'rows: for (index, row) in self.fixed.plan.orders.as_slice().iter().enumerate() {
            let many = self.choices[index];
            self.bring(*row, row_in_way(many, left), work);
            left /= many as usize;
            self.solve(*row, work);
            if work.stop != 0 {
                return;
            }
        }
    }
}
