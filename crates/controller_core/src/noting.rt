//! Steps of the scan as `controller` makes them, with a note of what conducted in each network that
//! is solved.
ghost use Rattle.std.specs.Prelude.{◌≡◌, ◌↔◌, ◌≤◌, ◌<◌, ◌+◌, ◌++◌, ◌∷◌, [], length};
ghost use Rattle.std.specs.Prelude.{true, false, IfOk, OnErr, vec_capacity, vec_len};
ghost use Rattle.ladder_solver.specs.Noted.{segment_notes};
ghost use Rattle.ladder_solver.specs.Noting.{HasNoteRoom};
ghost use Rattle.scan_order.specs.Due.{IsRow, IsStep};
ghost use Rattle.controller_core.specs.Conducted.{conducted_at, following_conducts, step_conducts};
ghost use Rattle.controller_core.specs.Controller.{has_ended, state_of, step_end, step_entries};
ghost use Rattle.controller_core.specs.Controller.{stepped, ControllerWentOn};
ghost use Rattle.controller_core.specs.Event.{entry_of, maker_of};
ghost use Rattle.controller_core.specs.Following.{followed, followed_step, MayFollow};
ghost use Rattle.controller_core.specs.Machine.{state_is, CanSolve, DoesEntry, IsSound, IsTimely};
ghost use Rattle.controller_core.specs.Machine.{Solves, most_steps};

use crate::controller::{Controller, is_done, keeps_room, note};
use crate::entry::{Entry, Maker, StepEnd};
use crate::machine::{Machine, stop_behind};
use ladder_solver::{NetworkFlow, grids_ask_no_more, segments_keep_calls};
use plant_types::{checked_plans_find_all, discretes_follow, kept_stores_find_all};
use scan_order::{ScanStep, next_due, place_after, row_of};
use std::alloc::AllocError;

impl Machine {
    fn solve_segment_noting(&mut self, segment: u16, notes: &mut Vec<NetworkFlow>)
        requires sound { IsSound self.old }
        requires first { 1 ≤ segment }
        requires last { segment ≤ length self.old.fixed.plan.segments }
        requires watch { 0 < self.old.watch.left }
        requires room { HasNoteRoom notes.old self.old.watch }
        ensures solves { Solves segment self.old self.new }
        ensures noted { notes.new.items ≡ notes.old.items
            ++ segment_notes self.old.fixed.plan.segments segment (state_is self.old).solving }
        ensures room { vec_capacity notes.old ≤ vec_capacity notes.new }
    {
        checked_plans_find_all();
        kept_stores_find_all();
        discretes_follow();
        grids_ask_no_more();
        segments_keep_calls();
        let end = self.ladder.solve_noting(
            segment,
            self.clock,
            &mut self.ram,
            &self.past,
            &mut self.bank,
            &mut self.watch,
            notes,
        );
        self.stop = stop_behind(end, self.stop);
    }

    fn solve_noting(&mut self, row: u16, notes: &mut Vec<NetworkFlow>)
        requires sound { IsSound self.old }
        requires row { IsRow self.old.fixed.plan row }
        requires watch { 0 < self.old.watch.left }
        requires room { HasNoteRoom notes.old self.old.watch }
        ensures does { DoesEntry (Entry.Solve row) self.old self.new }
        ensures noted { notes.new.items ≡ notes.old.items
            ++ conducted_at self.old.fixed (state_is self.old) (Entry.Solve row) }
        ensures room { vec_capacity notes.old ≤ vec_capacity notes.new }
    {
        let Some(found) = row_of(&self.fixed.plan, row) else {
            return;
        };
        if !self.is_on(found.control) {
            return;
        }
        self.solve_segment_noting(found.segment, notes);
    }

    /// Makes an event as `perform` does, and notes what conducts. Takes no memory.
    fn perform_noting(&mut self, step: ScanStep, notes: &mut Vec<NetworkFlow>) -> Entry
        requires sound { IsSound self.old }
        requires timely { IsTimely self.old most_steps }
        requires step { IsStep self.old.fixed.plan step }
        requires watch { CanSolve step self.old }
        requires room { HasNoteRoom notes.old self.old.watch }
        ensures entry { result ≡ entry_of self.old.fixed (state_is self.old) step }
        ensures does { DoesEntry (entry_of self.old.fixed (state_is self.old) step) self.old
            self.new }
        ensures noted { notes.new.items ≡ notes.old.items ++ conducted_at self.old.fixed
            (state_is self.old) (entry_of self.old.fixed (state_is self.old) step) }
        ensures room { vec_capacity notes.old ≤ vec_capacity notes.new }
    {
        match step {
            ScanStep::Solve(row) => {
                self.solve_noting(row, notes);
                Entry::Solve(row)
            }
            _ => self.perform(step),
        }
    }
}

impl Controller {
    /// Makes the next due event as `step` does, and notes what conducts. Takes no memory.
    fn step_noting(&mut self, notes: &mut Vec<NetworkFlow>) -> StepEnd
        requires reserved { has_ended self.old ≡ false → self.old.reserved ≡ true }
        requires room { vec_len notes.old + (state_of self.old).solving.left
            ≤ vec_capacity notes.old }
        ensures grows { self.new ≡ stepped self.old }
        ensures answer { result ≡ step_end self.old }
        ensures went_on { ControllerWentOn Maker.Scan (step_entries self.old result) self.old
            self.new }
        ensures noted { notes.new.items ≡ notes.old.items ++ step_conducts self.old }
    {
        if self.machine.stop != 0 {
            return StepEnd::Stopped(self.machine.stop);
        }
        if is_done(self.machine.fixed.scans, self.at, self.machine.gone) {
            return StepEnd::Ended;
        }
        let scan = self.machine.gone + 1;
        let step = next_due(&self.machine.fixed.plan, scan, self.at);
        let entry = self.machine.perform_noting(step, notes);
        let at = place_after(step);
        let reserved = keeps_room(self.reserved, step, self.machine.stop);
        self.machine.note_panel(step, &mut self.values);
        note(&mut self.history, entry);
        self.at = at;
        self.reserved = reserved;
        StepEnd::Did(step)
    }

    /// Makes the step that is due, if an entry is that of it, and notes what conducts.
    fn follow_step_noting(
        &mut self,
        entry: &Entry,
        notes: &mut Vec<NetworkFlow>,
    ) -> Result<bool, AllocError>
        requires { maker_of entry.now ≡ Maker.Scan }
        ensures state { IfOk result (λ same. self.new ≡ followed_step self.old same) }
        ensures legal { IfOk result (λ same. (same ≡ true) ↔ MayFollow self.old entry.now) }
        ensures noted { IfOk result (λ same. notes.new.items
            ≡ notes.old.items ++ following_conducts self.old entry.now same) }
        ensures err { OnErr result (self.new ≡ self.old) }
        ensures kept { OnErr result (notes.new.items ≡ notes.old.items) }
    {
        if !self.is_due(entry) {
            return Ok(false);
        }
        notes.try_reserve(self.state().left as usize)?;
        self.reserve_scan()?;
        self.step_noting(notes);
        Ok(true)
    }

    /// Follows an entry as `follow` does, and adds a note of each network that is solved, in the
    /// order in which they end, so that those of a subroutine come before its caller.
    pub fn follow_noting(
        &mut self,
        entry: &Entry,
        notes: &mut Vec<NetworkFlow>,
    ) -> Result<bool, AllocError>
        ensures state { IfOk result (λ same. self.new ≡ followed self.old entry.now same) }
        ensures legal { IfOk result (λ same. (same ≡ true) ↔ MayFollow self.old entry.now) }
        ensures noted { IfOk result (λ same. notes.new.items
            ≡ notes.old.items ++ following_conducts self.old entry.now same) }
        ensures takes { IfOk result (λ same. same ≡ true
            → self.new.history ≡ self.old.history ++ entry.now ∷ []) }
        ensures fixed { self.new.fixed ≡ self.old.fixed }
        ensures err { OnErr result (self.new ≡ self.old) }
        ensures kept { OnErr result (notes.new.items ≡ notes.old.items) }
    {
        match entry {
            Entry::Solve(_) => self.follow_step_noting(entry, notes),
            _ => self.follow(entry),
        }
    }
}
