//! The controller: its machine, its place in the scan and its history.
ghost use Rattle.std.specs.Prelude.{◌≡◌, ◌+◌, ◌*◌, length, ◌<◌, ◌≤◌, ◌&&◌, true, false, not, []};
ghost use Rattle.std.specs.Prelude.{◌∷◌, ◌++◌};
ghost use Rattle.std.specs.Prelude.{IfOk, IfSome, IsOk, IsSome, OnErr, OnOk, vec_capacity};
ghost use Rattle.std.specs.Prelude.{vec_len};
ghost use Rattle.std.specs.FinMap.{contains_key};
ghost use Rattle.plant_types.specs.Checks.{HasPanel};
ghost use Rattle.plant_types.specs.Plans.{KeepsPower};
ghost use Rattle.plant_types.specs.Store.{value_at};
ghost use Rattle.controller_core.specs.Controller.{answering, has_ended, reply_to, state_of};
ghost use Rattle.controller_core.specs.Controller.{step_end, step_entries, stepped, store_of};
ghost use Rattle.controller_core.specs.Controller.{due_step, has_started, is_off, is_out};
ghost use Rattle.controller_core.specs.Controller.{peer_entries};
ghost use Rattle.controller_core.specs.Controller.{collect_entries, collecting, uncollected};
ghost use Rattle.controller_core.specs.Controller.{finish_entries, finishing};
ghost use Rattle.controller_core.specs.Controller.{at_start, fixed_with, IsLegal, ControllerWentOn};
ghost use Rattle.controller_core.specs.Feeding.{feeding, CanFeed};
ghost use Rattle.controller_core.specs.Following.{HasWords, IsRowOf};
ghost use Rattle.controller_core.specs.Machine.{IsRunnable};
ghost use Rattle.controller_core.specs.Notes.{noted_values, notes_of};
ghost use Rattle.controller_core.specs.Replay.{replay};
ghost use Rattle.controller_core.specs.StateView.{state_seen};
ghost use Rattle.scan_order.specs.Due.{IsStep};
ghost use Rattle.controller_core.specs.Scans.{closes_scan, is_done, is_over};
ghost use Rattle.controller_core.specs.Panel.{has_line};

use crate::call::Call;
use crate::entry::{Entry, Maker, StepEnd};
use crate::fixed::Fixed;
use crate::machine::Machine;
use crate::notes::{Notes, closes_scan, value_at};
use crate::state::StateView;
use mstr_block::{CallId, MstrResult};
use plant_types::{
    ControllerPlan, Copied, List, Pdu, Ref, RefStore, ScriptRow, checked_plans_find_all,
    kept_stores_find_all,
};
use scan_order::{ScanPlace, ScanStep, kept_power_stays, next_due, place_after};
use state_ram::PackedRam;
use std::alloc::{AllocError, Global};
use std::marker::Model;

/// One controller with the history of its events. This project's own.
pub struct Controller {
    alloc: Global,
    pub(crate) machine: Machine,
    pub(crate) at: ScanPlace,
    pub(crate) history: Vec<Entry>,
    /// The values of the panel at the last event of each scan that is over.
    pub(crate) values: Vec<u16>,
    pub(crate) reserved: bool,
}

impl Model for Controller {
    ghost use Rattle.std.specs.Prelude.{vec_capacity};
    ghost use Rattle.controller_core.specs.Controller.{ControllerIs};
    ghost use Rattle.controller_core.specs.Kept.{IsWhole};

    ghost Value = { ControllerIs };

    ghost view = { λ c. record {
      fixed = c.machine.fixed;
      history = c.history.items;
      reserved = c.reserved;
    } };

    ghost invariant = { λ c.
        IsWhole c.machine c.history.items c.at c.reserved (vec_capacity c.history) c.values.items
        (vec_capacity c.values) };
}

impl Drop for Controller {
    fn drop(self) {
        let Controller {
            alloc: _,
            machine: _,
            at: _,
            history: _,
            values: _,
            reserved: _,
        } = self;
    }
}

/// One more entry, for which there is room: takes no memory.
pub(crate) fn note(history: &mut Vec<Entry>, entry: Entry)
    requires { vec_len history.old < vec_capacity history.old }
    ensures items { history.new.items ≡ history.old.items ++ entry ∷ [] }
    ensures room { vec_len history.new ≡ vec_len history.old + 1 }
    ensures capacity { vec_capacity history.old ≤ vec_capacity history.new }
{
    let _ = history.push(entry);
}

/// Whether all scans are gone.
pub(crate) fn is_done(scans: u32, at: ScanPlace, gone: u32) -> bool
    ensures { result ≡ is_done scans at gone }
{
    match at {
        ScanPlace::Start => gone == scans,
        _ => false,
    }
}

/// Whether nothing is due any more.
fn is_over(stop: u16, scans: u32, at: ScanPlace, gone: u32) -> bool
    ensures { result ≡ is_over stop scans at gone }
{
    if stop == 0 {
        is_done(scans, at, gone)
    } else {
        true
    }
}

/// Whether the room of a scan is kept after a step.
pub(crate) fn keeps_room(reserved: bool, step: ScanStep, stop: u16) -> bool
    ensures { result ≡ (reserved && not (closes_scan step stop)) }
{
    if closes_scan(step, stop) {
        false
    } else {
        reserved
    }
}

impl Controller {
    /// A controller at its start; `scans` is how many it makes.
    pub fn new(
        alloc: Global,
        plan: &ControllerPlan,
        scan_time: u32,
        watchdog: u32,
        scans: u32,
    ) -> Result<Controller, AllocError>
        requires { IsRunnable (fixed_with plan.now scan_time watchdog scans) }
        ensures { IfOk result (λ controller.
            controller ≡ at_start (fixed_with plan.now scan_time watchdog scans)) }
    {
        let plan = plan.copied(alloc)?;
        let machine = Machine::new(
            alloc,
            Fixed {
                plan,
                scan_time,
                watchdog,
                scans,
            },
        )?;
        Ok(Controller {
            alloc,
            machine,
            at: ScanPlace::Start,
            history: Vec::new(alloc),
            values: Vec::new(alloc),
            reserved: false,
        })
    }

    pub(crate) fn alloc(&self) -> Global {
        self.alloc
    }

    /// Whether a scan's steps have their memory.
    pub fn is_reserved(&self) -> bool
        ensures { result ≡ self.now.reserved }
    {
        self.reserved
    }

    /// The events so far. They are always legal.
    pub fn history(&self) -> &[Entry]
        ensures history { result.now ≡ self.now.history }
        ensures legal { IsLegal self.now.fixed self.now.history }
    {
        self.history.as_slice()
    }

    /// The store, which is that of the replay of the history. Takes no memory.
    pub fn ram(&self) -> &PackedRam
        ensures value { result.now ≡ store_of self.now }
        ensures panel { HasPanel result.now self.now.fixed.plan.panel }
    {
        checked_plans_find_all();
        kept_stores_find_all();
        self.machine.ram()
    }

    /// All of its state, which is the replay of its history. Takes no memory.
    pub fn state(&self) -> StateView<'_>
        ensures { state_seen result ≡ replay self.now.fixed self.now.history }
    {
        self.machine.state()
    }

    /// How many scans are gone: they ended, failed or were dark.
    pub fn scans_gone(&self) -> u32
        ensures { result ≡ (state_of self.now).gone }
    {
        self.machine.gone
    }

    /// How often power failed.
    pub fn failures(&self) -> u32
        ensures { result ≡ (state_of self.now).failures }
    {
        self.machine.failures
    }

    /// Whether there is no power.
    pub fn is_off(&self) -> bool
        ensures { result ≡ is_off self.now }
    {
        !self.machine.powered
    }

    /// The code with which it stopped; 0 while it goes on.
    pub fn stop_code(&self) -> u16
        ensures { result ≡ (state_of self.now).stop }
    {
        self.machine.stop
    }

    /// Whether what a step answered was the last event of its scan, which has a panel line then.
    pub fn has_line(&self, end: StepEnd) -> bool
        ensures { result ≡ has_line end (state_of self.now) }
    {
        match end {
            StepEnd::Did(step) => closes_scan(step, self.machine.stop),
            StepEnd::Ended | StepEnd::Stopped(_) => false,
        }
    }

    /// Whether the store has a reference.
    pub fn has(&self, at: Ref) -> bool
        ensures { result ≡ contains_key (store_of self.now) at }
    {
        self.ram().has(at)
    }

    /// The number at a reference: 0 or 1 for a discrete.
    pub fn get(&self, at: Ref) -> u16
        requires { contains_key (store_of self.now) at ≡ true }
        ensures { result ≡ value_at (store_of self.now) at }
    {
        value_at(self.ram(), at)
    }

    /// Whether all scans are gone, or it has stopped.
    pub fn has_ended(&self) -> bool
        ensures { result ≡ has_ended self.now }
    {
        let scans = self.machine.fixed.scans;
        is_over(self.machine.stop, scans, self.at, self.machine.gone)
    }

    /// The most events of a scan: Begin, three of each row, and End.
    fn longest_scan(&self) -> usize
        ensures { result ≡ 3 * length self.now.fixed.plan.orders + 2 }
    {
        3 * self.machine.fixed.plan.orders.as_slice().len() + 2
    }

    /// The history alone; takes no memory.
    pub fn into_history(self) -> List<Entry>
        ensures history { result ≡ self.history }
        ensures legal { IsLegal self.fixed self.history }
    {
        let Controller {
            alloc: _,
            machine: _,
            at: _,
            history,
            values: _,
            reserved: _,
        } = self;
        List::from_vec(history)
    }

    /// The values of the panel's references as each scan was over, one scan after another.
    pub fn notes(&self) -> &[u16]
        ensures { result.now ≡ noted_values self.now.fixed self.now.history }
    {
        self.values.as_slice()
    }

    /// The history and what it has noted; takes no memory.
    pub fn into_parts(self) -> (List<Entry>, Notes)
        ensures history { result.0 ≡ self.history }
        ensures notes { result.1 ≡ notes_of self.fixed self.history }
        ensures legal { IsLegal self.fixed self.history }
    {
        let Controller {
            alloc: _,
            machine,
            at: _,
            history,
            values,
            reserved: _,
        } = self;
        let notes = Notes {
            values: List::from_vec(values),
            gone: machine.gone,
            stop: machine.stop,
        };
        (List::from_vec(history), notes)
    }

    /// Whether a call of an MSTR block was started and not yet collected.
    pub fn has_started(&self) -> bool
        ensures { result ≡ has_started self.now }
    {
        self.machine.has_started()
    }

    /// Whether the call of this name was collected and has no result.
    pub fn is_out(&self, id: CallId) -> bool
        ensures { result ≡ is_out self.now id }
    {
        self.machine.is_out(id)
    }

    /// The step that is due; none where all scans are gone or it has stopped.
    pub fn due(&self) -> Option<ScanStep>
        ensures due { result ≡ due_step self.now }
        ensures step { IfSome result (IsStep self.now.fixed.plan) }
    {
        let scans = self.machine.fixed.scans;
        if is_over(self.machine.stop, scans, self.at, self.machine.gone) {
            return None;
        }
        let scan = self.machine.gone + 1;
        Some(next_due(&self.machine.fixed.plan, scan, self.at))
    }

    /// Whether the words of an Output are those that its row gives now.
    pub(crate) fn has_words(&self, entry: &Entry) -> bool
        requires { IsRowOf self.now entry.now }
        ensures same { result ≡ true → HasWords self.now.fixed (state_of self.now) entry.now }
        ensures other { result ≡ false
            → ¬ HasWords self.now.fixed (state_of self.now) entry.now }
    {
        match entry {
            Entry::Output { row, words } => self.machine.output(*row).words() == words.words(),
            _ => true,
        }
    }

    /// Until the last event of the scan, or a stop, all steps have their memory. A scan that has it
    /// takes none.
    pub fn reserve_scan(&mut self) -> Result<(), AllocError>
        ensures ok { OnOk result (self.new ≡ record self.old { reserved = true }) }
        ensures once { self.old.reserved ≡ true → IsOk result }
        ensures err { OnErr result (self.new ≡ self.old) }
        ensures went_on { ControllerWentOn Maker.Scan [] self.old self.new }
    {
        if self.reserved {
            return Ok(());
        }
        let most = self.longest_scan();
        self.history.try_reserve(most)?;
        self.values.try_reserve(self.machine.panel().len())?;
        self.reserved = true;
        Ok(())
    }

    /// Makes the next due event. Takes no memory.
    pub fn step(&mut self) -> StepEnd
        requires { has_ended self.old ≡ false → self.old.reserved ≡ true }
        ensures grows { self.new ≡ stepped self.old }
        ensures answer { result ≡ step_end self.old }
        ensures went_on { ControllerWentOn Maker.Scan (step_entries self.old result) self.old
            self.new }
    {
        if self.machine.stop != 0 {
            return StepEnd::Stopped(self.machine.stop);
        }
        if is_done(self.machine.fixed.scans, self.at, self.machine.gone) {
            return StepEnd::Ended;
        }
        let scan = self.machine.gone + 1;
        let step = next_due(&self.machine.fixed.plan, scan, self.at);
        let entry = self.machine.perform(step);
        let at = place_after(step);
        let reserved = keeps_room(self.reserved, step, self.machine.stop);
        self.machine.note_panel(step, &mut self.values);
        note(&mut self.history, entry);
        self.at = at;
        self.reserved = reserved;
        StepEnd::Did(step)
    }

    /// Collects the calls that were started and not yet collected, in the order of their blocks.
    /// Goes also where all scans are gone or the controller has stopped.
    pub fn collect(&mut self) -> Result<List<Call>, AllocError>
        requires { has_started self.old ≡ true }
        ensures ok { OnOk result (self.new ≡ collecting self.old) }
        ensures calls { IfOk result (λ calls. calls ≡ uncollected self.old) }
        ensures err { OnErr result (self.new ≡ self.old) }
        ensures went_on { ControllerWentOn Maker.Communication (collect_entries result)
            self.old self.new }
    {
        // What is left of a scan keeps its room after this entry.
        let most = self.longest_scan() + 1;
        self.history.try_reserve(most)?;
        let calls = self.machine.uncollected(self.alloc)?;
        let kept = calls.copied(self.alloc)?;
        self.machine.collect();
        note(&mut self.history, Entry::Collect(kept));
        Ok(calls)
    }

    /// Takes a request of another node, named by who asked: the bytes of the reply, which may be
    /// those of an exception; none, and nothing is changed by the request, where there is no power.
    /// Answers too where all scans are gone or the controller has stopped.
    pub fn peer(&mut self, id: CallId, request: &Pdu) -> Result<Option<Pdu>, AllocError>
        ensures ok { OnOk result (self.new ≡ answering self.old id request.now) }
        ensures reply { IfOk result (λ reply. reply ≡ reply_to self.old request.now) }
        ensures power { KeepsPower self.old.fixed.plan → IfOk result IsSome }
        ensures err { OnErr result (self.new ≡ self.old) }
        ensures went_on { ControllerWentOn Maker.Communication (peer_entries id request.now result)
            self.old self.new }
    {
        kept_power_stays();
        let most = self.longest_scan() + 1;
        self.history.try_reserve(most)?;
        let (reply, entry) = self.machine.take_request(self.alloc, id, request)?;
        note(&mut self.history, entry);
        Ok(reply)
    }

    /// Gives a call that was collected its result, which its block finds when it is solved next.
    /// Goes also where all scans are gone or the controller has stopped.
    pub fn finish(&mut self, id: CallId, outcome: MstrResult) -> Result<(), AllocError>
        requires { is_out self.old id ≡ true }
        ensures ok { OnOk result (self.new ≡ finishing self.old id outcome) }
        ensures err { OnErr result (self.new ≡ self.old) }
        ensures went_on { ControllerWentOn Maker.Communication (finish_entries id outcome result)
            self.old self.new }
    {
        let most = self.longest_scan() + 1;
        self.history.try_reserve(most)?;
        let kept = outcome.copied(self.alloc)?;
        self.machine.finish(id, outcome);
        note(&mut self.history, Entry::Finish { id, result: kept });
        Ok(())
    }

    /// Adds a row to the script of a drop, which comes after all that are there: it is for the
    /// exchange after the last that has a row of its own, and for all later ones until another is
    /// added. The history stays, and is legal for the plan with the row. Where memory is refused
    /// nothing changes.
    pub fn feed_row(&mut self, drop: u8, row: ScriptRow) -> Result<(), AllocError>
        requires { CanFeed self.old drop row }
        ensures ok { OnOk result (self.new ≡ feeding self.old drop row) }
        ensures legal { IsLegal self.new.fixed self.new.history }
        ensures state { state_of self.new ≡ state_of self.old }
        ensures err { OnErr result (self.new ≡ self.old) }
    {
        self.machine.feed_row(self.alloc, drop, row)
    }
}
