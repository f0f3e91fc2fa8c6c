//! A controller that is alone on a bench.
ghost use Rattle.std.specs.Prelude.{◌≡◌, ◌+◌, ◌<◌, ◌^◌, [], false, length, IfOk, OnErr};
ghost use Rattle.std.specs.Prelude.{OnOk};
ghost use Rattle.std.specs.List.{count_by};
ghost use Rattle.controller_core.specs.Controller.{at_start, fixed_with, has_ended, reply_to};
ghost use Rattle.controller_core.specs.Controller.{state_of, step_end, IsLegal};
ghost use Rattle.controller_core.specs.Machine.{IsRunnable};
ghost use Rattle.panel_session.specs.Bench.{last_line, lines_of};
ghost use Rattle.panel_session.specs.Scanning.{after_scan, bench_end, HasBegunScan};
ghost use Rattle.panel_session.specs.declared.bench.BenchEnd.TheVariants.{Done as ScanDone};
ghost use Rattle.panel_session.specs.Serving.{after_request, request_count, takes_request};
ghost use Rattle.whole_scan.specs.Scans.{IsBetweenScans};

use crate::calls::give_up_calls;
use crate::line::{Shown, last_line};
use controller_core::{Controller, Entry, notes_tell_the_lines};
use mstr_block::CallId;
use plant_types::{ControllerPlan, List, Pdu};
use std::alloc::{AllocError, Global};
use std::marker::Model;
use whole_scan::{scan, scans_stay_whole};

/// What a scan on the bench came to.
#[derive(Clone, Copy, Debug, PartialEq, Eq)]
pub enum BenchEnd {
    /// A scan was made, or the part of one up to a stop.
    Done,
    /// All scans were gone.
    Ended,
    /// The controller had stopped, with this code.
    Stopped(u16),
}

/// Whether an entry takes a request.
fn takes_request(entry: &Entry) -> bool
    ensures { result ≡ takes_request entry.now }
{
    matches!(entry, Entry::Peer { .. } | Entry::Off { .. })
}

/// How many requests a history has taken.
fn requests_in(history: &[Entry]) -> u64
    ensures { result ≡ count_by takes_request history.now }
{
    history.iter().filter(|entry| takes_request(entry)).count() as u64
}

/// A controller without its network, between two of its scans. This project's own.
#[derive(Drop)]
pub struct Bench {
    alloc: Global,
    shown: Shown,
    controller: Controller,
    served: u64,
}

impl Model for Bench {
    ghost use Rattle.controller_core.specs.Controller.{ControllerIs};
    ghost use Rattle.panel_session.specs.Bench.{IsOnBench};

    ghost Value = { ControllerIs };

    ghost view = { λ b. b.controller };

    ghost invariant = { λ b. IsOnBench b.shown b.controller b.served };
}

impl Bench {
    /// A controller at its start; `scans` is how many it makes.
    pub fn new(
        alloc: Global,
        plan: &ControllerPlan,
        scan_time: u32,
        watchdog: u32,
        scans: u32,
    ) -> Result<Bench, AllocError>
        requires { IsRunnable (fixed_with plan.now scan_time watchdog scans) }
        ensures { IfOk result (λ bench.
            bench ≡ at_start (fixed_with plan.now scan_time watchdog scans)) }
    {
        scans_stay_whole();
        let controller = Controller::new(alloc, plan, scan_time, watchdog, scans)?;
        let shown = Shown::of(alloc, plan)?;
        Ok(Bench {
            alloc,
            shown,
            controller,
            served: 0,
        })
    }

    /// A bench that goes on from a controller's history. Takes no memory.
    pub fn of(alloc: Global, plan: ControllerPlan, controller: Controller) -> Bench
        requires plan { plan ≡ controller.fixed.plan }
        requires between { IsBetweenScans controller }
        requires rests { controller.reserved ≡ false }
        ensures { result ≡ controller }
    {
        let served = requests_in(controller.history());
        Bench {
            alloc,
            shown: Shown::out_of(alloc, plan),
            controller,
            served,
        }
    }

    /// Makes one whole scan, or stops in it. Then each call that its MSTR blocks started ends with
    /// the word of a target that is no member. Where all scans are gone, or the controller has
    /// stopped before, nothing is made.
    pub fn scan(&mut self) -> Result<BenchEnd, AllocError>
        ensures end { IfOk result (λ end. end ≡ bench_end (step_end self.old)) }
        ensures ok { OnOk result (self.new ≡ after_scan self.old) }
        ensures line { IfOk result (λ end. end ≡ ScanDone →
            length (lines_of self.new) ≡ length (lines_of self.old) + 1) }
        ensures err { OnErr result (HasBegunScan self.old self.new) }
    {
        if self.controller.has_ended() {
            return Ok(match self.controller.stop_code() {
                0 => BenchEnd::Ended,
                code => BenchEnd::Stopped(code),
            });
        }
        scans_stay_whole();
        let _ = self.controller.history();
        scan(&mut self.controller)?;
        give_up_calls(&mut self.controller)?;
        Ok(BenchEnd::Done)
    }

    /// Takes the request of the next frame: the bytes of the reply, which may be those of an
    /// exception; none exactly where there is no power. Answers too where all scans are gone or the
    /// controller has stopped.
    pub fn serve(&mut self, request: &Pdu) -> Result<Option<Pdu>, AllocError>
        requires { request_count self.old.history + 1 < 2 ^ 32 }
        ensures ok { OnOk result (self.new ≡ after_request self.old request.now) }
        ensures reply { IfOk result (λ reply. reply ≡ reply_to self.old request.now) }
        ensures err { OnErr result (self.new ≡ self.old) }
    {
        scans_stay_whole();
        let id = CallId {
            node: 0,
            path: 0,
            seq: self.served as u32 + 1,
        };
        let reply = self.controller.peer(id, request)?;
        self.served += 1;
        Ok(reply)
    }

    /// The events so far. They are always legal.
    pub fn history(&self) -> &[Entry]
        ensures history { result.now ≡ self.now.history }
        ensures legal { IsLegal self.now.fixed self.now.history }
    {
        self.controller.history()
    }

    /// The panel line of the last scan, with its line end.
    pub fn line(&self) -> Result<Vec<u8>, AllocError>
        requires { 0 < length (lines_of self.now) }
        ensures { IfOk result (λ line. line.items ≡ last_line (lines_of self.now)) }
    {
        notes_tell_the_lines();
        let controller = &self.controller;
        let _ = controller.history();
        let (gone, stop) = (controller.scans_gone(), controller.stop_code());
        last_line(self.alloc, &self.shown, gone, stop, controller.notes())
    }

    /// The history alone; takes no memory.
    pub(crate) fn into_history(self) -> List<Entry>
        ensures history { result ≡ self.history }
        ensures legal { IsLegal self.fixed self.history }
    {
        self.controller.into_history()
    }
}
