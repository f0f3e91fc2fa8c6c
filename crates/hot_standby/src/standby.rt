//! A standby: a controller that follows the scans of a primary.
ghost use Rattle.std.specs.Prelude.{◌≡◌, false, IfErr, IfOk};
ghost use Rattle.controller_core.specs.Controller.{fixed_with, IsLegal};
ghost use Rattle.controller_core.specs.Machine.{IsRunnable};
ghost use Rattle.hot_standby.specs.Standby.{bench_of, new_standby, scans_held, Refused, Took};

use crate::packet::{Packet, StandbyNo, Taken};
use crate::taking::follow_part;
use controller_core::{Controller, Entry};
use panel_session::Bench;
use plant_types::{ControllerPlan, Copied};
use std::alloc::{AllocError, Global};
use std::marker::Model;
use whole_scan::scans_stay_whole;

/// A controller that takes the scans of a primary, packet by packet, until it goes on from them. It
/// has failed for good once a packet was refused. This project's own.
#[derive(Drop)]
pub struct Standby {
    alloc: Global,
    plan: ControllerPlan,
    controller: Controller,
    scans: u32,
    failed: bool,
}

impl Model for Standby {
    ghost use Rattle.hot_standby.specs.Standby.{StandbyIs};
    ghost use Rattle.hot_standby.specs.Kept.{IsHeld};

    ghost Value = { StandbyIs };

    ghost view = { λ s. record {
      fixed = s.controller.fixed;
      history = s.controller.history;
      failed = s.failed;
    } };

    ghost invariant = { λ s. IsHeld s.plan s.controller s.scans s.failed };
}

impl Standby {
    /// A standby that holds no scan yet; `scans` is how many its controller makes.
    pub fn new(
        alloc: Global,
        plan: &ControllerPlan,
        scan_time: u32,
        watchdog: u32,
        scans: u32,
    ) -> Result<Standby, AllocError>
        requires { IsRunnable (fixed_with plan.now scan_time watchdog scans) }
        ensures { IfOk result (λ standby.
            standby ≡ new_standby (fixed_with plan.now scan_time watchdog scans)) }
    {
        scans_stay_whole();
        let controller = Controller::new(alloc, plan, scan_time, watchdog, scans)?;
        let plan = plan.copied(alloc)?;
        Ok(Standby {
            alloc,
            plan,
            controller,
            scans: 0,
            failed: false,
        })
    }

    /// Takes a packet. An error is for good: the standby has failed.
    pub fn take(&mut self, packet: &Packet) -> Result<Taken, StandbyNo>
        requires { self.old.failed ≡ false }
        ensures took { IfOk result (λ taken. Took self.old packet.now taken self.new) }
        ensures refused { IfErr result (λ why. Refused self.old packet.now why self.new) }
    {
        if packet.scan <= self.scans {
            return Ok(Taken::Repeated);
        }
        if packet.scan - 1 > self.scans {
            return Ok(Taken::Early);
        }
        let why = match follow_part(&mut self.controller, packet.entries.as_slice()) {
            Ok(true) => {
                self.scans = packet.scan;
                return Ok(Taken::New);
            }
            Ok(false) => StandbyNo::NotLegal,
            Err(AllocError) => StandbyNo::NoMemory,
        };
        self.failed = true;
        Err(why)
    }

    /// Whether a packet was refused.
    pub fn has_failed(&self) -> bool
        ensures { result ≡ self.now.failed }
    {
        self.failed
    }

    /// How many scans it holds.
    pub fn scans(&self) -> u32
        requires { self.now.failed ≡ false }
        ensures { result ≡ scans_held self.now }
    {
        self.scans
    }

    /// The entries that it holds. They are always legal.
    pub fn history(&self) -> &[Entry]
        requires { self.now.failed ≡ false }
        ensures history { result.now ≡ self.now.history }
        ensures legal { IsLegal self.now.fixed self.now.history }
    {
        self.controller.history()
    }

    /// A bench that goes on from there. Takes no memory.
    pub fn into_bench(self) -> Bench
        requires { self.failed ≡ false }
        ensures { result ≡ bench_of self }
    {
        Bench::of(self.alloc, self.plan, self.controller)
    }
}
