//! What a search makes its scans in.
ghost use Rattle.std.specs.Prelude.{◌≡◌, IfOk};
ghost use Rattle.std.specs.FinSet.{empty};
ghost use Rattle.grid_compile.specs.Layout.{grids_of};
ghost use Rattle.traffic_cop.specs.Rows.{IsRunnablePlan};
ghost use Rattle.field_machine.specs.Work.{IsWorkOf};

use grid_compile::grids_of;
use key_store::KeyRam;
use ladder_solver::{Ladder, Watch, grids_ask_no_more};
use mstr_block::MstrBank;
use plant_types::{ControllerPlan, checked_plans_find_all, is_routed};
use std::alloc::{AllocError, Global};
use timer_ops::Clock;

/// A controller that makes scan after scan, each from the state of a key. This project's own.
pub struct Work {
    pub(crate) ladder: Ladder,
    pub(crate) bank: MstrBank,
    pub(crate) ram: KeyRam,
    /// The discretes as the last scan ended.
    pub(crate) past: KeyRam,
    pub(crate) clock: Clock,
    /// The networks that are left to the watchdog.
    pub(crate) watch: Watch,
    /// The code with which the controller stopped; 0 while it goes on.
    pub(crate) stop: u16,
}

impl Drop for Work {
    fn drop(self) {
        let Work {
            ladder: _,
            bank: _,
            ram: _,
            past: _,
            clock: _,
            watch: _,
            stop: _,
        } = self;
    }
}

/// The ladder of a plan, with all edge bits off.
fn ladder_of(alloc: Global, plan: &ControllerPlan) -> Result<Ladder, AllocError>
    requires { IsRunnablePlan plan.now }
    ensures { IfOk result (λ ladder.
        ladder ≡ record { grids = grids_of plan.now.segments; edges = empty }) }
{
    checked_plans_find_all();
    grids_ask_no_more();
    let grids = grids_of(alloc, plan.segments.as_slice())?;
    Ladder::new(alloc, grids)
}

impl Work {
    /// A work for a plan.
    pub fn new(alloc: Global, plan: &ControllerPlan) -> Result<Work, AllocError>
        requires { IsRunnablePlan plan.now }
        ensures { IfOk result (IsWorkOf plan.now) }
    {
        grids_ask_no_more();
        let ladder = ladder_of(alloc, plan)?;
        let count = ladder.blocks();
        let bank = MstrBank::new(alloc, plan.node, count, is_routed(plan.network))?;
        Ok(Work {
            ladder,
            bank,
            ram: KeyRam::new(alloc),
            past: KeyRam::new(alloc),
            clock: Clock { before: 0, now: 0 },
            watch: Watch { left: 0 },
            stop: 0,
        })
    }
}
