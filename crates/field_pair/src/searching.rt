//! What a search of two controllers side by side finds.
ghost use Rattle.std.specs.Prelude.{◌≡◌, IfOk};
ghost use Rattle.controller_core.specs.Controller.{fixed_with};
ghost use Rattle.controller_core.specs.Machine.{IsRunnable};
ghost use Rattle.side_runs.specs.FieldSearch.{IsAlone};
ghost use Rattle.side_runs.specs.Beside.{TakeOneField};
ghost use Rattle.field_pair.specs.Same.{IsFoundOfPair};

use crate::beside::{fixed_beside, pair_of};
use crate::pair::PairWork;
use field_machine::Exchange;
use plant_types::ControllerPlan;
use side_runs::{drops_stay_alone, pair_covers_hold, pair_paths_are_runs};
use state_space::{Answer, explore};
use std::alloc::{AllocError, Global};

/// The code with which a controller has stopped, 0 while it goes on, and the values of its panel's
/// references. This project's own.
#[derive(Drop)]
pub struct PanelEnd {
    pub stop: u16,
    pub values: Vec<u16>,
}

/// How two controllers are told apart: the input exchanges of each scan, and what both panels show
/// after the last one. This project's own.
#[derive(Drop)]
pub struct Apart {
    pub brought: Vec<Vec<Exchange>>,
    pub old: PanelEnd,
    pub new: PanelEnd,
}

/// What a search of all runs of two controllers side by side found. This project's own.
#[derive(Drop)]
pub enum FoundPair {
    /// Their panel lines never tell them apart; so many pairs of states are reached, no two alike.
    Same { pairs: usize },
    /// They are told apart by these scans, and by no fewer.
    Differ(Apart),
}

/// Looks at all runs of two controllers side by side, or at those of so many scans.
pub fn search_pair(
    alloc: Global,
    old: &ControllerPlan,
    new: &ControllerPlan,
    scan_time: u32,
    old_watchdog: u32,
    new_watchdog: u32,
    limit: Option<usize>,
) -> Result<FoundPair, AllocError>
    requires old_runs { IsRunnable (fixed_with old.now scan_time old_watchdog 1) }
    requires new_runs { IsRunnable (fixed_with new.now scan_time new_watchdog 1) }
    requires old_alone { IsAlone old.now }
    requires new_alone { IsAlone new.now }
    requires panels { old.now.panel ≡ new.now.panel }
    requires drops { TakeOneField old.now.drops new.now.drops }
    ensures { IfOk result (IsFoundOfPair (fixed_with old.now scan_time old_watchdog 1)
        (fixed_with new.now scan_time new_watchdog 1) limit) }
{
    drops_stay_alone();
    pair_covers_hold();
    pair_paths_are_runs();
    let first = fixed_beside(alloc, old, old, scan_time, old_watchdog)?;
    let second = fixed_beside(alloc, new, old, scan_time, new_watchdog)?;
    let mut work = PairWork::new(alloc, &first.plan, &second.plan)?;
    let mut again = PairWork::new(alloc, &first.plan, &second.plan)?;
    let pair = pair_of(alloc, first, second)?;
    match explore(alloc, &pair, &mut work, limit)? {
        Answer::Holds { states } => Ok(FoundPair::Same { pairs: states }),
        Answer::Fails { path } => {
            let apart = pair.apart_by(alloc, &mut again, path.as_slice())?;
            Ok(FoundPair::Differ(apart))
        }
    }
}
