//! Two controllers side by side, and the work of their search.
ghost use Rattle.std.specs.Prelude.{◌≡◌, true, IfOk};
ghost use Rattle.std.specs.List.{list_all};
ghost use Rattle.plant_types.specs.Checks.{sizes_of};
ghost use Rattle.plant_types.specs.Sizes.{has_reference};

use crate::exchanges::{Choice, Read};
use field_machine::{Exchange, Field, Work};
use plant_types::{ControllerPlan, Ref};
use std::alloc::{AllocError, Global};

/// Two controllers side by side in one field, whose drops are those of the old one. This project's
/// own.
pub(crate) struct Pair {
    pub(crate) old: Field,
    pub(crate) new: Field,
    /// The exchanges of a scan of both.
    pub(crate) choices: Vec<Choice>,
    /// In how many ways the field can bring their rows.
    pub(crate) moves: usize,
    pub(crate) old_reads: Vec<Read>,
    pub(crate) new_reads: Vec<Read>,
    /// How many words of a key the old one's state takes.
    pub(crate) size: usize,
    /// What both panels show.
    pub(crate) panel: Vec<Ref>,
    ghost old_shows: { list_all (has_reference (sizes_of old.fixed.plan)) panel.items ≡ true },
    ghost new_shows: { list_all (has_reference (sizes_of new.fixed.plan)) panel.items ≡ true },
}

impl Drop for Pair {
    fn drop(self) {
        let Pair {
            old: _,
            new: _,
            choices: _,
            moves: _,
            old_reads: _,
            new_reads: _,
            size: _,
            panel: _,
        } = self;
    }
}

/// What a search of two controllers makes its scans in. This project's own.
pub(crate) struct PairWork {
    pub(crate) old_work: Work,
    pub(crate) new_work: Work,
    /// The key of the new one's state.
    pub(crate) key: Vec<u16>,
    pub(crate) exchanges: Vec<Exchange>,
}

impl Drop for PairWork {
    fn drop(self) {
        let PairWork {
            old_work: _,
            new_work: _,
            key: _,
            exchanges: _,
        } = self;
    }
}

impl PairWork {
    ghost use Rattle.field_machine.specs.Work.{IsWorkOf};
    ghost use Rattle.traffic_cop.specs.Rows.{IsRunnablePlan};

    /// A work for two controllers.
    pub(crate) fn new(
        alloc: Global,
        old: &ControllerPlan,
        new: &ControllerPlan,
    ) -> Result<PairWork, AllocError>
        requires old_runs { IsRunnablePlan old.now }
        requires new_runs { IsRunnablePlan new.now }
        ensures old { IfOk result (λ work. IsWorkOf old.now work.old_work) }
        ensures new { IfOk result (λ work. IsWorkOf new.now work.new_work) }
    {
        Ok(PairWork {
            old_work: Work::new(alloc, old)?,
            new_work: Work::new(alloc, new)?,
            key: Vec::new(alloc),
            exchanges: Vec::new(alloc),
        })
    }
}
