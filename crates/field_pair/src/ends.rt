//! What both panels show behind moves that tell two controllers apart.
ghost use Rattle.std.specs.Prelude.{◌≡◌, IfOk, OnOk, Vec, length, map, true};
ghost use Rattle.std.specs.List.{AllByRecursion, list_all};
ghost use Rattle.std.specs.declared.alloc.Global.{Global};
ghost use Rattle.plant_types.specs.Checks.{sizes_of};
ghost use Rattle.plant_types.specs.Sizes.{has_reference};
ghost use Rattle.field_machine.specs.declared.exchanges.Exchange.{Exchange};
ghost use Rattle.field_machine.specs.Keys.{state_in};
ghost use Rattle.field_pair.specs.Choices.{AreSome, brought_by};
ghost use Rattle.field_pair.specs.Same.{IsPanelEnd, listed};

use crate::exchanges::{Choice, bring};
use crate::machine::words_before;
use crate::pair::{Pair, PairWork};
use crate::searching::{Apart, PanelEnd};
use field_machine::{Exchange, Field, word_at, words_behind};
use plant_types::Ref;
use state_space::Machine;
use std::alloc::{AllocError, Global};
use std::mem::swap;

/// The input exchanges of scans in which the field brings rows in these ways.
fn brought_in(
    alloc: Global,
    choices: &[Choice],
    path: &[usize],
) -> Result<Vec<Vec<Exchange>>, AllocError>
    requires { AreSome choices.now }
    ensures { IfOk result (λ brought.
        listed brought.items ≡ map (brought_by choices.now) path.now) }
{
    let mut brought = Vec::new(alloc);
    for by in path {
        let mut exchanges = Vec::new(alloc);
        bring(&mut exchanges, choices, *by)?;
        brought.push(exchanges)?;
    }
    Ok(brought)
}

/// What a panel shows in the state of a key.
fn panel_end(
    alloc: Global,
    field: &Field,
    panel: &[Ref],
    key: &[u16],
) -> Result<PanelEnd, AllocError>
    requires { list_all (has_reference (sizes_of field.now.fixed.plan)) panel.now ≡ true }
    ensures { IfOk result (IsPanelEnd panel.now
        (state_in field.now.fixed.plan field.now.counters.items key.now)) }
{
    let mut values = Vec::new(alloc);
    for at in panel {
        values.push(field.value_in(key, *at))?;
    }
    Ok(PanelEnd {
        stop: word_at(key, 1),
        values,
    })
}

impl Pair {
    ghost use Rattle.state_space.specs.Reaching.{Reaches};
    ghost use Rattle.field_pair.specs.Pair.{FitsPair, IsApartBy, MayMove, pair_leads, pair_starts};

    /// The key of the states behind these moves.
    fn go(&self, alloc: Global, work: &mut PairWork, path: &[usize]) -> Result<Vec<u16>, AllocError>
        requires fits { FitsPair self.now work.old }
        requires moves { MayMove self.now path.now }
        ensures fits { FitsPair self.now work.new }
        ensures key { IfOk result (λ key. Reaches (pair_starts self.now) self.now.moves
            (pair_leads self.now) path.now key.items) }
    {
        let mut from = Vec::new(alloc);
        let mut key = Vec::new(alloc);
        self.start(work, &mut key)?;
        for by in path {
            swap(&mut from, &mut key);
            self.next(work, from.as_slice(), *by, &mut key)?;
        }
        Ok(key)
    }

    /// What the field brings in these moves, and what both panels show behind them.
    pub(crate) fn apart_by(
        &self,
        alloc: Global,
        work: &mut PairWork,
        path: &[usize],
    ) -> Result<Apart, AllocError>
        requires fits { FitsPair self.now work.old }
        requires moves { MayMove self.now path.now }
        ensures { IfOk result (IsApartBy self.now path.now) }
    {
        let key = self.go(alloc, work, path)?;
        let brought = brought_in(alloc, self.choices.as_slice(), path)?;
        let panel = self.panel.as_slice();
        let front = words_before(key.as_slice(), self.size);
        let behind = words_behind(key.as_slice(), self.size);
        let old = panel_end(alloc, &self.old, panel, front)?;
        let new = panel_end(alloc, &self.new, panel, behind)?;
        Ok(Apart { brought, old, new })
    }
}
