//! A field as a machine over keys that keep only what can matter to what it is asked.
ghost use Rattle.std.specs.Prelude.{◌≡◌, IfOk};
ghost use Rattle.field_machine.specs.Field.{IsField};
ghost use Rattle.field_machine.specs.Keys.{state_in, IsKeyOf};
ghost use Rattle.field_machine.specs.Narrow.{state_cleared};
ghost use Rattle.field_machine.specs.Narrowed.{IsNarrowed};
ghost use Rattle.field_machine.specs.Work.{IsReadyWork, IsWorkOf, work_state};

use crate::field::Field;
use crate::machine::set_edges;
use crate::narrow::{apart_of, outside_of, reference_of, zero_all};
use crate::work::Work;
use cone_of::cone_of;
use ladder_solver::BlockPlace;
use plant_types::Ref;
use state_space::Machine;
use std::alloc::{AllocError, Global};

/// A field, and what cannot matter to what it is asked. This project's own.
pub struct Narrowed {
    pub(crate) field: Field,
    /// The references that cannot matter.
    pub(crate) outside: Vec<Ref>,
    /// The counters of networks that cannot matter.
    pub(crate) apart: Vec<BlockPlace>,
}

impl Drop for Narrowed {
    fn drop(self) {
        let Narrowed {
            field: _,
            outside: _,
            apart: _,
        } = self;
    }
}

impl Narrowed {
    /// A field with what cannot matter to what it is asked.
    pub(crate) fn new(alloc: Global, field: Field) -> Result<Narrowed, AllocError>
        requires { IsField field }
        ensures field { IfOk result (λ narrowed. narrowed.field ≡ field) }
        ensures narrowed { IfOk result IsNarrowed }
    {
        let cone = cone_of(alloc, &field.fixed.plan, reference_of(field.asked))?;
        let outside = outside_of(alloc, field.fixed.plan.sizes(), &cone)?;
        let segments = field.fixed.plan.segments.as_slice();
        let apart = apart_of(alloc, &cone, segments, field.counters.as_slice())?;
        Ok(Narrowed {
            field,
            outside,
            apart,
        })
    }

    /// Clears in a work what cannot matter.
    fn clear(&self, work: &mut Work)
        requires narrowed { IsNarrowed self.now }
        requires ready { IsReadyWork self.now.field.fixed.plan work.old }
        ensures state { work_state work.new
            ≡ state_cleared self.now.outside.items self.now.apart.items (work_state work.old) }
        ensures work { IsWorkOf self.now.field.fixed.plan work.new }
    {
        zero_all(&mut work.ram, self.outside.as_slice());
        set_edges(&mut work.ladder, self.apart.as_slice(), &[]);
    }
}

impl Machine<Work> for Narrowed {
    ghost use Rattle.scan_order.specs.Due.{full_scan};
    ghost use Rattle.controller_core.specs.Replay.{start};
    ghost use Rattle.field_runs.specs.Scan.{scanned};
    ghost use Rattle.field_machine.specs.Asked.{is_so};
    ghost use Rattle.field_machine.specs.Choices.{told_by};
    ghost use Rattle.field_machine.specs.Narrowed.{FitsNarrowed};

    ghost fits = { FitsNarrowed };

    ghost starts = { λ n key.
        IsKeyOf n.field.fixed.plan n.field.counters.items (start n.field.fixed.plan) key };

    ghost count = { λ n. n.field.moves };

    ghost leads = { λ n from by key. IsKeyOf n.field.fixed.plan n.field.counters.items
        (state_cleared n.outside.items n.apart.items (scanned n.field.fixed
        (told_by n.field.fixed.plan (full_scan n.field.fixed.plan) by)
        (state_in n.field.fixed.plan n.field.counters.items from))) key };

    ghost bad = { λ n key.
        is_so n.field.asked (state_in n.field.fixed.plan n.field.counters.items key) };

    fn start(&self, work: &mut Work, key: &mut Vec<u16>) -> Result<(), AllocError> {
        self.field.start(work, key)
    }

    fn moves(&self) -> usize {
        self.field.moves
    }

    fn next(
        &self,
        work: &mut Work,
        from: &[u16],
        by: usize,
        key: &mut Vec<u16>,
    ) -> Result<(), AllocError> {
        self.field.unpack(work, from)?;
        self.field.scan(work, by);
        self.clear(work);
        self.field.pack(work, key)
    }

    fn is_bad(&self, key: &[u16]) -> bool {
        self.field.is_bad(key)
    }
}
