//! What the panel of a controller shows in a run of its field.
ghost use Rattle.std.specs.Prelude.{◌≡◌, ◌++◌, true, IfOk, OnOk};
ghost use Rattle.std.specs.FinMap.{contains_key};
ghost use Rattle.plant_types.specs.Checks.{HasPanel};
ghost use Rattle.plant_types.specs.Store.{value_at};
ghost use Rattle.state_ram.specs.Packed.{packed_contents};
ghost use Rattle.controller_core.specs.Controller.{fixed_with};
ghost use Rattle.controller_core.specs.Machine.{IsRunnable};
ghost use Rattle.controller_core.specs.Notes.{values_of};
ghost use Rattle.field_search.specs.Covered.{IsAlone};
ghost use Rattle.field_machine.specs.Shown.{panel_in, IsShownBy, ShowsScan};
ghost use Rattle.field_machine.specs.Work.{work_state, IsReadyWork, IsWorkOf};

use crate::asked::Asked;
use crate::field::Field;
use crate::machine::word_at;
use crate::work::Work;
use controller_core::Fixed;
use field_runs::{alike_states_stay, scans_are_field_runs, scans_settle};
use key_store::KeyRam;
use plant_types::{
    ControllerPlan, Copied, Ref, RefKind, RefStore, checked_plans_find_all, kept_stores_find_all,
};
use state_space::Machine;
use std::alloc::{AllocError, Global};

/// What a run of a field shows. This project's own.
#[derive(Drop)]
pub struct Shown {
    /// The values of the panel's references after each scan, one scan after another.
    pub values: Vec<u16>,
    /// The code with which the controller has stopped; 0 while it goes on.
    pub stop: u16,
}

/// The number at a reference: 0 or 1 for a discrete.
fn value_at(ram: &KeyRam, at: Ref) -> u16
    requires { contains_key (packed_contents ram.now) at ≡ true }
    ensures { result ≡ value_at (packed_contents ram.now) at }
{
    match at.kind {
        RefKind::Coil | RefKind::Input => u16::from(ram.bit(at)),
        RefKind::InputRegister | RefKind::Register => ram.word(at),
    }
}

/// Adds the values of these references.
fn push_values(values: &mut Vec<u16>, panel: &[Ref], ram: &KeyRam) -> Result<(), AllocError>
    requires { HasPanel (packed_contents ram.now) panel.now }
    ensures { OnOk result (values.new.items ≡ values.old.items
        ++ values_of (packed_contents ram.now) panel.now) }
{
    for at in panel {
        values.push(value_at(ram, *at))?;
    }
    Ok(())
}

impl Field {
    ghost use Rattle.field_machine.specs.Field.{IsField};

    /// Adds the values of the panel.
    fn show_panel(&self, work: &Work, values: &mut Vec<u16>) -> Result<(), AllocError>
        requires field { IsField self.now }
        requires ready { IsReadyWork self.now.fixed.plan work.now }
        ensures { OnOk result (values.new.items ≡ values.old.items
            ++ panel_in self.now.fixed.plan (work_state work.now)) }
    {
        checked_plans_find_all();
        kept_stores_find_all();
        push_values(values, self.fixed.plan.panel.as_slice(), &work.ram)
    }

    /// Makes a scan from the state of a key, in which the field brings rows in this way, and adds
    /// the values of the panel. The key is that of the state after it.
    fn show_scan(
        &self,
        work: &mut Work,
        key: &mut Vec<u16>,
        way: usize,
        values: &mut Vec<u16>,
    ) -> Result<(), AllocError>
        requires field { IsField self.now }
        requires work { IsWorkOf self.now.fixed.plan work.old }
        ensures work { OnOk result (IsWorkOf self.now.fixed.plan work.new) }
        ensures shows { OnOk result (ShowsScan self.now.fixed self.now.counters.items way
            key.old.items key.new.items values.old.items values.new.items) }
    {
        self.unpack(work, key.as_slice())?;
        self.scan(work, way);
        self.show_panel(work, values)?;
        self.pack(work, key)
    }

    /// What a run shows in which the field brings rows in these ways, one for each scan.
    fn show(&self, alloc: Global, work: &mut Work, ways: &[usize]) -> Result<Shown, AllocError>
        requires field { IsField self.now }
        requires work { IsWorkOf self.now.fixed.plan work.old }
        ensures { IfOk result (IsShownBy self.now.fixed ways.now) }
    {
        alike_states_stay();
        scans_settle();
        scans_are_field_runs();
        let mut key = Vec::new(alloc);
        let mut values = Vec::new(alloc);
        self.start(work, &mut key)?;
        for way in ways {
            self.show_scan(work, &mut key, *way, &mut values)?;
        }
        let stop = word_at(key.as_slice(), 1);
        Ok(Shown { values, stop })
    }
}

/// What the run of a controller that is alone shows of its panel, in which the field brings rows in
/// these ways, one for each scan. There may be more scans than a plant file lets a run have.
pub fn show_run(
    alloc: Global,
    plan: &ControllerPlan,
    scan_time: u32,
    watchdog: u32,
    ways: &[usize],
) -> Result<Shown, AllocError>
    requires runs { IsRunnable (fixed_with plan.now scan_time watchdog 1) }
    requires alone { IsAlone plan.now }
    ensures { IfOk result (IsShownBy (fixed_with plan.now scan_time watchdog 1) ways.now) }
{
    let fixed = Fixed {
        plan: plan.copied(alloc)?,
        scan_time,
        watchdog,
        scans: 1,
    };
    let mut work = Work::new(alloc, &fixed.plan)?;
    let field = Field::new(alloc, fixed, Asked::Stopped)?;
    field.show(alloc, &mut work, ways)
}
