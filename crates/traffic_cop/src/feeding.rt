//! A row that is added to the script of a drop.
ghost use Rattle.std.specs.Prelude.{◌≡◌, ◌++◌, ◌∷◌, [], OnErr, OnOk};
ghost use Rattle.traffic_cop.specs.Drops.{IsNamed};
ghost use Rattle.traffic_cop.specs.Feeding.{place_named, row_fed, RowsComeLater};

use crate::cop::Cop;
use plant_types::{Copied, IoDrop, List, ScriptRow};
use std::alloc::{AllocError, Global};

/// Where the first drop of a number stands.
fn place_named(drops: &[IoDrop], number: u8) -> usize
    requires { IsNamed drops.now number }
    ensures { result ≡ place_named drops.now number }
{
    for (i, drop) in drops.iter().enumerate() {
        if drop.number == number {
            return i;
        }
    }
    unreachable!()
}

/// A drop that stands in for one that is taken out; takes no memory.
fn no_drop(alloc: Global) -> IoDrop
    ensures { result ≡ record { number = 0; modules = []; script = [] } }
{
    IoDrop {
        number: 0,
        modules: List::new(alloc),
        script: List::new(alloc),
    }
}

/// Puts a row last in the script of a drop.
fn push_row(
    drops: &mut List<IoDrop>,
    alloc: Global,
    number: u8,
    row: ScriptRow,
) -> Result<(), AllocError>
    requires { IsNamed drops.old number }
    ensures ok { OnOk result (drops.new ≡ row_fed drops.old number row) }
    ensures err { OnErr result (drops.new ≡ drops.old) }
{
    let at = place_named(drops.as_slice(), number);
    let mut found = drops.replace(at, no_drop(alloc));
    let pushed = found.script.push(row);
    drops.replace(at, found);
    pushed
}

/// Puts a row last in a script, and in the one of the drop that a cop keeps.
fn push_both(
    script: &mut List<ScriptRow>,
    cop: &mut Cop,
    alloc: Global,
    number: u8,
    row: ScriptRow,
) -> Result<(), AllocError>
    requires { IsNamed cop.old number }
    ensures script { OnOk result (script.new ≡ script.old ++ row ∷ []) }
    ensures cop { OnOk result (cop.new ≡ row_fed cop.old number row) }
    ensures script_stays { OnErr result (script.new ≡ script.old) }
    ensures cop_stays { OnErr result (cop.new ≡ cop.old) }
{
    let copy = row.copied(alloc)?;
    script.push(row)?;
    match cop.feed_row(alloc, number, copy) {
        Ok(()) => Ok(()),
        Err(refused) => {
            script.pop();
            Err(refused)
        }
    }
}

impl Cop {
    /// Adds a row to the script of a drop, which comes after all that are there. Where memory is
    /// refused nothing changes.
    pub fn feed_row(&mut self, alloc: Global, drop: u8, row: ScriptRow) -> Result<(), AllocError>
        requires { IsNamed self.old drop }
        ensures ok { OnOk result (self.new ≡ row_fed self.old drop row) }
        ensures err { OnErr result (self.new ≡ self.old) }
    {
        push_row(&mut self.drops, alloc, drop, row)
    }

    /// Adds a row to the script of a drop, and to that of the same drop of a plan. Where memory is
    /// refused neither changes.
    pub fn feed_with_plan(
        &mut self,
        drops: &mut List<IoDrop>,
        alloc: Global,
        drop: u8,
        row: ScriptRow,
    ) -> Result<(), AllocError>
        requires named { IsNamed self.old drop }
        requires same { self.old ≡ drops.old }
        ensures ok { OnOk result (drops.new ≡ row_fed drops.old drop row) }
        ensures err { OnErr result (drops.new ≡ drops.old) }
        ensures same { self.new ≡ drops.new }
    {
        let at = place_named(drops.as_slice(), drop);
        let mut found = drops.replace(at, no_drop(alloc));
        let fed = push_both(&mut found.script, self, alloc, drop, row);
        drops.replace(at, found);
        fed
    }
}

/// Rows that are added come later: they change no exchange that has a row of its own.
pub fn rows_come_later()
    ensures { RowsComeLater }
{}
