//! Rows that a wired drop is given before a repetition.
ghost use Rattle.std.specs.Prelude.{◌≡◌, true, [], ◌∷◌, length, OnOk};
ghost use Rattle.traffic_cop.specs.Exchange.{fits_row};
ghost use Rattle.word_exchange.specs.Feeding.{rows_from, AreGivenRows, CanTakeAll, CanTakeIf};
ghost use Rattle.word_exchange.specs.Feeding.{CanTakeRows, IsGivenRows, TakesRows};

use crate::rows::{own_row, row_made};
use crate::running::WireReader;
use crate::sources::Source;
use plant_types::{ControllerPlan, Copied, IoDrop, List, ScriptRow};
use serial_feed::Serial;
use std::alloc::{AllocError, Global};

/// A wired drop of a controller of the plant: where its input words come from, its script so far,
/// how many input exchanges it has in a full scan and has made, in how many entries of its
/// controller they were counted, and how many rows it has to have before the next repetition.
#[derive(Drop)]
pub struct WiredDrop<'a> {
    pub plan: &'a ControllerPlan,
    pub drop: &'a IoDrop,
    pub sources: Vec<Option<Source>>,
    pub script: List<ScriptRow>,
    pub inputs: usize,
    pub exchanges: usize,
    pub entries: usize,
    pub needed: u128,
}

/// Puts a row last in the script of a drop of a controller, and feeds it to the serial run. The
/// only error is that memory ran out; then the run is given up.
fn feed_row(
    alloc: Global,
    plan: &ControllerPlan,
    drop: &IoDrop,
    script: &mut List<ScriptRow>,
    serial: &mut Serial,
    row: ScriptRow,
) -> Result<(), AllocError>
    requires can { CanTakeRows plan.now drop.now script.old serial.old }
    requires fits { fits_row drop.now.modules row ≡ true }
    ensures { OnOk result
        (TakesRows plan.now drop.now (row ∷ []) script.old script.new serial.old serial.new) }
{
    script.push(row.copied(alloc)?)?;
    serial.feed_row(plan.node, drop.number, row)
}

/// Puts rows last in the script of a drop of a controller until as many are there as are needed,
/// and feeds them to the serial run: its own rows, with the words that are sent. The only error is
/// that memory ran out; then the run is given up.
fn feed_rows(
    alloc: Global,
    plan: &ControllerPlan,
    drop: &IoDrop,
    script: &mut List<ScriptRow>,
    serial: &mut Serial,
    readers: &[WireReader<'_>],
    sources: &[Option<Source>],
    needed: u128,
) -> Result<(), AllocError>
    requires { CanTakeRows plan.now drop.now script.old serial.old }
    ensures { OnOk result (TakesRows plan.now drop.now
        (rows_from readers.now sources.now drop.now (length script.old) needed)
        script.old script.new serial.old serial.new) }
{
    for there in script.as_slice().len() as u128..needed {
        let own = own_row(alloc, drop, there + 1)?;
        let row = row_made(alloc, readers, sources, &own)?;
        feed_row(alloc, plan, drop, script, serial, row)?;
    }
    Ok(())
}

impl WiredDrop<'_> {
    /// Puts rows last in its script until as many are there as it needs, and feeds them to the
    /// serial run. The only error is that memory ran out; then the run is given up.
    fn feed(
        &mut self,
        alloc: Global,
        serial: &mut Serial,
        readers: &[WireReader<'_>],
    ) -> Result<(), AllocError>
        requires { CanTakeIf self.old serial.old }
        ensures { OnOk result (IsGivenRows readers.now self.old self.new serial.old serial.new) }
    {
        if self.script.as_slice().len() as u128 >= self.needed {
            return Ok(());
        }
        let script = &mut self.script;
        feed_rows(
            alloc,
            self.plan,
            self.drop,
            script,
            serial,
            readers,
            self.sources.as_slice(),
            self.needed,
        )
    }
}

/// Puts rows last in the scripts of wired drops until as many are there as each needs, and feeds
/// them to the serial run. The only error is that memory ran out; then the run is given up.
pub(crate) fn feed_all(
    alloc: Global,
    wired: &mut [WiredDrop<'_>],
    serial: &mut Serial,
    readers: &[WireReader<'_>],
) -> Result<(), AllocError>
    requires { CanTakeAll wired.old serial.old }
    ensures { OnOk result (AreGivenRows readers.now wired.old wired.new serial.old serial.new) }
{
    for at in 0..wired.len() {
        wired[at].feed(alloc, serial, readers)?;
    }
    Ok(())
}
