//! A word exchange, repetition by repetition.
ghost use Rattle.std.specs.Prelude.{◌≡◌, ◌==◌, false, IfOk};
ghost use Rattle.std.specs.List.{All, AllZip};
ghost use Rattle.serial_feed.specs.Standing.{are_gone};
ghost use Rattle.word_exchange.specs.Counting.{CanCount, Counts};
ghost use Rattle.word_exchange.specs.Exchanging.{ExchangesOnce, HasExchanged, IsExchanging};

use crate::exchanges::exchanges_among;
use crate::feeding::{WiredDrop, feed_all};
use crate::running::{WireReader, repeat};
use peer_cop::Wire;
use plant_types::Plant;
use serial_feed::Serial;
use std::alloc::{AllocError, Global};

impl WiredDrop<'_> {
    /// Counts the input exchanges that a serial run noted since, and how many rows are needed.
    fn count_on(&mut self, serial: &Serial)
        requires { CanCount serial.now self.old }
        ensures { Counts serial.now self.old self.new }
    {
        let entries = serial.history(self.plan.node);
        let more = &entries[self.entries..];
        self.exchanges += exchanges_among(self.plan, self.drop.number, more);
        self.entries = entries.len();
        self.needed = (self.exchanges as u128 + self.inputs as u128).max(1);
    }
}

/// Counts the input exchanges of wired drops that a serial run noted since.
fn count_all(wired: &mut [WiredDrop<'_>], serial: &Serial)
    requires { All (CanCount serial.now) wired.old }
    ensures { AllZip (Counts serial.now) wired.old wired.new }
{
    for at in 0..wired.len() {
        wired[at].count_on(serial);
    }
}

/// Gives wired drops their rows, makes a repetition, and reads what it noted; and whether scans are
/// left. The only error is that memory ran out; then the run is given up.
fn exchange(
    alloc: Global,
    _plant: &Plant,
    _wires: &[Wire],
    _scans: u32,
    serial: Serial,
    readers: &mut [WireReader<'_>],
    wired: &mut [WiredDrop<'_>],
) -> Result<(Serial, bool), AllocError>
    requires so_far { IsExchanging _plant.now _wires.now _scans readers.old wired.old serial }
    requires left { are_gone serial ≡ false }
    ensures { IfOk result (λ made. ExchangesOnce _plant.now _wires.now _scans readers.new wired.new
        serial made.0 made.1) }
{
    let mut serial = serial;
    feed_all(alloc, wired, &mut serial, readers)?;
    let (serial, goes_on) = repeat(alloc, serial, readers)?;
    count_all(wired, &serial);
    Ok((serial, goes_on))
}

/// Repetitions until all scans are gone, each behind the rows that wired drops are given. The only
/// error is that memory ran out.
pub(crate) fn exchange_all(
    alloc: Global,
    plant: &Plant,
    wires: &[Wire],
    scans: u32,
    serial: Serial,
    readers: &mut [WireReader<'_>],
    wired: &mut [WiredDrop<'_>],
) -> Result<Serial, AllocError>
    requires so_far { IsExchanging plant.now wires.now scans readers.old wired.old serial }
    requires starts { are_gone serial ≡ (scans == 0) }
    ensures { IfOk result (HasExchanged plant.now wires.now scans readers.new wired.new) }
{
    let mut serial = serial;
    let mut goes_on = scans != 0;
    'repetitions: while goes_on {
        let (next, more) = exchange(alloc, plant, wires, scans, serial, readers, wired)?;
        serial = next;
        goes_on = more;
    }
    Ok(serial)
}
