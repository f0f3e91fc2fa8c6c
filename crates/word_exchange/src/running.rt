//! What wires bring, read from repetition to repetition.
ghost use Rattle.std.specs.Prelude.{◌≡◌, IfOk, OnErr, OnOk};
ghost use Rattle.std.specs.List.{All, AllZip};
ghost use Rattle.serial_feed.specs.Standing.{StandsForSome};
ghost use Rattle.word_exchange.specs.Running.{HasReadWithin, HasReadAll, ReadsOn, RepeatedAndRead};

use crate::laws::{readers_follow, repetitions_go_on};
use crate::sending::Sending;
use plant_types::ControllerPlan;
use serial_feed::Serial;
use std::alloc::{AllocError, Global};

/// Reads what a wire's from drop sends: how many entries of its controller, whose plan this is, and
/// of its ring were read so far.
#[derive(Drop)]
pub struct WireReader<'a> {
    pub plan: &'a ControllerPlan,
    pub sending: Sending,
    pub entries: usize,
    pub ring: usize,
}

impl WireReader<'_> {
    /// Reads what a serial run noted since. The only error is that memory ran out; nothing changed
    /// then.
    fn read_on(&mut self, alloc: Global, serial: &Serial) -> Result<(), AllocError>
        requires { HasReadWithin serial.now self.old }
        ensures ok { OnOk result (ReadsOn serial.now self.old self.new) }
        ensures err { OnErr result (self.new ≡ self.old) }
    {
        let entries = serial.history(self.plan.node);
        let ring = serial.ring_history(self.plan.network);
        let more = &entries[self.entries..];
        self.sending
            .refresh(alloc, self.plan, more, &ring[self.ring..])?;
        self.entries = entries.len();
        self.ring = ring.len();
        Ok(())
    }
}

/// Reads what a serial run noted since, for each wire. The only error is that memory ran out; then
/// the run is given up.
pub(crate) fn read_all(
    alloc: Global,
    readers: &mut [WireReader<'_>],
    serial: &Serial,
) -> Result<(), AllocError>
    requires { All (HasReadWithin serial.now) readers.old }
    ensures { OnOk result (AllZip (ReadsOn serial.now) readers.old readers.new) }
{
    for at in 0..readers.len() {
        readers[at].read_on(alloc, serial)?;
    }
    Ok(())
}

/// One repetition of a serial run, or nothing where all scans are gone, which the readers of its
/// wires read; and whether scans are left. The only error is that memory ran out; then the run is
/// given up.
pub(crate) fn repeat(
    alloc: Global,
    serial: Serial,
    readers: &mut [WireReader<'_>],
) -> Result<(Serial, bool), AllocError>
    requires stands { StandsForSome serial }
    requires read { All (HasReadAll serial) readers.old }
    ensures { IfOk result (λ made. RepeatedAndRead serial made.0 made.1 readers.old readers.new) }
{
    repetitions_go_on();
    readers_follow();
    let (serial, goes_on) = serial.turn()?;
    read_all(alloc, readers, &serial)?;
    Ok((serial, goes_on))
}
