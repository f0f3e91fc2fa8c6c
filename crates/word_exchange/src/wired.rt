//! The word exchange of a plant and its wires.
ghost use Rattle.std.specs.Prelude.{◌≡◌, ◌==◌, ◌≤◌, IfOk};
ghost use Rattle.plant_types.specs.Limits.{most_scans};
ghost use Rattle.joint_history.specs.Runnable.{CanRunPlant};
ghost use Rattle.serial_feed.specs.Standing.{are_gone};
ghost use Rattle.word_exchange.specs.Exchanging.{IsExchanging};
ghost use Rattle.word_exchange.specs.Wired.{AreWiresOf, HasTestedDrops, IsWiredRun};

use crate::feeding::WiredDrop;
use crate::going_on::exchange_all;
use crate::running::WireReader;
use crate::scripts::plant_with;
use crate::sources::froms_of;
use crate::starting::{readers_of, wired_drops};
use joint_history::Noted;
use peer_cop::Wire;
use plant_types::Plant;
use serial_feed::Serial;
use std::alloc::{AllocError, Global};

/// What a word exchange comes to: the plant with the rows that its wires made, and its run. This
/// project's own.
#[derive(Drop)]
pub struct Exchanged {
    pub plant: Plant,
    pub noted: Noted,
}

/// The repetitions of a word exchange from its beginning, the end of its run, and the plant with the
/// rows. The only error is that memory ran out.
fn run_out(
    alloc: Global,
    plant: &Plant,
    wires: &[Wire],
    scans: u32,
    serial: Serial,
    readers: &mut [WireReader<'_>],
    wired: &mut [WiredDrop<'_>],
) -> Result<Exchanged, AllocError>
    requires so_far { IsExchanging plant.now wires.now scans readers.old wired.old serial }
    requires starts { are_gone serial ≡ (scans == 0) }
    ensures { IfOk result (IsWiredRun plant.now wires.now scans) }
{
    let serial = exchange_all(alloc, plant, wires, scans, serial, readers, wired)?;
    let noted = serial.finish_noted()?;
    let plant = plant_with(alloc, wired, plant)?;
    Ok(Exchanged { plant, noted })
}

/// The serial run of a plant whose wires carry words: before each repetition, wired drops are given
/// rows with the words that the from drops of their wires send. The only error is that memory ran
/// out. This project's own.
pub fn cop_run(
    alloc: Global,
    plant: &Plant,
    wires: &[Wire],
    scans: u32,
) -> Result<Exchanged, AllocError>
    requires runs { CanRunPlant plant.now }
    requires tested { HasTestedDrops plant.now }
    requires wires { AreWiresOf plant.now wires.now }
    requires scans { scans ≤ most_scans }
    ensures { IfOk result (IsWiredRun plant.now wires.now scans) }
{
    let froms = froms_of(alloc, wires)?;
    let mut readers = readers_of(alloc, plant, froms.as_slice())?;
    let mut wired = wired_drops(alloc, plant, wires, froms.as_slice(), readers.as_slice())?;
    let begun = plant_with(alloc, wired.as_slice(), plant)?;
    let serial = Serial::new(alloc, &begun, scans)?;
    run_out(
        alloc,
        plant,
        wires,
        scans,
        serial,
        readers.as_mut_slice(),
        wired.as_mut_slice(),
    )
}
