//! Makes one scan of each controller of a plant, whose memory was reserved before, and writes a
//! line between the two. For the scripts of plants/, which refuse all memory after that line.
#![tactic(auto)]

ghost use Rattle.std.specs.Prelude.{◌≤◌};
ghost use Rattle.plant_types.specs.Limits.{most_scans};
ghost use Rattle.joint_history.specs.Runnable.{CanRunPlant};

use anyhow::{Context, Result, anyhow, ensure};
use controller_core::Controller;
use plant_loader::{LoadEnd, Version, load};
use plant_types::{MOST_SCANS, Plant};
use std::alloc::{AllocError, Global};
use std::io::Print;
use std::{env, io};

/// No scan has more events: its begin, three for each of 32 rows, and its end.
const MOST_EVENTS: u32 = 98;

/// More bytes than were taken before.
const PROBE: usize = 1 << 20;

/// The controllers of a plant at their start, for so many scans.
fn controllers_of(alloc: Global, plant: &Plant, scans: u32) -> Result<Vec<Controller>, AllocError>
    requires plant { CanRunPlant plant.now }
    requires scans { scans ≤ most_scans }
{
    let mut controllers = Vec::new(alloc);
    for plan in plant.controllers.as_slice() {
        let (time, watchdog) = (plant.scan_time, plant.watchdog);
        controllers.push(Controller::new(alloc, plan, time, watchdog, scans)?)?;
    }
    Ok(controllers)
}

/// Takes the memory of the next scan of each controller that has not ended.
fn reserve(controllers: &mut [Controller]) -> Result<(), AllocError> {
    for controller in controllers {
        if !controller.has_ended() {
            controller.reserve_scan()?;
        }
    }
    Ok(())
}

/// Makes the scan that was reserved, and answers whether it was made to its end.
fn make_scan(controller: &mut Controller) -> bool {
    let was_reserved = controller.is_reserved();
    for _ in 0..MOST_EVENTS {
        if controller.is_reserved() {
            let _ = controller.step();
        }
    }
    was_reserved && !controller.is_reserved()
}

/// Makes the scans that were reserved, and answers how many were made to their end.
fn make_scans(controllers: &mut [Controller]) -> usize {
    let mut count = 0usize;
    for controller in controllers {
        if make_scan(controller) {
            count = count.saturating_add(1);
        }
    }
    count
}

/// Makes the scans up to a number, the last one after a line that says that its memory is taken.
fn print_scans(rt: &impl Print, alloc: Global, plant: &Plant, number: u32) -> Result<()>
    requires plant { CanRunPlant plant.now }
    requires number { number ≤ most_scans }
{
    let mut controllers = controllers_of(alloc, plant, number)?;
    for _ in 1..number {
        reserve(&mut controllers)?;
        make_scans(&mut controllers);
    }
    reserve(&mut controllers)?;
    println!(rt; "reserved")?;
    let count = make_scans(&mut controllers);
    let probe: Result<Vec<u8>, AllocError> = Vec::with_capacity(alloc, PROBE);
    let memory = if probe.is_err() { "refused" } else { "given" };
    println!(rt; "{count} scans made, and then memory was {memory}")?;
    Ok(())
}

fn main(rt: HostRuntime) -> Result<()> {
    let alloc = rt.alloc();
    let word = env::args(&rt)?.skip(1).next().context("which scan?")?;
    let number = u32::from(word.as_str().parse::<u16>()?);
    ensure!(number <= MOST_SCANS, "a plant has 2000 scans");
    let file = io::read_to_string(alloc, rt.reader())?;
    match load(alloc, Version::Two, file.as_bytes()) {
        Ok(plant) => print_scans(&rt, alloc, &plant, number),
        Err(LoadEnd::Refused(..)) => Err(anyhow!("the plant is refused")),
        Err(LoadEnd::NoMemory) => Err(AllocError.into()),
    }
}
