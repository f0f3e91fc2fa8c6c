//! Runs: turns in a given order, and the serial run.
ghost use Rattle.std.specs.Prelude.{◌≡◌, ◌≤◌, IfOk};
ghost use Rattle.plant_types.specs.Limits.{most_scans};
ghost use Rattle.route_laws.specs.Effects.{EffectsAreRight};
ghost use Rattle.bridge_station.specs.TurnLaws.{IsInOneOrder};
ghost use Rattle.bridge_station.specs.EndTimes.{AreBridgesInTime};
ghost use Rattle.joint_history.specs.Complete.{IsComplete};
ghost use Rattle.joint_history.specs.JointLaws.{IsJoint, IsLegalJoint};
ghost use Rattle.serial_run.specs.Turns.{IsTurns};
ghost use Rattle.serial_run.specs.Serial.{IsSerial};
ghost use Rattle.serial_run.specs.Over.{AreOver, IsCountedRun, IsNotedRun};
ghost use Rattle.joint_history.specs.Runnable.{CanRunPlant};

use crate::coils::coils_of;
use crate::joining::noted_of;
use crate::order::Turn;
use crate::stations::Stations;
use bridge_station::{controllers_complete, hosts_complete, joint_is_in_one_order};
use controller_core::notes_ask_no_scans;
use joint_history::{Joint, Noted};
use plant_types::Plant;
use route_laws::effects_are_right;
use std::alloc::{AllocError, Global};

/// Makes turns one after another from the start of a plant, and gives what all stations, bridges
/// and rings noted. Workers keep to their budget of Passes. The only error is that memory ran out.
pub fn turns(alloc: Global, plant: &Plant, scans: u32, order: &[Turn]) -> Result<Joint, AllocError>
    requires plant { CanRunPlant plant.now }
    requires scans { scans ≤ most_scans }
    ensures turns { IfOk result (IsTurns plant.now scans order.now) }
    ensures legal { IfOk result (IsLegalJoint plant.now scans) }
    ensures joint { IfOk result IsJoint }
    ensures effects { IfOk result EffectsAreRight }
    ensures in_time { IfOk result (IsInOneOrder plant.now) }
    ensures bridges_in_time { IfOk result AreBridgesInTime }
{
    effects_are_right();
    joint_is_in_one_order();
    let mut run = Stations::new(alloc, plant, scans)?;
    for turn in order {
        run.turn(*turn)?;
    }
    let noted = noted_of(alloc, run)?;
    Ok(noted.joint)
}

/// What a serial run hands over, with how many coils of all controllers are on at its end. This
/// project's own.
#[derive(Drop)]
pub struct CountedRun {
    pub noted: Noted,
    pub coils: u128,
}

/// All stations of a plant after its serial run.
fn over(alloc: Global, plant: &Plant, scans: u32) -> Result<Stations, AllocError>
    requires plant { CanRunPlant plant.now }
    requires scans { scans ≤ most_scans }
    ensures { IfOk result (AreOver plant.now scans) }
{
    controllers_complete();
    hosts_complete();
    let mut run = Stations::new(alloc, plant, scans)?;
    run.repeat(plant.first_net().rotations)?;
    run.finish()?;
    Ok(run)
}

/// The serial run: the controllers make their scans, each node has its turns, and at the end each
/// leaves its ring. Gives what all stations, all bridges and the rings noted, and what the
/// controllers noted of their panels. The only error is that memory ran out.
pub fn run_noted(alloc: Global, plant: &Plant, scans: u32) -> Result<Noted, AllocError>
    requires plant { CanRunPlant plant.now }
    requires scans { scans ≤ most_scans }
    ensures { IfOk result (IsNotedRun plant.now scans) }
{
    effects_are_right();
    joint_is_in_one_order();
    notes_ask_no_scans();
    let run = over(alloc, plant, scans)?;
    noted_of(alloc, run)
}

/// What `run_noted` gives, with how many coils are on at the end of the run. The only error is that
/// memory ran out.
pub fn run_counted(alloc: Global, plant: &Plant, scans: u32) -> Result<CountedRun, AllocError>
    requires plant { CanRunPlant plant.now }
    requires scans { scans ≤ most_scans }
    ensures { IfOk result (IsCountedRun plant.now scans) }
{
    effects_are_right();
    joint_is_in_one_order();
    notes_ask_no_scans();
    let run = over(alloc, plant, scans)?;
    let coils = coils_of(plant.controllers.as_slice(), run.controllers.as_slice());
    let noted = noted_of(alloc, run)?;
    Ok(CountedRun { noted, coils })
}

/// The joint history of `run_noted` alone.
pub fn run(alloc: Global, plant: &Plant, scans: u32) -> Result<Joint, AllocError>
    requires plant { CanRunPlant plant.now }
    requires scans { scans ≤ most_scans }
    ensures serial { IfOk result (IsSerial plant.now scans) }
    ensures legal { IfOk result (IsLegalJoint plant.now scans) }
    ensures joint { IfOk result IsJoint }
    ensures effects { IfOk result EffectsAreRight }
    ensures in_time { IfOk result (IsInOneOrder plant.now) }
    ensures bridges_in_time { IfOk result AreBridgesInTime }
    ensures complete { IfOk result (IsComplete plant.now scans) }
{
    let noted = run_noted(alloc, plant, scans)?;
    Ok(noted.joint)
}
