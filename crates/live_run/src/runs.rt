//! The whole run.
ghost use Rattle.std.specs.Prelude.{◌≡◌, ◌≤◌, true, false, IfOk, map};
ghost use Rattle.std.specs.List.{AllZip};
ghost use Rattle.plant_types.specs.Limits.{most_scans};
ghost use Rattle.joint_history.specs.Complete.{IsComplete};
ghost use Rattle.joint_history.specs.JointLaws.{IsJoint, IsLegalJoint};
ghost use Rattle.joint_history.specs.Nets.{noted_on_rings};
ghost use Rattle.joint_history.specs.Noted.{IsNoted};
ghost use Rattle.joint_history.specs.Runnable.{CanRunPlant};
ghost use Rattle.route_laws.specs.Effects.{EffectsAreRight};
ghost use Rattle.live_workers.specs.EndTimes.{AreBridgesInTime};
ghost use Rattle.entry_causes.specs.Joint.{IsInOneOrder};
ghost use Rattle.live_workers.specs.TurnLaws.{NoneSpent};
ghost use Rattle.live_run.specs.Closing.{IsClosable, IsOpened, net_of_gate};
ghost use Rattle.live_run.specs.Runs.{IsOutcome, IsRoomFor};

use crate::dealing::{deal, deal_ends, gather, gather_ends};
use crate::homes::RingHome;
use crate::lists::noted_of;
use crate::rings::{Rings, close_all, open_all};
use controller_core::notes_ask_no_scans;
use entry_causes::joint_is_in_one_order;
use gated_sides::{Meet, RingCell};
use joint_history::{BridgeLog, HostLog, Joint, Noted};
use live_workers::{
    Crew, Ends, NotedLog, Run, Station, controllers_complete, hosts_complete, run_all,
};
use plant_types::Plant;
use route_laws::effects_are_right;
use std::alloc::{AllocError, Global};
use std::sync::Wait;
use std::thread::Threads;
use std::time::Clock;
use turn_gate::Pass;

/// What a run of all stations comes to.
struct Outcome {
    controllers: Vec<NotedLog>,
    hosts: Vec<HostLog>,
    bridges: Vec<BridgeLog>,
    done: bool,
}

/// A run that could not begin.
fn not_begun(alloc: Global) -> Outcome
    ensures { result.done ≡ false }
{
    Outcome {
        controllers: Vec::new(alloc),
        hosts: Vec::new(alloc),
        bridges: Vec::new(alloc),
        done: false,
    }
}

/// The stations of a run.
struct Stations<G> {
    controllers: Vec<Station<G, NotedLog>>,
    hosts: Vec<Station<G, HostLog>>,
    bridges: Vec<Station<Ends<G>, BridgeLog>>,
}

/// Room for the stations of a plant.
fn room_for<G>(alloc: Global, plant: &Plant) -> Result<Stations<G>, AllocError>
    ensures { IfOk result (IsRoomFor plant.now) }
{
    let controllers = Vec::with_capacity(alloc, plant.controllers.as_slice().len())?;
    let Ok(hosts) = Vec::with_capacity(alloc, plant.hosts.as_slice().len()) else {
        controllers.destroy_empty();
        return Err(AllocError);
    };
    let Ok(bridges) = Vec::with_capacity(alloc, plant.bridges.as_slice().len()) else {
        controllers.destroy_empty();
        hosts.destroy_empty();
        return Err(AllocError);
    };
    Ok(Stations {
        controllers,
        hosts,
        bridges,
    })
}

/// Runs all stations through the gates of the rings, if all of these are there.
fn through_rings<M: Meet + Sync, R: Threads + Wait + Clock + Sync>(
    run: &Run<'_, M, R>,
    homes: &[RingHome],
    purses: &mut [Option<Pass<RingCell>>],
) -> Outcome
    requires plant { CanRunPlant run.now.plant.now }
    requires scans { run.now.scans ≤ most_scans }
    requires nets { map net_of_gate homes.now ≡ run.now.plant.now.nets }
    requires opened { AllZip IsOpened homes.now purses.old }
    ensures { IsOutcome run.now.plant.now run.now.scans homes.now purses.new result }
{
    let Ok(room) = room_for(run.alloc, run.plant) else {
        return not_begun(run.alloc);
    };
    let Stations {
        controllers,
        hosts,
        bridges,
    } = room;
    let plans = run.plant.controllers.as_slice();
    let host_plans = run.plant.hosts.as_slice();
    let bridge_plans = run.plant.bridges.as_slice();
    let mut controllers = deal(run, homes, purses, plans, controllers);
    let mut hosts = deal(run, homes, purses, host_plans, hosts);
    let mut bridges = deal_ends(run, homes, purses, bridge_plans, bridges);
    run_all(
        run,
        controllers.as_mut_slice(),
        hosts.as_mut_slice(),
        bridges.as_mut_slice(),
    );
    let (controllers, ran) = gather(homes, purses, plans, controllers, run.alloc);
    let (hosts, served) = gather(homes, purses, host_plans, hosts, run.alloc);
    let (bridges, crossed) = gather_ends(homes, purses, bridge_plans, bridges, run.alloc);
    Outcome {
        controllers,
        hosts,
        bridges,
        done: ran & served & crossed,
    }
}

/// Runs all stations, where the gates of all rings are there.
fn run_over<M: Meet + Sync, R: Threads + Wait + Clock + Sync>(
    run: &Run<'_, M, R>,
    rings: &mut Rings,
) -> Outcome
    requires plant { CanRunPlant run.now.plant.now }
    requires scans { run.now.scans ≤ most_scans }
    requires nets { rings.old.whole ≡ true
        → map net_of_gate rings.old.homes.items ≡ run.now.plant.now.nets }
    requires opened { AllZip IsOpened rings.old.homes.items rings.old.purses.items }
    ensures homes { rings.new.homes.items ≡ rings.old.homes.items }
    ensures closable { AllZip IsClosable rings.new.homes.items rings.new.purses.items }
    ensures whole { result.done ≡ true → rings.old.whole ≡ true }
    ensures outcome { result.done ≡ true → IsOutcome run.now.plant.now run.now.scans
        rings.new.homes.items rings.new.purses.items result }
{
    if rings.whole {
        through_rings(run, rings.homes.as_slice(), rings.purses.as_mut_slice())
    } else {
        not_begun(run.alloc)
    }
}

/// Runs a plant in threads, where threads can be made: each controller with its scan worker and its
/// communication worker behind a gate, each host with its worker, each bridge with the workers of
/// its two ends behind a gate, and each ring behind a gate. The workers have no budget. Beside the
/// joint history stands what each controller noted of its panel. The only error is that memory ran
/// out.
pub fn live_noted<M: Meet + Sync, R: Threads + Wait + Clock + Sync>(
    rt: &R,
    alloc: Global,
    plant: &Plant,
    scans: u32,
    meet: &M,
) -> Result<Noted, AllocError>
    requires plant { CanRunPlant plant.now }
    requires scans { scans ≤ most_scans }
    ensures legal { IfOk result (λ noted. IsLegalJoint plant.now scans noted.joint) }
    ensures joint { IfOk result (λ noted. IsJoint noted.joint) }
    ensures complete { IfOk result (λ noted. IsComplete plant.now scans noted.joint) }
    ensures unspent { IfOk result (λ noted. NoneSpent (noted_on_rings noted.joint)) }
    ensures effects { IfOk result (λ noted. EffectsAreRight noted.joint) }
    ensures in_time { IfOk result (λ noted. IsInOneOrder plant.now noted.joint) }
    ensures bridges_in_time { IfOk result (λ noted. AreBridgesInTime noted.joint) }
    ensures noted { IfOk result (IsNoted plant.now) }
{
    effects_are_right();
    controllers_complete();
    hosts_complete();
    joint_is_in_one_order();
    notes_ask_no_scans();
    let crew = Crew::new(alloc, plant)?;
    let run = Run::new(rt, &crew, meet, plant, alloc, scans);
    let mut rings = open_all(alloc, plant.nets.as_slice())?;
    let Outcome {
        controllers,
        hosts,
        bridges,
        done,
    } = run_over(&run, &mut rings);
    let (rings, closed) = close_all(alloc, rings);
    if !(done & closed) {
        return Err(AllocError);
    }
    noted_of(alloc, controllers, hosts, bridges, rings)
}

/// The joint history of a run in threads alone, as `live_noted` makes it.
pub fn live<M: Meet + Sync, R: Threads + Wait + Clock + Sync>(
    rt: &R,
    alloc: Global,
    plant: &Plant,
    scans: u32,
    meet: &M,
) -> Result<Joint, AllocError>
    requires plant { CanRunPlant plant.now }
    requires scans { scans ≤ most_scans }
    ensures legal { IfOk result (IsLegalJoint plant.now scans) }
    ensures joint { IfOk result IsJoint }
    ensures complete { IfOk result (IsComplete plant.now scans) }
    ensures unspent { IfOk result (λ joint. NoneSpent (noted_on_rings joint)) }
    ensures effects { IfOk result EffectsAreRight }
    ensures in_time { IfOk result (IsInOneOrder plant.now) }
    ensures bridges_in_time { IfOk result AreBridgesInTime }
{
    let Noted { joint, notes: _ } = live_noted(rt, alloc, plant, scans, meet)?;
    Ok(joint)
}
