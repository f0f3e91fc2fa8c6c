//! The joint history of stations whose run is over.
ghost use Rattle.std.specs.Prelude.{◌≡◌, IfOk, map};
ghost use Rattle.serial_run.specs.Stations.{joint_of, host_log_of, log_of, log_of_ring};
ghost use Rattle.serial_run.specs.Stations.{log_of_site, station_notes};

use crate::stations::{BridgeSite, ControllerStation, HostStation, RingStation, Stations};
use controller_core::Notes;
use joint_history::{BridgeLog, ControllerLog, HostLog, Joint, Noted, RingLog};
use plant_types::List;
use std::alloc::{AllocError, Global};

/// The histories of controllers, and what each noted of its panel.
fn logs_of(
    alloc: Global,
    stations: Vec<ControllerStation>,
) -> Result<(List<ControllerLog>, List<Notes>), AllocError>
    ensures logs { IfOk result (λ made. made.0 ≡ map log_of stations.items) }
    ensures notes { IfOk result (λ made. made.1 ≡ map station_notes stations.items) }
{
    let mut logs = Vec::new(alloc);
    let mut notes = Vec::new(alloc);
    for station in stations {
        let node = station.node;
        let (entries, noted) = station.controller.into_parts();
        logs.push(ControllerLog { node, entries })?;
        notes.push(noted)?;
    }
    Ok((List::from_vec(logs), List::from_vec(notes)))
}

fn host_logs_of(alloc: Global, stations: Vec<HostStation>) -> Result<List<HostLog>, AllocError>
    ensures { IfOk result (λ logs. logs ≡ map host_log_of stations.items) }
{
    let mut logs = Vec::new(alloc);
    for station in stations {
        logs.push(HostLog {
            node: station.node,
            entries: station.host.into_history(),
        })?;
    }
    Ok(List::from_vec(logs))
}

fn bridge_logs_of(alloc: Global, sites: Vec<BridgeSite>) -> Result<List<BridgeLog>, AllocError>
    ensures { IfOk result (λ logs. logs ≡ map log_of_site sites.items) }
{
    let mut logs = Vec::new(alloc);
    for site in sites {
        logs.push(site.station.into_log())?;
    }
    Ok(List::from_vec(logs))
}

fn ring_logs_of(alloc: Global, stations: Vec<RingStation>) -> Result<List<RingLog>, AllocError>
    ensures { IfOk result (λ logs. logs ≡ map log_of_ring stations.items) }
{
    let mut logs = Vec::new(alloc);
    for station in stations {
        logs.push(RingLog {
            network: station.network,
            entries: station.ring.into_history(),
        })?;
    }
    Ok(List::from_vec(logs))
}

/// The histories of all stations, and what the controllers noted of their panels. The only error
/// is that memory ran out.
pub fn noted_of(alloc: Global, run: Stations) -> Result<Noted, AllocError>
    ensures joint { IfOk result (λ noted. noted.joint ≡ joint_of run) }
    ensures notes { IfOk result (λ noted. noted.notes ≡ map station_notes run.controllers.items) }
{
    let (controllers, notes) = logs_of(alloc, run.controllers)?;
    let hosts = host_logs_of(alloc, run.hosts)?;
    let bridges = bridge_logs_of(alloc, run.bridges)?;
    let rings = ring_logs_of(alloc, run.rings)?;
    let joint = Joint {
        controllers,
        hosts,
        bridges,
        rings,
    };
    Ok(Noted { joint, notes })
}
