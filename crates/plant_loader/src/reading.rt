//! The whole file.
ghost use Rattle.std.specs.Prelude.{◌≡◌, IfOk};
ghost use Rattle.std.specs.List.{All};
ghost use Rattle.toml.specs.View.{table_view};
ghost use Rattle.plant_types.specs.Plans.{IsPlant};
ghost use Rattle.cell_text.specs.Steps.{or_fault};
ghost use Rattle.plant_tables.specs.Refusals.{Gives, bad_toml};
ghost use Rattle.plant_loader.specs.Plant.{document_of, version_from, is_read, version_of};
ghost use Rattle.plant_loader.specs.Plant.{read_top, HasFewTables, plant_with, plant_in, plant_at};
ghost use Rattle.plant_loader.specs.Plant.{plant_of};
ghost use Rattle.traffic_cop.specs.Rows.{IsRunnablePlan};
ghost use Rattle.controller_tables.specs.Accepted.{PassesDropTests};
ghost use Rattle.plant_loader.specs.Accepted.{IsOfVersionOne};

use crate::addresses::station_addresses;
use crate::bridges::bridges_of;
use crate::hosts::hosts_of;
use crate::top::{TopTable, top_at};
use crate::whole::{have_stations, plant_from};
use controller_tables::controllers_of;
use plant_tables::{LoadEnd, Refusal, Version, bad_toml, nets_of, value_at};
use plant_types::{Place, Plant, PlantFault};
use std::alloc::Global;
use std::str;
use toml::Table;

fn document(alloc: Global, bytes: &[u8]) -> Result<Table, LoadEnd>
    ensures { Gives table_view result (or_fault bad_toml (document_of bytes.now)) }
{
    let Ok(text) = str::from_utf8(bytes) else {
        return Err(bad_toml());
    };
    match toml::table_from_str(alloc, text) {
        Ok(table) => Ok(table),
        Err(e) => {
            if e.is_memory() {
                Err(LoadEnd::NoMemory)
            } else {
                Err(bad_toml())
            }
        }
    }
}

/// The version of a number, where it is one of a version.
fn version_from(number: i64) -> Option<Version>
    ensures { result ≡ version_from number }
{
    match number {
        1 => Some(Version::One),
        2 => Some(Version::Two),
        _ => None,
    }
}

/// Whether a version is read, where `newest` is the newest that is.
fn is_read(newest: Version, version: Version) -> bool
    ensures { result ≡ is_read newest version }
{
    match (newest, version) {
        (Version::One, Version::Two) => false,
        _ => true,
    }
}

/// The version that a document names.
#[tactic(auto, unfolding(crate::specs::Plant::version_of))]
fn version_of(newest: Version, top: &Table) -> Result<Version, Refusal>
    ensures { result ≡ version_of newest (table_view top.now) }
{
    let Some(value) = value_at(top, "version") else {
        return Err((PlantFault::BadKey, Place::PLANT));
    };
    let Some(number) = value.as_integer() else {
        return Err((PlantFault::BadValue, Place::PLANT));
    };
    let bad_version = (PlantFault::BadVersion, Place::PLANT);
    let Some(version) = version_from(number) else {
        return Err(bad_version);
    };
    if is_read(newest, version) {
        Ok(version)
    } else {
        Err(bad_version)
    }
}

/// The plant of the tables and the texts of a document's own table.
#[tactic(auto, unfolding(crate::specs::Plant::plant_with))]
fn plant_with(alloc: Global, version: Version, top: &TopTable) -> Result<Plant, LoadEnd>
    requires { HasFewTables top.now }
    ensures { Gives (λ plant. plant) result (plant_with version (read_top top.now)) }
{
    let nets = nets_of(alloc, version, top.shared, top.networks.as_slice())?;
    let tables = nets.tables.as_slice();
    let controllers = controllers_of(alloc, version, tables, top.controllers.as_slice())?;
    let placed = controllers.as_slice();
    let hosts = hosts_of(alloc, version, tables, placed, top.hosts.as_slice())?;
    let stations = station_addresses(alloc, placed, hosts.as_slice())?;
    let bridges = bridges_of(alloc, tables, stations.as_slice(), top.bridges.as_slice())?;
    have_stations(stations.as_slice(), tables)?;
    let (scan_time, watchdog) = (top.scan_time, top.watchdog);
    plant_from(
        alloc,
        scan_time,
        watchdog,
        nets,
        controllers,
        hosts,
        bridges,
    )
}

/// The plant of a document of a version.
#[tactic(auto, unfolding(crate::specs::Plant::plant_in))]
fn plant_in(alloc: Global, version: Version, top: &Table) -> Result<Plant, LoadEnd>
    ensures { Gives (λ plant. plant) result (plant_in version (table_view top.now)) }
{
    let table = top_at(alloc, version, top)?;
    plant_with(alloc, version, &table)
}

/// The plant of a document, whose version is tested before all else.
#[tactic(auto, unfolding(crate::specs::Plant::plant_at))]
fn plant_at(alloc: Global, newest: Version, top: &Table) -> Result<Plant, LoadEnd>
    ensures { Gives (λ plant. plant) result (plant_at newest (table_view top.now)) }
{
    let version = version_of(newest, top)?;
    plant_in(alloc, version, top)
}

/// Reads a plant of a version up to the newest that is read. The answer is the plant of the file,
/// or its first fault.
#[tactic(auto, unfolding(crate::specs::Plant::plant_of))]
pub fn load(alloc: Global, newest: Version, bytes: &[u8]) -> Result<Plant, LoadEnd>
    ensures plant { Gives (λ plant. plant) result (plant_of newest bytes.now) }

    // What is loaded passes its tests, and can be run.
    ensures checked { IfOk result (λ plant. IsPlant plant) }
    ensures first { newest ≡ Version.One → IfOk result (λ plant. IsOfVersionOne plant) }
    ensures drops { IfOk result (λ plant. All PassesDropTests plant.controllers) }
    ensures runnable { IfOk result (λ plant. All IsRunnablePlan plant.controllers) }
{
    let top = document(alloc, bytes)?;
    plant_at(alloc, newest, &top)
}
