//! The table of the file as a whole.
ghost use Rattle.std.specs.Prelude.{◌≡◌, ◌≤◌, length, IfOk};
ghost use Rattle.toml.specs.View.{table_view};
ghost use Rattle.plant_tables.specs.Given.{tables_in, texts_in};
ghost use Rattle.plant_tables.specs.Refusals.{Gives, plant_place};
ghost use Rattle.plant_loader.specs.Plant.{some_tables_at, network_tables, bridge_texts, read_top};
ghost use Rattle.plant_loader.specs.Plant.{HasFewTables, top_at};

use plant_tables::{
    LoadEnd, TableKind, Version, number_at_or, table_at, table_passes, tables_at, texts_at,
};
use plant_types::{
    BRIDGE_LIMIT, CONTROLLER_LIMIT, HOST_LIMIT, NET_LIMIT, Place, PlantFault, SCAN_TIME_LIMIT,
    WATCHDOG_LIMIT,
};
use std::alloc::Global;
use toml::Table;

/// The numbers, tables and texts of the file's own table.
pub struct TopTable<'a> {
    pub scan_time: u32,
    pub watchdog: u32,
    /// What all networks share, where it is there.
    pub shared: Option<&'a Table>,
    pub networks: Vec<&'a Table>,
    pub controllers: Vec<&'a Table>,
    pub hosts: Vec<&'a Table>,
    pub bridges: Vec<&'a str>,
}

impl Drop for TopTable<'_> {
    fn drop(self) {
        let TopTable {
            scan_time: _,
            watchdog: _,
            shared: _,
            networks: _,
            controllers: _,
            hosts: _,
            bridges: _,
        } = self;
    }
}

/// The tables of the array at a key, which must have one at least.
fn some_tables_at<'a>(
    alloc: Global,
    most: usize,
    key: &str,
    top: &'a Table,
) -> Result<Vec<&'a Table>, LoadEnd>
    ensures read { Gives (λ tables. tables_in tables.items) result
        (some_tables_at plant_place most key.now (table_view top.now)) }
    ensures few { IfOk result (λ tables. length tables.items ≤ most) }
{
    let tables = tables_at(alloc, Place::PLANT, most, key, top)?;
    if tables.is_empty() {
        return Err(LoadEnd::Refused(PlantFault::BadValue, Place::PLANT));
    }
    Ok(tables)
}

/// The tables of the networks, which stand in version 2 alone.
fn network_tables<'a>(
    alloc: Global,
    version: Version,
    top: &'a Table,
) -> Result<Vec<&'a Table>, LoadEnd>
    ensures read { Gives (λ tables. tables_in tables.items) result
        (network_tables version (table_view top.now)) }
    ensures few { IfOk result (λ tables. length tables.items ≤ NET_LIMIT) }
{
    match version {
        Version::One => Ok(Vec::new(alloc)),
        Version::Two => some_tables_at(alloc, usize::from(NET_LIMIT), "network", top),
    }
}

/// The texts of the bridges, which stand there alone too.
fn bridge_texts<'a>(
    alloc: Global,
    version: Version,
    top: &'a Table,
) -> Result<Vec<&'a str>, LoadEnd>
    ensures read { Gives (λ texts. texts_in texts.items) result
        (bridge_texts version (table_view top.now)) }
    ensures few { IfOk result (λ texts. length texts.items ≤ BRIDGE_LIMIT) }
{
    match version {
        Version::One => Ok(Vec::new(alloc)),
        Version::Two => texts_at(alloc, Place::PLANT, BRIDGE_LIMIT, "bridges", top),
    }
}

/// The table of a document of a version.
#[tactic(auto, unfolding(crate::specs::Plant::top_at))]
pub fn top_at<'a>(alloc: Global, version: Version, top: &'a Table) -> Result<TopTable<'a>, LoadEnd>
    ensures read { Gives read_top result (top_at version (table_view top.now)) }
    ensures few { IfOk result (λ table. HasFewTables table) }
{
    table_passes(Place::PLANT, TableKind::Plant(version), top)?;
    let scan_time = number_at_or(Place::PLANT, "scan_time", 10, 1, SCAN_TIME_LIMIT, top)?;
    let watchdog = number_at_or(Place::PLANT, "watchdog", 500, 1, WATCHDOG_LIMIT, top)?;
    let shared = table_at(Place::PLANT, "net", top)?;
    let networks = network_tables(alloc, version, top)?;
    let controllers = some_tables_at(alloc, CONTROLLER_LIMIT, "controller", top)?;
    let hosts = tables_at(alloc, Place::PLANT, HOST_LIMIT, "host", top)?;
    let bridges = bridge_texts(alloc, version, top)?;
    Ok(TopTable {
        scan_time,
        watchdog,
        shared,
        networks,
        controllers,
        hosts,
        bridges,
    })
}
