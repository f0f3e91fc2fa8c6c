//! A plant with one controller, its scans, and a standby of it.
ghost use Rattle.std.specs.Prelude.{◌≤◌, ◌<◌, ◌^◌, All, length};
ghost use Rattle.plant_types.specs.Limits.{most_scans};
ghost use Rattle.plant_types.specs.Plans.{IsPlant};
ghost use Rattle.traffic_cop.specs.Rows.{IsRunnablePlan};

use controller_core::Entry;
use hot_standby::{Packet, Standby, StandbyNo, Taken};
use panel_session::run_session;
use plant_loader::{Version, load};
use plant_types::{Copied, List, MOST_SCANS, Plant};
use std::alloc::Global;
use std::test::Fail;

/// What a primary made, and a standby that holds nothing yet.
#[derive(Drop)]
pub(crate) struct Pair {
    pub(crate) made: List<Entry>,
    pub(crate) standby: Standby,
}

/// That of the one controller of a plant.
fn pair_in(alloc: Global, plant: &Plant, scans: u32, stream: &[u8]) -> Result<Pair, Fail>
    requires plant { IsPlant plant.now }
    requires runs { All IsRunnablePlan plant.now.controllers }
    requires some { 1 ≤ scans }
    requires most { scans ≤ most_scans }
    requires short { length stream.now < 2 ^ 32 }
{
    let (time, watchdog) = (plant.scan_time, plant.watchdog);
    let [plan] = plant.controllers.as_slice() else {
        return Err("one controller")?;
    };
    let session = run_session(alloc, plan, time, watchdog, scans, stream)?;
    let standby = Standby::new(alloc, plan, time, watchdog, scans)?;
    Ok(Pair {
        made: session.history,
        standby,
    })
}

/// The same of the text of a plant.
pub(crate) fn pair_of(alloc: Global, plant: &str, scans: u32, stream: &str) -> Result<Pair, Fail> {
    if scans == 0 || scans > MOST_SCANS || stream.len() > 2000 {
        return Err("a session")?;
    }
    match load(alloc, Version::One, plant.as_bytes()) {
        Ok(plant) => pair_in(alloc, &plant, scans, stream.as_bytes()),
        Err(_) => Err("a plant")?,
    }
}

/// Whether an entry begins a scan.
fn begins(entry: &Entry) -> bool {
    matches!(entry, Entry::Begin | Entry::Dark)
}

/// The entries of one scan, from its Begin or Dark to the next.
pub(crate) fn part_of(alloc: Global, made: &[Entry], scan: u32) -> Result<List<Entry>, Fail> {
    let mut begun: u32 = 0;
    let mut part = List::new(alloc);
    for entry in made {
        if begins(entry) {
            begun = begun.saturating_add(1);
        }
        if begun == scan {
            part.push(entry.copied(alloc)?)?;
        }
    }
    Ok(part)
}

/// What a standby answers to a packet; nothing where it has failed before.
pub(crate) fn answer(
    standby: &mut Standby,
    scan: u32,
    entries: List<Entry>,
) -> Option<Result<Taken, StandbyNo>> {
    if standby.has_failed() {
        return None;
    }
    Some(standby.take(&Packet {
        scan,
        acked: 0,
        entries,
    }))
}
