//! A plant with one controller, and its session.
ghost use Rattle.std.specs.Prelude.{◌≤◌, ◌<◌, ◌^◌, All, length};
ghost use Rattle.plant_types.specs.Limits.{most_scans};
ghost use Rattle.plant_types.specs.Plans.{IsPlant};
ghost use Rattle.traffic_cop.specs.Rows.{IsRunnablePlan};

use panel_session::{Session, run_session};
use plant_loader::{Version, load};
use plant_types::{MOST_SCANS, Plant};
use std::alloc::{AllocGlobal, Global};
use std::process::Abort;
use std::test::Fail;

/// A session, and what it must write.
pub(crate) struct Case {
    pub(crate) plant: &'static str,
    pub(crate) scans: u32,
    pub(crate) stream: &'static str,
    pub(crate) text: &'static str,
}

/// The session of the one controller of a plant.
fn session_in(alloc: Global, plant: &Plant, scans: u32, stream: &[u8]) -> Result<Session, Fail>
    requires plant { IsPlant plant.now }
    requires runs { All IsRunnablePlan plant.now.controllers }
    requires some { 1 ≤ scans }
    requires most { scans ≤ most_scans }
    requires short { length stream.now < 2 ^ 32 }
{
    let (time, watchdog) = (plant.scan_time, plant.watchdog);
    let [plan] = plant.controllers.as_slice() else {
        return Err("one controller")?;
    };
    Ok(run_session(alloc, plan, time, watchdog, scans, stream)?)
}

/// The same of the text of a plant.
pub(crate) fn session_of(
    alloc: Global,
    plant: &str,
    scans: u32,
    stream: &[u8],
) -> Result<Session, Fail> {
    if scans == 0 || scans > MOST_SCANS || stream.len() > 2000 {
        return Err("a session")?;
    }
    match load(alloc, Version::One, plant.as_bytes()) {
        Ok(plant) => session_in(alloc, &plant, scans, stream),
        Err(_) => Err("a plant")?,
    }
}

/// A session writes what its case says.
pub(crate) fn show(rt: &(impl Abort + AllocGlobal), case: &Case) -> Result<(), Fail> {
    let session = session_of(rt.alloc(), case.plant, case.scans, case.stream.as_bytes())?;
    assert!(rt;
        session.text.as_slice() == case.text.as_bytes(),
        "{}",
        case.stream
    );
    Ok(())
}
