//! A plant with one controller, and what a search of its field finds.
ghost use Rattle.std.specs.Prelude.{All};
ghost use Rattle.plant_types.specs.Plans.{IsPlant};
ghost use Rattle.traffic_cop.specs.Rows.{IsRunnablePlan};

use field_machine::{Asked, Found, can_be_asked, is_alone, search_field};
use plant_loader::{Version, load};
use plant_types::{Plant, Ref, RefKind};
use std::alloc::{AllocGlobal, Global};
use std::process::Abort;
use std::test::Fail;

/// What is asked of a plant, and what must be found.
#[derive(Clone, Copy)]
pub(crate) struct Case {
    pub(crate) plant: &'static str,
    pub(crate) asked: Asked,
    pub(crate) limit: Option<usize>,
    pub(crate) found: &'static str,
}

/// A coil.
pub(crate) fn coil(number: u16) -> Asked {
    let kind = RefKind::Coil;
    Asked::On(Ref { kind, number })
}

/// What is found, in words.
fn told(alloc: Global, found: &Found) -> Result<String, Fail> {
    match found {
        Found::Holds { states } => Ok(format!(in alloc; "holds {states}")?),
        Found::Fails { ways } => Ok(format!(in alloc; "fails {ways:?}")?),
    }
}

/// What is found of the one controller of a plant.
fn found_in(
    alloc: Global,
    plant: &Plant,
    asked: Asked,
    limit: Option<usize>,
) -> Result<String, Fail>
    requires plant { IsPlant plant.now }
    requires runs { All IsRunnablePlan plant.now.controllers }
{
    let (time, watchdog) = (plant.scan_time, plant.watchdog);
    let [plan] = plant.controllers.as_slice() else {
        return Err("one controller")?;
    };
    if !is_alone(plan) || !can_be_asked(plan, asked) {
        return Err("not alone, or not asked")?;
    }
    let found = search_field(alloc, plan, time, watchdog, asked, limit)?;
    told(alloc, &found)
}

/// A search finds what its case says.
pub(crate) fn show(rt: &(impl Abort + AllocGlobal), case: &Case) -> Result<(), Fail> {
    let alloc = rt.alloc();
    let found = match load(alloc, Version::One, case.plant.as_bytes()) {
        Ok(plant) => found_in(alloc, &plant, case.asked, case.limit)?,
        Err(_) => return Err("a plant")?,
    };
    assert!(rt; found.as_str() == case.found, "{found}");
    Ok(())
}
