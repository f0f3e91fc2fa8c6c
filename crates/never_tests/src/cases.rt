//! A plant with one controller, and what is told of all runs of its field.
ghost use Rattle.std.specs.Prelude.{All};
ghost use Rattle.plant_types.specs.Plans.{IsPlant};
ghost use Rattle.traffic_cop.specs.Rows.{IsRunnablePlan};

use field_machine::{Asked, can_be_asked, is_alone};
use never_text::{NeverEnd, never_answer};
use plant_loader::{Version, load};
use plant_types::{Plant, Ref, RefKind};
use std::alloc::{AllocGlobal, Global};
use std::process::Abort;
use std::test::Fail;

/// What is asked of a plant, and what must be told.
#[derive(Clone, Copy)]
pub(crate) struct Case {
    pub(crate) plant: &'static str,
    pub(crate) asked: Asked,
    pub(crate) depth: Option<u32>,
    pub(crate) told: &'static str,
}

/// Whether two pumps run together.
pub(crate) fn both() -> Asked {
    Asked::On(Ref {
        kind: RefKind::Coil,
        number: 16,
    })
}

/// What is told of the one controller of a plant.
fn told_of(alloc: Global, plant: &Plant, asked: Asked, depth: Option<u32>) -> Result<Vec<u8>, Fail>
    requires plant { IsPlant plant.now }
    requires runs { All IsRunnablePlan plant.now.controllers }
{
    let (time, watchdog) = (plant.scan_time, plant.watchdog);
    let [plan] = plant.controllers.as_slice() else {
        return Err("one controller")?;
    };
    if !is_alone(plan) || !can_be_asked(plan, asked) {
        return Err("not alone, or not asked")?;
    }
    match never_answer(alloc, plan, time, watchdog, asked, depth)? {
        NeverEnd::Holds(text) | NeverEnd::Fails(text) => Ok(text),
    }
}

/// The answer tells what its case says.
pub(crate) fn show(rt: &(impl Abort + AllocGlobal), case: &Case) -> Result<(), Fail> {
    let alloc = rt.alloc();
    let told = match load(alloc, Version::One, case.plant.as_bytes()) {
        Ok(plant) => told_of(alloc, &plant, case.asked, case.depth)?,
        Err(_) => return Err("a plant")?,
    };
    assert!(rt; told.as_slice() == case.told.as_bytes());
    Ok(())
}
