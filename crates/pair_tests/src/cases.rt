//! Two plants with one controller each, and what is told of all runs of both side by side.
ghost use Rattle.std.specs.Prelude.{All};
ghost use Rattle.plant_types.specs.Plans.{IsPlant};
ghost use Rattle.traffic_cop.specs.Rows.{IsRunnablePlan};

use plant_loader::{Version, load};
use plant_types::Plant;
use same_text::{Difference, SameEnd, first_difference, is_alone, same_answer};
use std::alloc::{AllocGlobal, Global};
use std::process::Abort;
use std::test::Fail;

/// An old plant, a new one, how deep their runs are looked at, and what must be told.
#[derive(Clone, Copy)]
pub(crate) struct Case {
    pub(crate) old: &'static str,
    pub(crate) new: &'static str,
    pub(crate) depth: Option<u32>,
    pub(crate) told: &'static str,
}

/// What keeps the controllers of two plants from being compared.
fn difference_of(alloc: Global, old: &Plant, new: &Plant) -> Result<Option<Difference>, Fail> {
    let [one] = old.controllers.as_slice() else {
        return Err("one controller")?;
    };
    let [other] = new.controllers.as_slice() else {
        return Err("one controller")?;
    };
    Ok(first_difference(alloc, one, other, old.scan_time, new.scan_time)?)
}

/// What is told of the controllers of two plants.
fn told_of(alloc: Global, old: &Plant, new: &Plant, depth: Option<u32>) -> Result<Vec<u8>, Fail>
    requires old { IsPlant old.now }
    requires new { IsPlant new.now }
    requires old_runs { All IsRunnablePlan old.now.controllers }
    requires new_runs { All IsRunnablePlan new.now.controllers }
{
    let [one] = old.controllers.as_slice() else {
        return Err("one controller")?;
    };
    let [other] = new.controllers.as_slice() else {
        return Err("one controller")?;
    };
    if !is_alone(one) || !is_alone(other) {
        return Err("not alone")?;
    }
    let (old_time, new_time) = (old.scan_time, new.scan_time);
    if let Some(_) = first_difference(alloc, one, other, old_time, new_time)? {
        return Err("not alike")?;
    }
    let (old_watchdog, new_watchdog) = (old.watchdog, new.watchdog);
    match same_answer(
        alloc,
        one,
        other,
        old_time,
        old_watchdog,
        new_watchdog,
        depth,
    )? {
        SameEnd::Same(text) | SameEnd::Differ(text) => Ok(text),
    }
}

/// The answer tells what its case says.
pub(crate) fn show(rt: &(impl Abort + AllocGlobal), case: &Case) -> Result<(), Fail> {
    let alloc = rt.alloc();
    let Ok(old) = load(alloc, Version::One, case.old.as_bytes()) else {
        return Err("an old plant")?;
    };
    let Ok(new) = load(alloc, Version::One, case.new.as_bytes()) else {
        return Err("a new plant")?;
    };
    let told = told_of(alloc, &old, &new, case.depth)?;
    assert!(rt; told.as_slice() == case.told.as_bytes());
    Ok(())
}

/// Two plants differ in this first.
pub(crate) fn differ(
    rt: &(impl Abort + AllocGlobal),
    old: &str,
    new: &str,
    first: Option<Difference>,
) -> Result<(), Fail> {
    let alloc = rt.alloc();
    let Ok(old) = load(alloc, Version::One, old.as_bytes()) else {
        return Err("an old plant")?;
    };
    let Ok(new) = load(alloc, Version::One, new.as_bytes()) else {
        return Err("a new plant")?;
    };
    assert!(rt; difference_of(alloc, &old, &new)? == first);
    Ok(())
}
