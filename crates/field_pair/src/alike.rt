//! Which controllers can be compared side by side.
ghost use Rattle.std.specs.Prelude.{◌≡◌, ◌↔◌, IfOk, IsTrue, option_map};
ghost use Rattle.state_space.specs.Reaching.{IsBelow};
ghost use Rattle.traffic_cop.specs.Drops.{drop_named};
ghost use Rattle.side_runs.specs.Beside.{AreAlikeDrops, TakeTheSame};
ghost use Rattle.field_pair.specs.Alike.{IsFirstDifference};
ghost use Rattle.field_pair.specs.Least.{IsFirstUnlike, IsLeastUnlike, lesser};

use crate::rows::has_rows_of;
use plant_types::{ControllerPlan, IoDrop, Module, Ref};
use std::alloc::{AllocError, Global};

/// The first thing in which two controllers differ that keeps them from being compared. This
/// project's own.
#[derive(Clone, Copy, Debug, PartialEq, Eq)]
pub enum Difference {
    /// What their panels show, or in which order.
    Panel,
    /// Their scan times.
    ScanTime,
    /// One has a drop of this number and the other has not, or its modules or its set of rows
    /// differ.
    Drop(u8),
}

/// Whether two panels are one.
fn have_one_panel(old: &[Ref], new: &[Ref]) -> bool
    ensures { IsTrue result ↔ (old.now ≡ new.now) }
{
    old == new
}

/// Whether two drops have the same modules.
fn have_same_modules(old: &[Module], new: &[Module]) -> bool
    ensures { IsTrue result ↔ (old.now ≡ new.now) }
{
    old == new
}

/// The first drop of a number, if there is one.
fn named(drops: &[IoDrop], number: u8) -> Option<&IoDrop>
    ensures { option_map (λ drop. drop.now) result ≡ drop_named drops.now number }
{
    for drop in drops {
        if drop.number == number {
            return Some(drop);
        }
    }
    None
}

/// Whether two drops take one field.
fn take_the_same(alloc: Global, old: &IoDrop, new: &IoDrop) -> Result<bool, AllocError>
    ensures { IfOk result (λ same. IsTrue same ↔ TakeTheSame old.now new.now) }
{
    let (one, other) = (old.script.as_slice(), new.script.as_slice());
    if !have_same_modules(old.modules.as_slice(), new.modules.as_slice()) {
        return Ok(false);
    }
    Ok(has_rows_of(alloc, one, other)? && has_rows_of(alloc, other, one)?)
}

/// Whether the drops of a number take one field, or there are none.
fn are_alike(alloc: Global, old: &[IoDrop], new: &[IoDrop], number: u8) -> Result<bool, AllocError>
    ensures { IfOk result (λ alike. IsTrue alike
        ↔ AreAlikeDrops (drop_named old.now number) (drop_named new.now number)) }
{
    match (named(old, number), named(new, number)) {
        (Some(one), Some(other)) => take_the_same(alloc, one, other),
        (None, None) => Ok(true),
        _ => Ok(false),
    }
}

/// Whether a number is less than another, if there is one.
fn is_less(number: u8, least: Option<u8>) -> bool
    ensures { IsTrue result ↔ IsBelow least number }
{
    match least {
        Some(least) => number < least,
        None => true,
    }
}

/// The least number of these drops by which two controllers are not alike, if there is one.
fn least_unlike(
    alloc: Global,
    looked: &[IoDrop],
    old: &[IoDrop],
    new: &[IoDrop],
) -> Result<Option<u8>, AllocError>
    ensures { IfOk result (IsLeastUnlike old.now new.now looked.now) }
{
    let mut least = None;
    for drop in looked {
        let number = drop.number;
        if is_less(number, least) && !are_alike(alloc, old, new, number)? {
            least = Some(number);
        }
    }
    Ok(least)
}

/// The lesser of two numbers, if there is one.
fn lesser(one: Option<u8>, other: Option<u8>) -> Option<u8>
    ensures { result ≡ lesser one other }
{
    match (one, other) {
        (Some(one), Some(other)) => Some(one.min(other)),
        (None, other) => other,
        (one, None) => one,
    }
}

/// The drop of the least number that keeps two controllers from being compared.
fn first_drop(alloc: Global, old: &[IoDrop], new: &[IoDrop]) -> Result<Option<u8>, AllocError>
    ensures { IfOk result (IsFirstUnlike old.now new.now) }
{
    let one = least_unlike(alloc, old, old, new)?;
    let other = least_unlike(alloc, new, old, new)?;
    Ok(lesser(one, other))
}

/// The first thing in which two controllers differ: the panel, the scan time, or the drop of the
/// least number; none where they can be compared. Takes time in proportion to their scripts.
pub fn first_difference(
    alloc: Global,
    old: &ControllerPlan,
    new: &ControllerPlan,
    old_time: u32,
    new_time: u32,
) -> Result<Option<Difference>, AllocError>
    ensures { IfOk result (IsFirstDifference old.now new.now old_time new_time) }
{
    if !have_one_panel(old.panel.as_slice(), new.panel.as_slice()) {
        return Ok(Some(Difference::Panel));
    }
    if old_time != new_time {
        return Ok(Some(Difference::ScanTime));
    }
    match first_drop(alloc, old.drops.as_slice(), new.drops.as_slice())? {
        Some(number) => Ok(Some(Difference::Drop(number))),
        None => Ok(None),
    }
}
