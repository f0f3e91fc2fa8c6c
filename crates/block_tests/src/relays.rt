//! The relays against the table of elements, every case worked out by hand.
ghost use Rattle.std.specs.Prelude.{◌≡◌, IfOk, true};
ghost use Rattle.plant_types.specs.Reference.{is_discrete};
ghost use Rattle.plant_types.specs.Store.{HasDiscrete};

use plant_types::{MapRam, Ref, RefKind, RefStore};
use relay_ops::{ContactKind, coil, contact};
use std::alloc::Global;
use std::process::Abort;
use std::test::Fail;

const PUMP: Ref = Ref {
    kind: RefKind::Coil,
    number: 3,
};

const LIMIT_SWITCH: Ref = Ref {
    kind: RefKind::Input,
    number: 16,
};

/// A store whose one discrete of interest is on or off.
fn store(alloc: Global, rt: &impl Abort, at: Ref, on: bool) -> Result<MapRam, Fail>
    requires { is_discrete at.kind ≡ true }
    ensures { IfOk result (λ ram. HasDiscrete ram at) }
{
    let mut ram = MapRam::new(alloc, 16, 16, 2, 2)?;
    assert!(rt; ram.has(at));
    coil(at, on, &mut ram);
    Ok(ram)
}

/// Whether a contact passes power over a reference that was and is so.
fn passes_power(
    alloc: Global,
    rt: &impl Abort,
    kind: ContactKind,
    at: Ref,
    before: bool,
    now: bool,
) -> Result<bool, Fail>
    requires { is_discrete at.kind ≡ true }
{
    let past = store(alloc, rt, at, before)?;
    let ram = store(alloc, rt, at, now)?;
    Ok(contact(kind, at, &ram, &past))
}

/// A contact, its reference before and now, and whether power passes.
const CONTACTS: [(ContactKind, bool, bool, bool); 16] = [
    (ContactKind::Open, false, false, false),
    (ContactKind::Open, false, true, true),
    (ContactKind::Open, true, false, false),
    (ContactKind::Open, true, true, true),
    (ContactKind::Closed, false, false, true),
    (ContactKind::Closed, false, true, false),
    (ContactKind::Closed, true, false, true),
    (ContactKind::Closed, true, true, false),
    // A reference that is on from the first scan on: power for one scan alone.
    (ContactKind::Rise, false, false, false),
    (ContactKind::Rise, false, true, true),
    (ContactKind::Rise, true, false, false),
    (ContactKind::Rise, true, true, false),
    (ContactKind::Fall, false, false, false),
    (ContactKind::Fall, false, true, false),
    (ContactKind::Fall, true, false, true),
    (ContactKind::Fall, true, true, false),
];

#[test]
fn contacts(rt: HostRuntime) -> Result<(), Fail> {
    let alloc = rt.alloc();
    for (kind, before, now, passes) in CONTACTS {
        let coil = passes_power(alloc, &rt, kind, PUMP, before, now)?;
        let input = passes_power(alloc, &rt, kind, LIMIT_SWITCH, before, now)?;
        assert_eq!(rt; (coil, input), (passes, passes), "{kind:?} {before} {now}");
    }
    Ok(())
}

#[test]
fn coils(rt: HostRuntime) -> Result<(), Fail> {
    for (was, power) in [(false, false), (false, true), (true, false), (true, true)] {
        let mut ram = store(rt.alloc(), &rt, LIMIT_SWITCH, was)?;
        coil(LIMIT_SWITCH, power, &mut ram);
        assert_eq!(rt; ram.bit(LIMIT_SWITCH), power, "{was} {power}");
    }
    Ok(())
}
