//! A plant with one controller, and the cones of what is asked of it.
use cone_of::{Cone, cone_of};
use plant_loader::{Version, load};
use plant_types::{ControllerPlan, Ref, RefKind};
use std::alloc::{AllocError, AllocGlobal, Global};
use std::process::Abort;
use std::test::Fail;

/// The plants of these tests have fewer references of each kind.
const LAST: u16 = 40;

/// What is asked of a plant, none for its stop, and the references of the cone as a file has them.
#[derive(Clone, Copy)]
pub(crate) struct Case {
    pub(crate) of: Option<Ref>,
    pub(crate) has: &'static str,
}

/// A coil that is asked about.
pub(crate) fn coil(number: u16) -> Option<Ref> {
    let kind = RefKind::Coil;
    Some(Ref { kind, number })
}

/// An input that is asked about.
pub(crate) fn input(number: u16) -> Option<Ref> {
    let kind = RefKind::Input;
    Some(Ref { kind, number })
}

/// Adds the references of a kind that a cone has.
fn push_kind(
    text: &mut String,
    alloc: Global,
    cone: &Cone,
    kind: RefKind,
) -> Result<(), AllocError> {
    for number in 0..LAST {
        let at = Ref { kind, number };
        if cone.has(at) {
            text.push_str(&format!(in alloc; " {at}")?)?;
        }
    }
    Ok(())
}

/// All references that the cone of a reference has, each after a space.
fn cone_text(alloc: Global, plan: &ControllerPlan, of: Option<Ref>) -> Result<String, AllocError> {
    let cone = cone_of(alloc, plan, of)?;
    let mut text = String::new(alloc);
    for kind in [
        RefKind::Coil,
        RefKind::Input,
        RefKind::InputRegister,
        RefKind::Register,
    ] {
        push_kind(&mut text, alloc, &cone, kind)?;
    }
    Ok(text)
}

/// The cones of the one controller of a plant are what its cases say.
pub(crate) fn show(
    rt: &(impl Abort + AllocGlobal),
    plant: &str,
    cases: &[Case],
) -> Result<(), Fail> {
    let alloc = rt.alloc();
    let Ok(plant) = load(alloc, Version::One, plant.as_bytes()) else {
        return Err("a plant")?;
    };
    let [plan] = plant.controllers.as_slice() else {
        return Err("one controller")?;
    };
    for case in cases {
        let text = cone_text(alloc, plan, case.of)?;
        assert!(rt; text.as_str() == case.has, "{text}");
    }
    Ok(())
}
