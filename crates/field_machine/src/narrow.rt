//! What does not matter to what a controller is asked.
ghost use Rattle.std.specs.Prelude.{◌≡◌, ◌++◌, true, IfOk, OnOk};
ghost use Rattle.std.specs.List.{AllByRecursion};
ghost use Rattle.std.specs.FinMap.{contains_key, insert};
ghost use Rattle.plant_types.specs.Store.{Keeps};
ghost use Rattle.state_ram.specs.Packed.{packed_contents};
ghost use Rattle.cone_laws.specs.Agree.{place_matters};
ghost use Rattle.field_machine.specs.Narrow.{apart_of, kind_outside, one_outside, outside_of};
ghost use Rattle.field_machine.specs.Narrow.{reference_of, zeroed};

use crate::asked::Asked;
use cone_of::Cone;
use key_store::KeyRam;
use ladder_solver::BlockPlace;
use plant_types::{Ref, RefKind, RefStore, Segment, Sizes};
use std::alloc::{AllocError, Global};

/// The coil or input that is asked about, if it is one.
pub(crate) fn reference_of(asked: Asked) -> Option<Ref>
    ensures { result ≡ reference_of asked }
{
    match asked {
        Asked::On(at) => Some(at),
        Asked::Stopped => None,
    }
}

/// Adds a reference that a cone lacks.
fn push_outside(refs: &mut Vec<Ref>, cone: &Cone, at: Ref) -> Result<(), AllocError>
    ensures { OnOk result (refs.new.items ≡ refs.old.items ++ one_outside cone.now at) }
{
    if !cone.has(at) {
        refs.push(at)?;
    }
    Ok(())
}

/// Adds the references of a kind that a cone lacks.
fn push_kind(refs: &mut Vec<Ref>, cone: &Cone, kind: RefKind, count: u16) -> Result<(), AllocError>
    ensures { OnOk result (refs.new.items ≡ refs.old.items ++ kind_outside cone.now kind count) }
{
    for number in 0..count {
        let at = Ref {
            kind,
            number: number + 1,
        };
        push_outside(refs, cone, at)?;
    }
    Ok(())
}

/// The references of these sizes that a cone lacks.
pub(crate) fn outside_of(alloc: Global, sizes: Sizes, cone: &Cone) -> Result<Vec<Ref>, AllocError>
    ensures { IfOk result (λ refs. refs.items ≡ outside_of sizes cone.now) }
{
    let mut refs = Vec::new(alloc);
    push_kind(&mut refs, cone, RefKind::Coil, sizes.coils)?;
    push_kind(&mut refs, cone, RefKind::Input, sizes.inputs)?;
    push_kind(
        &mut refs,
        cone,
        RefKind::InputRegister,
        sizes.input_registers,
    )?;
    push_kind(&mut refs, cone, RefKind::Register, sizes.registers)?;
    Ok(refs)
}

/// Whether the network of a place matters to a cone, if there is one.
fn place_matters(
    cone: &Cone,
    refs: &mut Vec<Ref>,
    segments: &[Segment],
    place: BlockPlace,
) -> Result<bool, AllocError>
    ensures { IfOk result (λ matters. matters ≡ place_matters cone.now segments.now place) }
{
    let Some(segment) = segments.get(place.segment.saturating_sub(1)) else {
        return Ok(false);
    };
    let networks = segment.networks.as_slice();
    let Some(network) = networks.get(place.network.saturating_sub(1)) else {
        return Ok(false);
    };
    cone.network_matters(refs, network)
}

/// Those of places whose networks do not matter to a cone.
pub(crate) fn apart_of(
    alloc: Global,
    cone: &Cone,
    segments: &[Segment],
    places: &[BlockPlace],
) -> Result<Vec<BlockPlace>, AllocError>
    ensures { IfOk result (λ apart. apart.items ≡ apart_of cone.now segments.now places.now) }
{
    let mut refs = Vec::new(alloc);
    let mut apart = Vec::new(alloc);
    for place in places {
        if !place_matters(cone, &mut refs, segments, *place)? {
            apart.push(*place)?;
        }
    }
    Ok(apart)
}

/// Stores 0 in a reference.
fn zero(ram: &mut KeyRam, at: Ref)
    requires { contains_key (packed_contents ram.old) at ≡ true }
    ensures stored { packed_contents ram.new ≡ insert (packed_contents ram.old) at 0 }
    ensures keeps { Keeps (packed_contents ram.old) (packed_contents ram.new) }
{
    match at.kind {
        RefKind::Coil | RefKind::Input => ram.set_bit(at, false),
        RefKind::InputRegister | RefKind::Register => ram.set_word(at, 0),
    }
}

/// Stores 0 in each of these references.
pub(crate) fn zero_all(ram: &mut KeyRam, refs: &[Ref])
    requires { AllByRecursion (λ at. contains_key (packed_contents ram.old) at ≡ true) refs.now }
    ensures stored { packed_contents ram.new ≡ zeroed (packed_contents ram.old) refs.now }
    ensures keeps { Keeps (packed_contents ram.old) (packed_contents ram.new) }
{
    for at in refs {
        zero(ram, *at);
    }
}
