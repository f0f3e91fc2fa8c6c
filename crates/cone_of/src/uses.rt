//! The references that an element reads and stores in.
ghost use Rattle.std.specs.Prelude.{◌≡◌, ◌++◌, IfOk, OnOk, if◌then◌else◌};
ghost use Rattle.std.specs.List.{flat_map};
ghost use Rattle.plant_types.specs.Operands.{named_at, named_by};
ghost use Rattle.plant_types.specs.Reference.{ref_from};
ghost use Rattle.cone_of.specs.Uses.{directs, moved_by, read_by, run_from, run_where, stored_by};
ghost use Rattle.cone_of.specs.Wanted.{such_of};

use plant_types::{Element, MatrixOp, Operand, Ref, RefKind, Slot, slots_of};
use std::alloc::AllocError;

/// Which of the references that an element names are wanted.
#[derive(Clone, Copy, PartialEq, Eq)]
pub(crate) enum Wanted {
    /// Those that it reads.
    Read,
    /// Those that it can store in.
    Stored,
}

/// The reference that stands so many places on. No run of a plan that passes goes past the last
/// number that there can be.
fn ref_on(at: Ref, count: u32) -> Result<Ref, AllocError>
    ensures { IfOk result (λ found. found ≡ ref_from at count) }
{
    match u16::try_from(u64::from(at.number) + u64::from(count)) {
        Ok(number) => Ok(Ref {
            kind: at.kind,
            number,
        }),
        Err(_) => Err(AllocError),
    }
}

/// Adds so many references from one on.
fn push_run(refs: &mut Vec<Ref>, at: Ref, count: u32) -> Result<(), AllocError>
    ensures { OnOk result (refs.new.items ≡ refs.old.items ++ run_from at count) }
{
    for i in 0..count {
        refs.push(ref_on(at, i)?)?;
    }
    Ok(())
}

/// Adds what is wanted of an operand in its slot.
fn push_named(
    refs: &mut Vec<Ref>,
    wanted: Wanted,
    length: u16,
    slot: Slot,
    operand: Operand,
) -> Result<(), AllocError>
    ensures { OnOk result (refs.new.items ≡ refs.old.items
        ++ flat_map (run_where (such_of wanted)) (named_at length slot operand)) }
{
    let Operand::At(at) = operand else {
        return Ok(());
    };
    match (slot, wanted) {
        (Slot::Discrete, Wanted::Read) | (Slot::Driven, Wanted::Stored) => push_run(refs, at, 1),
        (Slot::Number(run), Wanted::Read) | (Slot::Source(run), Wanted::Read) => {
            push_run(refs, at, run.count(length))
        }
        (Slot::Target(run), _) => push_run(refs, at, run.count(length)),
        _ => Ok(()),
    }
}

/// Adds what is wanted of operands, each in its slot.
fn push_all(
    refs: &mut Vec<Ref>,
    wanted: Wanted,
    length: u16,
    slots: &[Slot],
    operands: &[Operand],
) -> Result<(), AllocError>
    ensures { OnOk result (refs.new.items ≡ refs.old.items
        ++ flat_map (run_where (such_of wanted)) (named_by length slots.now operands.now)) }
{
    for (index, slot) in slots.iter().enumerate() {
        if index >= operands.len() {
            return Ok(());
        }
        push_named(refs, wanted, length, *slot, operands[index])?;
    }
    Ok(())
}

/// Adds the references that an element reads.
pub(crate) fn push_read(refs: &mut Vec<Ref>, element: Element) -> Result<(), AllocError>
    ensures { OnOk result (refs.new.items ≡ refs.old.items ++ read_by element) }
{
    let operands = element.operands();
    let slots = slots_of(element.name());
    push_all(
        refs,
        Wanted::Read,
        element.length(),
        slots,
        operands.as_slice(),
    )
}

/// Adds the number of a MBIT or a SENS, where it is moved on.
fn push_moved(refs: &mut Vec<Ref>, element: Element) -> Result<(), AllocError>
    ensures { OnOk result (refs.new.items ≡ refs.old.items ++ moved_by element) }
{
    let Element::Matrix { op, top, .. } = element else {
        return Ok(());
    };
    let Operand::At(at) = top else {
        return Ok(());
    };
    let moves = matches!(op, MatrixOp::Mbit | MatrixOp::Sens);
    if moves && at.kind == RefKind::Register {
        refs.push(at)?;
    }
    Ok(())
}

/// Adds the references that an element can store in.
pub(crate) fn push_stored(refs: &mut Vec<Ref>, element: Element) -> Result<(), AllocError>
    ensures { OnOk result (refs.new.items ≡ refs.old.items ++ stored_by element) }
{
    let operands = element.operands();
    let slots = slots_of(element.name());
    push_all(
        refs,
        Wanted::Stored,
        element.length(),
        slots,
        operands.as_slice(),
    )?;
    push_moved(refs, element)
}

/// Whether an element directs the solve.
pub(crate) fn directs(element: Element) -> bool
    ensures { result ≡ directs element }
{
    matches!(
        element,
        Element::Skip(_) | Element::Label(_) | Element::Call(_) | Element::Return
    )
}
