//! The operands of an element, in the order in which they are written.
ghost use Rattle.std.specs.Prelude.{◌≡◌, ◌≤◌, ◌<◌, [], ◌∷◌, ◌++◌, length};
ghost use Rattle.plant_types.specs.Elements.{operands_of, reference_in, constant_in, one_reference};
ghost use Rattle.plant_types.specs.Elements.{one_operand, without_operands, preset_and_acc};
ghost use Rattle.plant_types.specs.Elements.{numbers_and_low, table_operands, element_of};
ghost use Rattle.plant_types.specs.Limits.{is_up_to};
ghost use Rattle.plant_types.specs.declared.name.ElementName.TheVariants as names;

use crate::element::{Element, MatrixOp, MoveOp, Operand};
use crate::name::ElementName;
use crate::reference::Ref;
use std::marker::Model;

/// Whether a number is from 1 to a largest one.
pub fn is_up_to(most: u16, number: u16) -> bool
    ensures { result ≡ is_up_to most number }
{
    1 <= number && number <= most
}

/// The most operands of an element.
pub const OPERAND_LIMIT: usize = 3;

/// At most three operands in a fixed array.
#[derive(Drop)]
pub struct Operands {
    items: [Operand; 3],
    count: usize,
}

impl Model for Operands {
    ghost use Rattle.std.specs.Prelude.{List, ◌≤◌, take};
    ghost use Rattle.plant_types.specs.declared.element.Operand.{Operand};

    ghost Value = { List Operand };

    ghost view = { λ o. take o.count o.items };

    ghost invariant = { λ o. o.count ≤ 3 };
}

impl Operands {
    /// No operands.
    pub fn new() -> Operands
        ensures { result ≡ [] }
    {
        Operands {
            items: [Operand::Const(0); 3],
            count: 0,
        }
    }

    /// The list of these operands.
    pub fn of(operands: &[Operand]) -> Operands
        requires { length operands.now ≤ OPERAND_LIMIT }
        ensures { result ≡ operands.now }
    {
        let mut items = [Operand::Const(0); 3];
        items[..operands.len()].copy_from_slice(operands);
        Operands {
            items,
            count: operands.len(),
        }
    }

    /// One more operand behind the others.
    pub fn push(&mut self, operand: Operand)
        requires { length self.old < OPERAND_LIMIT }
        ensures { self.new ≡ self.old ++ operand ∷ [] }
    {
        self.items[self.count] = operand;
        self.count += 1;
    }

    /// The operands in their order.
    pub fn as_slice(&self) -> &[Operand]
        ensures { result.now ≡ self.now }
    {
        &self.items[..self.count]
    }
}

impl Element {
    /// Its operands, in the order in which they are written.
    pub fn operands(&self) -> Operands
        ensures { result ≡ operands_of self.now }
    {
        match *self {
            Element::Open(at)
            | Element::Closed(at)
            | Element::Rise(at)
            | Element::Fall(at)
            | Element::Coil(at)
            | Element::Latch(at) => Operands::of(&[Operand::At(at)]),
            Element::Wire | Element::Return => Operands::new(),
            Element::Timer { preset, acc, .. } | Element::Counter { preset, acc, .. } => {
                Operands::of(&[preset, Operand::At(acc)])
            }
            Element::Math { top, mid, low, .. } => Operands::of(&[top, mid, Operand::At(low)]),
            Element::Move {
                top,
                mid,
                length,
                ..
            } => Operands::of(&[Operand::At(top), Operand::At(mid), Operand::Const(length)]),
            Element::Matrix {
                top,
                mid,
                length,
                ..
            } => Operands::of(&[top, Operand::At(mid), Operand::Const(length)]),
            Element::Skip(number) | Element::Call(number) => Operands::of(&[number]),
            Element::Label(number) => Operands::of(&[Operand::Const(number)]),
            Element::Mstr {
                control,
                area,
                length,
            } => Operands::of(&[
                Operand::At(control),
                Operand::At(area),
                Operand::Const(length),
            ]),
        }
    }
}

fn reference_in(operand: Operand) -> Option<Ref>
    ensures { result ≡ reference_in operand }
{
    match operand {
        Operand::At(at) => Some(at),
        Operand::Const(_) => None,
    }
}

fn constant_in(operand: Operand) -> Option<u16>
    ensures { result ≡ constant_in operand }
{
    match operand {
        Operand::Const(number) => Some(number),
        Operand::At(_) => None,
    }
}

fn one_reference(operands: &[Operand]) -> Option<Ref>
    ensures { result ≡ one_reference operands.now }
{
    let [at] = operands else {
        return None;
    };
    reference_in(*at)
}

fn without_operands(element: Element, operands: &[Operand]) -> Option<Element>
    ensures { result ≡ without_operands element operands.now }
{
    if operands.is_empty() {
        Some(element)
    } else {
        None
    }
}

fn one_operand(operands: &[Operand]) -> Option<Operand>
    ensures { result ≡ one_operand operands.now }
{
    let [only] = operands else {
        return None;
    };
    Some(*only)
}

fn preset_and_acc(operands: &[Operand]) -> Option<(Operand, Ref)>
    ensures { result ≡ preset_and_acc operands.now }
{
    let [preset, acc] = operands else {
        return None;
    };
    Some((*preset, reference_in(*acc)?))
}

fn numbers_and_low(operands: &[Operand]) -> Option<(Operand, Operand, Ref)>
    ensures { result ≡ numbers_and_low operands.now }
{
    let [top, mid, low] = operands else {
        return None;
    };
    Some((*top, *mid, reference_in(*low)?))
}

fn table_operands(operands: &[Operand]) -> Option<(Operand, Ref, u16)>
    ensures { result ≡ table_operands operands.now }
{
    let [top, mid, length] = operands else {
        return None;
    };
    Some((*top, reference_in(*mid)?, constant_in(*length)?))
}

fn move_of(op: MoveOp, operands: &[Operand]) -> Option<Element>
    ensures { result ≡ element_of (names.Move op) operands.now }
{
    let (top, mid, length) = table_operands(operands)?;
    let top = reference_in(top)?;
    Some(Element::Move {
        op,
        top,
        mid,
        length,
    })
}

fn matrix_of(op: MatrixOp, operands: &[Operand]) -> Option<Element>
    ensures { result ≡ element_of (names.Matrix op) operands.now }
{
    let (top, mid, length) = table_operands(operands)?;
    Some(Element::Matrix {
        op,
        top,
        mid,
        length,
    })
}

fn message_of(operands: &[Operand]) -> Option<Element>
    ensures { result ≡ element_of names.Mstr operands.now }
{
    let (control, area, length) = table_operands(operands)?;
    let control = reference_in(control)?;
    Some(Element::Mstr {
        control,
        area,
        length,
    })
}

/// The element of a name and operands; none where the operands are not those of the name.
pub fn element_of(name: ElementName, operands: &[Operand]) -> Option<Element>
    ensures { result ≡ element_of name operands.now }
{
    match name {
        ElementName::Open => Some(Element::Open(one_reference(operands)?)),
        ElementName::Closed => Some(Element::Closed(one_reference(operands)?)),
        ElementName::Rise => Some(Element::Rise(one_reference(operands)?)),
        ElementName::Fall => Some(Element::Fall(one_reference(operands)?)),
        ElementName::Coil => Some(Element::Coil(one_reference(operands)?)),
        ElementName::Latch => Some(Element::Latch(one_reference(operands)?)),
        ElementName::Wire => without_operands(Element::Wire, operands),
        ElementName::Return => without_operands(Element::Return, operands),
        ElementName::Timer(unit) => {
            let (preset, acc) = preset_and_acc(operands)?;
            Some(Element::Timer { unit, preset, acc })
        }
        ElementName::Counter { up } => {
            let (preset, acc) = preset_and_acc(operands)?;
            Some(Element::Counter { up, preset, acc })
        }
        ElementName::Math(op) => {
            let (top, mid, low) = numbers_and_low(operands)?;
            Some(Element::Math { op, top, mid, low })
        }
        ElementName::Move(op) => move_of(op, operands),
        ElementName::Matrix(op) => matrix_of(op, operands),
        ElementName::Skip => Some(Element::Skip(one_operand(operands)?)),
        ElementName::Call => Some(Element::Call(one_operand(operands)?)),
        ElementName::Label => Some(Element::Label(constant_in(one_operand(operands)?)?)),
        ElementName::Mstr => message_of(operands),
    }
}
