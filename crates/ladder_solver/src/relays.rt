//! Contacts, coils and shorts in the form that a solve reads.
ghost use Rattle.std.specs.Prelude.{◌≡◌};
ghost use Rattle.plant_types.specs.Reference.{coil_at};
ghost use Rattle.ladder_solver.specs.Relays.{input_ref, of_kind, relay_of};

use plant_types::{Element, Ref, RefKind};

/// A contact, a coil or a short by the number of its reference alone, so that a solve asks for no
/// kind of reference.
#[derive(Clone, Copy)]
pub(crate) enum Relay {
    /// A normally open contact of a coil.
    OpenCoil(u16),
    /// A normally closed contact of a coil.
    ClosedCoil(u16),
    /// A normally open contact of an input.
    OpenInput(u16),
    /// A normally closed contact of an input.
    ClosedInput(u16),
    Coil(u16),
    Latch(u16),
    /// A horizontal short.
    Wire,
    /// Another element, which is solved in a call of its own.
    Other,
}

fn of_kind(kind: RefKind, coil: Relay, input: Relay) -> Relay
    ensures { result ≡ of_kind kind coil input }
{
    match kind {
        RefKind::Coil => coil,
        RefKind::Input => input,
        RefKind::InputRegister | RefKind::Register => Relay::Other,
    }
}

/// The relay that an element is.
pub(crate) fn relay_of(element: Element) -> Relay
    ensures { result ≡ relay_of element }
{
    match element {
        Element::Open(at) => of_kind(
            at.kind,
            Relay::OpenCoil(at.number),
            Relay::OpenInput(at.number),
        ),
        Element::Closed(at) => of_kind(
            at.kind,
            Relay::ClosedCoil(at.number),
            Relay::ClosedInput(at.number),
        ),
        Element::Coil(at) => of_kind(at.kind, Relay::Coil(at.number), Relay::Other),
        Element::Latch(at) => of_kind(at.kind, Relay::Latch(at.number), Relay::Other),
        Element::Wire => Relay::Wire,
        _ => Relay::Other,
    }
}

/// The coil of a number.
pub(crate) fn coil_at(number: u16) -> Ref
    ensures { result ≡ coil_at number }
{
    Ref {
        kind: RefKind::Coil,
        number,
    }
}

/// The input of a number.
pub(crate) fn input_ref(number: u16) -> Ref
    ensures { result ≡ input_ref number }
{
    Ref {
        kind: RefKind::Input,
        number,
    }
}
