//! Contacts and coils, the relays of ladder logic (*Modicon Ladder Logic Block Library User
//! Guide*).
#![tactic(auto)]

ghost use Rattle.std.specs.Prelude.{◌≡◌};
ghost use Rattle.plant_types.specs.Discretes.{discretes_on};
ghost use Rattle.plant_types.specs.Store.{HasDiscrete, Keeps, with_bit};
ghost use Rattle.relay_ops.specs.Relay.{passes_power};

use plant_types::{Ref, RefStore, discretes_are_on};

/// The contacts (*Modicon Ladder Logic Block Library User Guide*).
#[derive(Clone, Copy, Debug, PartialEq, Eq)]
pub enum ContactKind {
    /// Normally open: passes power while its reference is on.
    Open,
    /// Normally closed: passes power while its reference is off.
    Closed,
    /// Positive transitional: passes power where its reference went on.
    Rise,
    /// Negative transitional: passes power where its reference went off.
    Fall,
}

/// Whether a contact passes power. `past` holds the discretes as they stood when the last scan with
/// power ended or failed: the transitional contacts compare with it.
pub fn contact<R: RefStore, P: RefStore>(kind: ContactKind, at: Ref, ram: &R, past: &P) -> bool
    requires now { HasDiscrete (R.contents ram.now) at }
    requires before { HasDiscrete (P.contents past.now) at }
    ensures { result
        ≡ passes_power kind at (R.contents ram.now) (discretes_on (P.contents past.now)) }
{
    discretes_are_on();
    let is_on = ram.bit(at);
    match kind {
        ContactKind::Open => is_on,
        ContactKind::Closed => !is_on,
        ContactKind::Rise => is_on && !past.bit(at),
        ContactKind::Fall => !is_on && past.bit(at),
    }
}

/// The reference of a coil becomes its power, for a normal coil and a latch alike.
pub fn coil<R: RefStore>(at: Ref, power: bool, ram: &mut R)
    requires { HasDiscrete (R.contents ram.old) at }
    ensures stored { R.contents ram.new ≡ with_bit (R.contents ram.old) at power }
    ensures keeps { Keeps (R.contents ram.old) (R.contents ram.new) }
{
    ram.set_bit(at, power);
}
