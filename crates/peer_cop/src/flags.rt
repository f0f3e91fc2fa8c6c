//! A flag for each input word of each drop of each node: whether a wire feeds it.
ghost use Rattle.std.specs.Prelude.{◌≡◌, ◌↔◌, IsTrue, length};
ghost use Rattle.std.specs.List.{list_any};
ghost use Rattle.peer_cop.specs.Places.{HasPlaces, IsFree, first_place, flagged, place_count};

use crate::wire::Wire;
use plant_types::{DROP_LIMIT, DROP_WORDS};

/// How many addresses a node can have.
const NODES: usize = 64;

/// How many input words there can be.
pub(crate) const PLACE_COUNT: usize = NODES * DROP_LIMIT * DROP_WORDS;

/// The place of the first input word of a wire.
#[tactic(auto, unfolding(crate::specs::Places::first_place))]
fn first_place(wire: Wire) -> usize
    requires { HasPlaces wire }
    ensures { result ≡ first_place wire }
{
    let drop = (usize::from(wire.node) - 1) * DROP_LIMIT + (usize::from(wire.drop) - 1);
    drop * DROP_WORDS + (usize::from(wire.word) - 1)
}

/// Whether one of these flags is set.
fn has_flag(flags: &[bool]) -> bool
    ensures { result ≡ list_any (λ flag. flag) flags.now }
{
    flags.iter().any(|flag| *flag)
}

/// Whether none of the input words of a wire is flagged.
pub(crate) fn is_free(flags: &[bool], wire: Wire) -> bool
    requires size { length flags.now ≡ place_count }
    requires places { HasPlaces wire }
    ensures { IsTrue result ↔ IsFree flags.now wire }
{
    let first = first_place(wire);
    !has_flag(&flags[first..first + usize::from(wire.count)])
}

/// Flags the input words of a wire.
pub(crate) fn flag(flags: &mut [bool], wire: Wire)
    requires size { length flags.old ≡ place_count }
    requires places { HasPlaces wire }
    ensures { flags.new ≡ flagged flags.old wire }
{
    let first = first_place(wire);
    flags[first..first + usize::from(wire.count)].fill(true);
}
