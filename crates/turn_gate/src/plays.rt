//! What each step on a word tells its pass.
ghost use Rattle.turn_gate.specs.Moves.{Drawn, Heeded, Looked, Released};

use crate::journals::Journal;
use crate::views::View;
use atomic_table::Play;
use std::marker::{Brand, PhantomData};

/// The fixed part of a gate's values, as a step may tell it. Each call of `enter` picks it.
pub trait Fixing<F> {
    ghost use Rattle.std.specs.Prelude.{Option};

    ghost fixed: { Option F };
}

impl<F> Fixing<F> for Brand {
    ghost use Rattle.std.specs.Prelude.{None};

    ghost fixed = { None };
}

/// Takes the next ticket.
pub struct Draw;

impl<S, E> Play<S, View<E>> for Draw {
    ghost then = { Drawn };
}

/// Reads a word, and hears that its own entries are exact.
pub struct Heed<V> {
    value: PhantomData<V>,
}

impl<V: Journal> Play<Option<V>, View<V::Entry>> for Heed<V> {
    ghost then = { Heeded V.maker };
}

/// Reads which ticket is served, and takes the value where it is the pass's own.
pub struct Look<V, N> {
    value: PhantomData<(V, N)>,
}

impl<V: Journal, N: Fixing<V::Fixed>> Play<Option<V>, View<V::Entry>> for Look<V, N> {
    ghost then = { Looked V.entries V.fixed V.maker N.fixed };
}

/// Lets the next ticket be served, and gives the value back.
pub struct Release<V> {
    value: PhantomData<V>,
}

impl<V: Journal> Play<Option<V>, View<V::Entry>> for Release<V> {
    ghost then = { Released V.entries V.maker };
}
