//! How a pass is cut in two, and how two are put together.
ghost use Rattle.std.specs.Prelude.{ℕ};
ghost use Rattle.turn_gate.specs.Moves.{giver, newcomer, joined, spent};

use crate::views::View;
use atomic_table::{Join, Split};
use std::marker::{Brand, PhantomData};

/// The number of a new pass. Each call of `split` picks it.
pub trait Numbering {
    ghost number: { ℕ };
}

impl Numbering for Brand {
    ghost number = { 0 };
}

/// Pass 0 gives the number to a new pass.
pub struct Cut<N> {
    number: PhantomData<N>,
}

impl<E, N: Numbering> Split<View<E>> for Cut<N> {
    ghost left = { giver N.number };

    ghost right = { newcomer N.number };
}

/// A pass takes in another.
pub struct Glue;

impl<E> Join<View<E>> for Glue {
    ghost both = { joined };

    ghost spent = { spent };
}
