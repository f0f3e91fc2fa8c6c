//! A wire of a word exchange, and why wires are not read.
ghost use Rattle.std.specs.Prelude.{◌≡◌};
ghost use Rattle.peer_cop.specs.declared.wire.WireEnd.TheVariants as ends;

use std::alloc::AllocError;

/// So many output words of a drop, and the input words of another drop that they reach. Words count
/// from 1 in the order of a drop's modules. This project's own.
#[derive(Clone, Copy, Debug, PartialEq, Eq)]
pub struct Wire {
    /// The address of the controller that the words reach, 1 to 64.
    pub node: u8,
    /// The number of its drop, 1 to 32.
    pub drop: u8,
    /// The first input word of the drop that a word reaches.
    pub word: u16,
    /// The address of the controller that the words come from, 1 to 64.
    pub from: u8,
    /// The number of its drop, 1 to 32.
    pub from_drop: u8,
    /// The first output word of that drop that reaches an input word.
    pub from_word: u16,
    /// How many words, 1 to 32.
    pub count: u16,
}

/// Why wires are not read. This project's own.
#[derive(Clone, Copy, Debug, PartialEq, Eq)]
pub enum WireEnd {
    /// The first line, counted from 1, that is no wire of the plant behind the wires before it.
    BadWire(u32),
    NoMemory,
}

impl From<AllocError> for WireEnd {
    ghost from_gives = { λ _ end. end ≡ ends.NoMemory };

    fn from(_: AllocError) -> WireEnd {
        WireEnd::NoMemory
    }
}
