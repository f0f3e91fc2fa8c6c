//! What is the same, byte by byte.
ghost use Rattle.std.specs.Prelude.{◌≡◌, ◌↔◌, IsTrue};

use mstr_block::MstrResult;
use plant_types::{Pdu, Words};
use ring_core::Frame;

/// Whether two are the same bytes, or both none.
pub fn same_bytes(one: &Option<Pdu>, other: &Option<Pdu>) -> bool
    ensures { IsTrue result ↔ (one.now ≡ other.now) }
{
    match one {
        None => other.is_none(),
        Some(pdu) => match other {
            None => false,
            Some(others) => pdu.bytes() == others.bytes(),
        },
    }
}

/// Whether two are the same words.
pub fn same_words(one: &Words, other: &Words) -> bool
    ensures { IsTrue result ↔ (one.now ≡ other.now) }
{
    one.words() == other.words()
}

/// Whether two results are one.
pub fn same_result(one: &MstrResult, other: &MstrResult) -> bool
    ensures { IsTrue result ↔ (one.now ≡ other.now) }
{
    match one {
        MstrResult::Good(words) => match other {
            MstrResult::Good(others) => words.words() == others.words(),
            MstrResult::Bad(_) => false,
        },
        MstrResult::Bad(word) => match other {
            MstrResult::Bad(another) => *word == *another,
            MstrResult::Good(_) => false,
        },
    }
}

/// Whether two frames are one.
pub fn same_frame(one: &Frame, other: &Frame) -> bool
    ensures { IsTrue result ↔ (one.now ≡ other.now) }
{
    one.kind == other.kind
        && one.to == other.to
        && one.rest.addresses() == other.rest.addresses()
        && one.id == other.id
        && one.pdu.bytes() == other.pdu.bytes()
}
