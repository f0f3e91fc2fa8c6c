//! Bits packed into bytes, the first in the lowest place.
ghost use Rattle.std.specs.Prelude.{◌≡◌, ◌↔◌, ℕ, IsTrue, ◌^◌, ◌*◌, ◌<◌, ◌≤◌, false, length, take};
ghost use Rattle.std.specs.Prelude.{drop, slice_index_or, IfOk};
ghost use Rattle.modbus_pdu.specs.Quantities.{most_discretes_read};
ghost use Rattle.modbus_pdu.specs.Bytes.{bytes_for, bits_number, unpacked};
ghost use Rattle.modbus_pdu.specs.Steps.{IsClear};

use plant_types::List;
use std::alloc::{AllocError, Global};

/// How many bytes so many bits take.
pub(crate) fn bytes_for(quantity: usize) -> usize
    requires { quantity ≤ most_discretes_read }
    ensures { result ≡ bytes_for quantity }
{
    quantity.div_ceil(8)
}

fn bit_at(packed: &[u8], place: usize) -> bool
    requires { place < 8 * length packed.now }
    ensures { result ≡ slice_index_or (unpacked packed.now) place false }
{
    let byte = packed[place / 8];
    (byte >> (place % 8)) % 2 == 1
}

/// The first bits of these bytes.
pub(crate) fn unpack(
    alloc: Global,
    packed: &[u8],
    quantity: usize,
) -> Result<List<bool>, AllocError>
    requires { quantity ≤ 8 * length packed.now }
    ensures { IfOk result (λ bits. bits ≡ take quantity (unpacked packed.now)) }
{
    let mut bits = Vec::with_capacity(alloc, quantity)?;
    for place in 0..quantity {
        bits.push(bit_at(packed, place))?;
    }
    Ok(List::from_vec(bits))
}

/// The byte of up to eight bits.
#[tactic(auto, unfolding(crate::specs::Bytes::bits_number))]
fn byte_of(bits: &[bool]) -> u8
    requires { length bits.now ≤ 8 }
    ensures number { result ≡ bits_number bits.now }
    ensures below { result < 2 ^ length bits.now }
{
    match bits {
        [] => 0,
        [bit, rest @ ..] => u8::from(*bit) + 2 * byte_of(rest),
    }
}

/// The byte at an index of the bits, as they are packed.
pub(crate) fn byte_at(bits: &[bool], index: usize) -> u8
    requires { 8 * index < length bits.now }
    ensures { result ≡ bits_number (take 8 (drop (8 * index) bits.now)) }
{
    let first = 8 * index;
    let end = bits.len().min(first + 8);
    byte_of(&bits[first..end])
}

/// Whether the bits behind the first so many are 0.
pub(crate) fn spare_is_clear(packed: &[u8], quantity: usize) -> bool
    requires { length packed.now ≤ 250 }
    ensures { IsTrue result ↔ IsClear packed.now quantity }
{
    for place in quantity..8 * packed.len() {
        if bit_at(packed, place) {
            return false;
        }
    }
    true
}
