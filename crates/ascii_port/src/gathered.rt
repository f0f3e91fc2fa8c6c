//! The bytes of one frame, as they come one after another.
ghost use Rattle.std.specs.Prelude.{◌≡◌, ◌+◌, ◌-◌, ◌%◌, ◌<◌, ◌≤◌, ◌&&◌, ◌==◌, [], ◌∷◌, ◌++◌};
ghost use Rattle.std.specs.Prelude.{drop, length, nat_le, slice_index, sum, take};
ghost use Rattle.ascii_port.specs.Frames.{most_frame_bytes, check_of};
ghost use Rattle.plant_types.specs.Words.{IsPduLength};

use std::marker::Model;

/// The most bytes of a frame: an address, a PDU and a check.
pub(crate) const FRAME_LIMIT: usize = 255;

/// The bytes of a frame so far, in a fixed array.
#[derive(Drop)]
pub(crate) struct Gathered {
    bytes: [u8; FRAME_LIMIT],
    count: usize,
    total: u8,
}

impl Model for Gathered {
    ghost use Rattle.std.specs.Prelude.{ℕ, List, ◌≡◌, ◌≤◌, ◌%◌, sum, take};
    ghost use Rattle.ascii_port.specs.Frames.{most_frame_bytes};

    ghost Value = { List ℕ };

    ghost view = { λ g. take g.count g.bytes };

    ghost invariant = { λ g. (g.count ≤ most_frame_bytes)
        × (g.total ≡ sum (take g.count g.bytes) % 256) };
}

impl Gathered {
    pub(crate) fn new() -> Gathered
        ensures { result ≡ [] }
    {
        Gathered {
            bytes: [0; FRAME_LIMIT],
            count: 0,
            total: 0,
        }
    }

    pub(crate) fn clear(&mut self)
        ensures { self.new ≡ [] }
    {
        self.count = 0;
        self.total = 0;
    }

    pub(crate) fn is_full(&self) -> bool
        ensures full { result ≡ (length self.now == most_frame_bytes) }
        ensures fits { length self.now ≤ most_frame_bytes }
    {
        self.count == FRAME_LIMIT
    }

    pub(crate) fn push(&mut self, byte: u8)
        requires { length self.old < most_frame_bytes }
        ensures { self.new ≡ self.old ++ byte ∷ [] }
    {
        self.bytes[self.count] = byte;
        self.count += 1;
        self.total = self.total.wrapping_add(byte);
    }

    /// Whether they are an address, a PDU and the check that they ask.
    pub(crate) fn is_frame(&self) -> bool
        ensures frame { result ≡ (nat_le 3 (length self.now) && (sum self.now % 256 == 0)) }
        ensures fits { length self.now ≤ most_frame_bytes }
    {
        3 <= self.count && self.total == 0
    }

    /// The byte that makes their sum 0 modulo 256.
    pub(crate) fn check(&self) -> u8
        ensures { result ≡ check_of self.now }
    {
        0u8.wrapping_sub(self.total)
    }

    pub(crate) fn address(&self) -> u8
        requires { 3 ≤ length self.now }
        ensures { result ≡ slice_index self.now 0 }
    {
        self.bytes[0]
    }

    pub(crate) fn pdu(&self) -> &[u8]
        requires { 3 ≤ length self.now }
        ensures pdu { result.now ≡ take (length self.now - 2) (drop 1 self.now) }
        ensures fits { IsPduLength result.now }
    {
        &self.bytes[1..self.count - 1]
    }

    pub(crate) fn bytes(&self) -> &[u8]
        ensures { result.now ≡ self.now }
    {
        &self.bytes[..self.count]
    }
}
