//! A PDU in the making.
ghost use Rattle.std.specs.Prelude.{◌≡◌, ◌+◌, ◌*◌, ◌<◌, ◌≤◌, [], ◌∷◌, ◌++◌, length, IfOk};
ghost use Rattle.modbus_pdu.specs.Quantities.{most_discretes_read};
ghost use Rattle.plant_types.specs.Words.{most_pdu_bytes};
ghost use Rattle.modbus_pdu.specs.Bytes.{word_bytes, words_bytes, packed_clear, bytes_for};

use crate::bits::{byte_at, bytes_for};
use byteorder::{BigEndian, ByteOrder};
use plant_types::{PDU_LIMIT, Pdu};
use std::alloc::{AllocError, Global};
use std::marker::Model;

/// Up to as many bytes as a PDU has, in a fixed array.
#[derive(Drop)]
pub(crate) struct Draft {
    bytes: [u8; PDU_LIMIT],
    count: usize,
}

impl Model for Draft {
    ghost use Rattle.std.specs.Prelude.{ℕ, List, ◌≤◌, take};
    ghost use Rattle.plant_types.specs.Words.{most_pdu_bytes};

    ghost Value = { List ℕ };

    ghost view = { λ d. take d.count d.bytes };

    ghost invariant = { λ d. d.count ≤ most_pdu_bytes };
}

impl Draft {
    /// A PDU of nothing yet.
    pub(crate) fn new() -> Draft
        ensures { result ≡ [] }
    {
        Draft {
            bytes: [0; PDU_LIMIT],
            count: 0,
        }
    }

    /// Puts a byte last.
    pub(crate) fn byte(&mut self, byte: u8)
        requires { length self.old < most_pdu_bytes }
        ensures bytes { self.new ≡ self.old ++ byte ∷ [] }
        ensures length { length self.new ≡ length self.old + 1 }
    {
        self.bytes[self.count] = byte;
        self.count += 1;
    }

    /// Puts a word last, its high byte first.
    pub(crate) fn word(&mut self, word: u16)
        requires { length self.old + 2 ≤ most_pdu_bytes }
        ensures bytes { self.new ≡ self.old ++ word_bytes word }
        ensures length { length self.new ≡ length self.old + 2 }
    {
        let mut bytes = [0; 2];
        BigEndian::write_u16(&mut bytes, word);
        self.byte(bytes[0]);
        self.byte(bytes[1]);
    }

    /// Puts words last, one after the other.
    pub(crate) fn words(&mut self, words: &[u16])
        requires { length self.old + 2 * length words.now ≤ most_pdu_bytes }
        ensures bytes { self.new ≡ self.old ++ words_bytes words.now }
        ensures length { length self.new ≡ length self.old + 2 * length words.now }
    {
        for word in words {
            self.word(*word);
        }
    }

    /// The bits, and zeros that fill the last byte.
    pub(crate) fn bits(&mut self, bits: &[bool])
        requires room { length self.old + bytes_for (length bits.now) ≤ most_pdu_bytes }
        requires most { length bits.now ≤ most_discretes_read }
        ensures bytes { self.new ≡ self.old ++ packed_clear bits.now }
        ensures length { length self.new ≡ length self.old + bytes_for (length bits.now) }
    {
        for index in 0..bytes_for(bits.len()) {
            self.byte(byte_at(bits, index));
        }
    }

    /// The PDU, in memory of its own.
    pub(crate) fn finish(&self, alloc: Global) -> Result<Pdu, AllocError>
        requires { 1 ≤ length self.now }
        ensures { IfOk result (λ pdu. pdu ≡ self.now) }
    {
        match Pdu::of(alloc, &self.bytes[..self.count])? {
            Some(pdu) => Ok(pdu),
            None => unreachable!(),
        }
    }
}
