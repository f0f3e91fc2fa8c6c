//! Words of registers, and the bytes of a request or a reply.
ghost use Rattle.std.specs.Prelude.{◌≡◌, IfOk};
ghost use Rattle.plant_types.specs.Words.{IsPduLength, FitsBlock, pdu_of};

use std::alloc::{AllocError, Global};
use std::marker::Model;

/// Words of registers, each 0 to 65,535. This project's own.
pub struct Words {
    items: Vec<u16>,
}

impl Model for Words {
    ghost use Rattle.std.specs.Prelude.{ℕ, List};

    ghost Value = { List ℕ };

    ghost view = { λ w. w.items.items };
}

impl Drop for Words {
    fn drop(self) {
        let Words { items: _ } = self;
    }
}

impl Words {
    /// A copy of these words.
    pub fn of(alloc: Global, words: &[u16]) -> Result<Words, AllocError>
        ensures { IfOk result (λ made. made ≡ words.now) }
    {
        Ok(Words {
            items: Vec::from_slice(alloc, words)?,
        })
    }

    /// Its words, the first one first.
    pub fn words(&self) -> &[u16]
        ensures { result.now ≡ self.now }
    {
        self.items.as_slice()
    }
}

/// The most bytes of a PDU.
pub const PDU_LIMIT: usize = 253;

/// A protocol data unit: the function code and its data, 1 to 253 bytes
/// (*Modicon Modbus Protocol Reference Guide*; the bounds are this project's own).
pub struct Pdu {
    items: Vec<u8>,
}

impl Model for Pdu {
    ghost use Rattle.std.specs.Prelude.{ℕ, List};
    ghost use Rattle.plant_types.specs.Words.{IsPduLength};

    ghost Value = { List ℕ };

    ghost view = { λ p. p.items.items };

    ghost invariant = { λ p. IsPduLength p.items.items };
}

impl Drop for Pdu {
    fn drop(self) {
        let Pdu { items: _ } = self;
    }
}

impl Pdu {
    /// None exactly where there are not 1 to 253 bytes.
    pub fn of(alloc: Global, bytes: &[u8]) -> Result<Option<Pdu>, AllocError>
        ensures { IfOk result (λ made. made ≡ pdu_of bytes.now) }
    {
        if bytes.is_empty() || bytes.len() > PDU_LIMIT {
            return Ok(None);
        }
        Ok(Some(Pdu {
            items: Vec::from_slice(alloc, bytes)?,
        }))
    }

    pub(crate) fn copy_of(&self, alloc: Global) -> Result<Pdu, AllocError>
        ensures { IfOk result (λ copy. copy ≡ self.now) }
    {
        Ok(Pdu {
            items: Vec::from_slice(alloc, self.items.as_slice())?,
        })
    }

    /// Its bytes, the function first.
    pub fn bytes(&self) -> &[u8]
        ensures bytes { result.now ≡ self.now }
        ensures fits { IsPduLength self.now }
    {
        self.items.as_slice()
    }
}

/// The most words of a `Block`.
pub const BLOCK_LIMIT: usize = 100;

/// The words of the statistics of a station.
pub const STATISTICS_WORDS: u16 = 20;

/// The most words of global data that go with a token.
pub const GLOBAL_LIMIT: u16 = 32;

/// At most 100 words in a fixed array. This project's own.
#[derive(Drop)]
pub struct Block {
    items: [u16; BLOCK_LIMIT],
    count: u8,
}

impl Model for Block {
    ghost use Rattle.std.specs.Prelude.{ℕ, List, ◌≤◌, take};
    ghost use Rattle.plant_types.specs.Words.{most_block_words};

    ghost Value = { List ℕ };

    ghost view = { λ b. take b.count b.items };

    ghost invariant = { λ b. b.count ≤ most_block_words };
}

impl Block {
    /// Takes no memory.
    pub fn of(words: &[u16]) -> Block
        requires { FitsBlock words.now }
        ensures { result ≡ words.now }
    {
        let mut items = [0; BLOCK_LIMIT];
        items[..words.len()].copy_from_slice(words);
        Block {
            items,
            count: words.len() as u8,
        }
    }

    /// Its words, the first one first.
    pub fn words(&self) -> &[u16]
        ensures words { result.now ≡ self.now }
        ensures fits { FitsBlock self.now }
    {
        &self.items[..usize::from(self.count)]
    }
}
