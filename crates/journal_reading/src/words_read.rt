//! Bytes and words that are read back from hexadecimal digits.
ghost use Rattle.std.specs.Prelude.{◌≡◌, ◌*◌, ◌≤◌, ◌==◌, not, length, Some};
ghost use Rattle.std.specs.List.{list_all};
ghost use Rattle.std.specs.Str.{bytes_eq};
ghost use Rattle.journal_reading.specs.Reading.{Reads, read_block, read_hex_bytes, is_capital};
ghost use Rattle.journal_reading.specs.Reading.{words_joined, read_joined, read_pdu, read_hex_word};
ghost use Rattle.journal_reading.specs.Reading.{read_hex_words};

use crate::cutting::{LineFault, is_text};
use byteorder::{BigEndian, ByteOrder};
use hex::FromHexError;
use plant_types::{BLOCK_LIMIT, Block, Pdu};
use std::alloc::{AllocError, Global};

fn has_no_capital(text: &[u8]) -> bool
    ensures { result ≡ list_all (λ byte. not (is_capital byte)) text.now }
{
    text.iter().all(|byte| !(b'A' <= *byte && *byte <= b'Z'))
}

#[tactic(auto, unfolding(crate::specs::Reading::read_hex_bytes))]
fn read_hex_bytes(alloc: Global, text: &[u8]) -> Result<Vec<u8>, LineFault>
    ensures { Reads (λ bytes. bytes.items) result (read_hex_bytes text.now) }
{
    if !has_no_capital(text) {
        return Err(LineFault::Wrong);
    }
    match hex::decode(alloc, text) {
        Ok(bytes) => Ok(bytes),
        Err(FromHexError::OutOfMemory) => Err(LineFault::NoMemory),
        Err(_) => Err(LineFault::Wrong),
    }
}

#[tactic(auto, unfolding(crate::specs::Reading::read_pdu))]
pub(crate) fn read_pdu(alloc: Global, text: &[u8]) -> Result<Pdu, LineFault>
    ensures { Reads (λ pdu. pdu) result (read_pdu text.now) }
{
    let bytes = read_hex_bytes(alloc, text)?;
    match Pdu::of(alloc, bytes.as_slice())? {
        Some(pdu) => Ok(pdu),
        None => Err(LineFault::Wrong),
    }
}

fn fill_words(bytes: &[u8], words: &mut [u16])
    requires { length bytes.now ≡ 2 * length words.old }
    ensures { words_joined bytes.now ≡ Some words.new }
{
    BigEndian::read_u16_into(bytes, words);
}

/// The words that bytes are, two of them each.
fn joined(alloc: Global, bytes: &[u8]) -> Result<Vec<u16>, LineFault>
    ensures { Reads (λ words. words.items) result (words_joined bytes.now) }
{
    let count = bytes.len() / 2;
    if bytes.len() != 2 * count {
        return Err(LineFault::Wrong);
    }
    let mut words = vec![in alloc; 0u16; count]?;
    fill_words(bytes, words.as_mut_slice());
    Ok(words)
}

#[tactic(auto, unfolding(crate::specs::Reading::read_joined))]
fn read_joined(alloc: Global, text: &[u8]) -> Result<Vec<u16>, LineFault>
    ensures { Reads (λ words. words.items) result (read_joined text.now) }
{
    let bytes = read_hex_bytes(alloc, text)?;
    let words = joined(alloc, bytes.as_slice())?;
    if words.is_empty() {
        return Err(LineFault::Wrong);
    }
    Ok(words)
}

/// Words one after another, or the dash that stands for none.
#[tactic(auto, unfolding(crate::specs::Reading::read_hex_words))]
pub(crate) fn read_hex_words(alloc: Global, text: &[u8]) -> Result<Vec<u16>, LineFault>
    ensures { Reads (λ words. words.items) result (read_hex_words text.now) }
{
    if is_text(text, "-") {
        return Ok(Vec::new(alloc));
    }
    read_joined(alloc, text)
}

#[tactic(auto, unfolding(crate::specs::Reading::read_hex_word))]
pub(crate) fn read_hex_word(alloc: Global, text: &[u8]) -> Result<u16, LineFault>
    ensures { Reads (λ word. word) result (read_hex_word text.now) }
{
    let words = read_joined(alloc, text)?;
    match words.as_slice() {
        [word] => Ok(*word),
        _ => Err(LineFault::Wrong),
    }
}

#[tactic(auto, unfolding(crate::specs::Reading::read_block))]
pub(crate) fn read_block(alloc: Global, text: &[u8]) -> Result<Block, LineFault>
    ensures { Reads (λ block. block) result (read_block text.now) }
{
    let words = read_hex_words(alloc, text)?;
    if words.len() > BLOCK_LIMIT {
        return Err(LineFault::Wrong);
    }
    Ok(Block::of(words.as_slice()))
}
