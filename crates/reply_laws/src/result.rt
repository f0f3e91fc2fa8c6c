//! What a call of another node came to (*Modicon Modbus Protocol Reference Guide*). Takes no
//! memory.
ghost use Rattle.std.specs.Prelude.{◌≡◌, ◌+◌, ◌*◌, ◌≤◌, ◌<◌, ◌%◌, length, MatchOption, IfSome};
ghost use Rattle.std.specs.Prelude.{Some};
ghost use Rattle.modbus_pdu.specs.Bytes.{word_in, words_in, bytes_for, spare_count};
ghost use Rattle.modbus_pdu.specs.Quantities.{most_discretes_read};
ghost use Rattle.reply_laws.specs.Result.{reads, reads_discretes, reads_registers};
ghost use Rattle.reply_laws.specs.Result.{exchanges_registers, has_byte_count, writes_coils};
ghost use Rattle.reply_laws.specs.Result.{writes_registers, writes_coil, echoes, is_echoed};
ghost use Rattle.reply_laws.specs.Result.{has_clear_spare, tells_bytes, tells_bits};
ghost use Rattle.reply_laws.specs.Result.{tells_statistics, fits_words, fits_statistics};
ghost use Rattle.reply_laws.specs.Result.{fits_plainly, IsTold, TellsNone, exception_told, good};
ghost use Rattle.reply_laws.specs.Result.{result_of};

use byteorder::{BigEndian, ByteOrder};
use modbus_pdu::{
    COILS_WRITTEN, DISCRETES_READ, REGISTERS_EXCHANGED, REGISTERS_READ, REGISTERS_WRITTEN,
    exception_code,
};
use plant_types::{BLOCK_LIMIT, Block, Pdu, is_up_to};
use ring_core::{CLEAR_STATISTICS, GET_STATISTICS, MstrResult};

/// The word of a reply that tells no result, and the first of those of exceptions.
pub const NO_RESULT: u16 = 0x3000;

// The bytes of as many words as a block has.
const BLOCK_BYTES: usize = 2 * BLOCK_LIMIT;

fn word_in(bytes: &[u8], place: usize) -> u16
    requires { place + 1 < length bytes.now }
    ensures { result ≡ word_in bytes.now place }
{
    256 * u16::from(bytes[place]) + u16::from(bytes[place + 1])
}

fn bytes_for(quantity: u16) -> usize
    ensures { result ≡ bytes_for quantity }
{
    (quantity as usize + 7) / 8
}

fn reads(most: u16, ask: &[u8]) -> bool
    ensures { result ≡ reads most ask.now }
{
    ask.len() == 5 && is_up_to(most, word_in(ask, 3))
}

fn reads_discretes(ask: &[u8]) -> bool
    requires { 1 ≤ length ask.now }
    ensures { result ≡ reads_discretes ask.now }
{
    (ask[0] == 1 || ask[0] == 2) && reads(DISCRETES_READ, ask)
}

fn reads_registers(ask: &[u8]) -> bool
    requires { 1 ≤ length ask.now }
    ensures { result ≡ reads_registers ask.now }
{
    (ask[0] == 3 || ask[0] == 4) && reads(REGISTERS_READ, ask)
}

fn exchanges_registers(ask: &[u8]) -> bool
    requires { 1 ≤ length ask.now }
    ensures { result ≡ exchanges_registers ask.now }
{
    ask[0] == 23
        && ask.len() >= 10
        && is_up_to(REGISTERS_READ, word_in(ask, 3))
        && is_up_to(REGISTERS_EXCHANGED, word_in(ask, 7))
        && ask[9] as usize == 2 * word_in(ask, 7) as usize
        && ask.len() == 10 + 2 * word_in(ask, 7) as usize
}

fn counts(size: usize, ask: &[u8]) -> bool
    requires size { size < 1000000 }
    requires long { 6 ≤ length ask.now }
    ensures { result ≡ has_byte_count size ask.now }
{
    ask[5] as usize == size && ask.len() == 6 + size
}

fn writes_coils(ask: &[u8]) -> bool
    requires { 1 ≤ length ask.now }
    ensures { result ≡ writes_coils ask.now }
{
    ask[0] == 15
        && ask.len() >= 6
        && is_up_to(COILS_WRITTEN, word_in(ask, 3))
        && counts(bytes_for(word_in(ask, 3)), ask)
}

fn writes_registers(ask: &[u8]) -> bool
    requires { 1 ≤ length ask.now }
    ensures { result ≡ writes_registers ask.now }
{
    ask[0] == 16
        && ask.len() >= 6
        && is_up_to(REGISTERS_WRITTEN, word_in(ask, 3))
        && counts(2 * word_in(ask, 3) as usize, ask)
}

fn writes_coil(ask: &[u8]) -> bool
    requires { 1 ≤ length ask.now }
    ensures { result ≡ writes_coil ask.now }
{
    ask[0] == 5 && ask.len() == 5 && (word_in(ask, 3) == 0xff00 || word_in(ask, 3) == 0)
}

fn echoes(ask: &[u8]) -> bool
    requires { 1 ≤ length ask.now }
    ensures { result ≡ echoes ask.now }
{
    ask[0] == 8 && ask.len() == 5 && word_in(ask, 1) == 0
}

fn is_echoed(ask: &[u8]) -> bool
    requires { 1 ≤ length ask.now }
    ensures { result ≡ is_echoed ask.now }
{
    writes_coil(ask)
        || (ask[0] == 6 && ask.len() == 5)
        || echoes(ask)
        || (ask[0] == 22 && ask.len() == 7)
        || ask == &CLEAR_STATISTICS[..]
}

fn tells_bytes(size: usize, ask: &[u8], reply: &[u8]) -> bool
    requires size { size < 1000000 }
    requires asked { 1 ≤ length ask.now }
    requires told { 1 ≤ length reply.now }
    ensures { result ≡ tells_bytes size ask.now reply.now }
{
    reply.len() == 2 + size && reply[0] == ask[0] && reply[1] as usize == size
}

fn has_clear_spare(quantity: u16, reply: &[u8]) -> bool
    requires { bytes_for quantity + 1 < length reply.now }
    ensures { result ≡ has_clear_spare quantity reply.now }
{
    let spare = 8 * bytes_for(quantity) - quantity as usize;
    u16::from(reply[bytes_for(quantity) + 1]) >> (8 - spare) == 0
}

fn tells_bits(quantity: u16, ask: &[u8], reply: &[u8]) -> bool
    requires asked { 1 ≤ length ask.now }
    requires told { 1 ≤ length reply.now }
    ensures { result ≡ tells_bits quantity ask.now reply.now }
{
    tells_bytes(bytes_for(quantity), ask, reply) && has_clear_spare(quantity, reply)
}

fn fits_words(ask: &[u8], reply: &[u8]) -> bool
    requires asked { 1 ≤ length ask.now }
    requires told { 1 ≤ length reply.now }
    ensures { result ≡ fits_words ask.now reply.now }
{
    (reads_registers(ask) || exchanges_registers(ask))
        && tells_bytes(2 * word_in(ask, 3) as usize, ask, reply)
}

fn fits_statistics(ask: &[u8], reply: &[u8]) -> bool
    ensures { result ≡ fits_statistics ask.now reply.now }
{
    ask == &GET_STATISTICS[..] && reply.len() == 45 && reply[..5] == GET_STATISTICS[..]
}

fn fits_plainly(ask: &[u8], reply: &[u8]) -> bool
    requires asked { 1 ≤ length ask.now }
    requires told { 1 ≤ length reply.now }
    ensures { result ≡ fits_plainly ask.now reply.now }
{
    (reads_discretes(ask) && tells_bits(word_in(ask, 3), ask, reply))
        || (is_echoed(ask) && reply == ask)
        || ((writes_coils(ask) || writes_registers(ask)) && reply == &ask[..5])
}

// The bytes of the words that a fitting reply tells.
fn told_bytes<'a>(ask: &[u8], reply: &'a [u8]) -> Option<&'a [u8]>
    requires asked { 1 ≤ length ask.now }
    requires told { 1 ≤ length reply.now }
    ensures told { MatchOption result (TellsNone ask.now reply.now)
        (λ told. IsTold ask.now reply.now told.now) }
    ensures even { IfSome result (λ bytes. length bytes.now % 2 ≡ 0) }
{
    if fits_words(ask, reply) {
        return Some(&reply[2..]);
    }
    if fits_statistics(ask, reply) {
        return Some(&reply[5..]);
    }
    if fits_plainly(ask, reply) {
        return Some(&[]);
    }
    None
}

fn exception_told(function: u8, reply: &[u8]) -> Option<u8>
    ensures { result ≡ exception_told function reply.now }
{
    match reply {
        [first, code] if *first == exception_code(function) => Some(*code),
        _ => None,
    }
}

fn read_words(bytes: &[u8], words: &mut [u16])
    requires { length bytes.now ≡ 2 * length words.old }
    ensures { words.new ≡ words_in bytes.now }
{
    BigEndian::read_u16_into(bytes, words);
}

fn good(bytes: &[u8]) -> MstrResult
    requires { length bytes.now % 2 ≡ 0 }
    ensures { result ≡ good (Some bytes.now) }
{
    if bytes.len() > BLOCK_BYTES {
        return MstrResult::Bad(NO_RESULT);
    }
    let mut words = [0; BLOCK_BYTES / 2];
    let words = &mut words[..bytes.len() / 2];
    read_words(bytes, words);
    MstrResult::Good(Block::of(words))
}

/// The result of a reply to a request: its registers or statistics words where it fits and they
/// are at most 100, none where it fits otherwise; 3000 and the code for an exception reply of the
/// request's function, also where the request is none; 3000 for every other reply. Takes no memory.
pub fn result_of(ask: &Pdu, reply: &Pdu) -> MstrResult
    ensures { result ≡ result_of ask.now reply.now }
{
    let ask = ask.bytes();
    let reply = reply.bytes();
    if let Some(code) = exception_told(ask[0], reply) {
        return MstrResult::Bad(NO_RESULT + u16::from(code));
    }
    match told_bytes(ask, reply) {
        Some(bytes) => good(bytes),
        None => MstrResult::Bad(NO_RESULT),
    }
}
