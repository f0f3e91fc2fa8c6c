//! Requests and replies as bytes.
ghost use Rattle.std.specs.Prelude.{◌≡◌, ◌≤◌, ◌==◌, if◌then◌else◌, [], ◌∷◌, ◌++◌, length, IfOk};
ghost use Rattle.modbus_pdu.specs.Bytes.{word_bytes, words_bytes, counted_words, counted_bits};
ghost use Rattle.modbus_pdu.specs.Bytes.{clear_spare};
ghost use Rattle.modbus_pdu.specs.Quantities.{most_coils_written, most_registers_written};
ghost use Rattle.modbus_pdu.specs.Quantities.{most_registers_exchanged};
ghost use Rattle.modbus_pdu.specs.Quantities.{most_discretes_read, most_registers_read};
ghost use Rattle.plant_types.specs.Words.{statistics_words};
ghost use Rattle.modbus_pdu.specs.Spelling.{IsRequestInRange, Spells, spelling_of, IsReplyInRange};
ghost use Rattle.modbus_pdu.specs.Spelling.{SpellsReply, reply_bytes, exception_code};
ghost use Rattle.modbus_pdu.specs.Spelling.{operation_for};

use crate::bits::bytes_for;
use crate::draft::Draft;
use crate::reply::Reply;
use crate::request::Request;
use plant_types::Pdu;
use std::alloc::{AllocError, Global};

fn encode_two(alloc: Global, function: u8, first: u16, second: u16) -> Result<Pdu, AllocError>
    ensures { IfOk result (λ pdu. pdu ≡ function ∷ word_bytes first ++ word_bytes second) }
{
    let mut draft = Draft::new();
    draft.byte(function);
    draft.word(first);
    draft.word(second);
    draft.finish(alloc)
}

fn encode_three(
    alloc: Global,
    function: u8,
    first: u16,
    second: u16,
    third: u16,
) -> Result<Pdu, AllocError>
    ensures { IfOk result (λ pdu. pdu ≡
        function ∷ word_bytes first ++ word_bytes second ++ word_bytes third) }
{
    let mut draft = Draft::new();
    draft.byte(function);
    draft.word(first);
    draft.word(second);
    draft.word(third);
    draft.finish(alloc)
}

fn write_coils(alloc: Global, address: u16, bits: &[bool]) -> Result<Pdu, AllocError>
    requires { length bits.now ≤ most_coils_written }
    ensures { IfOk result (λ pdu. pdu ≡ spelling_of (Request.WriteCoils address bits.now)) }
{
    let mut draft = Draft::new();
    draft.byte(15);
    draft.word(address);
    draft.word(bits.len() as u16);
    draft.byte(bytes_for(bits.len()) as u8);
    draft.bits(bits);
    draft.finish(alloc)
}

fn write_registers(alloc: Global, address: u16, words: &[u16]) -> Result<Pdu, AllocError>
    requires { length words.now ≤ most_registers_written }
    ensures { IfOk result (λ pdu. pdu ≡ spelling_of (Request.WriteRegisters address words.now)) }
{
    let mut draft = Draft::new();
    draft.byte(16);
    draft.word(address);
    draft.word(words.len() as u16);
    draft.byte(2 * words.len() as u8);
    draft.words(words);
    draft.finish(alloc)
}

fn read_write(
    alloc: Global,
    read: u16,
    quantity: u16,
    write: u16,
    words: &[u16],
) -> Result<Pdu, AllocError>
    requires { length words.now ≤ most_registers_exchanged }
    ensures { IfOk result (λ pdu. pdu ≡
        spelling_of (Request.ReadWrite read quantity write words.now)) }
{
    let mut draft = Draft::new();
    draft.byte(23);
    draft.word(read);
    draft.word(quantity);
    draft.word(write);
    draft.word(words.len() as u16);
    draft.byte(2 * words.len() as u8);
    draft.words(words);
    draft.finish(alloc)
}

/// The bytes of a request; the spare bits behind its coils are 0.
pub fn encode_request(alloc: Global, request: &Request) -> Result<Pdu, AllocError>
    requires { IsRequestInRange request.now }
    ensures spelled { IfOk result (λ pdu. Spells pdu request.now) }
    ensures bytes { IfOk result (λ pdu. pdu ≡ spelling_of request.now) }
{
    match request {
        Request::ReadCoils { address, quantity } => encode_two(alloc, 1, *address, *quantity),
        Request::ReadInputs { address, quantity } => encode_two(alloc, 2, *address, *quantity),
        Request::ReadRegisters { address, quantity } => encode_two(alloc, 3, *address, *quantity),
        Request::ReadInputRegisters { address, quantity } => {
            encode_two(alloc, 4, *address, *quantity)
        }
        Request::WriteCoil { address, on: true } => encode_two(alloc, 5, *address, 0xff00),
        Request::WriteCoil { address, on: false } => encode_two(alloc, 5, *address, 0),
        Request::WriteRegister { address, value } => encode_two(alloc, 6, *address, *value),
        Request::Echo { word } => encode_two(alloc, 8, 0, *word),
        Request::Stats { clear: false } => encode_two(alloc, 8, 21, 3),
        Request::Stats { clear: true } => encode_two(alloc, 8, 21, 4),
        Request::WriteCoils { address, bits } => write_coils(alloc, *address, bits.as_slice()),
        Request::WriteRegisters { address, words } => {
            write_registers(alloc, *address, words.words())
        }
        Request::Mask {
            address,
            and_mask,
            or_mask,
        } => encode_three(alloc, 22, *address, *and_mask, *or_mask),
        Request::ReadWrite {
            read,
            quantity,
            write,
            words,
        } => read_write(alloc, *read, *quantity, *write, words.words()),
    }
}

fn bits_reply(alloc: Global, function: u8, bits: &[bool]) -> Result<Pdu, AllocError>
    requires { length bits.now ≤ most_discretes_read }
    ensures { IfOk result (λ pdu. pdu ≡ reply_bytes (Reply.Bits function bits.now)) }
{
    let mut draft = Draft::new();
    draft.byte(function);
    draft.byte(bytes_for(bits.len()) as u8);
    draft.bits(bits);
    draft.finish(alloc)
}

fn words_reply(alloc: Global, function: u8, words: &[u16]) -> Result<Pdu, AllocError>
    requires { length words.now ≤ most_registers_read }
    ensures { IfOk result (λ pdu. pdu ≡ reply_bytes (Reply.Words function words.now)) }
{
    let mut draft = Draft::new();
    draft.byte(function);
    draft.byte(2 * words.len() as u8);
    draft.words(words);
    draft.finish(alloc)
}

/// The operation that gives so many words of statistics: 4 clears and gives none, 3 gives them.
pub(crate) fn stats_operation(quantity: usize) -> u16
    ensures { result ≡ operation_for quantity }
{
    if quantity == 0 { 4 } else { 3 }
}

fn stats_reply(alloc: Global, words: &[u16]) -> Result<Pdu, AllocError>
    requires { length words.now ≤ statistics_words }
    ensures { IfOk result (λ pdu. pdu ≡ reply_bytes (Reply.Stats words.now)) }
{
    let mut draft = Draft::new();
    draft.byte(8);
    draft.word(21);
    draft.word(stats_operation(words.len()));
    draft.words(words);
    draft.finish(alloc)
}

/// The function code of an exception reply: that of the request with bit 7 set. Modicon Modbus
/// Protocol Reference Guide.
pub fn exception_code(function: u8) -> u8
    ensures { result ≡ exception_code function }
{
    if function < 128 {
        function + 128
    } else {
        function
    }
}

fn exception_reply(alloc: Global, function: u8, code: u8) -> Result<Pdu, AllocError>
    ensures { IfOk result (λ pdu. pdu ≡ reply_bytes (Reply.Exception function code)) }
{
    let mut draft = Draft::new();
    draft.byte(exception_code(function));
    draft.byte(code);
    draft.finish(alloc)
}

/// The bytes of a reply.
pub fn encode_reply(alloc: Global, reply: &Reply) -> Result<Pdu, AllocError>
    requires { IsReplyInRange reply.now }
    ensures spelled { IfOk result (λ pdu. SpellsReply pdu reply.now) }
    ensures bytes { IfOk result (λ pdu. pdu ≡ reply_bytes reply.now) }
{
    match reply {
        Reply::Bits { function, bits } => bits_reply(alloc, *function, bits.as_slice()),
        Reply::Words { function, words } => words_reply(alloc, *function, words.words()),
        Reply::Same(request) => encode_request(alloc, request),
        Reply::Written {
            function,
            address,
            quantity,
        } => encode_two(alloc, *function, *address, *quantity),
        Reply::Stats { words } => stats_reply(alloc, words.words()),
        Reply::Exception { function, code } => exception_reply(alloc, *function, *code),
    }
}
