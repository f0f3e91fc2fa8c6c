//! Replies from bytes.
ghost use Rattle.std.specs.Prelude.{◌≡◌, if◌then◌else◌, ◌⊎◌, IsTrue, IfOk, IsErrOf, ◌↔◌};
ghost use Rattle.std.specs.Prelude.{MatchOption};
ghost use Rattle.modbus_pdu.specs.Decoding.{IsSpelledReply, IsOnlyReply, HasReply, HasNoReply};
ghost use Rattle.plant_types.specs.Words.{statistics_words};
ghost use Rattle.modbus_pdu.specs.Spelling.{function_of, IsReplyTo, SpellsReply};
ghost use Rattle.modbus_pdu.specs.Steps.{Finds, IsBits, IsWords, IsWritten, IsStats, IsSame};
ghost use Rattle.modbus_pdu.specs.Steps.{IsNormal, IsOperation, HasNoOperation, IsWriting};
ghost use Rattle.modbus_pdu.specs.Steps.{IsCounted, HasNoCount, AreTwoOf};
ghost use Rattle.modbus_pdu.specs.Steps.{HasNoTwoOf, IsExceptionOf, IsNoExceptionOf};

use crate::bits::{bytes_for, spare_is_clear, unpack};
use crate::encoding::{exception_code, stats_operation};
use crate::end::BadReply;
use crate::limits::{COILS_WRITTEN, DISCRETES_READ, REGISTERS_READ, REGISTERS_WRITTEN};
use crate::numbers::{counted, three_words, two_words, word_at, words_in};
use crate::reply::Reply;
use crate::request::Request;
use plant_types::STATISTICS_WORDS;
use std::alloc::Global;

/// What a byte behind the function counts.
fn counted_behind(function: u8, bytes: &[u8]) -> Option<&[u8]>
    ensures { MatchOption result (HasNoCount function bytes.now)
        (λ rest. IsCounted function bytes.now rest.now) }
{
    match bytes {
        [code, rest @ ..] if *code == function => counted(rest),
        _ => None,
    }
}

/// Two numbers behind the function.
fn two_behind(function: u8, bytes: &[u8]) -> Option<(u16, u16)>
    ensures { MatchOption result (HasNoTwoOf function bytes.now)
        (λ w. AreTwoOf function bytes.now w.0 w.1) }
{
    match bytes {
        [code, rest @ ..] if *code == function => two_words(rest),
        _ => None,
    }
}

fn decode_bits(alloc: Global, function: u8, quantity: u16, bytes: &[u8]) -> Result<Reply, BadReply>
    requires { (function ≡ 1) ⊎ (function ≡ 2) }
    ensures { Finds (IsBits function quantity bytes.now) result }
{
    let Some(packed) = counted_behind(function, bytes) else {
        return Err(BadReply::Form);
    };
    if quantity < 1 || quantity > DISCRETES_READ || packed.len() != bytes_for(quantity as usize) {
        return Err(BadReply::Form);
    }
    if !spare_is_clear(packed, quantity as usize) {
        return Err(BadReply::Form);
    }
    let bits = unpack(alloc, packed, quantity as usize)?;
    Ok(Reply::Bits { function, bits })
}

fn decode_words(alloc: Global, function: u8, quantity: u16, bytes: &[u8]) -> Result<Reply, BadReply>
    requires { (function ≡ 3) ⊎ (function ≡ 4) ⊎ (function ≡ 23) }
    ensures { Finds (IsWords function quantity bytes.now) result }
{
    let Some(rest) = counted_behind(function, bytes) else {
        return Err(BadReply::Form);
    };
    if quantity < 1 || quantity > REGISTERS_READ || rest.len() != 2 * quantity as usize {
        return Err(BadReply::Form);
    }
    let words = words_in(alloc, rest, quantity as usize)?;
    Ok(Reply::Words { function, words })
}

fn decode_written(
    function: u8,
    address: u16,
    quantity: usize,
    most: u16,
    bytes: &[u8],
) -> Result<Reply, BadReply>
    requires { IsWriting function most }
    ensures { Finds (IsWritten function address quantity bytes.now) result }
{
    match two_behind(function, bytes) {
        Some((first, count))
            if first == address && count as usize == quantity && count >= 1 && count <= most => {
            Ok(Reply::Written {
                function,
                address,
                quantity: count,
            })
        }
        _ => Err(BadReply::Form),
    }
}

/// The operation behind function 8 and sub-function 21, and what follows it.
fn operation_behind(bytes: &[u8]) -> Option<(u16, &[u8])>
    ensures { MatchOption result (HasNoOperation bytes.now)
        (λ found. IsOperation bytes.now found.0 found.1.now) }
{
    match bytes {
        [8, 0, 21, rest @ ..] => word_at(rest),
        _ => None,
    }
}

fn decode_stats(alloc: Global, quantity: usize, bytes: &[u8]) -> Result<Reply, BadReply>
    requires { (quantity ≡ 0) ⊎ (quantity ≡ statistics_words) }
    ensures { Finds (IsStats quantity bytes.now) result }
{
    let Some((operation, rest)) = operation_behind(bytes) else {
        return Err(BadReply::Form);
    };
    if operation != stats_operation(quantity) || rest.len() != 2 * quantity {
        return Err(BadReply::Form);
    }
    let words = words_in(alloc, rest, quantity)?;
    Ok(Reply::Stats { words })
}

fn is_two(function: u8, first: u16, second: u16, bytes: &[u8]) -> bool
    ensures { IsTrue result ↔ AreTwoOf function bytes.now first second }
{
    matches!(two_behind(function, bytes), Some((one, two)) if one == first && two == second)
}

fn decode_write_coil(address: u16, on: bool, bytes: &[u8]) -> Result<Reply, BadReply>
    ensures { Finds (IsSame (Request.WriteCoil address on) bytes.now) result }
{
    let value = if on { 0xff00 } else { 0 };
    if !is_two(5, address, value, bytes) {
        return Err(BadReply::Form);
    }
    Ok(Reply::Same(Request::WriteCoil { address, on }))
}

fn decode_write_register(address: u16, value: u16, bytes: &[u8]) -> Result<Reply, BadReply>
    ensures { Finds (IsSame (Request.WriteRegister address value) bytes.now) result }
{
    if !is_two(6, address, value, bytes) {
        return Err(BadReply::Form);
    }
    Ok(Reply::Same(Request::WriteRegister { address, value }))
}

fn decode_echo(word: u16, bytes: &[u8]) -> Result<Reply, BadReply>
    ensures { Finds (IsSame (Request.Echo word) bytes.now) result }
{
    if !is_two(8, 0, word, bytes) {
        return Err(BadReply::Form);
    }
    Ok(Reply::Same(Request::Echo { word }))
}

fn decode_mask(address: u16, and_mask: u16, or_mask: u16, bytes: &[u8]) -> Result<Reply, BadReply>
    ensures { Finds (IsSame (Request.Mask address and_mask or_mask) bytes.now) result }
{
    match bytes {
        [22, rest @ ..] if three_words(rest) == Some((address, and_mask, or_mask)) => {
            Ok(Reply::Same(Request::Mask {
                address,
                and_mask,
                or_mask,
            }))
        }
        _ => Err(BadReply::Form),
    }
}

/// How many words of statistics are due.
fn stats_quantity(clear: bool) -> usize
    ensures due { result ≡ (if clear then 0 else statistics_words) }
    ensures either { (result ≡ 0) ⊎ (result ≡ statistics_words) }
{
    if clear {
        0
    } else {
        usize::from(STATISTICS_WORDS)
    }
}

fn normal_reply(alloc: Global, request: &Request, bytes: &[u8]) -> Result<Reply, BadReply>
    ensures { Finds (IsNormal request.now bytes.now) result }
{
    match request {
        Request::ReadCoils { quantity, .. } => decode_bits(alloc, 1, *quantity, bytes),
        Request::ReadInputs { quantity, .. } => decode_bits(alloc, 2, *quantity, bytes),
        Request::ReadRegisters { quantity, .. } => decode_words(alloc, 3, *quantity, bytes),
        Request::ReadInputRegisters { quantity, .. } => decode_words(alloc, 4, *quantity, bytes),
        Request::WriteCoil { address, on } => decode_write_coil(*address, *on, bytes),
        Request::WriteRegister { address, value } => decode_write_register(*address, *value, bytes),
        Request::Echo { word } => decode_echo(*word, bytes),
        Request::Stats { clear } => decode_stats(alloc, stats_quantity(*clear), bytes),
        Request::WriteCoils { address, bits } => {
            decode_written(15, *address, bits.as_slice().len(), COILS_WRITTEN, bytes)
        }
        Request::WriteRegisters { address, words } => {
            decode_written(16, *address, words.words().len(), REGISTERS_WRITTEN, bytes)
        }
        Request::Mask {
            address,
            and_mask,
            or_mask,
        } => decode_mask(*address, *and_mask, *or_mask, bytes),
        Request::ReadWrite { quantity, .. } => decode_words(alloc, 23, *quantity, bytes),
    }
}

fn function_of(request: &Request) -> u8
    ensures { result ≡ function_of request.now }
{
    match request {
        Request::ReadCoils { .. } => 1,
        Request::ReadInputs { .. } => 2,
        Request::ReadRegisters { .. } => 3,
        Request::ReadInputRegisters { .. } => 4,
        Request::WriteCoil { .. } => 5,
        Request::WriteRegister { .. } => 6,
        Request::Echo { .. } | Request::Stats { .. } => 8,
        Request::WriteCoils { .. } => 15,
        Request::WriteRegisters { .. } => 16,
        Request::Mask { .. } => 22,
        Request::ReadWrite { .. } => 23,
    }
}

/// The code of an exception reply of a function.
fn exception_in(function: u8, bytes: &[u8]) -> Option<u8>
    ensures { MatchOption result (IsNoExceptionOf function bytes.now)
        (IsExceptionOf function bytes.now) }
{
    match bytes {
        [first, code] if *first == exception_code(function) => Some(*code),
        _ => None,
    }
}

fn reply_in(alloc: Global, request: &Request, bytes: &[u8]) -> Result<Reply, BadReply>
    ensures { Finds (IsSpelledReply request.now bytes.now) result }
{
    let function = function_of(request);
    match exception_in(function, bytes) {
        Some(code) => Ok(Reply::Exception { function, code }),
        None => normal_reply(alloc, request, bytes),
    }
}

/// The reply to the request that the bytes spell.
pub fn decode_reply(alloc: Global, request: &Request, bytes: &[u8]) -> Result<Reply, BadReply>
    ensures reply { IfOk result (IsReplyTo request.now) }
    ensures spelled { IfOk result (SpellsReply bytes.now) }
    ensures only { IfOk result (IsOnlyReply request.now bytes.now) }
    ensures form { IsErrOf result BadReply.Form ↔ HasNoReply request.now bytes.now }
    ensures memory { IsErrOf result BadReply.NoMemory → HasReply request.now bytes.now }
{
    reply_in(alloc, request, bytes)
}
