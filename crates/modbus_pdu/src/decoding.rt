//! Requests from bytes.
ghost use Rattle.std.specs.Prelude.{◌≡◌, ◌≤◌, ◌↔◌, true, length, IfOk, IfErr, IsErrOf};
ghost use Rattle.modbus_pdu.specs.Decoding.{IsUnlisted, IsMisformed, IsSpelled, IsOnlyRequest};
ghost use Rattle.modbus_pdu.specs.Decoding.{IsDecodeEnd};
ghost use Rattle.modbus_pdu.specs.Exceptions.{illegal_function, illegal_value};
ghost use Rattle.modbus_pdu.specs.Spelling.{Spells, is_listed};
ghost use Rattle.modbus_pdu.specs.Steps.{Decodes, reading_function, read_request, most_read};

use crate::bits::{bytes_for, unpack};
use crate::end::DecodeEnd;
use crate::limits::{
    COILS_WRITTEN, DISCRETES_READ, ILLEGAL_FUNCTION, ILLEGAL_VALUE, REGISTERS_EXCHANGED,
    REGISTERS_READ, REGISTERS_WRITTEN,
};
use crate::numbers::{range_in, read_written, three_words, two_words, words_in, written};
use crate::request::Request;
use plant_types::RefKind;
use std::alloc::Global;

fn most_read(kind: RefKind) -> u16
    ensures { result ≡ most_read kind }
{
    match kind {
        RefKind::Coil | RefKind::Input => DISCRETES_READ,
        RefKind::Register | RefKind::InputRegister => REGISTERS_READ,
    }
}

fn read_request(kind: RefKind, address: u16, quantity: u16) -> Request
    ensures { result ≡ read_request kind address quantity }
{
    match kind {
        RefKind::Coil => Request::ReadCoils { address, quantity },
        RefKind::Input => Request::ReadInputs { address, quantity },
        RefKind::Register => Request::ReadRegisters { address, quantity },
        RefKind::InputRegister => Request::ReadInputRegisters { address, quantity },
    }
}

/// A read of references of a kind.
fn read(kind: RefKind, fields: &[u8]) -> Result<Request, DecodeEnd>
    ensures { Decodes (reading_function kind) fields.now result }
{
    match range_in(fields, most_read(kind)) {
        Some((address, quantity)) => Ok(read_request(kind, address, quantity)),
        None => Err(DecodeEnd::Exception(ILLEGAL_VALUE)),
    }
}

fn write_coil(fields: &[u8]) -> Result<Request, DecodeEnd>
    ensures { Decodes 5 fields.now result }
{
    match two_words(fields) {
        Some((address, 0xff00)) => Ok(Request::WriteCoil { address, on: true }),
        Some((address, 0)) => Ok(Request::WriteCoil { address, on: false }),
        _ => Err(DecodeEnd::Exception(ILLEGAL_VALUE)),
    }
}

fn write_register(fields: &[u8]) -> Result<Request, DecodeEnd>
    ensures { Decodes 6 fields.now result }
{
    match two_words(fields) {
        Some((address, value)) => Ok(Request::WriteRegister { address, value }),
        None => Err(DecodeEnd::Exception(ILLEGAL_VALUE)),
    }
}

/// Sub-function 0 echoes; sub-function 21 gives the statistics with operation 3 and clears them
/// with operation 4.
#[tactic(auto, using(crate::proofs::Requests::no_diagnosis))]
fn diagnose(fields: &[u8]) -> Result<Request, DecodeEnd>
    ensures { Decodes 8 fields.now result }
{
    let Some((sub_function, word)) = two_words(fields) else {
        return Err(DecodeEnd::Exception(ILLEGAL_VALUE));
    };
    match (sub_function, word) {
        (0, _) => Ok(Request::Echo { word }),
        (21, 3) => Ok(Request::Stats { clear: false }),
        (21, 4) => Ok(Request::Stats { clear: true }),
        _ => Err(DecodeEnd::Exception(ILLEGAL_VALUE)),
    }
}

fn mask(fields: &[u8]) -> Result<Request, DecodeEnd>
    ensures { Decodes 22 fields.now result }
{
    match three_words(fields) {
        Some((address, and_mask, or_mask)) => Ok(Request::Mask {
            address,
            and_mask,
            or_mask,
        }),
        None => Err(DecodeEnd::Exception(ILLEGAL_VALUE)),
    }
}

fn write_coils(alloc: Global, fields: &[u8]) -> Result<Request, DecodeEnd>
    ensures { Decodes 15 fields.now result }
{
    let Some((address, quantity, packed)) = written(fields) else {
        return Err(DecodeEnd::Exception(ILLEGAL_VALUE));
    };
    if quantity < 1 || quantity > COILS_WRITTEN || packed.len() != bytes_for(quantity as usize) {
        return Err(DecodeEnd::Exception(ILLEGAL_VALUE));
    }
    let bits = unpack(alloc, packed, quantity as usize)?;
    Ok(Request::WriteCoils { address, bits })
}

fn write_registers(alloc: Global, fields: &[u8]) -> Result<Request, DecodeEnd>
    ensures { Decodes 16 fields.now result }
{
    let Some((address, quantity, rest)) = written(fields) else {
        return Err(DecodeEnd::Exception(ILLEGAL_VALUE));
    };
    if quantity < 1 || quantity > REGISTERS_WRITTEN || rest.len() != 2 * quantity as usize {
        return Err(DecodeEnd::Exception(ILLEGAL_VALUE));
    }
    let words = words_in(alloc, rest, quantity as usize)?;
    Ok(Request::WriteRegisters { address, words })
}

fn read_write(alloc: Global, fields: &[u8]) -> Result<Request, DecodeEnd>
    ensures { Decodes 23 fields.now result }
{
    let Some((read, quantity, write, count, rest)) = read_written(fields) else {
        return Err(DecodeEnd::Exception(ILLEGAL_VALUE));
    };
    if quantity < 1 || quantity > REGISTERS_READ || count < 1 || count > REGISTERS_EXCHANGED {
        return Err(DecodeEnd::Exception(ILLEGAL_VALUE));
    }
    if rest.len() != 2 * count as usize {
        return Err(DecodeEnd::Exception(ILLEGAL_VALUE));
    }
    let words = words_in(alloc, rest, count as usize)?;
    Ok(Request::ReadWrite {
        read,
        quantity,
        write,
        words,
    })
}

fn decode_listed(alloc: Global, function: u8, fields: &[u8]) -> Result<Request, DecodeEnd>
    requires { is_listed function ≡ true }
    ensures { Decodes function fields.now result }
{
    match function {
        1 => read(RefKind::Coil, fields),
        2 => read(RefKind::Input, fields),
        3 => read(RefKind::Register, fields),
        4 => read(RefKind::InputRegister, fields),
        5 => write_coil(fields),
        6 => write_register(fields),
        8 => diagnose(fields),
        15 => write_coils(alloc, fields),
        16 => write_registers(alloc, fields),
        22 => mask(fields),
        23 => read_write(alloc, fields),
        _ => unreachable!(),
    }
}

fn is_listed(function: u8) -> bool
    ensures { result ≡ is_listed function }
{
    matches!(function, 1..=6 | 8 | 15 | 16 | 22 | 23)
}

/// The request that the bytes spell; exception 1 where their function is not served, exception 3
/// where it is and they spell no request.
pub fn decode(alloc: Global, bytes: &[u8]) -> Result<Request, DecodeEnd>
    requires { 1 ≤ length bytes.now }
    ensures spelled { IfOk result (Spells bytes.now) }
    ensures only { IfOk result (IsOnlyRequest bytes.now) }
    ensures unlisted { IsErrOf result (DecodeEnd.Exception illegal_function)
        ↔ IsUnlisted bytes.now }
    ensures misformed { IsErrOf result (DecodeEnd.Exception illegal_value)
        ↔ IsMisformed bytes.now }
    ensures ends { IfErr result IsDecodeEnd }
    ensures memory { IsErrOf result DecodeEnd.NoMemory → IsSpelled bytes.now }
{
    let function = bytes[0];
    if !is_listed(function) {
        return Err(DecodeEnd::Exception(ILLEGAL_FUNCTION));
    }
    decode_listed(alloc, function, &bytes[1..])
}
