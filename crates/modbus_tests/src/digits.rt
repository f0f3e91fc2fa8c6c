//! Bytes of rows, and what decoding them answers.
use modbus_pdu::{DecodeEnd, decode};
use std::alloc::Global;
use std::test::Fail;

/// The bytes of hexadecimal digits.
pub(crate) fn bytes_of(alloc: Global, digits: &str) -> Result<Vec<u8>, Fail> {
    Ok(hex::decode(alloc, digits.as_bytes()).ok().ok_or("bytes")?)
}

/// The code at the end of a row.
pub(crate) fn code(digits: &str) -> u8 {
    digits.parse::<u8>().unwrap_or(255)
}

/// What decoding answered: the code of an exception, 0 for a request.
pub(crate) fn code_of(alloc: Global, bytes: &[u8]) -> u8 {
    if bytes.is_empty() {
        return 255;
    }
    match decode(alloc, bytes) {
        Ok(_) => 0,
        Err(DecodeEnd::Exception(code)) => code,
        Err(DecodeEnd::NoMemory) => 255,
    }
}
