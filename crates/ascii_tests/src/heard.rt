//! What a port finds on a stream.
use ascii_port::{Fed, Port};
use std::alloc::{AllocError, Global};
use std::fmt::Write;

/// The frames on a stream, each with its address and the digits of its PDU.
pub(crate) fn heard(alloc: Global, stream: &[u8]) -> Result<String, AllocError> {
    let mut port = Port::new();
    let mut frames = String::new(alloc);
    for byte in stream {
        match port.feed(*byte) {
            Fed::More => {}
            Fed::Frame => {
                let address = port.address();
                let digits = hex::encode(alloc, port.pdu())?;
                write!(frames, "{address} {digits};")?;
            }
        }
    }
    Ok(frames)
}
