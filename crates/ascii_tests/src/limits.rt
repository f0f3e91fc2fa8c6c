//! How many digits a frame has.
use crate::heard::heard;
use std::alloc::{AllocError, Global};
use std::process::Abort;
use std::test::Fail;

/// Few digits, and the frames: one, two and three bytes, and half a byte more or less.
const SHORT: [(&str, &str); 8] = [
    (":\r\n", ""),
    (":00\r\n", ""),
    (":01FF\r\n", ""),
    (":0000\r\n", ""),
    (":01FF0\r\n", ""),
    (":000000\r\n", "0 00;"),
    (":0000000\r\n", ""),
    (":00000000\r\n", "0 0000;"),
];

#[test]
fn few_digits(rt: HostRuntime) -> Result<(), Fail> {
    for (stream, frames) in SHORT {
        let found = heard(rt.alloc(), stream.as_bytes())?;
        assert!(rt; found.as_str() == frames, "{stream}");
    }
    Ok(())
}

/// A colon, so many zeros, and the end of a line.
fn zeros(alloc: Global, count: usize) -> Result<Vec<u8>, AllocError> {
    let mut stream = vec![in alloc; b'0'; count]?;
    stream.insert(0, b':')?;
    stream.extend_from_slice(b"\r\n")?;
    Ok(stream)
}

/// Whether there is one frame of zeros, whose text is so long.
fn is_one_frame(alloc: Global, count: usize, length: usize) -> Result<bool, AllocError> {
    let stream = zeros(alloc, count)?;
    let found = heard(alloc, &stream)?;
    Ok(found.starts_with("0 00") && found.ends_with("00;") && found.len() == length)
}

#[test]
fn many_digits(rt: HostRuntime) -> Result<(), Fail> {
    let alloc = rt.alloc();
    assert!(rt; is_one_frame(alloc, 508, 507)?);
    assert!(rt; is_one_frame(alloc, 510, 509)?);
    for count in [507, 509, 511, 512, 513, 514, 1020] {
        let stream = zeros(alloc, count)?;
        let found = heard(alloc, &stream)?;
        assert!(rt; found.is_empty(), "{count}");
    }
    Ok(())
}
