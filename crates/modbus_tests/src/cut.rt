//! Requests that are cut short.
use crate::digits::{bytes_of, code, code_of};
use std::alloc::Global;
use std::test::Fail;

/// Requests, and what decoding answers to the whole: the code of an exception, 0 for a request.
const REQUESTS: &str = "\
030000007d => 0
030000007e => 3
0300000000 => 3
03000000 => 3
07 => 1
0500001234 => 3
050000ff00 => 0
16000000f20025 => 0
170000000100000001020007 => 0
080000a537 => 0
0800010000 => 3
";

/// How many of its fronts, itself among them, are decoded otherwise than as due: a front that ends
/// too soon has a function that is listed, and spells no request.
fn misread(alloc: Global, request: &[u8], whole: u8) -> u32 {
    let mut count = 0u32;
    for length in 1..=request.len() {
        let due = if length < request.len() { 3 } else { whole };
        if code_of(alloc, &request[..length]) != due {
            count = count.saturating_add(1);
        }
    }
    count
}

#[test]
fn each_front_of_a_request_is_answered(rt: HostRuntime) -> Result<(), Fail> {
    for row in REQUESTS.lines() {
        let (request, whole) = row.split_once(" => ").ok_or("a code")?;
        let bytes = bytes_of(rt.alloc(), request)?;
        assert_eq!(rt; misread(rt.alloc(), &bytes, code(whole)), 0, "{request}");
    }
    Ok(())
}
