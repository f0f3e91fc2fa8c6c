//! Requests and replies as bytes, in hexadecimal digits.
use crate::digits::{bytes_of, code, code_of};
use modbus_pdu::{Request, decode, decode_reply, encode_reply, encode_request};
use std::alloc::Global;
use std::process::Abort;
use std::test::Fail;

/// Requests, and a reply to each.
const EXCHANGES: &str = "\
050000ff00 => 050000ff00
0500000000 => 0500000000
16000000f20025 => 16000000f20025
170000000100000001020007 => 17020007
080000a537 => 080000a537
030000007d => 8302
0300000002 => 0304002a002b
04ffff0001 => 0402fffe
010000000a => 01020502
0200000008 => 0201ff
0600011234 => 0600011234
0800150004 => 0800150004
0800150003 => \
    080015000300020003000200000001000100000000000200000000000000020000000000010000000100000000
0f0013000a02cd01 => 0f0013000a
100001000204000a0102 => 1000010002
100001000204000a0102 => 9000
";

/// A request and a reply to it are read, and written as they were.
fn are_read_and_written(
    rt: &impl Abort,
    alloc: Global,
    request: &[u8],
    reply: &[u8],
) -> Result<(), Fail> {
    assert!(rt; !request.is_empty());
    let decoded = decode(alloc, request).ok().ok_or("a request")?;
    let again = encode_request(alloc, &decoded)?;
    assert!(rt; again.bytes() == request);
    let answer = decode_reply(alloc, &decoded, reply).ok().ok_or("a reply")?;
    let again = encode_reply(alloc, &answer)?;
    assert!(rt; again.bytes() == reply);
    Ok(())
}

#[test]
fn exchanges_are_read_and_written(rt: HostRuntime) -> Result<(), Fail> {
    for row in EXCHANGES.lines() {
        let (request, reply) = row.split_once(" => ").ok_or("a reply")?;
        let request = bytes_of(rt.alloc(), request)?;
        let reply = bytes_of(rt.alloc(), reply)?;
        are_read_and_written(&rt, rt.alloc(), &request, &reply)?;
    }
    Ok(())
}

/// Requests to read, and what decoding answers: the code of an exception, 0 for a request.
const READS: &str = "\
030000007d => 0
030000007e => 3
0300000000 => 3
03000000 => 3
0100000000 => 3
0100000001 => 0
01ffff07d0 => 0
01000007d1 => 3
010000ffff => 3
010000000100 => 3
01000000 => 3
0200000000 => 3
0200000001 => 0
02000007d0 => 0
02000007d1 => 3
020000000100 => 3
0300000001 => 0
030000000100 => 3
0400000000 => 3
0400000001 => 0
040000007d => 0
040000007e => 3
04000000 => 3
";

/// Requests to write, as those above.
const WRITES: &str = "\
0500001234 => 3
0500000000 => 0
050000ff00 => 0
050000ff01 => 3
0500000001 => 3
050000ff => 3
050000ff0000 => 3
060000ffff => 0
060000ff => 3
060000ffff00 => 3
16000001020304 => 0
160000010203 => 3
1600000102030405 => 3
170000000100000001 => 3
0f => 3
1000000001 => 3
";

/// Other requests, as those above.
const OTHERS: &str = "\
07 => 1
0800010000 => 3
0000000001 => 1
8300000001 => 1
0800000102 => 0
08000001 => 3
080000010203 => 3
0800150002 => 3
0800150003 => 0
0800150004 => 0
0800150005 => 3
0801150003 => 3
1800000001 => 1
";

fn exceptions_are_due(rt: &impl Abort, alloc: Global, rows: &str) -> Result<(), Fail> {
    for row in rows.lines() {
        let (request, due) = row.split_once(" => ").ok_or("a code")?;
        let bytes = bytes_of(alloc, request)?;
        assert_eq!(rt; code_of(alloc, &bytes), code(due), "{request}");
    }
    Ok(())
}

#[test]
fn exceptions_are_due_to_requests(rt: HostRuntime) -> Result<(), Fail> {
    exceptions_are_due(&rt, rt.alloc(), READS)?;
    exceptions_are_due(&rt, rt.alloc(), WRITES)?;
    exceptions_are_due(&rt, rt.alloc(), OTHERS)
}

/// The first bytes of a request, its byte count and how many bytes of 255 stand behind that; then
/// what decoding answers, as above. At first writes, then reads with writes.
const COUNTS: &str = "\
0f00000000 0 0 => 3
0f00000001 1 1 => 0
0f00000008 1 1 => 0
0f00000009 1 1 => 3
0f00000009 2 2 => 0
0f000007b0 246 246 => 0
0f000007b1 247 247 => 3
0f00000001 2 1 => 3
0f00000001 0 1 => 3
0f00000001 2 2 => 3
0f00000001 1 0 => 3
0f00000001 1 2 => 3
1000000000 0 0 => 3
1000000001 2 2 => 0
100000007b 246 246 => 0
100000007c 248 248 => 3
1000000001 1 2 => 3
1000000001 3 3 => 3
1000000001 2 1 => 3
1000000001 2 3 => 3
170000000000000001 2 2 => 3
170000000100000000 0 0 => 3
170000000100000001 2 2 => 0
170000007d00000079 242 242 => 0
170000007e00000079 242 242 => 3
170000007d0000007a 244 244 => 3
170000000100000001 1 2 => 3
170000000100000001 3 3 => 3
170000000100000001 2 1 => 3
170000000100000001 2 3 => 3
170000000100000001 2 0 => 3
";

/// The request of a row.
fn long_request(alloc: Global, row: &str) -> Result<Vec<u8>, Fail> {
    let (head, numbers) = row.split_once(" ").ok_or("a count")?;
    let (count, extra) = numbers.split_once(" ").ok_or("bytes behind it")?;
    let mut bytes = bytes_of(alloc, head)?;
    bytes.push(code(count))?;
    for _ in 0..code(extra) {
        bytes.push(255)?;
    }
    Ok(bytes)
}

#[test]
fn counts_of_writes_are_exact(rt: HostRuntime) -> Result<(), Fail> {
    for row in COUNTS.lines() {
        let (request, due) = row.split_once(" => ").ok_or("a code")?;
        let bytes = long_request(rt.alloc(), request)?;
        assert_eq!(rt; code_of(rt.alloc(), &bytes), code(due), "{request}");
    }
    Ok(())
}

/// Whether each front of some bytes is a request or has an exception.
fn are_fronts_decoded(alloc: Global, bytes: &[u8]) -> bool {
    for length in 1..bytes.len() {
        let code = code_of(alloc, &bytes[..length]);
        if code != 0 && code != 1 && code != 3 {
            return false;
        }
    }
    true
}

#[test]
fn cut_requests_are_exceptions(rt: HostRuntime) -> Result<(), Fail> {
    for row in EXCHANGES.lines() {
        let (request, reply) = row.split_once(" => ").ok_or("a reply")?;
        let request = bytes_of(rt.alloc(), request)?;
        assert!(rt; are_fronts_decoded(rt.alloc(), &request), "{row}");
        let reply = bytes_of(rt.alloc(), reply)?;
        assert!(rt; are_fronts_decoded(rt.alloc(), &reply), "{row}");
    }
    Ok(())
}

/// A request, and whether some bytes are a reply to it: at first what was read, then what was
/// written.
const REPLIES: &str = "\
010000000a : 0102ff03 => true
010000000a : 0102ff04 => false
010000000a : 0101ff => false
010000000a : 0102ff => false
010000000a : 0102ff0300 => false
010000000a : 0202ff03 => false
010000000a : 8102 => true
010000000a : 8100 => true
010000000a : 8202 => false
010000000a : 0102 => false
010000000a : 81 => false
010000000a : 810200 => false
010000000a :  => false
0300000001 : 03020001 => true
0300000001 : 03010001 => false
0300000001 : 030400010002 => false
0300000001 : 04020001 => false
050000ff00 : 0500000000 => false
050000ff00 : 050001ff00 => false
0600000007 : 0600000008 => false
0800000102 : 0800000103 => false
0800150004 : 0800150003 => false
0800150003 : 0800150003 => false
0f000000010101 : 0f00000002 => false
1000000001020001 : 0f00000001 => false
16000000010002 : 16000000010003 => false
16000000010002 : 1600000001 => false
170000000100000001020007 : 17040007 => false
";

/// Whether some bytes are a reply to a request.
fn fits(rt: &impl Abort, alloc: Global, request: &[u8], reply: &[u8]) -> Result<bool, Fail> {
    assert!(rt; !request.is_empty());
    let decoded = decode(alloc, request).ok().ok_or("a request")?;
    Ok(decode_reply(alloc, &decoded, reply).is_ok())
}

#[test]
fn replies_fit_their_requests(rt: HostRuntime) -> Result<(), Fail> {
    for row in REPLIES.lines() {
        let (exchange, due) = row.split_once(" => ").ok_or("whether it fits")?;
        let (request, reply) = exchange.split_once(" : ").ok_or("a reply")?;
        let request = bytes_of(rt.alloc(), request)?;
        let reply = bytes_of(rt.alloc(), reply)?;
        let found = fits(&rt, rt.alloc(), &request, &reply)?;
        assert_eq!(rt; found, due == "true", "{row}");
    }
    Ok(())
}

/// Three coils from 6 on, and spare bits.
const COILS: [u8; 7] = [15, 0, 5, 0, 3, 1, 0b1111_1110];

#[test]
fn bits_stand_lowest_first(rt: HostRuntime) -> Result<(), Fail> {
    let request = decode(rt.alloc(), &COILS).ok().ok_or("coils")?;
    let Request::WriteCoils { address, bits } = &request else {
        return Err("no coils".into());
    };
    assert!(rt; *address == 5 && bits.as_slice() == [false, true, true].as_slice());
    Ok(())
}

#[test]
fn spare_bits_are_written_as_0(rt: HostRuntime) -> Result<(), Fail> {
    let request = decode(rt.alloc(), &COILS).ok().ok_or("coils")?;
    let again = encode_request(rt.alloc(), &request)?;
    assert!(rt; again.bytes() == [15, 0, 5, 0, 3, 1, 0b0000_0110].as_slice());
    Ok(())
}
