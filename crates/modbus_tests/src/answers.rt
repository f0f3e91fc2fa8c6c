//! Requests on a store, and the answers to them, in hexadecimal digits.
ghost use Rattle.modbus_pdu.specs.Spelling.{IsRequestInRange};

use crate::digits::bytes_of;
use modbus_exec::{ExecEnd, answer, exec};
use modbus_pdu::{Request, encode_reply};
use plant_types::MapRam;
use std::alloc::{AllocError, Global};
use std::process::Abort;
use std::test::Fail;

/// Requests, and the answers to them one after another, on 16 coils and 124 registers.
const ROWS: &str = "\
030000007d => 8302
030000007e => 8303
0300000000 => 8303
03000000 => 8303
07 => 8701
0500001234 => 8503
0100000010 => 01020000
050000ff00 => 050000ff00
0100000010 => 01020100
0600000012 => 0600000012
16000000f20025 => 16000000f20025
0300000001 => 03020017
170000000100000001020007 => 17020007
080000a537 => 080000a537
0800010000 => 8803
";

/// Each request's answer on 16 coils, 16 inputs, 8 input registers and 124 registers: what is
/// outside is refused, and changes nothing.
const EDGES: &str = "\
170000000100000001020007 => 17020007
0600000000 => 0600000000
01000f0001 => 010100
0100100001 => 8102
01000f0002 => 8102
01ffff0001 => 8102
01ffff0002 => 8102
02000f0001 => 020100
0200100001 => 8202
02ffff0001 => 8202
03007b0001 => 03020000
03007c0001 => 8302
03ffff0002 => 8302
0400070001 => 04020000
0400080001 => 8402
04ffff0001 => 8402
050010ff00 => 8502
05ffffff00 => 8502
05000fff00 => 05000fff00
0100080008 => 010180
05000f0000 => 05000f0000
06007c0001 => 8602
06ffff0001 => 8602
06007b0001 => 06007b0001
0800150003 => 8801
0800150004 => 8801
0f000f00020103 => 8f02
0fffff00010101 => 8f02
0100000010 => 01020000
0f0003000a02cdfd => 0f0003000a
0100000010 => 0102680e
010003000a => 0102cd01
10007b00020400050006 => 9002
10ffff0001020005 => 9002
03007b0001 => 03020001
10007a0002040005ffff => 10007a0002
0300790003 => 030600000005ffff
16007c00010002 => 9602
16ffff00010002 => 9602
17007c000100000001020007 => 9702
1700000001007c0001020007 => 9702
0300000001 => 03020000
1700000004000100020400080009 => 17080000000800090000
0300000004 => 03080000000800090000
";

fn answer_to(
    rt: &impl Abort,
    alloc: Global,
    ram: &mut MapRam,
    request: &str,
) -> Result<String, Fail> {
    let bytes = bytes_of(alloc, request)?;
    assert!(rt; !bytes.is_empty());
    let pdu = answer(alloc, &bytes, ram)?;
    Ok(hex::encode(alloc, pdu.bytes())?)
}

fn are_answered(rt: &impl Abort, alloc: Global, ram: &mut MapRam, rows: &str) -> Result<(), Fail> {
    for row in rows.lines() {
        let (request, reply) = row.split_once(" => ").ok_or("a reply")?;
        let found = answer_to(rt, alloc, ram, request)?;
        assert_eq!(rt; found.as_str(), reply, "{request}");
    }
    Ok(())
}

#[test]
fn rows_are_answered(rt: HostRuntime) -> Result<(), Fail> {
    let mut ram = MapRam::new(rt.alloc(), 16, 0, 0, 124)?;
    are_answered(&rt, rt.alloc(), &mut ram, ROWS)
}

#[test]
fn edges_are_answered(rt: HostRuntime) -> Result<(), Fail> {
    let mut ram = MapRam::new(rt.alloc(), 16, 16, 8, 124)?;
    are_answered(&rt, rt.alloc(), &mut ram, EDGES)
}

/// What comes of a request: the reply, or the exception that is due.
fn executed(alloc: Global, ram: &mut MapRam, request: &Request) -> Result<String, AllocError>
    requires { IsRequestInRange request.now }
{
    match exec(alloc, request, ram) {
        Ok(reply) => {
            let pdu = encode_reply(alloc, &reply)?;
            hex::encode(alloc, pdu.bytes())
        }
        Err(ExecEnd::Exception(code)) => format!(in alloc; "exception {code}"),
        Err(ExecEnd::NoMemory) => Err(AllocError),
    }
}

/// A request comes to this, on 16 coils and 8 registers.
fn is_executed(
    rt: &impl Abort,
    alloc: Global,
    request: &Request,
    due: &str,
) -> Result<(), AllocError>
    requires { IsRequestInRange request.now }
{
    let mut ram = MapRam::new(alloc, 16, 0, 0, 8)?;
    let found = executed(alloc, &mut ram, request)?;
    assert!(rt; found.as_str() == due, "{due}");
    Ok(())
}

#[test]
fn requests_are_executed(rt: HostRuntime) -> Result<(), AllocError> {
    let write = Request::WriteRegister {
        address: 7,
        value: 9,
    };
    is_executed(&rt, rt.alloc(), &write, "0600070009")?;
    let outside = Request::ReadRegisters {
        address: 7,
        quantity: 2,
    };
    is_executed(&rt, rt.alloc(), &outside, "exception 2")?;
    let statistics = Request::Stats { clear: false };
    is_executed(&rt, rt.alloc(), &statistics, "exception 1")
}
