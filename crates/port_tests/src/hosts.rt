//! A host with ample memory.
use crate::plans::{host_of, host_plan, net_of, pdu_of};
use host_port::{Host, HostEntry, HostResult};
use mstr_block::CallId;
use plant_types::Route;
use std::alloc::{AllocError, Global};
use std::process::Abort;
use std::test::Fail;

/// Host 1, which asks nodes for their device and has asked nothing yet. Its net has no members, and
/// these tests look at none.
fn asking_host(rt: &impl Abort, alloc: Global, asks: &[(u32, u8)]) -> Result<Host, AllocError> {
    let plan = host_plan(alloc, 1, asks, &[17])?;
    let net = net_of(alloc, &[], &[], 20, 100)?;
    host_of(rt, alloc, &plan, &net)
}

/// The name of a call of host 1.
const fn call(path: u8, seq: u32) -> CallId {
    CallId { node: 1, path, seq }
}

/// What it asks at a hold: of whom, on which path, and with which number.
fn asked(host: &mut Host, hold: u32) -> Result<Option<(u8, u8, u32)>, AllocError> {
    let request = host.ask(hold)?;
    Ok(request.map(|frame| (frame.to, frame.id.path, frame.id.seq)))
}

/// Whether it asks this at these holds, one after another.
fn asks(host: &mut Host, rows: &[(u32, Option<(u8, u8, u32)>)]) -> Result<bool, AllocError> {
    for (hold, due) in rows {
        if asked(host, *hold)? != *due {
            return Ok(false);
        }
    }
    Ok(true)
}

/// Ends a call that is out.
fn answer(rt: &impl Abort, host: &mut Host, id: CallId) -> Result<(), AllocError> {
    let out = host.is_out(id);
    assert!(rt; out);
    host.answer(id, HostResult::Bad(0x6101))
}

#[test]
fn asks_come_in_order_when_their_hold_has_come(rt: HostRuntime) -> Result<(), Fail> {
    let mut host = asking_host(&rt, rt.alloc(), &[(1, 5), (1, 6), (3, 5), (2, 7)])?;
    let rows = [
        (1, Some((5, 1, 1))),
        (1, Some((6, 2, 1))),
        (1, None),
        (2, None),
        (9, Some((5, 3, 1))),
        (9, Some((7, 4, 1))),
        (9, None),
    ];
    assert!(rt; asks(&mut host, &rows)?);
    Ok(())
}

/// Whether a host waits for an answer before its fifth ask, and then takes the path that is free.
fn waits_with_the_fifth(rt: &impl Abort, host: &mut Host) -> Result<bool, AllocError> {
    let four = [
        (1, Some((5, 1, 1))),
        (1, Some((5, 2, 1))),
        (1, Some((5, 3, 1))),
        (1, Some((5, 4, 1))),
        (1, None),
    ];
    let in_four = asks(host, &four)?;
    answer(rt, host, call(2, 1))?;
    let one_ended = !host.is_out(call(2, 1)) && host.is_out(call(3, 1));
    let fifth = asks(host, &[(1, Some((5, 2, 2)))])?;
    let out = host.is_out(call(2, 2)) && !host.is_out(call(2, 1));
    Ok(in_four && one_ended && fifth && out)
}

#[test]
fn the_fifth_ask_waits_for_an_answer(rt: HostRuntime) -> Result<(), Fail> {
    let mut host = asking_host(&rt, rt.alloc(), &[(1, 5), (1, 5), (1, 5), (1, 5), (1, 5)])?;
    assert!(rt; waits_with_the_fifth(&rt, &mut host)?);
    Ok(())
}

/// Whether a host with one ask is done just after its answer.
fn is_done_behind_the_answer(rt: &impl Abort, host: &mut Host) -> Result<bool, AllocError> {
    let before = host.is_done();
    let asked = asked(host, 1)?.is_some();
    let out = host.is_done();
    answer(rt, host, call(1, 1))?;
    Ok(!before && asked && !out && host.is_done() && host.history().len() == 2)
}

#[test]
fn a_host_is_done_when_each_ask_has_its_answer(rt: HostRuntime) -> Result<(), Fail> {
    let mut host = asking_host(&rt, rt.alloc(), &[(1, 5)])?;
    assert!(rt; is_done_behind_the_answer(&rt, &mut host)?);
    Ok(())
}

#[test]
fn a_host_without_an_ask_is_done(rt: HostRuntime) -> Result<(), Fail> {
    let idle = asking_host(&rt, rt.alloc(), &[])?;
    assert!(rt; idle.is_done());
    Ok(())
}

/// Whether a host answers a request with these bytes.
fn serves(
    alloc: Global,
    host: &mut Host,
    request: &[u8],
    due: [u8; 2],
) -> Result<bool, AllocError> {
    let request = pdu_of(alloc, request)?;
    let reply = host.serve(call(1, 1), &request)?;
    Ok(reply.bytes() == due.as_slice())
}

/// Whether a host refuses each of three requests, and notes them.
fn refuses_all(alloc: Global, host: &mut Host) -> Result<bool, AllocError> {
    let rows = [
        (&[3, 0, 0, 0, 1][..], [0x83, 1]),
        (&[0x90][..], [0x90, 1]),
        (&[0][..], [0x80, 1]),
    ];
    for (request, due) in rows {
        if !serves(alloc, host, request, due)? {
            return Ok(false);
        }
    }
    Ok(host.history().len() == 3)
}

#[test]
fn whatever_a_host_is_asked_is_refused(rt: HostRuntime) -> Result<(), Fail> {
    let alloc = rt.alloc();
    let mut host = asking_host(&rt, alloc, &[])?;
    assert!(rt; refuses_all(alloc, &mut host)?);
    Ok(())
}

/// The Ask of a host for node 5's device, under this name.
fn ask_as(alloc: Global, id: CallId) -> Result<HostEntry, AllocError> {
    let route = Route::of(&[5]);
    let pdu = pdu_of(alloc, &[17])?;
    Ok(HostEntry::Ask { id, route, pdu })
}

/// The answer to a call, with an error word.
const fn answer_to(id: CallId) -> HostEntry {
    HostEntry::Answer {
        id,
        result: HostResult::Bad(0x6103),
    }
}

/// The Ask (`Q`) or else the answer under a name.
fn entry_of(alloc: Global, sort: u8, id: CallId) -> Result<HostEntry, AllocError> {
    if sort == b'Q' {
        ask_as(alloc, id)
    } else {
        Ok(answer_to(id))
    }
}

/// Whether a host follows just those of these entries that are told to be legal.
fn follows(
    alloc: Global,
    host: &mut Host,
    rows: &[(u8, CallId, bool)],
) -> Result<bool, AllocError> {
    for (sort, id, may) in rows {
        let entry = entry_of(alloc, *sort, *id)?;
        if host.follow(&entry)? != *may {
            return Ok(false);
        }
    }
    Ok(true)
}

#[test]
fn only_legal_entries_are_followed(rt: HostRuntime) -> Result<(), Fail> {
    let alloc = rt.alloc();
    let mut host = asking_host(&rt, alloc, &[(7, 5), (7, 5)])?;
    let rows = [
        (b'Q', call(2, 1), false),
        (b'Q', call(1, 1), true),
        (b'A', call(2, 1), false),
        (b'A', call(1, 1), true),
        (b'A', call(1, 1), false),
        (b'Q', call(1, 1), false),
        (b'Q', call(1, 2), true),
        (b'Q', call(2, 1), false),
    ];
    assert!(rt; follows(alloc, &mut host, &rows)?);
    assert!(rt; host.history().len() == 3);
    Ok(())
}
