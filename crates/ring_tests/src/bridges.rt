//! Requests that go on from their target, and whom nodes wait for where there are ends of bridges.
use crate::script::plays;
use mstr_block::CallId;
use plant_types::{Pdu, Route};
use ring_core::{CLEAR_STATISTICS, Frame, FrameKind, GET_STATISTICS, is_from};
use std::alloc::Global;
use std::test::Fail;

const SCRIPT: &str = "\
# A member that is not the end of a bridge does not hear what is to go on, whatever the letter.
DAL 2 5 b9
2 asks_over 5 1 1 = Done
2 sends = Heard(Silent)
2 sends = Heard(Silent)
2 sends = Heard(Silent)
2 sends = No(NothingToSend)
2 asks_over 5 1 2 = No(PathTaken(1))
2 gives_up 1 1 = NobodyThere
2 asks 5 1 2 = Done
2 sends = Heard(Acked)
2 passes = Done
5 stands = Stands(In)
5 takes = Request(2, 1, 2)
5 takes = Nothing
5 counts 5 0 1 = [5, 3, 0, 0, 0, 0, 0, 0, 1, 0, 0, 0, 1, 0, 0, 0, 0, 0, 0, 0]
# The end of a bridge hears it, and what goes no further too; lost it is 6101.
DDLLL 2 5 b9
2 asks_over 9 1 1 = Done
2 asks 9 2 1 = Done
2 asks_over 9 3 1 = Done
2 sends = Heard(Acked)
2 sends = Heard(Acked)
2 sends = Heard(Silent)
2 sends = Heard(Silent)
2 sends = Heard(Silent)
2 gives_up 3 1 = NoAnswer
2 passes = Done
5 passes = Done
9 takes = Onward(2, 1, 1)
9 takes = Request(2, 2, 1)
9 takes = Nothing
# Sent again it is a repeat there too.
AD 2 b9
2 asks_over 9 1 1 = Done
2 sends = Heard(Silent)
2 sends = Heard(Acked)
2 gives_up 1 1 = No(NotDue { held: 0, needed: 2 })
2 passes = Done
9 takes = Onward(2, 1, 1)
9 takes = Nothing
# After two own Passes it is given up: 6101 while the end of the bridge is there, 6103 behind it.
D 2 5 b9
2 passes_done = Done
5 passes_done = Done
9 passes_done = Done
2 asks_over 9 1 1 = Done
2 asks_over 9 2 1 = Done
2 sends = Heard(Acked)
2 sends = Heard(Acked)
2 passes_done = Done
5 passes_done = Done
9 takes = Onward(2, 1, 1)
9 takes = Onward(2, 2, 1)
9 passes_done = Done
2 passes_done = Done
5 passes_done = Done
9 passes_done = Done
2 gives_up 1 1 = NoAnswer
2 passes_done = Done
5 passes_done = Done
9 ends = Done
2 gives_up 2 1 = NobodyThere
# Nobody waits for the end of a bridge but itself, and it waits for all others.
D 2 5 b9 b12
2 waits = Waits(0)
2 passes_done = Done
2 waits = Waits(0)
5 passes_done = Done
2 waits = Waits(1)
5 waits = Waits(1)
9 waits = Waits(0)
9 passes = Done
12 waits = Waits(0)
12 passes_done = Done
12 waits = Waits(1)
9 waits = Waits(0)
2 passes_done = Done
5 passes = Done
9 passes_done = Done
9 waits = Waits(0)
12 ends = No(NotDue { held: 0, needed: 1 })
12 passes_done = Done
2 waits = Waits(0)
2 passes_done = Done
5 passes_done = Done
9 passes = Done
12 ends = Done
12 waits = Waits(0)
2 ends = Done
5 ends = Done
9 ends = No(NotDue { held: 0, needed: 1 })
9 passes_done = Done
9 ends = Done
# All others are ends of bridges once the last other member has left.
D 2 5 b9 b12
9 is_alone = IsAlone(false)
2 is_alone = IsAlone(false)
2 is_down 1 = Done
9 is_alone = IsAlone(false)
5 is_alone = IsAlone(true)
5 is_down 1 = Done
9 is_alone = IsAlone(true)
2 is_alone = IsAlone(true)
9 is_down 1 = Done
9 joins = Done
12 is_alone = IsAlone(true)
# One that asks to come in again counts from then on.
D 2 b9
2 is_alone = IsAlone(true)
2 is_down 1 = Done
9 is_alone = IsAlone(true)
2 joins = Done
9 is_alone = IsAlone(false)
2 is_alone = IsAlone(true)
9 passes = Done
9 is_alone = IsAlone(false)
2 passes_done = Done
9 passes = Done
2 ends = Done
9 is_alone = IsAlone(true)
";

#[test]
fn over_bridges(rt: HostRuntime) -> Result<(), Fail> {
    plays(&rt, rt.alloc(), SCRIPT)
}

// A Request of node 2 along a route.
fn asked(alloc: Global, route: Route, bytes: &[u8]) -> Result<Frame, Fail> {
    let id = CallId {
        node: 2,
        path: 1,
        seq: 1,
    };
    let pdu = Pdu::of(alloc, bytes)?.ok_or("a PDU")?;
    Ok(Frame::request(id, route, pdu))
}

// A Request for statistics goes no further.
#[test]
fn for_statistics(rt: HostRuntime) -> Result<(), Fail> {
    let alloc = rt.alloc();
    let near = Route::of(&[5]);
    let far = Route::of(&[9, 5]);
    let get = asked(alloc, near, &GET_STATISTICS)?.is_for_stats();
    let clear = asked(alloc, near, &CLEAR_STATISTICS)?.is_for_stats();
    let other = asked(alloc, near, &[8, 0, 0x15, 0, 5])?.is_for_stats();
    let get_far = asked(alloc, far, &GET_STATISTICS)?.is_for_stats();
    let clear_far = asked(alloc, far, &CLEAR_STATISTICS)?.is_for_stats();
    let all = [get, clear, other, get_far, clear_far];
    assert_eq!(rt; all, [true, true, false, false, false]);
    Ok(())
}

// A Request may go on, a Reply may not.
#[test]
fn frames_that_go_on(rt: HostRuntime) -> Result<(), Fail> {
    let alloc = rt.alloc();
    let far = asked(alloc, Route::of(&[9, 5]), &[7])?;
    let asks = is_from(2, &far);
    let near = asked(alloc, Route::of(&[2]), &[7])?;
    let reply = Frame {
        kind: FrameKind::Reply,
        ..near
    };
    let replies = is_from(5, &reply);
    let over = Frame {
        rest: Route::of(&[9]),
        ..reply
    };
    let replies_over = is_from(5, &over);
    assert_eq!(rt; [asks, replies, replies_over], [true, true, false]);
    Ok(())
}
