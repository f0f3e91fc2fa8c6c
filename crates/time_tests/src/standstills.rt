//! Small joint histories, told by their lists.
use controller_core::{Call, CallKind, Entry};
use host_port::{HostEntry, HostResult};
use joint_history::{ControllerLog, HostLog, Joint, RingLog};
use mstr_block::{CallId, MstrResult};
use plant_types::{List, Pdu, Route};
use ring_core::{Frame, FrameKind, GET_STATISTICS, LeaveCause, LocalOp, RingEntry};
use std::alloc::{AllocError, Global};
use std::test::Fail;
use time_judge::{Standstill, first_standstill};

/// What is asked.
const READ: [u8; 5] = [3, 0, 0, 0, 1];

fn pdu_of(alloc: Global, bytes: &[u8]) -> Result<Pdu, AllocError> {
    match Pdu::of(alloc, bytes)? {
        Some(pdu) => Ok(pdu),
        None => Err(AllocError),
    }
}

/// The first call of a node on its path 1.
fn call_of(node: u8) -> CallId {
    CallId {
        node,
        path: 1,
        seq: 1,
    }
}

/// What a controller noted of its power, and of calls that are named by who asked.
#[derive(Clone, Copy)]
enum Noted {
    Collects(u8),
    Answers(u8),
    LetsGoBy(u8),
    Finishes(u8),
    Begins,
    Fails,
    StaysDark,
}

fn collect(alloc: Global, node: u8) -> Result<Entry, AllocError> {
    let mut calls = List::new(alloc);
    calls.push(Call {
        id: call_of(node),
        kind: CallKind::Net {
            route: Route::of(&[9]),
            pdu: pdu_of(alloc, &READ)?,
        },
    })?;
    Ok(Entry::Collect(calls))
}

fn entry_of(alloc: Global, noted: Noted) -> Result<Entry, AllocError> {
    match noted {
        Noted::Collects(node) => collect(alloc, node),
        Noted::Answers(node) => Ok(Entry::Peer {
            id: call_of(node),
            request: pdu_of(alloc, &READ)?,
            reply: pdu_of(alloc, &READ)?,
        }),
        Noted::LetsGoBy(node) => Ok(Entry::Off {
            id: call_of(node),
            request: pdu_of(alloc, &READ)?,
        }),
        Noted::Finishes(node) => Ok(Entry::Finish {
            id: call_of(node),
            result: MstrResult::Bad(0x6101),
        }),
        Noted::Begins => Ok(Entry::Begin),
        Noted::Fails => Ok(Entry::Fail),
        Noted::StaysDark => Ok(Entry::Dark),
    }
}

fn controller(alloc: Global, node: u8, list: &[Noted]) -> Result<ControllerLog, AllocError> {
    let mut entries = List::new(alloc);
    for noted in list {
        entries.push(entry_of(alloc, *noted)?)?;
    }
    Ok(ControllerLog { node, entries })
}

/// What a node did on the ring; a call is named by who asked.
#[derive(Clone, Copy)]
enum Did {
    Posts(u8),
    Takes(u8, u8),
    TakesForPort(u8, u8),
    AnswersAtPort(u8, u8),
    Replies(u8, u8),
    TakesReply(u8),
    GoesDown(u8, u32),
    ComesBack(u8),
}

fn frame_of(alloc: Global, kind: FrameKind, from: u8, bytes: &[u8]) -> Result<Frame, AllocError> {
    Ok(Frame {
        kind,
        to: 9,
        rest: Route::of(&[]),
        id: call_of(from),
        pdu: pdu_of(alloc, bytes)?,
    })
}

fn deed_of(alloc: Global, did: Did) -> Result<RingEntry, AllocError> {
    match did {
        Did::Posts(node) => Ok(RingEntry::Post {
            node,
            frame: frame_of(alloc, FrameKind::Request, node, &READ)?,
        }),
        Did::Takes(node, from) => Ok(RingEntry::Take {
            node,
            frame: frame_of(alloc, FrameKind::Request, from, &READ)?,
        }),
        Did::TakesForPort(node, from) => Ok(RingEntry::Take {
            node,
            frame: frame_of(alloc, FrameKind::Request, from, &GET_STATISTICS)?,
        }),
        Did::AnswersAtPort(node, from) => Ok(RingEntry::Local {
            node,
            id: call_of(from),
            op: LocalOp::RemoteGet,
            result: MstrResult::Bad(0x6101),
        }),
        Did::Replies(node, from) => Ok(RingEntry::Post {
            node,
            frame: frame_of(alloc, FrameKind::Reply, from, &READ)?,
        }),
        Did::TakesReply(node) => Ok(RingEntry::Take {
            node,
            frame: frame_of(alloc, FrameKind::Reply, node, &READ)?,
        }),
        Did::GoesDown(node, number) => Ok(RingEntry::Leave {
            node,
            cause: LeaveCause::Down(number),
        }),
        Did::ComesBack(node) => Ok(RingEntry::Join { node }),
    }
}

fn ring(alloc: Global, network: u8, list: &[Did]) -> Result<RingLog, AllocError> {
    let mut entries = List::new(alloc);
    for one in list {
        entries.push(deed_of(alloc, *one)?)?;
    }
    Ok(RingLog { network, entries })
}

fn one_ring(alloc: Global, list: &[Did]) -> Result<List<RingLog>, AllocError> {
    let mut rings = List::new(alloc);
    rings.push(ring(alloc, 0, list)?)?;
    Ok(rings)
}

/// Where controllers 1 and 2 and the ring stand still.
fn two_stand_still(
    alloc: Global,
    one: &[Noted],
    two: &[Noted],
    list: &[Did],
) -> Result<Option<Standstill>, AllocError> {
    let mut controllers = List::new(alloc);
    controllers.push(controller(alloc, 1, one)?)?;
    controllers.push(controller(alloc, 2, two)?)?;
    let joint = Joint {
        controllers,
        hosts: List::new(alloc),
        bridges: List::new(alloc),
        rings: one_ring(alloc, list)?,
    };
    first_standstill(alloc, &joint)
}

/// Each of two nodes reads of the other; node 1 posts first.
const BOTH: [Did; 8] = [
    Did::Posts(1),
    Did::Takes(2, 1),
    Did::Replies(2, 1),
    Did::Posts(2),
    Did::TakesReply(1),
    Did::Takes(1, 2),
    Did::Replies(1, 2),
    Did::TakesReply(2),
];

#[test]
fn two_reads_are_in_time(rt: HostRuntime) -> Result<(), Fail> {
    let one = [Noted::Collects(1), Noted::Finishes(1), Noted::Answers(2)];
    let two = [Noted::Answers(1), Noted::Collects(2), Noted::Finishes(2)];
    assert!(rt; two_stand_still(rt.alloc(), &one, &two, &BOTH)?.is_none());
    Ok(())
}

// Each answers before it asks: node 1 waits for the request of node 2, which waits for its own.
#[test]
fn answers_before_asking(rt: HostRuntime) -> Result<(), Fail> {
    let one = [Noted::Answers(2), Noted::Collects(1), Noted::Finishes(1)];
    let two = [Noted::Answers(1), Noted::Collects(2), Noted::Finishes(2)];
    let at = Standstill {
        node: 1,
        entries: 0,
        place: 0,
    };
    assert!(rt; two_stand_still(rt.alloc(), &one, &two, &BOTH)? == Some(at));
    Ok(())
}

// The first station is in time, the second replied before it answered.
#[test]
fn replies_before_answering(rt: HostRuntime) -> Result<(), Fail> {
    let one = [Noted::Collects(1), Noted::Finishes(1), Noted::Answers(2)];
    let two = [Noted::Collects(2), Noted::Finishes(2), Noted::Answers(1)];
    let at = Standstill {
        node: 2,
        entries: 1,
        place: 2,
    };
    assert!(rt; two_stand_still(rt.alloc(), &one, &two, &BOTH)? == Some(at));
    Ok(())
}

// The reply of the port is none of the controller's: it may come before the controller's answer,
// and the reply after it may not.
#[test]
fn statistics_lend_nothing(rt: HostRuntime) -> Result<(), Fail> {
    let list = [
        Did::TakesForPort(2, 1),
        Did::AnswersAtPort(2, 1),
        Did::Takes(2, 1),
        Did::Replies(2, 1),
        Did::Posts(2),
        Did::TakesReply(2),
        Did::Replies(2, 1),
    ];
    let late = [Noted::Collects(2), Noted::Finishes(2), Noted::Answers(1)];
    assert!(rt; two_stand_still(rt.alloc(), &[], &late, &list)?.is_none());
    let early = [
        Did::TakesForPort(2, 1),
        Did::AnswersAtPort(2, 1),
        Did::Takes(2, 1),
        Did::Replies(2, 1),
        Did::Replies(2, 1),
        Did::Posts(2),
        Did::TakesReply(2),
    ];
    let at = Standstill {
        node: 2,
        entries: 1,
        place: 4,
    };
    assert!(rt; two_stand_still(rt.alloc(), &[], &late, &early)? == Some(at));
    Ok(())
}

/// Where controller 2, which answers one request, and the ring stand still.
fn answers_once(alloc: Global, list: &[Did]) -> Result<Option<Standstill>, AllocError> {
    one_stands_still(alloc, &[Noted::Answers(1)], list)
}

// A reply waits for the Take of a request, whatever was answered.
#[test]
fn replies_to_nothing(rt: HostRuntime) -> Result<(), Fail> {
    let early = [Did::Takes(2, 1), Did::Replies(2, 1), Did::Replies(2, 1)];
    let at = Standstill {
        node: 2,
        entries: 1,
        place: 2,
    };
    assert!(rt; answers_once(rt.alloc(), &early)? == Some(at));
    let taken = [Did::Replies(2, 1), Did::Takes(2, 1)];
    let first = Standstill {
        node: 2,
        entries: 0,
        place: 0,
    };
    assert!(rt; answers_once(rt.alloc(), &taken)? == Some(first));
    Ok(())
}

// What a port answers waits for its request, and the reply for what the port answers.
#[test]
fn ports_answer_what_they_took(rt: HostRuntime) -> Result<(), Fail> {
    let at = Standstill {
        node: 2,
        entries: 0,
        place: 0,
    };
    let early = [Did::AnswersAtPort(2, 1), Did::TakesForPort(2, 1)];
    assert!(rt; two_stand_still(rt.alloc(), &[], &[], &early)? == Some(at));
    let unanswered = [
        Did::TakesForPort(2, 1),
        Did::Replies(2, 1),
        Did::AnswersAtPort(2, 1),
    ];
    let late = Standstill {
        node: 2,
        entries: 0,
        place: 1,
    };
    assert!(rt; two_stand_still(rt.alloc(), &[], &[], &unanswered)? == Some(late));
    Ok(())
}

/// Where controller 2, alone with the ring, stands still.
fn one_stands_still(
    alloc: Global,
    two: &[Noted],
    list: &[Did],
) -> Result<Option<Standstill>, AllocError> {
    two_stand_still(alloc, &[], two, list)
}

/// So many entries of controller 2, and those before this place of the ring.
fn at_two(entries: usize, place: usize) -> Standstill {
    Standstill {
        node: 2,
        entries,
        place,
    }
}

// Power fails in the first scan of node 2 and in the fourth, and is back after a dark one each
// time; between, a request goes by, and another is answered.
#[test]
fn a_node_comes_back_twice(rt: HostRuntime) -> Result<(), Fail> {
    let two = [
        Noted::Begins,
        Noted::Fails,
        Noted::LetsGoBy(1),
        Noted::StaysDark,
        Noted::Begins,
        Noted::Answers(3),
        Noted::Fails,
        Noted::StaysDark,
        Noted::Begins,
    ];
    let list = [
        Did::Takes(2, 1),
        Did::GoesDown(2, 1),
        Did::ComesBack(2),
        Did::Takes(2, 3),
        Did::Replies(2, 3),
        Did::GoesDown(2, 2),
        Did::ComesBack(2),
    ];
    assert!(rt; one_stands_still(rt.alloc(), &two, &list)?.is_none());
    Ok(())
}

// What goes by without power waits for its Take, as an answer does.
#[test]
fn nothing_goes_by_before_it_comes(rt: HostRuntime) -> Result<(), Fail> {
    let alloc = rt.alloc();
    let two = [Noted::Begins, Noted::Fails, Noted::LetsGoBy(1)];
    let list = [Did::GoesDown(2, 1), Did::Takes(2, 1)];
    assert!(rt; one_stands_still(alloc, &two, &list)?.is_none());
    assert!(rt; one_stands_still(alloc, &two, &list[..1])? == Some(at_two(2, 1)));
    let early = [Noted::LetsGoBy(1), Noted::Begins, Noted::Fails];
    assert!(rt; one_stands_still(alloc, &early, &list)? == Some(at_two(0, 0)));
    Ok(())
}

// No reply belongs to what went by; the reply after it belongs to the next request.
#[test]
fn what_goes_by_has_no_reply(rt: HostRuntime) -> Result<(), Fail> {
    let alloc = rt.alloc();
    let list = [Did::Takes(2, 1), Did::Takes(2, 3), Did::Replies(2, 3)];
    let two = [
        Noted::Fails,
        Noted::LetsGoBy(1),
        Noted::Begins,
        Noted::Answers(3),
    ];
    assert!(rt; one_stands_still(alloc, &two, &list)?.is_none());
    let both = [Noted::Fails, Noted::LetsGoBy(1), Noted::LetsGoBy(3)];
    assert!(rt; one_stands_still(alloc, &both, &list)? == Some(at_two(3, 2)));
    Ok(())
}

#[test]
fn a_node_leaves_before_power_fails(rt: HostRuntime) -> Result<(), Fail> {
    let alloc = rt.alloc();
    let once = [Noted::Begins, Noted::Fails];
    assert!(rt; one_stands_still(alloc, &once, &[Did::GoesDown(2, 1)])?.is_none());
    assert!(rt; one_stands_still(alloc, &once, &[Did::GoesDown(2, 2)])? == Some(at_two(2, 0)));
    // It answers, and only then fails; on the ring it left before it took what it answers.
    let late = [Noted::Begins, Noted::Answers(1), Noted::Fails];
    let list = [Did::GoesDown(2, 1), Did::Takes(2, 1)];
    assert!(rt; one_stands_still(alloc, &late, &list)? == Some(at_two(1, 0)));
    Ok(())
}

#[test]
fn a_node_comes_back_before_power(rt: HostRuntime) -> Result<(), Fail> {
    let alloc = rt.alloc();
    let list = [Did::GoesDown(2, 1), Did::ComesBack(2), Did::Takes(2, 1)];
    let back = [
        Noted::Begins,
        Noted::Fails,
        Noted::Begins,
        Noted::Answers(1),
    ];
    assert!(rt; one_stands_still(alloc, &back, &list)?.is_none());
    let dark = [Noted::Begins, Noted::Fails, Noted::StaysDark];
    assert!(rt; one_stands_still(alloc, &dark, &list)? == Some(at_two(3, 1)));
    let by = [
        Noted::Begins,
        Noted::Fails,
        Noted::LetsGoBy(1),
        Noted::Begins,
    ];
    assert!(rt; one_stands_still(alloc, &by, &list)? == Some(at_two(2, 1)));
    Ok(())
}

// The power that it had before it failed a second time is not that for which it waits.
#[test]
fn power_of_an_earlier_time_counts_once(rt: HostRuntime) -> Result<(), Fail> {
    let alloc = rt.alloc();
    let two = [Noted::Begins, Noted::Fails, Noted::Begins, Noted::Fails];
    let list = [Did::GoesDown(2, 2), Did::ComesBack(2)];
    assert!(rt; one_stands_still(alloc, &two, &list)? == Some(at_two(4, 1)));
    let first = [Did::GoesDown(2, 1), Did::ComesBack(2), Did::GoesDown(2, 2)];
    assert!(rt; one_stands_still(alloc, &two, &first)?.is_none());
    Ok(())
}

fn ask(alloc: Global) -> Result<HostEntry, AllocError> {
    Ok(HostEntry::Ask {
        id: call_of(7),
        route: Route::of(&[9]),
        pdu: pdu_of(alloc, &READ)?,
    })
}

fn answer() -> HostEntry {
    HostEntry::Answer {
        id: call_of(7),
        result: HostResult::Bad(0x6101),
    }
}

/// Where host 7 and the rings stand still.
fn host_stands_still(
    alloc: Global,
    entries: List<HostEntry>,
    rings: List<RingLog>,
) -> Result<Option<Standstill>, AllocError> {
    let mut hosts = List::new(alloc);
    hosts.push(HostLog { node: 7, entries })?;
    let joint = Joint {
        controllers: List::new(alloc),
        hosts,
        bridges: List::new(alloc),
        rings,
    };
    first_standstill(alloc, &joint)
}

/// The host asks once.
const ONCE: [Did; 2] = [Did::Posts(7), Did::TakesReply(7)];

#[test]
fn a_host_asks_first(rt: HostRuntime) -> Result<(), Fail> {
    let alloc = rt.alloc();
    let mut entries = List::new(alloc);
    entries.push(ask(alloc)?)?;
    entries.push(answer())?;
    assert!(rt; host_stands_still(alloc, entries, one_ring(alloc, &ONCE)?)?.is_none());
    Ok(())
}

#[test]
fn a_host_is_answered_too_soon(rt: HostRuntime) -> Result<(), Fail> {
    let alloc = rt.alloc();
    let mut entries = List::new(alloc);
    entries.push(answer())?;
    entries.push(ask(alloc)?)?;
    let at = Standstill {
        node: 7,
        entries: 0,
        place: 0,
    };
    assert!(rt; host_stands_still(alloc, entries, one_ring(alloc, &ONCE)?)? == Some(at));
    Ok(())
}

// A ring's entries stand after those of the ring before it.
#[test]
fn two_rings_are_read_in_turn(rt: HostRuntime) -> Result<(), Fail> {
    let alloc = rt.alloc();
    let mut entries = List::new(alloc);
    entries.push(ask(alloc)?)?;
    entries.push(answer())?;
    let mut rings = one_ring(alloc, &ONCE[..1])?;
    rings.push(ring(alloc, 1, &ONCE[1..])?)?;
    assert!(rt; host_stands_still(alloc, entries, rings)?.is_none());
    Ok(())
}
