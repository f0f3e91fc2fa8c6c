//! What a standby answers to one packet.
use crate::primaries::{Pair, answer, pair_of, part_of};
use controller_core::Entry;
use hot_standby::{StandbyNo, Taken};
use plant_types::{Copied, List, Pdu};
use std::alloc::Global;
use std::test::Fail;

/// A coil that follows another.
const PLANT: &str = "version = 1\n[[controller]]\nnode = 1\ncoils = 16\ninputs = 16\n\
    registers = 100\norders = [\"1 - - -\"]\npanel = [\"00001\"]\n\
    [[controller.segment]]\nnetworks = [\"1,1 NO 00002; 1,2 CO 00001\"]\n";

/// It turns the coil on behind the first scan.
const ASKED: &str = ":01050001FF00FA\r\n";

/// What the entries of a packet are.
#[derive(Clone, Copy)]
enum Shape {
    /// Those of the first scan: Begin, Solve, End, and the Peer that was served in it.
    First,
    /// Those of the second: Begin, Solve, End.
    Second,
    Nothing,
    /// The first scan without its End.
    Cut,
    /// The first scan and the second.
    Two,
    /// The Peer stands before the Begin.
    ServedBefore,
    /// The Peer stands between Begin and Solve.
    ServedInside,
    /// The Peer's reply is not that of the controller.
    OtherReply,
}

/// Packets to a new standby, and what it answers to the last of them.
struct Case {
    sent: &'static [(u32, Shape)],
    answer: Option<Result<Taken, StandbyNo>>,
}

const NEW: Option<Result<Taken, StandbyNo>> = Some(Ok(Taken::New));

const REPEATED: Option<Result<Taken, StandbyNo>> = Some(Ok(Taken::Repeated));

const EARLY: Option<Result<Taken, StandbyNo>> = Some(Ok(Taken::Early));

const NOT_LEGAL: Option<Result<Taken, StandbyNo>> = Some(Err(StandbyNo::NotLegal));

const CASES: [Case; 18] = [
    Case {
        sent: &[(1, Shape::First)],
        answer: NEW,
    },
    Case {
        sent: &[(1, Shape::First), (2, Shape::Second)],
        answer: NEW,
    },
    // There is no scan 0, and no standby lacks it.
    Case {
        sent: &[(0, Shape::First)],
        answer: REPEATED,
    },
    Case {
        sent: &[(1, Shape::First), (1, Shape::First)],
        answer: REPEATED,
    },
    // A scan that is there is not looked at again.
    Case {
        sent: &[(1, Shape::First), (1, Shape::OtherReply)],
        answer: REPEATED,
    },
    Case {
        sent: &[(2, Shape::Second)],
        answer: EARLY,
    },
    Case {
        sent: &[(4294967295, Shape::Nothing)],
        answer: EARLY,
    },
    // What comes early is not kept.
    Case {
        sent: &[(2, Shape::Second), (1, Shape::First), (2, Shape::Second)],
        answer: NEW,
    },
    Case {
        sent: &[(1, Shape::Nothing)],
        answer: NOT_LEGAL,
    },
    Case {
        sent: &[(1, Shape::Cut)],
        answer: NOT_LEGAL,
    },
    Case {
        sent: &[(1, Shape::Two)],
        answer: NOT_LEGAL,
    },
    Case {
        sent: &[(1, Shape::ServedBefore)],
        answer: NOT_LEGAL,
    },
    Case {
        sent: &[(1, Shape::ServedInside)],
        answer: NEW,
    },
    Case {
        sent: &[(1, Shape::OtherReply)],
        answer: NOT_LEGAL,
    },
    // A packet of scan 2 has the entries of the first: they are legal once more.
    Case {
        sent: &[(1, Shape::First), (2, Shape::First)],
        answer: NEW,
    },
    // More scans than the controller makes.
    Case {
        sent: &[(1, Shape::First), (2, Shape::Second), (3, Shape::Second)],
        answer: NOT_LEGAL,
    },
    // A standby that has failed takes nothing more.
    Case {
        sent: &[(1, Shape::OtherReply), (1, Shape::First)],
        answer: None,
    },
    Case {
        sent: &[(1, Shape::First), (2, Shape::Nothing), (1, Shape::First)],
        answer: None,
    },
];

/// Copies of entries.
fn copies(alloc: Global, entries: &[&Entry]) -> Result<List<Entry>, Fail> {
    let mut list = List::new(alloc);
    for entry in entries {
        list.push(entry.copied(alloc)?)?;
    }
    Ok(list)
}

/// A Peer with the reply of an exception.
fn refused(alloc: Global, peer: &Entry) -> Result<Entry, Fail> {
    let Some(reply) = Pdu::of(alloc, &[0x85, 2])? else {
        return Err("a reply")?;
    };
    match peer {
        Entry::Peer { id, request, .. } => Ok(Entry::Peer {
            id: *id,
            request: request.copied(alloc)?,
            reply,
        }),
        _ => Err("a Peer")?,
    }
}

/// The entries of a packet.
fn entries_of(alloc: Global, made: &[Entry], shape: Shape) -> Result<List<Entry>, Fail> {
    let (first, second) = (part_of(alloc, made, 1)?, part_of(alloc, made, 2)?);
    let [begin, solve, end, peer] = first.as_slice() else {
        return Err("four entries")?;
    };
    let other = refused(alloc, peer)?;
    match shape {
        Shape::First => copies(alloc, &[begin, solve, end, peer]),
        Shape::Second => Ok(second),
        Shape::Nothing => copies(alloc, &[]),
        Shape::Cut => copies(alloc, &[begin, solve]),
        Shape::Two => copies(alloc, &[begin, solve, end, peer, begin, solve, end]),
        Shape::ServedBefore => copies(alloc, &[peer, begin, solve, end]),
        Shape::ServedInside => copies(alloc, &[begin, peer, solve, end]),
        Shape::OtherReply => copies(alloc, &[begin, solve, end, &other]),
    }
}

/// What a new standby answers to the last of some packets.
fn last_answer(
    alloc: Global,
    sent: &[(u32, Shape)],
) -> Result<Option<Result<Taken, StandbyNo>>, Fail> {
    let Pair { made, mut standby } = pair_of(alloc, PLANT, 2, ASKED)?;
    let mut last = None;
    for (scan, shape) in sent {
        let entries = entries_of(alloc, made.as_slice(), *shape)?;
        last = answer(&mut standby, *scan, entries);
    }
    Ok(last)
}

#[test]
fn answers(rt: HostRuntime) -> Result<(), Fail> {
    for (place, case) in CASES.iter().enumerate() {
        let last = last_answer(rt.alloc(), case.sent)?;
        assert!(rt; last == case.answer, "case {place}");
    }
    Ok(())
}
