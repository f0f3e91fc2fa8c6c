//! Joint histories of a controller and of a host that asks it for a register, and what one change
//! makes of them.
ghost use Rattle.std.specs.Prelude.{◌≡◌, ◌≤◌, ℕ, ◌∷◌, [], IfOk};
ghost use Rattle.judge_tests.specs.Example.{controller_plan, host_plan, net_plan};
ghost use Rattle.joint_law.specs.Spots.{CanBeJudged};

use crate::plans::{REQUEST, controller_of, host_of, net_of, pdu_of};
use controller_core::Entry;
use host_port::{HostEntry, HostResult};
use joint_history::{BridgeLog, ControllerLog, HostLog, Joint, RingLog};
use joint_law::{Judgement, Spot, Verdict, judge, judge_noted};
use mstr_block::CallId;
use plant_types::{ControllerPlan, HostPlan, List, NetPlan, Plant, PowerRow, Route, Words};
use ring_core::{Frame, FrameKind, Heard, LeaveCause, RingEntry};
use std::alloc::{AllocError, Global};

/// What is not as it should be.
#[derive(Clone, Copy, PartialEq, Eq)]
enum Change {
    Nothing,
    NoHost,
    AnotherHost,
    ABridge,
    NoRing,
    AnotherNetwork,
    NoBegin,
    AnotherReply,
    AnotherName,
    TwoAnswers,
    AnotherHolder,
    NothingHeard,
    NoAsk,
    NoPeer,
    TwoPeers,
    AnotherPost,
    AnotherAnswer,
    NoAnswer,
    NoEnd,
    NoLeave,
    /// A second scan, in which power fails after the reply, and nobody notices.
    Unnoticed,
    /// A second scan, in which power fails before the request comes.
    Failing,
    /// The same, but the node left for the second failure.
    DownAsSecond,
    /// The same, but it replied without power.
    ReplyWithoutPower,
    /// What the host posted is to go on from its target, so that this does not hear it.
    Onward,
    /// The same, but the target takes it.
    OnwardTaken,
}

impl Change {
    /// Power fails before the request comes.
    fn fails(self) -> bool {
        match self {
            Change::Failing | Change::DownAsSecond | Change::ReplyWithoutPower => true,
            _ => false,
        }
    }

    /// The request goes on from its target.
    fn goes_on(self) -> bool {
        self == Change::Onward || self == Change::OnwardTaken
    }

    /// How many scans it has.
    fn scans(self) -> u32
        ensures from { 1 ≤ result }
        ensures to { result ≤ 2000 }
    {
        if self.fails() || self == Change::Unnoticed {
            2
        } else {
            1
        }
    }
}

pub(crate) const CALL: CallId = CallId {
    node: 2,
    path: 1,
    seq: 1,
};

pub(crate) const REPLY: [u8; 4] = [3, 2, 0, 0];

const ANOTHER_REPLY: [u8; 4] = [3, 2, 0, 1];

/// Power fails in the second scan.
fn power(alloc: Global) -> Result<List<PowerRow>, AllocError>
    ensures { IfOk result (λ rows. rows ≡ controller_plan.power) }
{
    let mut rows = List::new(alloc);
    rows.push(PowerRow {
        scan: 2,
        row: 0,
        dark: 0,
    })?;
    Ok(rows)
}

fn controllers(alloc: Global) -> Result<List<ControllerPlan>, AllocError>
    ensures { IfOk result (λ plans. plans ≡ controller_plan ∷ []) }
{
    let mut plans = List::new(alloc);
    let power = power(alloc)?;
    plans.push(controller_of(alloc, 1, 0, power))?;
    Ok(plans)
}

fn hosts(alloc: Global) -> Result<List<HostPlan>, AllocError>
    ensures { IfOk result (λ plans. plans ≡ host_plan ∷ []) }
{
    let mut plans = List::new(alloc);
    plans.push(host_of(alloc, 0, Route::of(&[1]))?)?;
    Ok(plans)
}

fn nets(alloc: Global) -> Result<List<NetPlan>, AllocError>
    ensures { IfOk result (λ nets. nets ≡ net_plan ∷ []) }
{
    let mut nets = List::new(alloc);
    nets.push(net_of(alloc, 0, &[1, 2], &[])?)?;
    Ok(nets)
}

fn plant(alloc: Global) -> Result<Plant, AllocError>
    ensures { IfOk result (λ plant. (scans : ℕ) → 1 ≤ scans → scans ≤ 2000
        → CanBeJudged plant scans) }
{
    Ok(Plant {
        scan_time: 10,
        watchdog: 500,
        nets: nets(alloc)?,
        controllers: controllers(alloc)?,
        hosts: hosts(alloc)?,
        bridges: List::new(alloc),
    })
}

fn peer(alloc: Global, change: Change) -> Result<Entry, AllocError> {
    let reply = if change == Change::AnotherReply {
        pdu_of(alloc, &ANOTHER_REPLY)?
    } else {
        pdu_of(alloc, &REPLY)?
    };
    Ok(Entry::Peer {
        id: CALL,
        request: pdu_of(alloc, &REQUEST)?,
        reply,
    })
}

/// A scan in which power fails, and a request that comes then.
fn push_failure(
    alloc: Global,
    entries: &mut List<Entry>,
    change: Change,
) -> Result<(), AllocError> {
    entries.push(Entry::Begin)?;
    entries.push(Entry::Fail)?;
    if change.fails() {
        let request = pdu_of(alloc, &REQUEST)?;
        entries.push(Entry::Off { id: CALL, request })?;
    }
    Ok(())
}

/// A scan, and a request that is answered in it.
fn scan(alloc: Global, change: Change) -> Result<List<Entry>, AllocError> {
    let mut entries = List::new(alloc);
    if change != Change::NoBegin {
        entries.push(Entry::Begin)?;
    }
    if change != Change::NoPeer && !change.fails() && !change.goes_on() {
        entries.push(peer(alloc, change)?)?;
    }
    if change == Change::TwoPeers {
        entries.push(peer(alloc, change)?)?;
    }
    if change != Change::NoEnd {
        entries.push(Entry::End)?;
    }
    if change.scans() == 2 {
        push_failure(alloc, &mut entries, change)?;
    }
    Ok(entries)
}

fn answer(alloc: Global, change: Change) -> Result<HostEntry, AllocError> {
    let pdu = match change {
        Change::AnotherAnswer | Change::AnotherPost => pdu_of(alloc, &ANOTHER_REPLY)?,
        _ => pdu_of(alloc, &REPLY)?,
    };
    let result = if change.fails() || change.goes_on() {
        HostResult::Bad(0x6103)
    } else {
        HostResult::Reply(pdu)
    };
    Ok(HostEntry::Answer { id: CALL, result })
}

/// A request, and what it came to.
fn asking(alloc: Global, change: Change) -> Result<List<HostEntry>, AllocError> {
    let mut entries = List::new(alloc);
    if change == Change::NoAsk {
        return Ok(entries);
    }
    let id = match change {
        Change::AnotherName => CallId { seq: 2, ..CALL },
        _ => CALL,
    };
    let pdu = pdu_of(alloc, &REQUEST)?;
    let route = Route::of(&[1]);
    entries.push(HostEntry::Ask { id, route, pdu })?;
    if change != Change::NoAnswer {
        entries.push(answer(alloc, change)?)?;
    }
    if change == Change::TwoAnswers {
        entries.push(answer(alloc, change)?)?;
    }
    Ok(entries)
}

fn request(alloc: Global) -> Result<Frame, AllocError> {
    Ok(Frame {
        kind: FrameKind::Request,
        to: 1,
        rest: Route::of(&[]),
        id: CALL,
        pdu: pdu_of(alloc, &REQUEST)?,
    })
}

fn reply(alloc: Global, change: Change) -> Result<Frame, AllocError> {
    let pdu = if change == Change::AnotherPost {
        pdu_of(alloc, &ANOTHER_REPLY)?
    } else {
        pdu_of(alloc, &REPLY)?
    };
    Ok(Frame {
        kind: FrameKind::Reply,
        to: 2,
        rest: Route::of(&[]),
        id: CALL,
        pdu,
    })
}

pub(crate) fn pass(alloc: Global, node: u8, done: bool) -> Result<RingEntry, AllocError> {
    let words = Words::of(alloc, &[])?;
    Ok(RingEntry::Pass { node, done, words })
}

/// The first round: the host asks.
fn push_request(
    alloc: Global,
    ring: &mut List<RingEntry>,
    change: Change,
) -> Result<(), AllocError> {
    let first = if change == Change::AnotherHolder {
        2
    } else {
        1
    };
    ring.push(pass(alloc, first, false)?)?;
    let frame = request(alloc)?;
    ring.push(RingEntry::Post { node: 2, frame })?;
    let heard = if change == Change::NothingHeard {
        Heard::Silent
    } else {
        Heard::Acked
    };
    ring.push(RingEntry::Send { node: 2, heard })?;
    ring.push(pass(alloc, 2, false)?)
}

/// The second: the controller replies.
fn push_reply(alloc: Global, ring: &mut List<RingEntry>, change: Change) -> Result<(), AllocError> {
    let frame = request(alloc)?;
    ring.push(RingEntry::Take { node: 1, frame })?;
    let frame = reply(alloc, change)?;
    ring.push(RingEntry::Post { node: 1, frame })?;
    let heard = Heard::Acked;
    ring.push(RingEntry::Send { node: 1, heard })?;
    ring.push(pass(alloc, 1, true)?)
}

/// The last: the host has its reply, and both leave.
fn push_end(alloc: Global, ring: &mut List<RingEntry>, change: Change) -> Result<(), AllocError> {
    let frame = reply(alloc, change)?;
    ring.push(RingEntry::Take { node: 2, frame })?;
    ring.push(pass(alloc, 2, true)?)?;
    let cause = LeaveCause::Ended;
    ring.push(RingEntry::Leave { node: 1, cause })?;
    if change == Change::NoLeave {
        return Ok(());
    }
    ring.push(RingEntry::Leave { node: 2, cause })
}

/// The second, where power failed: the controller takes the request, leaves, and the host gives up.
fn push_down(alloc: Global, ring: &mut List<RingEntry>, change: Change) -> Result<(), AllocError> {
    let frame = request(alloc)?;
    ring.push(RingEntry::Take { node: 1, frame })?;
    if change == Change::ReplyWithoutPower {
        let frame = reply(alloc, change)?;
        ring.push(RingEntry::Post { node: 1, frame })?;
    }
    let number = if change == Change::DownAsSecond { 2 } else { 1 };
    let cause = LeaveCause::Down(number);
    ring.push(RingEntry::Leave { node: 1, cause })?;
    ring.push(pass(alloc, 2, false)?)?;
    let word = 0x6103;
    ring.push(RingEntry::GiveUp { id: CALL, word })?;
    ring.push(pass(alloc, 2, true)?)?;
    let cause = LeaveCause::Ended;
    ring.push(RingEntry::Leave { node: 2, cause })
}

/// The first round, where nobody hears what is to go on: the host gives up.
fn push_onward(
    alloc: Global,
    ring: &mut List<RingEntry>,
    change: Change,
) -> Result<(), AllocError> {
    ring.push(pass(alloc, 1, false)?)?;
    let near = request(alloc)?;
    let frame = Frame {
        rest: Route::of(&[9]),
        ..near
    };
    ring.push(RingEntry::Post { node: 2, frame })?;
    let heard = Heard::Silent;
    for _ in 0..3 {
        ring.push(RingEntry::Send { node: 2, heard })?;
    }
    let word = 0x6103;
    ring.push(RingEntry::GiveUp { id: CALL, word })?;
    ring.push(pass(alloc, 2, true)?)?;
    if change == Change::OnwardTaken {
        let near = request(alloc)?;
        let frame = Frame {
            rest: Route::of(&[9]),
            ..near
        };
        ring.push(RingEntry::Take { node: 1, frame })?;
    }
    Ok(())
}

fn ring(alloc: Global, change: Change) -> Result<List<RingEntry>, AllocError> {
    let mut ring = List::new(alloc);
    if change.goes_on() {
        push_onward(alloc, &mut ring, change)?;
        return Ok(ring);
    }
    push_request(alloc, &mut ring, change)?;
    if change.fails() {
        push_down(alloc, &mut ring, change)?;
        return Ok(ring);
    }
    push_reply(alloc, &mut ring, change)?;
    push_end(alloc, &mut ring, change)?;
    Ok(ring)
}

fn host_logs(alloc: Global, change: Change) -> Result<List<HostLog>, AllocError> {
    let mut logs = List::new(alloc);
    if change == Change::NoHost {
        return Ok(logs);
    }
    let node = if change == Change::AnotherHost { 3 } else { 2 };
    let entries = asking(alloc, change)?;
    logs.push(HostLog { node, entries })?;
    Ok(logs)
}

/// The plant has no bridge.
fn bridge_logs(alloc: Global, change: Change) -> Result<List<BridgeLog>, AllocError> {
    let mut logs = List::new(alloc);
    if change == Change::ABridge {
        logs.push(BridgeLog {
            left: 3,
            right: 4,
            entries: List::new(alloc),
        })?;
    }
    Ok(logs)
}

/// Its one network has the number 0.
fn ring_logs(alloc: Global, change: Change) -> Result<List<RingLog>, AllocError> {
    let mut logs = List::new(alloc);
    if change == Change::NoRing {
        return Ok(logs);
    }
    let network = if change == Change::AnotherNetwork {
        1
    } else {
        0
    };
    let entries = ring(alloc, change)?;
    logs.push(RingLog { network, entries })?;
    Ok(logs)
}

fn joint(alloc: Global, change: Change) -> Result<Joint, AllocError> {
    let mut controllers = List::new(alloc);
    let entries = scan(alloc, change)?;
    controllers.push(ControllerLog { node: 1, entries })?;
    let hosts = host_logs(alloc, change)?;
    let rings = ring_logs(alloc, change)?;
    Ok(Joint {
        controllers,
        hosts,
        bridges: bridge_logs(alloc, change)?,
        rings,
    })
}

fn judged(alloc: Global, change: Change) -> Result<Verdict, AllocError> {
    let plant = plant(alloc)?;
    let joint = joint(alloc, change)?;
    judge(alloc, &plant, &joint, change.scans())
}

/// What each change comes to.
const SPOTS: [(Change, Spot); 24] = [
    (Change::NoHost, Spot::Sections),
    (Change::AnotherHost, Spot::Sections),
    (Change::ABridge, Spot::Sections),
    (Change::NoRing, Spot::Sections),
    (Change::AnotherNetwork, Spot::Sections),
    (Change::NoBegin, Spot::Controller { node: 1, entry: 2 }),
    (Change::AnotherReply, Spot::Controller { node: 1, entry: 2 }),
    (Change::AnotherName, Spot::Host { node: 2, entry: 1 }),
    (Change::TwoAnswers, Spot::Host { node: 2, entry: 3 }),
    (
        Change::AnotherHolder,
        Spot::Ring {
            network: 0,
            entry: 1,
        },
    ),
    (
        Change::NothingHeard,
        Spot::Ring {
            network: 0,
            entry: 3,
        },
    ),
    (
        Change::NoAsk,
        Spot::Law {
            law: 1,
            node: 2,
            place: 1,
        },
    ),
    (
        Change::NoPeer,
        Spot::Law {
            law: 2,
            node: 1,
            place: 1,
        },
    ),
    (
        Change::TwoPeers,
        Spot::Law {
            law: 2,
            node: 1,
            place: 2,
        },
    ),
    (
        Change::AnotherPost,
        Spot::Law {
            law: 3,
            node: 1,
            place: 1,
        },
    ),
    (
        Change::AnotherAnswer,
        Spot::Law {
            law: 4,
            node: 2,
            place: 1,
        },
    ),
    (
        Change::NoAnswer,
        Spot::Law {
            law: 4,
            node: 2,
            place: 1,
        },
    ),
    (Change::NoEnd, Spot::Incomplete(1)),
    (Change::NoLeave, Spot::Incomplete(2)),
    (Change::Unnoticed, Spot::Incomplete(1)),
    (
        Change::DownAsSecond,
        Spot::Law {
            law: 5,
            node: 1,
            place: 1,
        },
    ),
    (
        Change::ReplyWithoutPower,
        Spot::Law {
            law: 3,
            node: 1,
            place: 1,
        },
    ),
    (
        Change::Onward,
        Spot::Law {
            law: 1,
            node: 2,
            place: 1,
        },
    ),
    (
        Change::OnwardTaken,
        Spot::Ring {
            network: 0,
            entry: 8,
        },
    ),
];

#[test]
fn a_whole_run_is_legal(rt: HostRuntime) -> Result<(), AllocError> {
    let verdict = judged(rt.alloc(), Change::Nothing)?;
    assert!(rt; verdict == Verdict::Legal);
    Ok(())
}

/// A request that comes without power has no reply, and a node that stays without power is done.
#[test]
fn a_run_with_a_power_failure_is_legal(rt: HostRuntime) -> Result<(), AllocError> {
    let verdict = judged(rt.alloc(), Change::Failing)?;
    assert!(rt; verdict == Verdict::Legal);
    Ok(())
}

/// How many scans the controller noted, where the judge says Legal.
fn scans_noted(alloc: Global) -> Result<Option<u32>, AllocError> {
    let plant = plant(alloc)?;
    let joint = joint(alloc, Change::Nothing)?;
    match judge_noted(alloc, &plant, &joint, 1)? {
        Judgement::Legal(notes) => Ok(notes.as_slice().first().map(|noted| noted.gone)),
        Judgement::Illegal(_) => Ok(None),
    }
}

#[test]
fn a_whole_run_hands_over_notes(rt: HostRuntime) -> Result<(), AllocError> {
    let scans = scans_noted(rt.alloc())?;
    assert!(rt; scans == Some(1));
    Ok(())
}

#[test]
fn each_change_has_its_spot(rt: HostRuntime) -> Result<(), AllocError> {
    for (change, spot) in SPOTS {
        let verdict = judged(rt.alloc(), change)?;
        assert!(rt; verdict == Verdict::Illegal(spot));
    }
    Ok(())
}
