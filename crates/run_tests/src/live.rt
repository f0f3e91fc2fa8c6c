//! A gate over a ring, and the plant READ2 in threads.
ghost use Rattle.std.specs.Prelude.{◌≡◌, ◌∷◌, [], IfOk};

use crate::plans::net_of;
use crate::read2::{AS_IT_IS, Change, read2};
use controller_core::Entry;
use crossbeam_utils::Backoff;
use joint_history::{Joint, RingLog};
use live_run::{Meet, NoMeet, RingCell, live};
use mstr_block::MstrResult;
use plant_types::{Fate, PowerRow};
use ring_core::{LeaveCause, Ring, RingEntry};
use std::alloc::{AllocError, Global};
use std::sync::Wait;
use std::sync::atomic::{AtomicU64, Ordering};
use std::thread::Threads;
use std::time::Clock;
use turn_gate::Gate;

/// A ring with the one member 7.
fn lonely_ring(alloc: Global) -> Result<Ring, AllocError>
    ensures { IfOk result (λ ring. ring.net.members ≡ 7 ∷ []) }
{
    let net = net_of(alloc, &[7], &[Fate::D], 2, 100_000)?;
    Ring::new(alloc, &net)
}

/// The history is `PA 7 0 -`.
fn is_one_pass(history: &[RingEntry]) -> bool {
    match history.first() {
        Some(RingEntry::Pass { node, done, words }) => {
            history.len() == 1 && *node == 7 && !*done && words.words().is_empty()
        }
        _ => false,
    }
}

#[test]
fn a_pass_behind_a_gate(rt: HostRuntime) -> Result<(), AllocError> {
    let cell = RingCell::new(lonely_ring(rt.alloc())?);
    let (gate, zero) = Gate::new(rt.alloc(), cell)?;
    let (zero, mut seven) = gate.split(zero, 7);
    let mut held = gate.enter(&rt, &mut seven);
    let passed = held.value().get_mut().pass(7, false);
    gate.leave(&mut seven, held);
    let zero = gate.join(zero, seven);
    let ring = gate.close(zero).into_inner();
    assert!(rt; passed.is_ok());
    assert!(rt; is_one_pass(ring.history()));
    Ok(())
}

fn ran_as<M: Meet + Sync, R: Threads + Wait + Clock + Sync>(
    rt: &R,
    alloc: Global,
    change: Change,
    meet: &M,
) -> Result<Joint, AllocError> {
    let plant = read2(alloc, change)?;
    live(rt, alloc, &plant, 2, meet)
}

fn ran<M: Meet + Sync, R: Threads + Wait + Clock + Sync>(
    rt: &R,
    alloc: Global,
    meet: &M,
) -> Result<Joint, AllocError> {
    ran_as(rt, alloc, AS_IT_IS, meet)
}

/// A letter for each event of the scan.
fn scan_letter(entry: &Entry) -> Option<u8> {
    match entry {
        Entry::Begin => Some(b'B'),
        Entry::Input(_) => Some(b'I'),
        Entry::Solve(_) => Some(b'S'),
        Entry::Output { .. } => Some(b'O'),
        Entry::End => Some(b'E'),
        Entry::Fail => Some(b'X'),
        Entry::Dark => Some(b'K'),
        Entry::Collect(_) | Entry::Finish { .. } => None,
        Entry::Peer { .. } | Entry::Off { .. } => None,
    }
}

/// The events of the scans of all controllers.
fn scans(alloc: Global, joint: &Joint) -> Result<Vec<u8>, AllocError> {
    let mut text = Vec::new(alloc);
    for log in joint.controllers.as_slice() {
        for entry in log.entries.as_slice() {
            if let Some(letter) = scan_letter(entry) {
                text.push(letter)?;
            }
        }
        text.push(b' ')?;
    }
    Ok(text)
}

/// The words of a result, and no word of a node for an error.
fn push_words(words: &mut Vec<u16>, outcome: &MstrResult) -> Result<(), AllocError> {
    match outcome {
        MstrResult::Good(block) => {
            for word in block.words() {
                words.push(*word)?;
            }
        }
        MstrResult::Bad(_) => words.push(65_535)?,
    }
    Ok(())
}

/// Each controller's node, and after it what its calls brought.
fn results(alloc: Global, joint: &Joint) -> Result<Vec<u16>, AllocError> {
    let mut words = Vec::new(alloc);
    for log in joint.controllers.as_slice() {
        words.push(u16::from(log.node))?;
        for entry in log.entries.as_slice() {
            if let Entry::Finish { result, .. } = entry {
                push_words(&mut words, result)?;
            }
        }
    }
    Ok(words)
}

/// How often a node left for a cause.
fn leaves(rings: &[RingLog], of: u8, why: LeaveCause) -> u64 {
    let mut count = 0u64;
    for ring in rings {
        for entry in ring.entries.as_slice() {
            if let RingEntry::Leave { node, cause } = entry {
                count = count.saturating_add(u64::from(*node == of && *cause == why));
            }
        }
    }
    count
}

/// The node left once, and had come to its end.
fn has_ended(rings: &[RingLog], node: u8) -> bool {
    leaves(rings, node, LeaveCause::Ended) == 1 && leaves(rings, node, LeaveCause::Spent) == 0
}

/// What a live run of READ2 tells.
#[derive(Drop)]
struct Shown {
    /// The events of the scans of all controllers.
    events: Vec<u8>,
    /// Each controller's node, and after it what its calls brought.
    words: Vec<u16>,
    /// Both nodes left once, each as it had come to its end.
    ended: bool,
}

fn told_by(alloc: Global, joint: &Joint) -> Result<Shown, AllocError> {
    let rings = joint.rings.as_slice();
    let ended = has_ended(rings, 2) && has_ended(rings, 5);
    let events = scans(alloc, joint)?;
    let words = results(alloc, joint)?;
    Ok(Shown {
        events,
        words,
        ended,
    })
}

fn ran_shown<M: Meet + Sync, R: Threads + Wait + Clock + Sync>(
    rt: &R,
    alloc: Global,
    meet: &M,
) -> Result<Shown, AllocError> {
    let joint = ran(rt, alloc, meet)?;
    told_by(alloc, &joint)
}

#[test]
fn a_call_is_answered(rt: HostRuntime) -> Result<(), AllocError> {
    let shown = ran_shown(&rt, rt.alloc(), &NoMeet)?;
    assert!(rt; shown.events.as_slice() == b"BSEBSE BSEBSE ".as_slice());
    // Node 5 is asked before its first scan, or after it.
    let words = shown.words.as_slice();
    assert!(rt; words == [2, 42, 43, 5].as_slice() || words == [2, 0, 0, 5].as_slice());
    assert!(rt; shown.ended);
    Ok(())
}

/// Lets node 2 go on from its first segment once node 5 has solved its own.
#[derive(Drop)]
struct FiveFirst {
    solved: AtomicU64,
}

impl Meet for FiveFirst {
    fn in_ram(&self, node: u8) {
        if node == 5 {
            self.solved.store(1, Ordering::SeqCst);
        }
        let backoff = Backoff::new();
        for _ in 0..10_000_000 {
            if self.solved.load(Ordering::SeqCst) != 0 {
                return;
            }
            backoff.snooze();
        }
    }

    fn ring_entry(&self, node: u8) {
        let _ = node;
    }
}

#[test]
fn a_call_brings_words(rt: HostRuntime) -> Result<(), AllocError> {
    let meet = FiveFirst {
        solved: AtomicU64::new(0),
    };
    let shown = ran_shown(&rt, rt.alloc(), &meet)?;
    assert!(rt; shown.events.as_slice() == b"BSEBSE BSEBSE ".as_slice());
    assert!(rt; shown.words.as_slice() == [2, 42, 43, 5].as_slice());
    assert!(rt; shown.ended);
    Ok(())
}

/// How often the workers of a node told where they are.
#[derive(Drop)]
struct Told {
    solves: AtomicU64,
    entries: AtomicU64,
}

impl Told {
    fn new() -> Told {
        Told {
            solves: AtomicU64::new(0),
            entries: AtomicU64::new(0),
        }
    }

    fn counts(&self) -> [u64; 2] {
        [
            self.solves.load(Ordering::SeqCst),
            self.entries.load(Ordering::SeqCst),
        ]
    }
}

/// Counts what it is told of node 2 and of all others.
#[derive(Drop)]
struct Counts {
    two: Told,
    others: Told,
}

impl Counts {
    fn of(&self, node: u8) -> &Told {
        if node == 2 { &self.two } else { &self.others }
    }
}

impl Meet for Counts {
    fn in_ram(&self, node: u8) {
        self.of(node).solves.fetch_add(1, Ordering::SeqCst);
    }

    fn ring_entry(&self, node: u8) {
        self.of(node).entries.fetch_add(1, Ordering::SeqCst);
    }
}

/// Who made an entry of the ring.
fn maker(entry: &RingEntry) -> u8 {
    match entry {
        RingEntry::Post { node, .. } | RingEntry::Send { node, .. } => *node,
        RingEntry::Take { node, .. } | RingEntry::Local { node, .. } => *node,
        RingEntry::Pass { node, .. } | RingEntry::Leave { node, .. } => *node,
        RingEntry::Join { node } => *node,
        RingEntry::GiveUp { id, .. } => id.node,
    }
}

/// The Solves of node's controller and the node's entries of the rings.
fn made(joint: &Joint, node: u8) -> [u64; 2] {
    let mut solves = 0u64;
    for log in joint.controllers.as_slice() {
        for entry in log.entries.as_slice() {
            let is_its = log.node == node && scan_letter(entry) == Some(b'S');
            solves = solves.saturating_add(u64::from(is_its));
        }
    }
    let mut entries = 0u64;
    for ring in joint.rings.as_slice() {
        for entry in ring.entries.as_slice() {
            entries = entries.saturating_add(u64::from(maker(entry) == node));
        }
    }
    [solves, entries]
}

/// What both nodes made in a live run.
fn ran_made<M: Meet + Sync, R: Threads + Wait + Clock + Sync>(
    rt: &R,
    alloc: Global,
    meet: &M,
) -> Result<[[u64; 2]; 2], AllocError> {
    let joint = ran(rt, alloc, meet)?;
    Ok([made(&joint, 2), made(&joint, 5)])
}

#[test]
fn each_solve_and_each_entry_is_told(rt: HostRuntime) -> Result<(), AllocError> {
    let meet = Counts {
        two: Told::new(),
        others: Told::new(),
    };
    let made = ran_made(&rt, rt.alloc(), &meet)?;
    assert!(rt; made == [meet.two.counts(), meet.others.counts()]);
    let [solves, entries] = meet.two.counts();
    assert!(rt; solves == 2 && entries > 2);
    Ok(())
}

/// Power of node 5 fails as its first scan begins.
const FIRST: &[PowerRow] = &[PowerRow {
    scan: 1,
    row: 0,
    dark: 0,
}];

/// It fails as its second scan, the last one, begins.
const LAST: &[PowerRow] = &[PowerRow {
    scan: 2,
    row: 0,
    dark: 0,
}];

/// How often a node asked to come in again.
fn joins(rings: &[RingLog], of: u8) -> u64 {
    let mut count = 0u64;
    for ring in rings {
        for entry in ring.entries.as_slice() {
            if let RingEntry::Join { node } = entry {
                count = count.saturating_add(u64::from(*node == of));
            }
        }
    }
    count
}

/// The events of all scans of a live run, and how often node 5 left as power failed, asked to come
/// in again, and left as it had come to its end.
fn ran_dark<R: Threads + Wait + Clock + Sync>(
    rt: &R,
    alloc: Global,
    power: &'static [PowerRow],
) -> Result<(Vec<u8>, [u64; 3]), AllocError> {
    let change = Change { power, ..AS_IT_IS };
    let joint = ran_as(rt, alloc, change, &NoMeet)?;
    let rings = joint.rings.as_slice();
    let events = scans(alloc, &joint)?;
    let counts = [
        leaves(rings, 5, LeaveCause::Down(1)),
        joins(rings, 5),
        leaves(rings, 5, LeaveCause::Ended),
    ];
    Ok((events, counts))
}

#[test]
fn a_node_comes_back(rt: HostRuntime) -> Result<(), AllocError> {
    let (events, counts) = ran_dark(&rt, rt.alloc(), FIRST)?;
    assert!(rt; events.as_slice() == b"BSEBSE BXBSE ".as_slice());
    assert!(rt; counts == [1, 1, 1]);
    Ok(())
}

#[test]
fn a_node_stays_away(rt: HostRuntime) -> Result<(), AllocError> {
    let (events, counts) = ran_dark(&rt, rt.alloc(), LAST)?;
    assert!(rt; events.as_slice() == b"BSEBSE BSEBX ".as_slice());
    assert!(rt; counts == [1, 0, 0]);
    Ok(())
}
