//! Scripts of calls on rings, and how they are played.
//!
//! A script has scenarios. Each begins with `#` and what it shows; its second line has the letters
//! of the transmissions and the members of the ring, with a `b` before the end of a bridge, and each
//! further line a call and its answer. A call says which node makes it, what it does, and up to three
//! numbers:
//!
//! | Call | Means |
//! |---|---|
//! | `2 asks 5 1 3` | node 2 posts a Request to node 5 on path 1 with number 3 |
//! | `2 asks_over 5 1 3` | the same for a Request that is to go on from node 5 |
//! | `5 replies 2 1 3` | node 5 posts the Reply to that call |
//! | `2 sends`, `5 takes` | a frame is transmitted, or taken out of the inbox |
//! | `2 gives_up 1 3` | the call of path 1 with number 3 is given up |
//! | `2 passes`, `2 passes_done` | the token is passed, with more to do or with nothing |
//! | `2 ends`, `2 is_spent` | the node leaves: all are done, or its Passes are used up |
//! | `2 is_down 3` | the node leaves as its power failed, for the third time |
//! | `2 joins` | the node asks to come in again |
//! | `2 stands` | where the node stands toward the ring |
//! | `2 puts 7 8` | the node puts two global words |
//! | `5 hears 2 1` | the answer to a GetGlobal of one word of node 2 |
//! | `5 counts 2 1 3` | the node's statistics, for the call 2 1 3 |
//! | `5 clears 2 1 3` | the same call clears them |
//! | `5 sees` | who holds the token, and the successor of node 5 |
//! | `5 waits` | for how many Passes in a row those whom node 5 waits for have been done |
//! | `5 is_alone` | whether all others that are there, or ask to be, are ends of bridges |
ghost use Rattle.ring_core.specs.Legal.{HasRoom};

use mstr_block::{CallId, MstrResult};
use plant_types::{Fate, List, NetPlan, Pdu, Route, Words};
use ring_core::{
    Frame, FrameKind, Heard, LeaveCause, LocalOp, NodeStatus, Ring, RingNo, is_from, is_net,
    is_path,
};
use std::alloc::{AllocError, Global};
use std::process::Abort;
use std::test::Fail;

#[derive(Clone, Copy)]
// A call: which node makes it, what it does, and its numbers.
struct Call<'a> {
    node: u8,
    does: &'a str,
    numbers: [u32; 3],
}

// What a call answers, as scripts have it.
#[derive(Clone, Copy, Debug)]
enum Told {
    Done,
    Heard(Heard),
    // The Request, or the Reply, of a call: its node, path and number. A Request may be to go on.
    Request(u8, u8, u32),
    Onward(u8, u8, u32),
    Reply(u8, u8, u32),
    Nothing,
    // The word of a call that is given up: 6101, 6103, 6105.
    NoAnswer,
    NobodyThere,
    InboxFull,
    OtherWord(u16),
    Sees { holder: u8, next: u8 },
    Stands(NodeStatus),
    Waits(u64),
    IsAlone(bool),
    No(RingNo),
}

fn number(word: Option<&str>) -> u32 {
    match word {
        None => 0,
        Some(word) => word.parse::<u32>().unwrap_or(0),
    }
}

fn byte(number: u32) -> u8 {
    u8::try_from(number).unwrap_or(0)
}

fn word(number: u32) -> u16 {
    u16::try_from(number).unwrap_or(0)
}

fn call_of(text: &str) -> Call<'_> {
    let mut words = text.split_whitespace();
    let node = number(words.next());
    let does = words.next().unwrap_or("");
    let first = number(words.next());
    let second = number(words.next());
    let third = number(words.next());
    Call {
        node: byte(node),
        does,
        numbers: [first, second, third],
    }
}

fn fates(alloc: Global, letters: &str) -> Result<Vec<Fate>, AllocError> {
    let mut fates = Vec::new(alloc);
    for letter in letters.chars() {
        let fate = match letter {
            'D' => Fate::D,
            'L' => Fate::L,
            _ => Fate::A,
        };
        fates.push(fate)?;
    }
    Ok(fates)
}

// The address of a member.
fn address(word: &str) -> u8 {
    byte(number(Some(word.strip_prefix("b").unwrap_or(word))))
}

fn members(alloc: Global, words: &str) -> Result<Vec<u8>, AllocError> {
    let mut members = Vec::new(alloc);
    for word in words.split_whitespace() {
        members.push(address(word))?;
    }
    Ok(members)
}

fn bridges(alloc: Global, words: &str) -> Result<Vec<u8>, AllocError> {
    let mut bridges = Vec::new(alloc);
    for word in words.split_whitespace() {
        if word.starts_with("b") {
            bridges.push(address(word))?;
        }
    }
    Ok(bridges)
}

// A net in which a call is given up after 2 own Passes, and that is left after 1 round or 3 Passes.
fn plan_of(alloc: Global, net: &str) -> Result<NetPlan, Fail> {
    let (letters, words) = net.split_once(" ").ok_or("members")?;
    let fates = fates(alloc, letters)?;
    let members = members(alloc, words)?;
    let bridges = bridges(alloc, words)?;
    Ok(NetPlan {
        number: 0,
        members: List::from_vec(members),
        bridges: List::from_vec(bridges),
        fates: List::from_vec(fates),
        answer: 2,
        rotations: 1,
        rounds: 1,
        holds: 3,
    })
}

fn ring_of(rt: &impl Abort, alloc: Global, net: &str) -> Result<Ring, Fail> {
    let plan = plan_of(alloc, net)?;
    let can = is_net(&plan);
    assert!(rt; can);
    Ok(Ring::new(alloc, &plan)?)
}

fn frame(
    alloc: Global,
    kind: FrameKind,
    to: u8,
    rest: Route,
    id: CallId,
) -> Result<Frame, AllocError> {
    let Some(pdu) = Pdu::of(alloc, &[7])? else {
        return Err(AllocError);
    };
    Ok(Frame {
        kind,
        to,
        rest,
        id,
        pdu,
    })
}

fn request(alloc: Global, to: u8, id: CallId) -> Result<Frame, AllocError> {
    frame(alloc, FrameKind::Request, to, Route::of(&[]), id)
}

fn request_over(alloc: Global, to: u8, id: CallId) -> Result<Frame, AllocError> {
    frame(alloc, FrameKind::Request, to, Route::of(&[64, 1]), id)
}

fn reply(alloc: Global, to: u8, id: CallId) -> Result<Frame, AllocError> {
    frame(alloc, FrameKind::Reply, to, Route::of(&[]), id)
}

fn done(res: Result<(), RingNo>) -> Told {
    match res {
        Ok(()) => Told::Done,
        Err(why) => Told::No(why),
    }
}

fn post(rt: &impl Abort, ring: &mut Ring, node: u8, frame: Frame) -> Told {
    let can = ring.is_member(node) && is_from(node, &frame);
    assert!(rt; can);
    let next = ring.is_next(node, frame.kind, frame.id);
    assert!(rt; next);
    done(ring.post(node, frame))
}

fn send(rt: &impl Abort, ring: &mut Ring, node: u8) -> Told {
    let can = ring.is_member(node);
    assert!(rt; can);
    match ring.send(node) {
        Ok(heard) => Told::Heard(heard),
        Err(why) => Told::No(why),
    }
}

fn taken(frame: &Frame) -> Told {
    let id = frame.id;
    match frame.kind {
        FrameKind::Request => {
            if frame.rest.addresses().is_empty() {
                Told::Request(id.node, id.path, id.seq)
            } else {
                Told::Onward(id.node, id.path, id.seq)
            }
        }
        FrameKind::Reply => Told::Reply(id.node, id.path, id.seq),
    }
}

fn take(rt: &impl Abort, ring: &mut Ring, node: u8) -> Told {
    let can = ring.is_member(node);
    assert!(rt; can);
    match ring.take(node) {
        Ok(Some(frame)) => taken(&frame),
        Ok(None) => Told::Nothing,
        Err(why) => Told::No(why),
    }
}

fn word_told(word: u16) -> Told {
    match word {
        0x6101 => Told::NoAnswer,
        0x6103 => Told::NobodyThere,
        0x6105 => Told::InboxFull,
        _ => Told::OtherWord(word),
    }
}

fn give_up(rt: &impl Abort, ring: &mut Ring, id: CallId) -> Told {
    let can = ring.is_member(id.node) && is_path(id.path);
    assert!(rt; can);
    match ring.give_up(id) {
        Ok(word) => word_told(word),
        Err(why) => Told::No(why),
    }
}

fn pass(rt: &impl Abort, ring: &mut Ring, node: u8, finished: bool) -> Told {
    let can = ring.is_member(node);
    assert!(rt; can);
    done(ring.pass(node, finished))
}

fn leave(rt: &impl Abort, ring: &mut Ring, node: u8, cause: LeaveCause) -> Told {
    let can = ring.is_member(node);
    assert!(rt; can);
    let spare = ring.spare();
    assert!(rt; spare >= 1);
    done(ring.leave(node, cause))
}

fn join(rt: &impl Abort, ring: &mut Ring, node: u8) -> Told {
    let can = ring.is_member(node);
    assert!(rt; can);
    done(ring.join(node))
}

fn stands(rt: &impl Abort, ring: &Ring, node: u8) -> Told {
    let can = ring.is_member(node);
    assert!(rt; can);
    Told::Stands(ring.status(node))
}

fn waits(rt: &impl Abort, ring: &Ring, node: u8) -> Told {
    let can = ring.is_member(node);
    assert!(rt; can);
    Told::Waits(ring.quiet(node))
}

// A local call; at most 32 words are put.
fn local(
    rt: &impl Abort,
    ring: &mut Ring,
    node: u8,
    id: CallId,
    op: LocalOp,
) -> Result<MstrResult, RingNo>
    requires { HasRoom op }
{
    let can = ring.is_member(node);
    assert!(rt; can);
    ring.local(node, id, op)
}

// The words that a local call answers, or why there are none.
fn words_told(alloc: Global, res: Result<MstrResult, RingNo>) -> Result<String, AllocError> {
    match res {
        Ok(MstrResult::Good(found)) => format!(in alloc; "{:?}", found.words()),
        Ok(MstrResult::Bad(word)) => format!(in alloc; "{word:x}"),
        Err(why) => format!(in alloc; "No({why:?})"),
    }
}

fn id(node: u8, path: u8, seq: u32) -> CallId {
    CallId { node, path, seq }
}

// What a node is asked for by a call of its own, and by one of another node.
fn statistics(node: u8, id: CallId) -> LocalOp
    ensures { HasRoom result }
{
    if id.node == node {
        LocalOp::GetStats
    } else {
        LocalOp::RemoteGet
    }
}

fn clear(node: u8, id: CallId) -> LocalOp
    ensures { HasRoom result }
{
    if id.node == node {
        LocalOp::ClearStats
    } else {
        LocalOp::RemoteClear
    }
}

fn seen(ring: &Ring, node: u8) -> Told {
    Told::Sees {
        holder: ring.holder(),
        next: ring.successor(node),
    }
}

fn called(
    rt: &impl Abort,
    alloc: Global,
    ring: &mut Ring,
    call: &Call<'_>,
) -> Result<Told, AllocError> {
    let node = call.node;
    let [first, second, third] = call.numbers;
    let to = byte(first);
    let told = match call.does {
        "asks" => {
            let id = id(node, byte(second), third);
            post(rt, ring, node, request(alloc, to, id)?)
        }
        "asks_over" => {
            let id = id(node, byte(second), third);
            post(rt, ring, node, request_over(alloc, to, id)?)
        }
        "replies" => {
            let id = id(to, byte(second), third);
            post(rt, ring, node, reply(alloc, to, id)?)
        }
        "sends" => send(rt, ring, node),
        "takes" => take(rt, ring, node),
        "gives_up" => give_up(rt, ring, id(node, byte(first), second)),
        "passes" => pass(rt, ring, node, false),
        "passes_done" => pass(rt, ring, node, true),
        "ends" => leave(rt, ring, node, LeaveCause::Ended),
        "is_spent" => leave(rt, ring, node, LeaveCause::Spent),
        "is_down" => leave(rt, ring, node, LeaveCause::Down(first)),
        "joins" => join(rt, ring, node),
        "stands" => stands(rt, ring, node),
        "waits" => waits(rt, ring, node),
        "is_alone" => Told::IsAlone(ring.only_bridges(node)),
        _ => seen(ring, node),
    };
    Ok(told)
}

fn answer(
    rt: &impl Abort,
    alloc: Global,
    ring: &mut Ring,
    call: &Call<'_>,
) -> Result<String, AllocError> {
    let node = call.node;
    let [first, second, third] = call.numbers;
    let own = id(node, 0, 1);
    let named = id(byte(first), byte(second), third);
    match call.does {
        "puts" => {
            let words = Words::of(alloc, &[word(first), word(second)])?;
            words_told(alloc, local(rt, ring, node, own, LocalOp::PutGlobal(words)))
        }
        "hears" => {
            let op = LocalOp::GetGlobal {
                node: byte(first),
                length: word(second),
            };
            words_told(alloc, local(rt, ring, node, own, op))
        }
        "counts" => words_told(alloc, local(rt, ring, node, named, statistics(node, named))),
        "clears" => words_told(alloc, local(rt, ring, node, named, clear(node, named))),
        _ => {
            let told = called(rt, alloc, ring, call)?;
            format!(in alloc; "{told:?}")
        }
    }
}

fn plays_row(
    rt: &impl Abort,
    alloc: Global,
    ring: &mut Ring,
    shows: &str,
    row: &str,
) -> Result<(), Fail> {
    let (call, want) = row.split_once(" = ").ok_or("an answer")?;
    let got = answer(rt, alloc, ring, &call_of(call))?;
    assert_eq!(rt; got.as_str(), want, "{shows}: {call}");
    Ok(())
}

fn plays_rows(
    rt: &impl Abort,
    alloc: Global,
    ring: &mut Ring,
    shows: &str,
    rows: &str,
) -> Result<(), Fail> {
    ring.reserve(4)?;
    for row in rows.lines() {
        plays_row(rt, alloc, ring, shows, row)?;
    }
    Ok(())
}

fn plays_scenario(rt: &impl Abort, alloc: Global, scenario: &str) -> Result<(), Fail> {
    let (shows, rest) = scenario.split_once("\n").ok_or("a net")?;
    let (net, rows) = rest.split_once("\n").ok_or("calls")?;
    let mut ring = ring_of(rt, alloc, net)?;
    plays_rows(rt, alloc, &mut ring, shows, rows)
}

// Each call of a script is answered as it says.
pub(crate) fn plays(rt: &impl Abort, alloc: Global, script: &str) -> Result<(), Fail> {
    for scenario in script.split('#') {
        if !scenario.is_empty() {
            plays_scenario(rt, alloc, scenario)?;
        }
    }
    Ok(())
}
