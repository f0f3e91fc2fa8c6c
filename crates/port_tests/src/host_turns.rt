//! Two hosts on a ring, hold by hold, with ample memory.
ghost use Rattle.std.specs.Prelude.{◌≡◌, ◌≢◌, false, true, [], ◌∷◌, OnOk, IfOk};
ghost use Rattle.tied_lists.specs.Waits.{Holds};
ghost use Rattle.comm_port.specs.HostStands.{HostIsReady};

use crate::plans::{host_of, host_plan, net_of, ring_of};
use comm_port::HostWorker;
use host_port::{Host, HostEntry, HostResult};
use plant_types::{Fate, NetPlan};
use ring_core::{FrameKind, Ring, RingEntry};
use std::alloc::{AllocError, Global};
use std::process::Abort;
use std::test::Fail;

/// A host with its worker, and whether its node has left.
#[derive(Drop)]
struct Station {
    host: Host,
    worker: HostWorker,
    left: bool,
}

/// The station of a node that asks others for one register.
fn station_of(
    rt: &impl Abort,
    alloc: Global,
    node: u8,
    asks: &[(u32, u8)],
    net: &NetPlan,
) -> Result<Station, AllocError>
    ensures node { IfOk result (λ station. station.host.plan.node ≡ node) }
    ensures history { IfOk result (λ station. station.host.history ≡ []) }
    ensures worker { IfOk result
        (λ station. station.worker ≡ record { node = node; budget = true; passes = 0 }) }
    ensures left { IfOk result (λ station. station.left ≡ false) }
{
    let worker = HostWorker::new(alloc, node, net, true)?;
    let plan = host_plan(alloc, node, asks, &[3, 0, 0, 0, 1])?;
    let host = host_of(rt, alloc, &plan, net)?;
    Ok(Station {
        host,
        worker,
        left: false,
    })
}

/// One hold of a node, while another one looks on.
fn hold(
    node: u8,
    station: &mut Station,
    other_node: u8,
    other: &Station,
    ring: &mut Ring,
) -> Result<(), AllocError>
    requires mine { HostIsReady node station.old.host station.old.worker station.old.left
        ring.old.net ring.old.history }
    requires holds { Holds ring.old.net ring.old.history node }
    requires theirs { HostIsReady other_node other.now.host other.now.worker other.now.left
        ring.old.net ring.old.history }
    requires apart { other_node ≢ node }
    ensures mine { OnOk result (HostIsReady node station.new.host station.new.worker
        station.new.left ring.new.net ring.new.history) }
    ensures theirs { OnOk result (HostIsReady other_node other.now.host other.now.worker
        other.now.left ring.new.net ring.new.history) }
{
    station.left = station.worker.hold_turn(&mut station.host, ring)?;
    Ok(())
}

/// The hold of whoever has the token.
fn hold_next(one: &mut Station, two: &mut Station, ring: &mut Ring) -> Result<(), AllocError>
    requires one { HostIsReady 1 one.old.host one.old.worker one.old.left ring.old.net
        ring.old.history }
    requires two { HostIsReady 2 two.old.host two.old.worker two.old.left ring.old.net
        ring.old.history }
    ensures one { OnOk result
        (HostIsReady 1 one.new.host one.new.worker one.new.left ring.new.net ring.new.history) }
    ensures two { OnOk result
        (HostIsReady 2 two.new.host two.new.worker two.new.left ring.new.net ring.new.history) }
{
    let holder = ring.holder();
    if holder == 1 && !one.left {
        return hold(1, one, 2, two, ring);
    }
    if holder == 2 && !two.left {
        return hold(2, two, 1, one, ring);
    }
    Ok(())
}

/// So many holds, each of whoever has the token then.
fn hold_all(
    one: &mut Station,
    two: &mut Station,
    ring: &mut Ring,
    holds: u32,
) -> Result<(), AllocError>
    requires one { HostIsReady 1 one.old.host one.old.worker one.old.left ring.old.net
        ring.old.history }
    requires two { HostIsReady 2 two.old.host two.old.worker two.old.left ring.old.net
        ring.old.history }
{
    for _ in 0..holds {
        hold_next(one, two, ring)?;
    }
    Ok(())
}

/// A letter for each entry: a Request or a Reply posted, a Send, a Take, a call that is given up, a
/// Pass that says done or not, a Leave, a Join.
fn letter(entry: &RingEntry) -> u8 {
    match entry {
        RingEntry::Post { frame, .. } => match frame.kind {
            FrameKind::Request => b'P',
            FrameKind::Reply => b'p',
        },
        RingEntry::Send { .. } => b'S',
        RingEntry::Take { .. } => b'T',
        RingEntry::Local { .. } => b'O',
        RingEntry::GiveUp { .. } => b'G',
        RingEntry::Pass { done: true, .. } => b'd',
        RingEntry::Pass { done: false, .. } => b'n',
        RingEntry::Leave { .. } => b'L',
        RingEntry::Join { .. } => b'J',
    }
}

/// What the last call of a host ended with.
fn last_end(entries: &[HostEntry]) -> u16 {
    let mut last = 0;
    for entry in entries {
        match entry {
            HostEntry::Answer {
                result: HostResult::Bad(word),
                ..
            } => last = *word,
            HostEntry::Answer {
                result: HostResult::Reply(pdu),
                ..
            } => last = u16::from(pdu.bytes()[0]),
            HostEntry::Ask { .. } | HostEntry::Served { .. } => {}
        }
    }
    last
}

/// The letters of a ring's entries.
fn letters_of(alloc: Global, entries: &[RingEntry]) -> Result<Vec<u8>, AllocError> {
    let mut text = Vec::new(alloc);
    for entry in entries {
        text.push(letter(entry))?;
    }
    Ok(text)
}

/// Forty holds of two stations, and then the letters of the ring's entries.
fn held_text(
    alloc: Global,
    one: &mut Station,
    two: &mut Station,
    ring: &mut Ring,
) -> Result<Vec<u8>, AllocError>
    requires one { HostIsReady 1 one.old.host one.old.worker one.old.left ring.old.net
        ring.old.history }
    requires two { HostIsReady 2 two.old.host two.old.worker two.old.left ring.old.net
        ring.old.history }
{
    hold_all(one, two, ring, 40)?;
    letters_of(alloc, ring.history())
}

/// A text, if there is one, with the word that ended a call.
fn with_end(text: Result<Vec<u8>, AllocError>, end: u16) -> Result<(Vec<u8>, u16), AllocError> {
    Ok((text?, end))
}

/// What goes over the ring of a net whose hosts 1 and 2 ask this, and what the last call of 1 ended
/// with.
fn ring_text(
    rt: &impl Abort,
    alloc: Global,
    net: &NetPlan,
    asks: &[(u32, u8)],
    other_asks: &[(u32, u8)],
) -> Result<(Vec<u8>, u16), AllocError>
    requires members { net.now.members ≡ 1 ∷ 2 ∷ [] }
    requires alone { net.now.bridges ≡ [] }
    requires answer { net.now.answer ≡ 2 }
{
    let mut one = station_of(rt, alloc, 1, asks, net)?;
    let mut two = station_of(rt, alloc, 2, other_asks, net)?;
    let mut ring = ring_of(rt, alloc, net)?;
    let text = held_text(alloc, &mut one, &mut two, &mut ring);
    with_end(text, last_end(one.host.history()))
}

/// Whether this goes over the ring of hosts 1 and 2 that ask this, and the last call of 1 ends so.
fn ring_tells(
    rt: &impl Abort,
    alloc: Global,
    fates: &[Fate],
    asks: (&[(u32, u8)], &[(u32, u8)]),
    told: (&[u8], u16),
) -> Result<bool, AllocError> {
    let net = net_of(alloc, &[1, 2], fates, 2, 9)?;
    let (text, end) = ring_text(rt, alloc, &net, asks.0, asks.1)?;
    Ok(text.as_slice() == told.0 && end == told.1)
}

#[test]
fn hosts_ask_in_their_holds(rt: HostRuntime) -> Result<(), Fail> {
    let alloc = rt.alloc();
    let five = [(1, 9), (1, 9), (1, 9), (1, 9), (1, 9)];
    let rows: [(&[Fate], &[(u32, u8)], &[(u32, u8)], &[u8], u16); 5] = [
        // Nobody is there: four calls end at once, and the fifth in the next hold.
        (
            &[Fate::D],
            &five,
            &[],
            b"PPPPSSSGSSSGSSSGSSSGndPSSSGdLL",
            0x6103,
        ),
        // A request whose hold comes late, to a host that refuses it.
        (&[Fate::D], &[(3, 2)], &[], b"ndndPSnTpSdTdLL", 0x83),
        // It is never made where the Passes are spent before.
        (&[Fate::D], &[(12, 2)], &[], b"ndndndndndndndndndLL", 0),
        // No acknowledgement comes: the call fails, though it was served.
        (&[Fate::A], &[(1, 2)], &[], b"PSSSGdTpSSSdLL", 0x6101),
        // The Reply of the second host's call is lost: it waits for two Passes.
        (
            &[Fate::L, Fate::L, Fate::L, Fate::D],
            &[(1, 2)],
            &[(2, 1)],
            b"PSSSGdndPSnTpSSSdndGdLL",
            0x6101,
        ),
    ];
    for (fates, asks, other_asks, text, end) in rows {
        assert!(rt; ring_tells(&rt, alloc, fates, (asks, other_asks), (text, end))?);
    }
    Ok(())
}
