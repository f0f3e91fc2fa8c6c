//! What goes over both rings where host 2 asks by a route, turn by turn.
ghost use Rattle.std.specs.Prelude.{◌≡◌, false, true, [], ◌∷◌, IfOk};

use crate::letters::{bridge_letters, ring_letters};
use crate::shores::{Shore, hold_all};
use bridge_port::BridgeWorker;
use bridge_relay::{Bridge, BridgeEntry, RelayResult};
use comm_port::HostWorker;
use host_port::{Host, HostEntry, HostResult};
use mstr_block::MstrResult;
use plant_types::{
    BridgePlan, Fate, HostAsk, HostPlan, List, NetPlan, Pdu, ROUTE_LIMIT, Route, is_host_plan,
};
use reply_laws::result_of;
use ring_core::{GET_STATISTICS, Ring, RingEntry, is_net};
use std::alloc::{AllocError, Global};
use std::process::Abort;
use std::test::Fail;

/// A read of two registers.
const READ: [u8; 5] = [3, 0, 0, 0, 2];

/// A net of a host and an end of a bridge.
fn net_of(alloc: Global, number: u8, node: u8, side: u8, fate: Fate) -> Result<NetPlan, AllocError>
    ensures members { IfOk result (λ net. net.members ≡ node ∷ side ∷ []) }
    ensures bridges { IfOk result (λ net. net.bridges ≡ side ∷ []) }
    ensures answer { IfOk result (λ net. net.answer ≡ 9) }
{
    Ok(NetPlan {
        number,
        members: List::from_vec(Vec::from_slice(alloc, &[node, side])?),
        bridges: List::from_vec(Vec::from_slice(alloc, &[side])?),
        fates: List::from_vec(Vec::from_slice(alloc, &[fate])?),
        answer: 9,
        rotations: 2,
        rounds: 1,
        holds: 40,
    })
}

/// A request that is due from the first hold on.
fn ask_of(alloc: Global, route: &[u8], pdu: &[u8]) -> Result<HostAsk, AllocError> {
    if route.len() > ROUTE_LIMIT {
        return Err(AllocError);
    }
    match Pdu::of(alloc, pdu)? {
        Some(pdu) => Ok(HostAsk {
            hold: 1,
            route: Route::of(route),
            pdu,
        }),
        None => Err(AllocError),
    }
}

/// The plan of a host that makes this request, or none where its route is empty.
fn host_plan(
    alloc: Global,
    node: u8,
    network: u8,
    route: &[u8],
    pdu: &[u8],
) -> Result<HostPlan, AllocError>
    ensures { IfOk result (λ plan. plan.node ≡ node) }
{
    let mut requests = List::new(alloc);
    if !route.is_empty() {
        requests.push(ask_of(alloc, route, pdu)?)?;
    }
    Ok(HostPlan {
        node,
        network,
        requests,
    })
}

/// The ring of a net, on which nothing has happened.
fn ring_of(rt: &impl Abort, alloc: Global, net: &NetPlan) -> Result<Ring, AllocError>
    ensures net { IfOk result (λ ring. ring.net ≡ net.now) }
    ensures empty { IfOk result (λ ring. ring.history ≡ []) }
{
    let can = is_net(net);
    assert!(rt; can);
    Ring::new(alloc, net)
}

/// The host of a plan, which has asked nothing.
fn host_of(
    rt: &impl Abort,
    alloc: Global,
    plan: &HostPlan,
    net: &NetPlan,
) -> Result<Host, AllocError>
    ensures { IfOk result (λ host. host ≡ record { plan = plan.now; history = [] }) }
{
    let can = is_host_plan(plan);
    assert!(rt; can);
    Host::new(alloc, plan, net)
}

/// A shore on which nothing has happened.
fn shore_of(
    rt: &impl Abort,
    alloc: Global,
    net: &NetPlan,
    plan: &HostPlan,
    side: u8,
) -> Result<Shore, AllocError>
    ensures net { IfOk result (λ shore. shore.ring.net ≡ net.now) }
    ensures empty { IfOk result (λ shore. shore.ring.history ≡ []) }
    ensures node { IfOk result (λ shore. shore.host.plan.node ≡ plan.now.node) }
    ensures history { IfOk result (λ shore. shore.host.history ≡ []) }
    ensures host { IfOk result (λ shore.
        shore.host_worker ≡ record { node = plan.now.node; budget = true; passes = 0 }) }
    ensures end { IfOk result (λ shore.
        shore.end_worker ≡ record { side = side; budget = true }) }
    ensures host_stays { IfOk result (λ shore. shore.host_left ≡ false) }
    ensures end_stays { IfOk result (λ shore. shore.end_left ≡ false) }
{
    Ok(Shore {
        ring: ring_of(rt, alloc, net)?,
        host: host_of(rt, alloc, plan, net)?,
        host_worker: HostWorker::new(alloc, plan.node, net, true)?,
        host_left: false,
        end_worker: BridgeWorker::new(alloc, side, net, true)?,
        end_left: false,
    })
}

/// What became of the one request that host 2 made.
#[derive(Drop)]
struct Told {
    one: Vec<u8>,
    two: Vec<u8>,
    bridge: Vec<u8>,
    /// The word that a call of the bridge ended with; 0 for none.
    word: u16,
    /// The first two bytes of the reply that the host got.
    reply: (u8, u8),
    /// The word that such a call of a controller would end with; 0 for none.
    end: u16,
    /// How many effects it had.
    effects: usize,
}

/// The word that the last call of a bridge ended with; 0 for none.
fn last_word(entries: &[BridgeEntry]) -> u16 {
    let mut last = 0;
    for entry in entries {
        if let BridgeEntry::Finish {
            result: RelayResult::Bad(word),
            ..
        } = entry
        {
            last = *word;
        }
    }
    last
}

/// The first two bytes of a reply.
fn first_two(reply: &Pdu) -> (u8, u8) {
    match reply.bytes() {
        [one, two, ..] => (*one, *two),
        _ => (0, 0),
    }
}

/// The first two bytes of the reply to a host that asked once, and the word that a controller would
/// take it for; 0 for none.
fn reply_told(entries: &[HostEntry]) -> ((u8, u8), u16) {
    match entries {
        [
            HostEntry::Ask { pdu, .. },
            HostEntry::Answer {
                result: HostResult::Reply(reply),
                ..
            },
        ] => {
            let word = match result_of(pdu, reply) {
                MstrResult::Bad(word) => word,
                MstrResult::Good(_) => 0,
            };
            (first_two(reply), word)
        }
        _ => ((0, 0), 0),
    }
}

/// How often a host served a request, or a port did what one asked.
fn effects_on(shore: &Shore) -> usize {
    let served = shore
        .host
        .history()
        .iter()
        .filter(|entry| matches!(entry, HostEntry::Served { .. }))
        .count();
    let done = shore
        .ring
        .history()
        .iter()
        .filter(|entry| matches!(entry, RingEntry::Local { .. }))
        .count();
    served.saturating_add(done)
}

/// What both rings, the bridge and the hosts tell.
fn told_by(alloc: Global, one: &Shore, two: &Shore, bridge: &Bridge) -> Result<Told, AllocError> {
    let (reply, end) = reply_told(one.host.history());
    Ok(Told {
        one: ring_letters(alloc, one.ring.history())?,
        two: ring_letters(alloc, two.ring.history())?,
        bridge: bridge_letters(alloc, bridge.history())?,
        word: last_word(bridge.history()),
        reply,
        end,
        effects: effects_on(one).saturating_add(effects_on(two)),
    })
}

/// Twenty holds on each ring, host 2 asking this, with one letter for all transmissions of the
/// second ring.
fn played(
    rt: &impl Abort,
    alloc: Global,
    route: &[u8],
    pdu: &[u8],
    fate: Fate,
) -> Result<Told, AllocError> {
    let first = net_of(alloc, 1, 2, 9, Fate::D)?;
    let second = net_of(alloc, 2, 5, 12, fate)?;
    let asks = host_plan(alloc, 2, 1, route, pdu)?;
    let silent = host_plan(alloc, 5, 2, &[], pdu)?;
    let mut one = shore_of(rt, alloc, &first, &asks, 9)?;
    let mut two = shore_of(rt, alloc, &second, &silent, 12)?;
    let mut bridge = Bridge::new(
        alloc,
        &BridgePlan {
            left_net: 1,
            left: 9,
            right_net: 2,
            right: 12,
        },
    )?;
    hold_all(&mut one, &mut two, &mut bridge, 20)?;
    told_by(alloc, &one, &two, &bridge)
}

/// What is to be told.
#[derive(Drop)]
struct Row {
    one: &'static [u8],
    two: &'static [u8],
    bridge: &'static [u8],
    word: u16,
    reply: (u8, u8),
    end: u16,
    effects: usize,
}

fn is_told(told: &Told, row: &Row) -> bool {
    told.one.as_slice() == row.one
        && told.two.as_slice() == row.two
        && told.bridge.as_slice() == row.bridge
        && told.word == row.word
        && told.reply == row.reply
        && told.end == row.end
        && told.effects == row.effects
}

#[test]
fn a_host_across_the_bridge_refuses(rt: HostRuntime) -> Result<(), Fail> {
    let told = played(&rt, rt.alloc(), &[9, 5], &READ, Fate::D)?;
    let row = Row {
        one: b"PSnTnnnnpSnTdnLdL",
        two: b"dPSnTpSLTdL",
        bridge: b"TUAGVG",
        word: 0,
        reply: (0x83, 1),
        end: 0x3001,
        effects: 1,
    };
    assert!(rt; is_told(&told, &row));
    Ok(())
}

#[test]
fn nobody_is_there_across_the_bridge(rt: HostRuntime) -> Result<(), Fail> {
    let told = played(&rt, rt.alloc(), &[9, 6], &READ, Fate::D)?;
    let row = Row {
        one: b"PSnTnnpSnTdnLdL",
        two: b"dPSSSGnLdL",
        bridge: b"TUAVGG",
        word: 0x6103,
        reply: (0x83, 10),
        end: 0x300a,
        effects: 0,
    };
    assert!(rt; is_told(&told, &row));
    Ok(())
}

/// The request arrives, but its acknowledgement is lost: it is served, and yet given up.
#[test]
fn no_acknowledgement_comes_across_the_bridge(rt: HostRuntime) -> Result<(), Fail> {
    let told = played(&rt, rt.alloc(), &[9, 5], &READ, Fate::A)?;
    let row = Row {
        one: b"PSnTnnpSnTdnLdL",
        two: b"dPSSSGnTpSSSLdL",
        bridge: b"TUAVGG",
        word: 0x6101,
        reply: (0x83, 11),
        end: 0x300b,
        effects: 1,
    };
    assert!(rt; is_told(&told, &row));
    Ok(())
}

#[test]
fn an_end_takes_no_request_for_itself(rt: HostRuntime) -> Result<(), Fail> {
    let told = played(&rt, rt.alloc(), &[9], &READ, Fate::D)?;
    let row = Row {
        one: b"PSnTpSnTdnLdL",
        two: b"dnLdL",
        bridge: b"TVGG",
        word: 0,
        reply: (0x83, 1),
        end: 0x3001,
        effects: 0,
    };
    assert!(rt; is_told(&told, &row));
    Ok(())
}

#[test]
fn an_end_tells_its_statistics(rt: HostRuntime) -> Result<(), Fail> {
    let told = played(&rt, rt.alloc(), &[9], &GET_STATISTICS, Fate::D)?;
    let row = Row {
        one: b"PSnTOpSnTdnLdL",
        two: b"dnLdL",
        bridge: b"GG",
        word: 0,
        reply: (8, 0),
        end: 0,
        effects: 1,
    };
    assert!(rt; is_told(&told, &row));
    Ok(())
}
