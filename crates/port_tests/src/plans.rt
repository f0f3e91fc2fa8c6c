//! Plans of networks and hosts, and a ring or a host of one.
ghost use Rattle.std.specs.Prelude.{◌≡◌, [], IfOk};

use host_port::Host;
use plant_types::{Fate, HostAsk, HostPlan, List, NetPlan, Pdu, Route, is_host_plan};
use ring_core::{Ring, is_net};
use std::alloc::{AllocError, Global};
use std::process::Abort;

/// The net of these members, of which none is the end of a bridge: what becomes of what they send,
/// after how many own Passes a call without a reply is given up, and after how many Passes a node
/// leaves in any case.
pub(crate) fn net_of(
    alloc: Global,
    members: &[u8],
    fates: &[Fate],
    answer: u32,
    holds: u32,
) -> Result<NetPlan, AllocError>
    ensures members { IfOk result (λ net. net.members ≡ members.now) }
    ensures alone { IfOk result (λ net. net.bridges ≡ []) }
    ensures answer { IfOk result (λ net. net.answer ≡ answer) }
{
    Ok(NetPlan {
        number: 0,
        members: List::from_vec(Vec::from_slice(alloc, members)?),
        bridges: List::new(alloc),
        fates: List::from_vec(Vec::from_slice(alloc, fates)?),
        answer,
        rotations: 1,
        rounds: 1,
        holds,
    })
}

/// The ring of a net, on which nothing has happened.
pub(crate) fn ring_of(rt: &impl Abort, alloc: Global, net: &NetPlan) -> Result<Ring, AllocError>
    ensures net { IfOk result (λ ring. ring.net ≡ net.now) }
    ensures empty { IfOk result (λ ring. ring.history ≡ []) }
{
    let can = is_net(net);
    assert!(rt; can);
    Ring::new(alloc, net)
}

/// The PDU of these bytes.
pub(crate) fn pdu_of(alloc: Global, bytes: &[u8]) -> Result<Pdu, AllocError> {
    match Pdu::of(alloc, bytes)? {
        Some(pdu) => Ok(pdu),
        None => Err(AllocError),
    }
}

/// From which hold on a request of these bytes goes to which node.
fn request_of(alloc: Global, hold: u32, to: u8, bytes: &[u8]) -> Result<HostAsk, AllocError> {
    let route = Route::of(&[to]);
    let pdu = pdu_of(alloc, bytes)?;
    Ok(HostAsk { hold, route, pdu })
}

/// The plan of a host: from which hold on it asks which node, each time with these bytes.
pub(crate) fn host_plan(
    alloc: Global,
    node: u8,
    asks: &[(u32, u8)],
    bytes: &[u8],
) -> Result<HostPlan, AllocError>
    ensures { IfOk result (λ plan. plan.node ≡ node) }
{
    let mut requests = List::new(alloc);
    for (hold, to) in asks {
        requests.push(request_of(alloc, *hold, *to, bytes)?)?;
    }
    Ok(HostPlan {
        node,
        network: 0,
        requests,
    })
}

/// The host of a plan, which has asked nothing.
pub(crate) fn host_of(
    rt: &impl Abort,
    alloc: Global,
    plan: &HostPlan,
    net: &NetPlan,
) -> Result<Host, AllocError>
    ensures { IfOk result (λ host. host ≡ record { plan = plan.now; history = [] }) }
{
    let can = is_host_plan(plan);
    assert!(rt; can);
    Host::new(alloc, plan, net)
}
