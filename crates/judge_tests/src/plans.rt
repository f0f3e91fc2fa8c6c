//! Plans of networks, controllers and hosts.
ghost use Rattle.std.specs.Prelude.{◌≡◌, IfOk};
ghost use Rattle.judge_tests.specs.Plans.{asking_host, idle_controller, net_with};

use plant_types::{ControllerPlan, Fate, HostAsk, HostPlan, List, NetPlan, Pdu, PowerRow, Route};
use std::alloc::{AllocError, Global};

/// A read of the first register.
pub(crate) const REQUEST: [u8; 5] = [3, 0, 0, 0, 1];

/// The PDU of these bytes.
pub(crate) fn pdu_of(alloc: Global, bytes: &[u8]) -> Result<Pdu, AllocError>
    ensures { IfOk result (λ pdu. pdu ≡ bytes.now) }
{
    match Pdu::of(alloc, bytes)? {
        Some(pdu) => Ok(pdu),
        None => Err(AllocError),
    }
}

/// A network of these members, of which those are ends of bridges.
pub(crate) fn net_of(
    alloc: Global,
    number: u8,
    members: &[u8],
    bridges: &[u8],
) -> Result<NetPlan, AllocError>
    ensures { IfOk result (λ net. net ≡ net_with number members.now bridges.now) }
{
    let mut fates = List::new(alloc);
    fates.push(Fate::D)?;
    Ok(NetPlan {
        number,
        members: List::from_vec(Vec::from_slice(alloc, members)?),
        bridges: List::from_vec(Vec::from_slice(alloc, bridges)?),
        fates,
        answer: 2,
        rotations: 2,
        rounds: 1,
        holds: 1000,
    })
}

/// A controller of 16 registers, which solves nothing, and whose power fails so.
pub(crate) fn controller_of(
    alloc: Global,
    node: u8,
    network: u8,
    power: List<PowerRow>,
) -> ControllerPlan
    ensures { result ≡ idle_controller node network power }
{
    ControllerPlan {
        node,
        network,
        coils: 16,
        inputs: 0,
        input_registers: 0,
        registers: 16,
        panel: List::new(alloc),
        orders: List::new(alloc),
        power,
        drops: List::new(alloc),
        segments: List::new(alloc),
    }
}

/// Host 2 on a network, which asks for a register by a route at once.
pub(crate) fn host_of(alloc: Global, network: u8, route: Route) -> Result<HostPlan, AllocError>
    ensures { IfOk result (λ plan. plan ≡ asking_host network route) }
{
    let mut requests = List::new(alloc);
    let pdu = pdu_of(alloc, &REQUEST)?;
    requests.push(HostAsk {
        hold: 1,
        route,
        pdu,
    })?;
    Ok(HostPlan {
        node: 2,
        network,
        requests,
    })
}
