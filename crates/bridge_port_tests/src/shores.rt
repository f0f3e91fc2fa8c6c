//! Two rings and a bridge between them: on each ring a host and an end of the bridge.
ghost use Rattle.std.specs.Prelude.{◌≡◌, ◌≢◌, false, OnOk, IfOk};
ghost use Rattle.tied_lists.specs.Waits.{Holds};
ghost use Rattle.comm_port.specs.HostStands.{HostIsReady};
ghost use Rattle.bridge_port.specs.Stands.{EndIsReady};

use bridge_port::BridgeWorker;
use bridge_relay::Bridge;
use comm_port::HostWorker;
use host_port::Host;
use ring_core::Ring;
use std::alloc::AllocError;

/// A ring with its host and its end of the bridge, and whether their nodes have left.
#[derive(Drop)]
pub(crate) struct Shore {
    pub ring: Ring,
    pub host: Host,
    pub host_worker: HostWorker,
    pub host_left: bool,
    pub end_worker: BridgeWorker,
    pub end_left: bool,
}

/// One hold of a host, while the end on its ring looks on.
fn hold_host(node: u8, side: u8, shore: &mut Shore, bridge: &Bridge) -> Result<(), AllocError>
    requires host { HostIsReady node shore.old.host shore.old.host_worker shore.old.host_left
        shore.old.ring.net shore.old.ring.history }
    requires end { EndIsReady side shore.old.end_worker shore.old.end_left bridge.now
        shore.old.ring.net shore.old.ring.history }
    requires holds { Holds shore.old.ring.net shore.old.ring.history node }
    requires apart { side ≢ node }
    ensures host { OnOk result (HostIsReady node shore.new.host shore.new.host_worker
        shore.new.host_left shore.new.ring.net shore.new.ring.history) }
    ensures end { OnOk result (EndIsReady side shore.new.end_worker shore.new.end_left bridge.now
        shore.new.ring.net shore.new.ring.history) }
{
    shore.host_left = shore
        .host_worker
        .hold_turn(&mut shore.host, &mut shore.ring)?;
    Ok(())
}

/// One hold of an end, while the host on its ring and the other end look on.
fn hold_end(
    node: u8,
    side: u8,
    shore: &mut Shore,
    across: u8,
    other: &Shore,
    bridge: &mut Bridge,
) -> Result<(), AllocError>
    requires host { HostIsReady node shore.old.host shore.old.host_worker shore.old.host_left
        shore.old.ring.net shore.old.ring.history }
    requires end { EndIsReady side shore.old.end_worker shore.old.end_left bridge.old
        shore.old.ring.net shore.old.ring.history }
    requires other { EndIsReady across other.now.end_worker other.now.end_left bridge.old
        other.now.ring.net other.now.ring.history }
    requires stays { shore.old.end_left ≡ false }
    requires holds { Holds shore.old.ring.net shore.old.ring.history side }
    requires apart { node ≢ side }
    requires two_ends { across ≢ side }
    ensures host { OnOk result (HostIsReady node shore.new.host shore.new.host_worker
        shore.new.host_left shore.new.ring.net shore.new.ring.history) }
    ensures end { OnOk result (EndIsReady side shore.new.end_worker shore.new.end_left bridge.new
        shore.new.ring.net shore.new.ring.history) }
    ensures other { OnOk result (EndIsReady across other.now.end_worker other.now.end_left
        bridge.new other.now.ring.net other.now.ring.history) }
{
    shore.end_left = shore.end_worker.hold_turn(bridge, &mut shore.ring)?;
    Ok(())
}

/// The hold of whoever has the token on a ring.
fn hold_next(
    node: u8,
    side: u8,
    shore: &mut Shore,
    across: u8,
    other: &Shore,
    bridge: &mut Bridge,
) -> Result<(), AllocError>
    requires host { HostIsReady node shore.old.host shore.old.host_worker shore.old.host_left
        shore.old.ring.net shore.old.ring.history }
    requires end { EndIsReady side shore.old.end_worker shore.old.end_left bridge.old
        shore.old.ring.net shore.old.ring.history }
    requires other { EndIsReady across other.now.end_worker other.now.end_left bridge.old
        other.now.ring.net other.now.ring.history }
    requires apart { node ≢ side }
    requires two_ends { across ≢ side }
    ensures host { OnOk result (HostIsReady node shore.new.host shore.new.host_worker
        shore.new.host_left shore.new.ring.net shore.new.ring.history) }
    ensures end { OnOk result (EndIsReady side shore.new.end_worker shore.new.end_left bridge.new
        shore.new.ring.net shore.new.ring.history) }
    ensures other { OnOk result (EndIsReady across other.now.end_worker other.now.end_left
        bridge.new other.now.ring.net other.now.ring.history) }
{
    let holder = shore.ring.holder();
    if holder == node && !shore.host_left {
        return hold_host(node, side, shore, bridge);
    }
    if holder == side && !shore.end_left {
        return hold_end(node, side, shore, across, other, bridge);
    }
    Ok(())
}

/// So many rounds, in each of which both rings have one hold: on the first ring host 2 and end 9,
/// on the second host 5 and end 12.
pub(crate) fn hold_all(
    one: &mut Shore,
    two: &mut Shore,
    bridge: &mut Bridge,
    rounds: u32,
) -> Result<(), AllocError>
    requires one_host { HostIsReady 2 one.old.host one.old.host_worker one.old.host_left
        one.old.ring.net one.old.ring.history }
    requires one_end { EndIsReady 9 one.old.end_worker one.old.end_left bridge.old
        one.old.ring.net one.old.ring.history }
    requires two_host { HostIsReady 5 two.old.host two.old.host_worker two.old.host_left
        two.old.ring.net two.old.ring.history }
    requires two_end { EndIsReady 12 two.old.end_worker two.old.end_left bridge.old
        two.old.ring.net two.old.ring.history }
{
    for _ in 0..rounds {
        hold_next(2, 9, one, 12, two, bridge)?;
        hold_next(5, 12, two, 9, one, bridge)?;
    }
    Ok(())
}
