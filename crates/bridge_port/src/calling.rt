//! The second part of an end's turn: replies are given back, and then requests are sent on.
ghost use Rattle.std.specs.Prelude.{◌≡◌, ◌<◌, replicate, false, OnOk, IfOk};
ghost use Rattle.ring_core.specs.Machine.{path_places};
ghost use Rattle.comm_port.specs.RingSteps.{KeepsInboxOver, MaySendAt};
ghost use Rattle.bridge_port.specs.EndSteps.{BacksAllOver, BacksNextOver, EndStep};
ghost use Rattle.bridge_port.specs.EndSteps.{ForwardsNextOver, ForwardsOver, TurningBetween};

use crate::bridge_side::BridgeSide;
use comm_port::{RingSide, Short, post_reply};
use plant_types::PATH_PLACES;

/// Gives the next reply back and posts it; whether there was one.
fn give_back<B: BridgeSide, R: RingSide>(
    side: u8,
    bridge: &mut B,
    ring: &mut R,
) -> Result<bool, Short>
    requires turning { TurningBetween B.BridgeSide R.RingSide side bridge.old ring.old }
    ensures turning { OnOk result
        (TurningBetween B.BridgeSide R.RingSide side bridge.new ring.new) }
    ensures kept { OnOk result (KeepsInboxOver R.RingSide side ring.old ring.new) }
    ensures gave { IfOk result
        (BacksNextOver B.BridgeSide R.RingSide side bridge.old bridge.new ring.old ring.new) }
    ensures step { EndStep B.BridgeSide R.RingSide side bridge.old bridge.new ring.old ring.new }
{
    let Some(reply) = bridge.back(side)? else {
        return Ok(false);
    };
    post_reply(side, reply.id, reply.pdu, ring)?;
    Ok(true)
}

/// Gives back all replies that wait.
pub(crate) fn give_all_back<B: BridgeSide, R: RingSide>(
    side: u8,
    bridge: &mut B,
    ring: &mut R,
) -> Result<(), Short>
    requires turning { TurningBetween B.BridgeSide R.RingSide side bridge.old ring.old }
    ensures turning { OnOk result
        (TurningBetween B.BridgeSide R.RingSide side bridge.new ring.new) }
    ensures kept { OnOk result (KeepsInboxOver R.RingSide side ring.old ring.new) }
    ensures gave { OnOk result
        (BacksAllOver B.BridgeSide R.RingSide side bridge.old bridge.new ring.old ring.new) }
    ensures step { EndStep B.BridgeSide R.RingSide side bridge.old bridge.new ring.old ring.new }
{
    while give_back(side, bridge, ring)? {}
    Ok(())
}

/// Sends the next request on and posts it; the path that it takes, or none where nothing waits to
/// go out or no path is free.
fn forward_next<B: BridgeSide, R: RingSide>(
    side: u8,
    bridge: &mut B,
    ring: &mut R,
) -> Result<Option<u8>, Short>
    requires turning { TurningBetween B.BridgeSide R.RingSide side bridge.old ring.old }
    ensures turning { OnOk result
        (TurningBetween B.BridgeSide R.RingSide side bridge.new ring.new) }
    ensures kept { OnOk result (KeepsInboxOver R.RingSide side ring.old ring.new) }
    ensures forwarded { IfOk result
        (ForwardsNextOver B.BridgeSide R.RingSide side bridge.old bridge.new ring.old ring.new) }
    ensures step { EndStep B.BridgeSide R.RingSide side bridge.old bridge.new ring.old ring.new }
{
    let Some(request) = bridge.forward(side)? else {
        return Ok(None);
    };
    let path = request.id.path;
    match ring.post(side, request) {
        Ok(()) => Ok(Some(path)),
        Err(why) => Err(Short::of(why)),
    }
}

/// Sends all requests on that wait, as long as a path is free; on which paths.
pub(crate) fn forward_all<B: BridgeSide, R: RingSide>(
    side: u8,
    bridge: &mut B,
    ring: &mut R,
) -> Result<[bool; PATH_PLACES], Short>
    requires turning { TurningBetween B.BridgeSide R.RingSide side bridge.old ring.old }
    requires wait { 0 < (R.side ring.old).net.answer }
    requires may { MaySendAt R.RingSide side (replicate path_places false) ring.old }
    ensures turning { OnOk result
        (TurningBetween B.BridgeSide R.RingSide side bridge.new ring.new) }
    ensures kept { OnOk result (KeepsInboxOver R.RingSide side ring.old ring.new) }
    ensures forwarded { IfOk result
        (ForwardsOver B.BridgeSide R.RingSide side bridge.old bridge.new ring.old ring.new) }
    ensures step { EndStep B.BridgeSide R.RingSide side bridge.old bridge.new ring.old ring.new }
{
    let mut fresh = [false; PATH_PLACES];
    while let Some(path) = forward_next(side, bridge, ring)? {
        fresh[usize::from(path)] = true;
    }
    Ok(fresh)
}
