//! Calls of an end that are given up, and what is sent before.
ghost use Rattle.std.specs.Prelude.{◌≡◌, ◌<◌, ◌∷◌, [], OnOk};
ghost use Rattle.ring_core.specs.Legal.{IsPath};
ghost use Rattle.comm_port.specs.RingSteps.{GivesOnPathOver, GivesWhereOver, HoldsAt};
ghost use Rattle.comm_port.specs.RingSteps.{KeepsInboxOver, MaySendAt, SendsNoMore, StaysAway};
ghost use Rattle.bridge_port.specs.EndSteps.{EndStep, GivesUp, GivesUpBy, SendsAllOver};
ghost use Rattle.bridge_port.specs.EndSteps.{TurningBetween};

use crate::bridge_side::BridgeSide;
use bridge_relay::RelayResult;
use comm_port::{RingSide, Short, give_up_on, send_next};
use mstr_block::CallId;
use plant_types::{NETWORK_PATHS, PATH_PLACES};
use ring_core::Heard;

/// Gives up the call that a path waits for, where that is due, and ends it.
fn give_up_path<B: BridgeSide, R: RingSide>(
    side: u8,
    path: u8,
    bridge: &mut B,
    ring: &mut R,
) -> Result<(), Short>
    requires path { IsPath path }
    requires turning { TurningBetween B.BridgeSide R.RingSide side bridge.old ring.old }
    ensures turning { OnOk result
        (TurningBetween B.BridgeSide R.RingSide side bridge.new ring.new) }
    ensures kept { OnOk result (KeepsInboxOver R.RingSide side ring.old ring.new) }
    ensures less { OnOk result (SendsNoMore R.RingSide side ring.old ring.new) }
    ensures left { OnOk result (StaysAway R.RingSide side ring.old ring.new) }
    ensures given { OnOk result
        (GivesUpBy B.BridgeSide R.RingSide side (path ∷ []) bridge.old bridge.new ring.old
        ring.new) }
    ensures part { OnOk result (GivesOnPathOver R.RingSide side path ring.old ring.new) }
    ensures step { EndStep B.BridgeSide R.RingSide side bridge.old bridge.new ring.old ring.new }
{
    let seq = ring.awaits(side, path);
    if seq == 0 {
        return Ok(());
    }
    let id = CallId {
        node: side,
        path,
        seq,
    };
    let Some(word) = give_up_on(id, ring)? else {
        return Ok(());
    };
    bridge.finish(side, id, RelayResult::Bad(word))?;
    Ok(())
}

/// Gives up on each chosen path in order where that is due.
pub(crate) fn give_up_where<B: BridgeSide, R: RingSide>(
    side: u8,
    chosen: &[bool; PATH_PLACES],
    bridge: &mut B,
    ring: &mut R,
) -> Result<(), Short>
    requires turning { TurningBetween B.BridgeSide R.RingSide side bridge.old ring.old }
    ensures turning { OnOk result
        (TurningBetween B.BridgeSide R.RingSide side bridge.new ring.new) }
    ensures kept { OnOk result (KeepsInboxOver R.RingSide side ring.old ring.new) }
    ensures less { OnOk result (SendsNoMore R.RingSide side ring.old ring.new) }
    ensures left { OnOk result (StaysAway R.RingSide side ring.old ring.new) }
    ensures given { OnOk result
        (GivesUp B.BridgeSide R.RingSide side chosen.now bridge.old bridge.new ring.old
        ring.new) }
    ensures part { OnOk result (GivesWhereOver R.RingSide side chosen.now ring.old ring.new) }
    ensures step { EndStep B.BridgeSide R.RingSide side bridge.old bridge.new ring.old ring.new }
{
    for path in NETWORK_PATHS {
        if !chosen[path as usize] {
            continue;
        }
        give_up_path(side, path, bridge, ring)?;
    }
    Ok(())
}

/// Sends until the outbox is empty. A Request of this turn that failed is given up at once; those
/// of earlier turns are not in the outbox.
pub(crate) fn send_all<B: BridgeSide, R: RingSide>(
    side: u8,
    posted: &[bool; PATH_PLACES],
    bridge: &mut B,
    ring: &mut R,
) -> Result<(), Short>
    requires turning { TurningBetween B.BridgeSide R.RingSide side bridge.old ring.old }
    requires holds { HoldsAt R.RingSide side ring.old }
    requires wait { 0 < (R.side ring.old).net.answer }
    requires may { MaySendAt R.RingSide side posted.now ring.old }
    ensures turning { OnOk result
        (TurningBetween B.BridgeSide R.RingSide side bridge.new ring.new) }
    ensures kept { OnOk result (KeepsInboxOver R.RingSide side ring.old ring.new) }
    ensures sent { OnOk result
        (SendsAllOver B.BridgeSide R.RingSide side bridge.old bridge.new ring.old ring.new) }
    ensures step { EndStep B.BridgeSide R.RingSide side bridge.old bridge.new ring.old ring.new }
{
    while let Some(heard) = send_next(side, ring)? {
        if heard == Heard::Acked {
            continue;
        }
        give_up_where(side, posted, bridge, ring)?;
    }
    Ok(())
}
