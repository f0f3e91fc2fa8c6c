//! The worker of one end of a bridge, as a run has it.
ghost use Rattle.std.specs.Prelude.{◌≡◌, false, OnOk};
ghost use Rattle.tied_lists.specs.Waits.{Holds};
ghost use Rattle.bridge_station.specs.Station.{seen_end};
ghost use Rattle.bridge_station.specs.Stands.{EndHeld, EndMoved, EndStands};

use bridge_relay::Bridge;
use end_laws::{BridgeWorker, end_turns_keep_on};
use ring_core::Ring;
use std::alloc::AllocError;

/// The worker of an end, and whether the end has left.
#[derive(Drop)]
pub(crate) struct EndStation {
    pub(crate) worker: BridgeWorker,
    pub(crate) left: bool,
}

/// One hold of the token by an end.
pub(crate) fn hold_end(
    side: u8,
    bridge: &mut Bridge,
    end: &mut EndStation,
    ring: &mut Ring,
) -> Result<(), AllocError>
    requires stands { EndStands side (seen_end end.old) bridge.old ring.old.net ring.old.history }
    requires here { end.old.left ≡ false }
    requires token { Holds ring.old.net ring.old.history side }
    ensures held { OnOk result (EndHeld side (seen_end end.old) (seen_end end.new)
        bridge.old bridge.new ring.old ring.new) }
    ensures moved { EndMoved side (seen_end end.old) (seen_end end.new)
        bridge.old bridge.new ring.old ring.new }
{
    end_turns_keep_on();
    let _ = bridge.history();
    let left = end.worker.hold_turn(bridge, ring)?;
    end.left = left;
    Ok(())
}
