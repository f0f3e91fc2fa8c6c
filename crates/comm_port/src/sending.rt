//! Sends, and calls that are given up.
ghost use Rattle.std.specs.Prelude.{◌≡◌, ◌↔◌, true, None, IfOk};
ghost use Rattle.ring_core.specs.Legal.{IsPath};
ghost use Rattle.comm_port.specs.RingSteps.{GaveUpOver, HoldsAt, OwnTurnAt, RefusesGiveUp};
ghost use Rattle.comm_port.specs.RingSteps.{RingStep, SentOrAllOver};

use crate::ring_side::RingSide;
use crate::short::Short;
use mstr_block::CallId;
use ring_core::{Heard, RingNo};

/// Sends the next frame, and answers what was heard; none exactly where nothing is to be sent.
pub fn send_next<R: RingSide>(node: u8, ring: &mut R) -> Result<Option<Heard>, Short>
    requires turn { OwnTurnAt R.RingSide node ring.old }
    requires holds { HoldsAt R.RingSide node ring.old }
    ensures sent { IfOk result (SentOrAllOver R.RingSide node ring.old ring.new) }
    ensures step { RingStep R.RingSide node ring.old ring.new }
{
    match ring.send(node) {
        Ok(heard) => Ok(Some(heard)),
        Err(why) => match why {
            RingNo::NothingToSend => Ok(None),
            _ => Err(Short::of(why)),
        },
    }
}

/// Whether a call was refused because memory ran out.
fn wants_memory(why: RingNo) -> bool
    ensures { (result ≡ true) ↔ (why ≡ RingNo.NoMemory) }
{
    why == RingNo::NoMemory
}

/// Gives a call up, and answers its error word; none where the ring refuses that.
pub fn give_up_on<R: RingSide>(id: CallId, ring: &mut R) -> Result<Option<u16>, Short>
    requires turn { OwnTurnAt R.RingSide id.node ring.old }
    requires path { IsPath id.path }
    ensures given { IfOk result (GaveUpOver R.RingSide id ring.old ring.new) }
    ensures not_due { IfOk result
        (λ word. word ≡ None → RefusesGiveUp R.RingSide id ring.old ring.new) }
    ensures step { RingStep R.RingSide id.node ring.old ring.new }
{
    match ring.give_up(id) {
        Ok(word) => Ok(Some(word)),
        Err(why) => {
            if wants_memory(why) {
                return Err(Short::of(why));
            }
            Ok(None)
        }
    }
}
