//! What lies in a node's inbox is taken.
ghost use Rattle.std.specs.Prelude.{◌≡◌, None, [], IfOk};
ghost use Rattle.tied_lists.specs.Own.{added_if};
ghost use Rattle.comm_port.specs.Sides.{taken_entries};
ghost use Rattle.comm_port.specs.RingSteps.{HoldsAt, OwnTurnAt, RingStep, WentOnBy};
ghost use Rattle.comm_port.specs.RingSteps.{inbox_after};

use crate::ring_side::RingSide;
use crate::short::Short;
use ring_core::Frame;

/// Takes the next frame of the inbox; none exactly where it is empty.
pub fn take_next<R: RingSide>(node: u8, ring: &mut R) -> Result<Option<Frame>, Short>
    requires turn { OwnTurnAt R.RingSide node ring.old }
    requires holds { HoldsAt R.RingSide node ring.old }
    ensures went { WentOnBy R.RingSide node (added_if result
        (taken_entries node)) ring.old ring.new }
    ensures empty { IfOk result
        (λ took. took ≡ None → inbox_after R.RingSide node ring.old ring.new ≡ []) }
    ensures step { RingStep R.RingSide node ring.old ring.new }
{
    match ring.take(node) {
        Ok(taken) => Ok(taken),
        Err(why) => Err(Short::of(why)),
    }
}
