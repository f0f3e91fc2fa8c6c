//! The end of a turn: the node leaves where that is due, else it passes the token on.
ghost use Rattle.std.specs.Prelude.{◌≡◌, ◌&&◌, [], is_some, OnOk, IfOk};
ghost use Rattle.comm_port.specs.RingSteps.{HandedOnOver, HoldsAt, LeftOrStoodOver, OwnTurnAt};
ghost use Rattle.comm_port.specs.RingSteps.{RingStep, cause_at, is_due_at, node_at};

use crate::asking::pass_on;
use crate::ring_side::RingSide;
use crate::short::Short;
use ring_core::{LeaveCause, RingNo};

/// Leaves where the cause has held for long enough; whether it was.
fn leave_if_due<R: RingSide>(node: u8, cause: LeaveCause, ring: &mut R) -> Result<bool, Short>
    requires turn { OwnTurnAt R.RingSide node ring.old }
    requires holds { HoldsAt R.RingSide node ring.old }
    requires sent { (node_at R.RingSide node ring.old).outbox ≡ [] }
    requires taken { (node_at R.RingSide node ring.old).inbox ≡ [] }
    ensures due { IfOk result (λ left. left ≡ is_due_at R.RingSide node cause ring.old) }
    ensures did { IfOk result (LeftOrStoodOver R.RingSide node cause ring.old ring.new) }
    ensures step { RingStep R.RingSide node ring.old ring.new }
{
    match ring.leave(node, cause) {
        Ok(()) => Ok(true),
        Err(why) => match why {
            RingNo::NotDue { .. } => Ok(false),
            _ => Err(Short::of(why)),
        },
    }
}

/// Leaves where the cause has held for long enough, if the node is to leave for this cause at all.
fn leave_if<R: RingSide>(
    node: u8,
    wants: bool,
    cause: LeaveCause,
    ring: &mut R,
) -> Result<bool, Short>
    requires turn { OwnTurnAt R.RingSide node ring.old }
    requires holds { HoldsAt R.RingSide node ring.old }
    requires sent { (node_at R.RingSide node ring.old).outbox ≡ [] }
    requires taken { (node_at R.RingSide node ring.old).inbox ≡ [] }
    ensures due { IfOk result (λ left. left ≡ (wants && is_due_at R.RingSide node cause ring.old)) }
    ensures did { IfOk result (LeftOrStoodOver R.RingSide node cause ring.old ring.new) }
    ensures step { RingStep R.RingSide node ring.old ring.new }
{
    if wants {
        leave_if_due(node, cause, ring)
    } else {
        Ok(false)
    }
}

/// Ends the turn; whether the node left. It leaves where it keeps to a budget and its Passes are
/// spent, or where it is done, and it and all members that are not ends of bridges have been for
/// long enough.
pub fn hand_on<R: RingSide>(node: u8, done: bool, budget: bool, ring: &mut R) -> Result<bool, Short>
    requires turn { OwnTurnAt R.RingSide node ring.old }
    requires holds { HoldsAt R.RingSide node ring.old }
    requires sent { (node_at R.RingSide node ring.old).outbox ≡ [] }
    requires taken { (node_at R.RingSide node ring.old).inbox ≡ [] }
    ensures left { IfOk result
        (λ left. left ≡ is_some (cause_at R.RingSide node done budget ring.old)) }
    ensures handed { OnOk result (HandedOnOver R.RingSide node done budget ring.old ring.new) }
    ensures step { RingStep R.RingSide node ring.old ring.new }
{
    let spent = leave_if(node, budget, LeaveCause::Spent, ring)?;
    if spent {
        return Ok(true);
    }
    let ended = leave_if(node, done, LeaveCause::Ended, ring)?;
    if ended {
        return Ok(true);
    }
    pass_on(node, done, ring)?;
    Ok(false)
}
