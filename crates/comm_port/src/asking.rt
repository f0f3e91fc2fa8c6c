//! The calls of a turn on the ring. They fail only where memory runs out: the ring refuses none of
//! them.
ghost use Rattle.std.specs.Prelude.{◌≡◌, ◌∷◌, [], None, OnOk, IfOk};
ghost use Rattle.ring_core.specs.Legal.{IsFrom, IsNextNumber, IsPath, HasRoom};
ghost use Rattle.ring_core.specs.Refusals.{path_no};
ghost use Rattle.ring_core.specs.declared.entry.RingEntry.TheVariants.{Post, Local, GiveUp};
ghost use Rattle.comm_port.specs.RingSteps.{HoldsAt, MayGiveUpAt, OwnTurnAt, PassesOver};
ghost use Rattle.comm_port.specs.RingSteps.{RingStep, WentOnBy, node_at};

use crate::ring_side::RingSide;
use crate::short::Short;
use mstr_block::{CallId, MstrResult};
use ring_core::{Frame, LocalOp};

/// Posts a frame, a Request on a free path.
pub(crate) fn post_frame<R: RingSide>(node: u8, frame: Frame, ring: &mut R) -> Result<(), Short>
    requires turn { OwnTurnAt R.RingSide node ring.old }
    requires from { IsFrom node frame.kind frame }
    requires next { IsNextNumber (node_at R.RingSide node ring.old) frame.kind frame.id }
    requires free { path_no (node_at R.RingSide node ring.old) frame.kind frame.id.path ≡ None }
    ensures went { OnOk result (WentOnBy R.RingSide node (Post node frame ∷ []) ring.old ring.new) }
    ensures step { RingStep R.RingSide node ring.old ring.new }
{
    match ring.post(node, frame) {
        Ok(()) => Ok(()),
        Err(why) => Err(Short::of(why)),
    }
}

/// Does an operation of the port.
pub(crate) fn do_local<R: RingSide>(
    node: u8,
    id: CallId,
    op: LocalOp,
    ring: &mut R,
) -> Result<MstrResult, Short>
    requires turn { OwnTurnAt R.RingSide node ring.old }
    requires room { HasRoom op }
    ensures went { IfOk result
        (λ got. WentOnBy R.RingSide node (Local node id op got ∷ []) ring.old ring.new) }
    ensures step { RingStep R.RingSide node ring.old ring.new }
{
    match ring.local(node, id, op) {
        Ok(given) => Ok(given),
        Err(why) => Err(Short::of(why)),
    }
}

/// Passes the token on, where nothing is to be sent or taken.
pub(crate) fn pass_on<R: RingSide>(node: u8, done: bool, ring: &mut R) -> Result<(), Short>
    requires turn { OwnTurnAt R.RingSide node ring.old }
    requires holds { HoldsAt R.RingSide node ring.old }
    requires sent { (node_at R.RingSide node ring.old).outbox ≡ [] }
    requires taken { (node_at R.RingSide node ring.old).inbox ≡ [] }
    ensures went { OnOk result (PassesOver R.RingSide node done ring.old ring.new) }
    ensures step { RingStep R.RingSide node ring.old ring.new }
{
    match ring.pass(node, done) {
        Ok(()) => Ok(()),
        Err(why) => Err(Short::of(why)),
    }
}

/// Gives up a call that may be, and answers its error word.
pub(crate) fn give_up_now<R: RingSide>(id: CallId, ring: &mut R) -> Result<u16, Short>
    requires turn { OwnTurnAt R.RingSide id.node ring.old }
    requires path { IsPath id.path }
    requires may { MayGiveUpAt R.RingSide id ring.old }
    ensures went { IfOk result
        (λ word. WentOnBy R.RingSide id.node (GiveUp id word ∷ []) ring.old ring.new) }
    ensures step { RingStep R.RingSide id.node ring.old ring.new }
{
    match ring.give_up(id) {
        Ok(word) => Ok(word),
        Err(why) => Err(Short::of(why)),
    }
}
