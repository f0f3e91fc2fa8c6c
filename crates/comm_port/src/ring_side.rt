//! The ring as a station's worker has it: by itself, or behind a gate that others pass too.
ghost use Rattle.std.specs.Prelude.{◌≡◌, ◌∷◌, [], ℕ, List, Bool, true, None, IfOk};
ghost use Rattle.ring_core.specs.Machine.{ring_after, only_bridges};
ghost use Rattle.ring_core.specs.Refusals.{post_no, send_no, turn_no, free_no, pass_no, quiet_for};
ghost use Rattle.ring_core.specs.Legal.{IsMember, IsPath, IsFrom, IsNextNumber, HasRoom};
ghost use Rattle.ring_core.specs.Legal.{IsLegalRing};
ghost use Rattle.ring_core.specs.declared.entry.RingEntry.TheVariants.{Post, Send, Local, GiveUp};
ghost use Rattle.ring_core.specs.declared.entry.RingEntry.TheVariants.{Join};
ghost use Rattle.comm_port.specs.Sides.{MayWrite, IsRefusedFor, IsRefusedOrShort, taken_entries};
ghost use Rattle.comm_port.specs.Sides.{CallAdds, AddsNothing, LeaveAdds, PassAdds};
ghost use Rattle.comm_port.specs.Sides.{give_up_no_at};
ghost use Rattle.comm_port.specs.Sides.{join_no_at, leave_no_at, number_awaited};
ghost use Rattle.comm_port.specs.Giving.{inbox_of, part_at};

use mstr_block::{CallId, MstrResult};
use ring_core::{Frame, Heard, LeaveCause, LocalOp, NodeStatus, Ring, RingNo};

/// The calls of a ring. A contract sees its plan and its history as far as it is known here; each
/// call goes on from there with entries of others, none where nobody else writes, and then with its
/// own one. What it answers, also a refusal, is that of the ring there. None reserves memory but a
/// Leave.
pub trait RingSide {
    ghost use Rattle.comm_port.specs.Sides.{RingSideIs};
    ghost use Rattle.ring_core.specs.declared.entry.RingEntry.{RingEntry};

    /// What names the place of the ring, as its gate.
    type Place;

    /// Its plan, the node in whose name alone it may write, and its place: what no call changes.
    ghost side: { Self → RingSideIs Self.Place };

    /// The history as far as it is known.
    ghost known: { Self → List RingEntry };

    /// Whether nobody else writes.
    ghost alone: { Bool };

    /// For how many entries it keeps memory; told only where nobody else writes.
    ghost room: { Self → ℕ };

    /// Puts a frame in the node's outbox, to be sent when it holds the token.
    fn post(&mut self, node: u8, frame: Frame) -> Result<(), RingNo>
        requires serves { MayWrite (side self.old).writer node }
        requires member { IsMember (side self.old).net node }
        requires from { IsFrom node frame.kind frame }
        requires next { IsNextNumber
            (part_at (side self.old).net node (known self.old)) frame.kind frame.id }
        ensures went { CallAdds alone known room node self.old self.new result
            (λ _. Post node frame ∷ []) }
        ensures legal { IsLegalRing (side self.old).net (known self.new) }
        ensures refused { IsRefusedFor
            (post_no (ring_after (side self.old).net (known self.new)) node frame) result }
        ensures same { side self.new ≡ side self.old };

    /// Sends the first frame of the node's outbox, and answers what the node heard.
    fn send(&mut self, node: u8) -> Result<Heard, RingNo>
        requires serves { MayWrite (side self.old).writer node }
        requires member { IsMember (side self.old).net node }
        ensures went { CallAdds alone known room node self.old self.new result
            (λ heard. Send node heard ∷ []) }
        ensures legal { IsLegalRing (side self.old).net (known self.new) }
        ensures refused { IsRefusedFor
            (send_no (ring_after (side self.old).net (known self.new)) node) result }
        ensures same { side self.new ≡ side self.old };

    /// None exactly where the inbox is empty.
    fn take(&mut self, node: u8) -> Result<Option<Frame>, RingNo>
        requires serves { MayWrite (side self.old).writer node }
        requires member { IsMember (side self.old).net node }
        ensures went { CallAdds alone known room node self.old self.new result
            (taken_entries node) }
        ensures empty { IfOk result
            (λ took. took ≡ None → inbox_of (side self.old).net node (known self.new) ≡ []) }
        ensures legal { IsLegalRing (side self.old).net (known self.new) }
        ensures refused { IsRefusedFor
            (turn_no (ring_after (side self.old).net (known self.new)) node) result }
        ensures same { side self.new ≡ side self.old };

    /// The node's own port does an operation for its station, and answers what came of it.
    fn local(&mut self, node: u8, id: CallId, op: LocalOp) -> Result<MstrResult, RingNo>
        requires serves { MayWrite (side self.old).writer node }
        requires member { IsMember (side self.old).net node }
        requires room { HasRoom op }
        ensures went { CallAdds alone known room node self.old self.new result
            (λ got. Local node id op got ∷ []) }
        ensures legal { IsLegalRing (side self.old).net (known self.new) }
        ensures refused { IsRefusedFor
            (free_no (ring_after (side self.old).net (known self.new)) node) result }
        ensures same { side self.new ≡ side self.old };

    /// Ends a call that has waited or failed, and answers the error word that its caller gets.
    fn give_up(&mut self, id: CallId) -> Result<u16, RingNo>
        requires serves { MayWrite (side self.old).writer id.node }
        requires member { IsMember (side self.old).net id.node }
        requires path { IsPath id.path }
        ensures went { CallAdds alone known room id.node self.old self.new result
            (λ word. GiveUp id word ∷ []) }
        ensures legal { IsLegalRing (side self.old).net (known self.new) }
        ensures refused { IsRefusedFor
            (give_up_no_at (side self.old).net (known self.new) id) result }
        ensures same { side self.new ≡ side self.old };

    /// The number that a path of a node awaits, or 0.
    fn awaits(&mut self, node: u8, path: u8) -> u32
        requires serves { MayWrite (side self.old).writer node }
        requires member { IsMember (side self.old).net node }
        requires path { IsPath path }
        ensures answer { result ≡ number_awaited (side self.old).net (known self.new) node path }
        ensures went { AddsNothing alone known room node self.old self.new }
        ensures legal { IsLegalRing (side self.old).net (known self.new) }
        ensures same { side self.new ≡ side self.old };

    /// Who holds the token; 0 where all have left.
    fn holder(&mut self) -> u8
        ensures answer { result ≡ (ring_after (side self.old).net (known self.new)).holder }
        ensures went { (n : ℕ)
            → MayWrite (side self.old).writer n → AddsNothing alone known room n self.old self.new }
        ensures legal { IsLegalRing (side self.old).net (known self.new) }
        ensures same { side self.new ≡ side self.old };

    /// For how many Passes in a row a node itself, and every member that is not the end of a
    /// bridge, has been done; 0 where the node has left.
    fn quiet(&mut self, node: u8) -> u64
        requires serves { MayWrite (side self.old).writer node }
        requires member { IsMember (side self.old).net node }
        ensures answer { result ≡ quiet_for (side self.old).net
            (ring_after (side self.old).net (known self.new)) node }
        ensures went { AddsNothing alone known room node self.old self.new }
        ensures legal { IsLegalRing (side self.old).net (known self.new) }
        ensures same { side self.new ≡ side self.old };

    /// Whether every other node that is a member, or asks to be one, is the end of a bridge.
    fn only_bridges(&mut self, node: u8) -> bool
        requires serves { MayWrite (side self.old).writer node }
        requires member { IsMember (side self.old).net node }
        ensures answer { result ≡ only_bridges (side self.old).net
            (ring_after (side self.old).net (known self.new)).nodes node }
        ensures went { AddsNothing alone known room node self.old self.new }
        ensures legal { IsLegalRing (side self.old).net (known self.new) }
        ensures same { side self.new ≡ side self.old };

    /// Passes the token on, saying whether the station is done.
    fn pass(&mut self, node: u8, done: bool) -> Result<(), RingNo>
        requires serves { MayWrite (side self.old).writer node }
        requires member { IsMember (side self.old).net node }
        ensures went { PassAdds alone known room node done self.old self.new result }
        ensures legal { IsLegalRing (side self.old).net (known self.new) }
        ensures refused { IsRefusedFor
            (pass_no (ring_after (side self.old).net (known self.new)) node) result }
        ensures same { side self.new ≡ side self.old };

    /// Reserves one entry first, and no more, so that it may run out of memory.
    fn leave(&mut self, node: u8, cause: LeaveCause) -> Result<(), RingNo>
        requires serves { MayWrite (side self.old).writer node }
        requires member { IsMember (side self.old).net node }
        ensures went { LeaveAdds alone known room node cause self.old self.new result }
        ensures legal { IsLegalRing (side self.old).net (known self.new) }
        ensures refused { IsRefusedOrShort
            (leave_no_at (side self.old).net (known self.new) node cause) result }
        ensures same { side self.new ≡ side self.old };

    /// A node that is away asks to come in again.
    fn join(&mut self, node: u8) -> Result<(), RingNo>
        requires serves { MayWrite (side self.old).writer node }
        requires member { IsMember (side self.old).net node }
        ensures went { CallAdds alone known room node self.old self.new result
            (λ _. Join node ∷ []) }
        ensures legal { IsLegalRing (side self.old).net (known self.new) }
        ensures refused { IsRefusedFor
            (join_no_at (side self.old).net (known self.new) node) result }
        ensures same { side self.new ≡ side self.old };

    /// Where a node stands toward the ring.
    fn status(&mut self, node: u8) -> NodeStatus
        requires serves { MayWrite (side self.old).writer node }
        requires member { IsMember (side self.old).net node }
        ensures answer { result ≡ (part_at (side self.old).net node (known self.new)).status }
        ensures went { AddsNothing alone known room node self.old self.new }
        ensures legal { IsLegalRing (side self.old).net (known self.new) }
        ensures same { side self.new ≡ side self.old };
}

impl RingSide for Ring {
    type Place = ();

    ghost side = { λ r. record { net = r.net; writer = None; place = tt } };

    ghost known = { λ r. r.history };

    ghost alone = { true };

    ghost room = { λ r. r.spare };

    fn post(&mut self, node: u8, frame: Frame) -> Result<(), RingNo> {
        let answer = Ring::post(self, node, frame);
        let _ = self.history();
        answer
    }

    fn send(&mut self, node: u8) -> Result<Heard, RingNo> {
        let answer = Ring::send(self, node);
        let _ = self.history();
        answer
    }

    fn take(&mut self, node: u8) -> Result<Option<Frame>, RingNo> {
        let answer = Ring::take(self, node);
        let _ = self.history();
        answer
    }

    fn local(&mut self, node: u8, id: CallId, op: LocalOp) -> Result<MstrResult, RingNo> {
        let answer = Ring::local(self, node, id, op);
        let _ = self.history();
        answer
    }

    fn give_up(&mut self, id: CallId) -> Result<u16, RingNo> {
        let answer = Ring::give_up(self, id);
        let _ = self.history();
        answer
    }

    fn awaits(&mut self, node: u8, path: u8) -> u32 {
        let _ = self.history();
        Ring::awaits(self, node, path)
    }

    fn holder(&mut self) -> u8 {
        let _ = self.history();
        Ring::holder(self)
    }

    fn quiet(&mut self, node: u8) -> u64 {
        let _ = self.history();
        Ring::quiet(self, node)
    }

    fn only_bridges(&mut self, node: u8) -> bool {
        let _ = self.history();
        Ring::only_bridges(self, node)
    }

    fn pass(&mut self, node: u8, done: bool) -> Result<(), RingNo> {
        let answer = Ring::pass(self, node, done);
        let _ = self.history();
        answer
    }

    fn leave(&mut self, node: u8, cause: LeaveCause) -> Result<(), RingNo> {
        let _ = self.history();
        self.reserve(1)?;
        let answer = Ring::leave(self, node, cause);
        let _ = self.history();
        answer
    }

    fn join(&mut self, node: u8) -> Result<(), RingNo> {
        let answer = Ring::join(self, node);
        let _ = self.history();
        answer
    }

    fn status(&mut self, node: u8) -> NodeStatus {
        let _ = self.history();
        Ring::status(self, node)
    }
}
