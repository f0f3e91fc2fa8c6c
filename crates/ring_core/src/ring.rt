//! The token ring.
ghost use Rattle.std.specs.Prelude.{◌≡◌, ◌≢◌, ◌≤◌, ◌<◌, ◌+◌, ◌++◌, ◌∷◌, [], ℕ, List, All, length};
ghost use Rattle.std.specs.Prelude.{max, true, Option, Some, None, OnOk, OnErr, IfOk, IfErr};
ghost use Rattle.std.specs.Prelude.{IfSome, MatchOption, vec_len, vec_capacity};
ghost use Rattle.ring_core.specs.Words.{NetPlan};
ghost use Rattle.ring_core.specs.Machine.{RingIs, addresses, ring_node, path_of, awaited_number};
ghost use Rattle.ring_core.specs.Machine.{successor, only_bridges};
ghost use Rattle.ring_core.specs.Refusals.{turn_no, free_no, post_no, send_no, pass_no, leave_no};
ghost use Rattle.ring_core.specs.Refusals.{give_up_no, join_no, word_of, quiet_for, WantsMemory};
ghost use Rattle.ring_core.specs.Scratch.{local_result};
ghost use Rattle.ring_core.specs.Legal.{IsMember, IsPath, IsFrom, IsNextNumber, HasRoom, IsFirst};
ghost use Rattle.ring_core.specs.Legal.{IsLegalRing};
ghost use Rattle.ring_core.specs.Kept.{KeptRing, ring_of, with_entry, with_spare_entry, RefusedAs};
ghost use Rattle.ring_core.specs.Kept.{IsTaken, IsToldOf, passed_on, StayedFor};

use crate::bare::BareRing;
use crate::entry::{Heard, LeaveCause, LocalOp, RingEntry};
use crate::frame::{Frame, FrameKind};
use crate::history::{make_room, note};
use crate::refusal::RingNo;
use crate::status::NodeStatus;
use mstr_block::{CallId, MstrResult};
use plant_types::{Copied, List, NetPlan};
use std::alloc::{AllocError, Global};
use std::marker::Model;

/// The token ring of a net, with all that happened on it
/// (*Modbus Plus Network Planning and Installation Guide*). A contract sees the plan, the history
/// and the spare: for how many entries memory is kept.
pub struct Ring {
    bare: BareRing,
    history: Vec<RingEntry>,
    spare: u32,
}

impl Model for Ring {
    ghost use Rattle.std.specs.Prelude.{vec_capacity};
    ghost use Rattle.ring_core.specs.Kept.{KeptRing};
    ghost use Rattle.ring_core.specs.Bare.{bare_net, IsWholeRing};

    ghost Value = { KeptRing };

    ghost view = { λ r. record {
      net = bare_net r.bare;
      history = r.history.items;
      spare = r.spare;
    } };

    ghost invariant = { λ r.
        IsWholeRing r.bare r.history.items r.spare (vec_capacity r.history) };
}

impl Drop for Ring {
    fn drop(self) {
        let Ring {
            bare: _,
            history: _,
            spare: _,
        } = self;
    }
}

impl Ring {
    /// All that happened, the first entry first.
    pub fn history(&self) -> &[RingEntry]
        ensures history { result.now ≡ self.now.history }
        ensures legal { IsLegalRing self.now.net self.now.history }
    {
        self.history.as_slice()
    }

    /// The history alone; takes no memory.
    pub fn into_history(self) -> List<RingEntry>
        ensures history { result ≡ self.history }
        ensures legal { IsLegalRing self.net self.history }
    {
        let Ring {
            bare: _,
            history,
            spare: _,
        } = self;
        List::from_vec(history)
    }

    /// Who holds the token; 0 where all have left.
    pub fn holder(&self) -> u8
        ensures { result ≡ (ring_of self.now).holder }
    {
        self.bare.holder(self.history.as_slice())
    }

    /// The least member above a node, else the least of all; 0 where there is none.
    pub fn successor(&self, node: u8) -> u8
        ensures { result ≡ successor (ring_of self.now).nodes node }
    {
        self.bare.successor(self.history.as_slice(), node)
    }

    /// The number that a path of a node awaits, or 0.
    pub fn awaits(&self, node: u8, path: u8) -> u32
        requires member { IsMember self.now.net node }
        requires path { IsPath path }
        ensures { result ≡
            awaited_number (path_of (ring_node (ring_of self.now) node) path).awaits }
    {
        self.bare.awaits(self.history.as_slice(), node, path)
    }

    /// Where a node stands toward the ring.
    pub fn status(&self, node: u8) -> NodeStatus
        requires { IsMember self.now.net node }
        ensures { result ≡ (ring_node (ring_of self.now) node).status }
    {
        self.bare.status(self.history.as_slice(), node)
    }

    /// For how many Passes in a row a node itself, and each member that is not the end of a bridge,
    /// has been done; 0 where the node has left.
    pub fn quiet(&self, node: u8) -> u64
        requires { IsMember self.now.net node }
        ensures { result ≡ quiet_for self.now.net (ring_of self.now) node }
    {
        self.bare.quiet(self.history.as_slice(), node)
    }

    /// Whether every other node that is a member, or asks to be one, is the end of a bridge.
    pub fn only_bridges(&self, node: u8) -> bool
        ensures { result ≡ only_bridges self.now.net (ring_of self.now).nodes node }
    {
        self.bare.only_bridges(self.history.as_slice(), node)
    }

    /// For how many entries memory is kept.
    pub fn spare(&self) -> u32
        ensures { result ≡ self.now.spare }
    {
        self.spare
    }

    /// Whether a node is one of the plan's members, whether or not it has left.
    pub fn is_member(&self, node: u8) -> bool
        ensures only { result ≡ true → IsMember self.now.net node }
        ensures all { IsMember self.now.net node → result ≡ true }
    {
        self.bare.is_member(self.history.as_slice(), node)
    }

    /// Whether a frame's number is above all that were posted on its path.
    pub fn is_next(&self, node: u8, kind: FrameKind, id: CallId) -> bool
        requires { IsMember self.now.net node }
        ensures only { result ≡ true → IsNextNumber (ring_node (ring_of self.now) node) kind id }
        ensures all { IsNextNumber (ring_node (ring_of self.now) node) kind id → result ≡ true }
    {
        self.bare.is_next(self.history.as_slice(), node, kind, id)
    }

    /// Keeps memory for at least so many entries. Where it is kept already nothing is asked for.
    pub fn reserve(&mut self, n: u32) -> Result<(), AllocError>
        ensures ok { OnOk result (self.new ≡ record self.old { spare = max self.old.spare n }) }
        ensures err { OnErr result (self.new ≡ self.old) }
        ensures kept { OnErr result (self.old.spare < n) }
    {
        if n > self.spare {
            self.history.try_reserve(n as usize)?;
            self.spare = n;
        }
        Ok(())
    }

    /// Puts a frame last into the node's outbox. A Request's path, 1 to 4, is out from then on, and
    /// its number is above all that were posted there; a Reply goes to who asked, and no further.
    pub fn post(&mut self, node: u8, frame: Frame) -> Result<(), RingNo>
        requires member { IsMember self.old.net node }
        requires from { IsFrom node frame.kind frame }
        requires next { IsNextNumber (ring_node (ring_of self.old) node) frame.kind frame.id }
        ensures ok { OnOk result (self.new ≡ with_entry self.old (RingEntry.Post node frame)) }
        ensures err { OnErr result (self.new ≡ self.old) }
        ensures answer { RefusedAs result (post_no (ring_of self.old) node frame) }
    {
        if let Some(why) = self.bare.post_no(self.history.as_slice(), node, &frame) {
            return Err(why);
        }
        let copy = frame.copied(self.bare.alloc)?;
        make_room(&mut self.history, self.spare)?;
        self.bare.post(self.history.as_slice(), node, copy)?;
        note(&mut self.history, RingEntry::Post { node, frame });
        Ok(())
    }

    /// Takes the first frame out of the node's inbox; None exactly where it is empty, and then
    /// nothing is noted.
    pub fn take(&mut self, node: u8) -> Result<Option<Frame>, RingNo>
        requires { IsMember self.old.net node }
        ensures ok { IfOk result (IsTaken node self.old self.new) }
        ensures err { OnErr result (self.new ≡ self.old) }
        ensures answer { RefusedAs result (turn_no (ring_of self.old) node) }
    {
        if let Some(why) = self.bare.turn_no(self.history.as_slice(), node) {
            return Err(why);
        }
        let Some(copy) = self.bare.first(self.history.as_slice(), node)? else {
            return Ok(None);
        };
        make_room(&mut self.history, self.spare)?;
        match self.bare.take(self.history.as_slice(), node) {
            None => Ok(None),
            Some(frame) => {
                note(&mut self.history, RingEntry::Take { node, frame });
                Ok(Some(copy))
            }
        }
    }

    /// Transmits the first frame of the node's outbox, and says what the node was told of it.
    pub fn send(&mut self, node: u8) -> Result<Heard, RingNo>
        requires { IsMember self.old.net node }
        ensures heard { IfOk result (IsToldOf self.old node) }
        ensures ok { IfOk result
            (λ heard. self.new ≡ with_entry self.old (RingEntry.Send node heard)) }
        ensures err { OnErr result (self.new ≡ self.old) }
        ensures answer { RefusedAs result (send_no (ring_of self.old) node) }
    {
        if let Some(why) = self.bare.turn_no(self.history.as_slice(), node) {
            return Err(why);
        }
        match self.bare.head(self.history.as_slice(), node)? {
            None => Err(RingNo::NothingToSend),
            Some(frame) => self.send_frame(node, frame),
        }
    }

    fn send_frame(&mut self, node: u8, frame: Frame) -> Result<Heard, RingNo>
        requires member { IsMember self.old.net node }
        requires turn { turn_no (ring_of self.old) node ≡ None }
        requires head { IsFirst (ring_node (ring_of self.old) node).outbox frame }
        ensures heard { IfOk result (IsToldOf self.old node) }
        ensures ok { IfOk result
            (λ heard. self.new ≡ with_entry self.old (RingEntry.Send node heard)) }
        ensures err { IfErr result (WantsMemory self.old self.new) }
    {
        make_room(&mut self.history, self.spare)?;
        let heard = self.bare.send(self.history.as_slice(), node, frame)?;
        note(&mut self.history, RingEntry::Send { node, heard });
        Ok(heard)
    }

    /// A call that concerns this station alone. At most 32 words are put.
    pub fn local(&mut self, node: u8, id: CallId, op: LocalOp) -> Result<MstrResult, RingNo>
        requires member { IsMember self.old.net node }
        requires room { HasRoom op }
        ensures result { IfOk result
            (λ given. given ≡ local_result self.old.net self.old.history node op) }
        ensures ok { IfOk result
            (λ given. self.new ≡ with_entry self.old (RingEntry.Local node id op given)) }
        ensures err { OnErr result (self.new ≡ self.old) }
        ensures answer { RefusedAs result (free_no (ring_of self.old) node) }
    {
        if let Some(why) = self.bare.free_no(self.history.as_slice(), node) {
            return Err(why);
        }
        let result = self.bare.local_result(self.history.as_slice(), node, &op);
        let copy = result.copied(self.bare.alloc)?;
        make_room(&mut self.history, self.spare)?;
        self.bare
            .local(self.history.as_slice(), node, id, &op, &result);
        note(
            &mut self.history,
            RingEntry::Local {
                node,
                id,
                op,
                result,
            },
        );
        Ok(copy)
    }

    /// Gives a call up, and answers its error word.
    pub fn give_up(&mut self, id: CallId) -> Result<u16, RingNo>
        requires member { IsMember self.old.net id.node }
        requires path { IsPath id.path }
        ensures word { IfOk result (λ word. word ≡ word_of self.old.net (ring_of self.old) id) }
        ensures ok { IfOk result (λ word.
            self.new ≡ with_entry self.old (RingEntry.GiveUp id word)) }
        ensures err { OnErr result (self.new ≡ self.old) }
        ensures answer { RefusedAs result (give_up_no self.old.net (ring_of self.old) id) }
    {
        if let Some(why) = self.bare.give_up_no(self.history.as_slice(), id) {
            return Err(why);
        }
        let word = self.bare.word_of(self.history.as_slice(), id);
        make_room(&mut self.history, self.spare)?;
        self.bare.give_up(self.history.as_slice(), id, word);
        note(&mut self.history, RingEntry::GiveUp { id, word });
        Ok(word)
    }

    /// Passes the token, with the node's global words, to its successor; all who ask come in.
    pub fn pass(&mut self, node: u8, done: bool) -> Result<(), RingNo>
        requires { IsMember self.old.net node }
        ensures ok { OnOk result (self.new ≡ passed_on self.old node done) }
        ensures err { OnErr result (self.new ≡ self.old) }
        ensures answer { RefusedAs result (pass_no (ring_of self.old) node) }
    {
        if let Some(why) = self.bare.pass_no(self.history.as_slice(), node) {
            return Err(why);
        }
        let words = self.bare.waiting(self.history.as_slice(), node)?;
        make_room(&mut self.history, self.spare)?;
        self.bare.pass(self.history.as_slice(), node, done, &words);
        note(&mut self.history, RingEntry::Pass { node, done, words });
        Ok(())
    }

    /// The node leaves the ring, all who ask come in, and its successor holds the token. Takes one
    /// of the spare, and no memory: it is never refused for want of it.
    pub fn leave(&mut self, node: u8, cause: LeaveCause) -> Result<(), RingNo>
        requires member { IsMember self.old.net node }
        requires spare { 1 ≤ self.old.spare }
        ensures ok { OnOk result
            (self.new ≡ with_spare_entry self.old (RingEntry.Leave node cause)) }
        ensures err { IfErr result (StayedFor self.old node cause self.new) }
        ensures memory { IfErr result (λ why. why ≢ RingNo.NoMemory) }
        ensures left { OnOk result (leave_no self.old.net (ring_of self.old) node cause ≡ None) }
    {
        if let Some(why) = self.bare.leave_no(self.history.as_slice(), node, cause) {
            return Err(why);
        }
        self.bare.leave(self.history.as_slice(), node, cause);
        self.spare -= 1;
        note(&mut self.history, RingEntry::Leave { node, cause });
        Ok(())
    }

    /// A node that left as its power failed, and whose calls were given up, asks to come in again.
    pub fn join(&mut self, node: u8) -> Result<(), RingNo>
        requires { IsMember self.old.net node }
        ensures ok { OnOk result (self.new ≡ with_entry self.old (RingEntry.Join node)) }
        ensures err { OnErr result (self.new ≡ self.old) }
        ensures answer { RefusedAs result (join_no (ring_of self.old) node) }
    {
        if let Some(why) = self.bare.join_no(self.history.as_slice(), node) {
            return Err(why);
        }
        make_room(&mut self.history, self.spare)?;
        self.bare.join(self.history.as_slice(), node);
        note(&mut self.history, RingEntry::Join { node });
        Ok(())
    }

    /// A ring on which nothing has happened: the least member holds the token.
    pub fn new(alloc: Global, plan: &NetPlan) -> Result<Ring, AllocError>
        requires members { All (λ m. m < addresses) plan.now.members }
        requires fates { 0 < length plan.now.fates }
        ensures { IfOk result
            (λ ring. ring ≡ record { net = plan.now; history = []; spare = 0 }) }
    {
        Ok(Ring {
            bare: BareRing::new(alloc, plan)?,
            history: Vec::new(alloc),
            spare: 0,
        })
    }
}
