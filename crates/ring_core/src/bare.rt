//! The token ring without the list of what happened on it.
ghost use Rattle.std.specs.Prelude.{◌≡◌, ◌<◌, [], true, length, All, None, OnOk, OnErr};
ghost use Rattle.std.specs.Prelude.{IfOk, IfSome, MatchOption};
ghost use Rattle.ring_core.specs.Machine.{addresses, ring_after, ring_node, path_of};
ghost use Rattle.ring_core.specs.Machine.{awaited_number, successor, only_bridges};
ghost use Rattle.ring_core.specs.Refusals.{turn_no, free_no, post_no, pass_no, leave_no, join_no};
ghost use Rattle.ring_core.specs.Refusals.{give_up_no, word_of, quiet_for, leave_due, empty_no};
ghost use Rattle.ring_core.specs.Scratch.{words_put, local_result, statistics, global_answer};
ghost use Rattle.ring_core.specs.Scratch.{heard_words};
ghost use Rattle.ring_core.specs.Legal.{IsMember, IsPath, IsFrom, IsNextNumber, HasRoom, IsFirst};
ghost use Rattle.ring_core.specs.Legal.{IsHeard};
ghost use Rattle.ring_core.specs.Bare.{bare_net, IsBehind, BareMade, BareStayed};

use crate::arrival::{fate_at, heard_event, heard_of, post_event, take_event};
use crate::counting::{count, count_arrival, count_local, lose_words, put_global, station_words};
use crate::entry::{Heard, LeaveCause, LocalOp, RingEntry};
use crate::frame::{Frame, FrameKind};
use crate::global::global_answer;
use crate::members::{
    arrival, hand_on, hears, is_here, least_done, least_from, members_now, only_bridges, settle,
    successor,
};
use crate::node::{Node, silence_word};
use crate::opening::{opening_nodes, opening_stats};
use crate::path::{Await, LeaveDue, due_no};
use crate::refusal::RingNo;
use crate::status::NodeStatus;
use global_data::GlobalBook;
use mstr_block::{CallId, MstrResult};
use plant_types::{Block, Copied, NetPlan, Words};
use station_stats::{StatEvent, Stats};
use std::alloc::{AllocError, Global};

/// A token ring that keeps no list of what happened on it. Each call is given that list, `past`,
/// which its clauses are about and nothing reads. This project's own.
pub struct BareRing {
    pub(crate) alloc: Global,
    plan: NetPlan,
    holder: u8,
    sent: u64,
    nodes: Vec<Node>,
    stats: Vec<Stats>,
    book: GlobalBook,
}

impl Drop for BareRing {
    fn drop(self) {
        let BareRing {
            alloc: _,
            plan: _,
            holder: _,
            sent: _,
            nodes: _,
            stats: _,
            book: _,
        } = self;
    }
}

impl BareRing {
    /// A ring on which nothing has happened: the least member holds the token.
    pub fn new(alloc: Global, plan: &NetPlan) -> Result<BareRing, AllocError>
        requires members { All (λ m. m < addresses) plan.now.members }
        requires fates { 0 < length plan.now.fates }
        ensures net { IfOk result (λ bare. bare_net bare ≡ plan.now) }
        ensures behind { IfOk result (λ bare. IsBehind [] bare) }
    {
        let plan = plan.copied(alloc)?;
        let nodes = opening_nodes(alloc, plan.members.as_slice())?;
        let stats = opening_stats(alloc, plan.members.as_slice())?;
        let book = GlobalBook::new(alloc, plan.members.as_slice())?;
        let holder = least_from(&nodes, 0);
        Ok(BareRing {
            alloc,
            plan,
            holder,
            sent: 0,
            nodes,
            stats,
            book,
        })
    }

    /// Who holds the token; 0 where all have left.
    pub(crate) fn holder(&self, past: &[RingEntry]) -> u8
        requires kept { IsBehind past.now self.now }
        ensures { result ≡ (ring_after (bare_net self.now) past.now).holder }
    {
        self.holder
    }

    /// The least member above a node, else the least of all; 0 where there is none.
    pub(crate) fn successor(&self, past: &[RingEntry], node: u8) -> u8
        requires kept { IsBehind past.now self.now }
        ensures { result ≡ successor (ring_after (bare_net self.now) past.now).nodes node }
    {
        successor(&self.nodes, node)
    }

    /// The number that a path of a node awaits, or 0.
    pub(crate) fn awaits(&self, past: &[RingEntry], node: u8, path: u8) -> u32
        requires kept { IsBehind past.now self.now }
        requires member { IsMember (bare_net self.now) node }
        requires path { IsPath path }
        ensures { result ≡ awaited_number
            (path_of (ring_node (ring_after (bare_net self.now) past.now) node) path).awaits }
    {
        self.nodes[node as usize].awaits(path).seq()
    }

    /// Where a node stands toward the ring.
    pub fn status(&self, past: &[RingEntry], node: u8) -> NodeStatus
        requires kept { IsBehind past.now self.now }
        requires member { IsMember (bare_net self.now) node }
        ensures { result ≡ (ring_node (ring_after (bare_net self.now) past.now) node).status }
    {
        self.nodes[node as usize].status()
    }

    /// For how many Passes in a row a node itself, and each member that is not the end of a bridge,
    /// has been done; 0 where the node has left.
    pub(crate) fn quiet(&self, past: &[RingEntry], node: u8) -> u64
        requires kept { IsBehind past.now self.now }
        requires member { IsMember (bare_net self.now) node }
        ensures { result ≡
            quiet_for (bare_net self.now) (ring_after (bare_net self.now) past.now) node }
    {
        let part = &self.nodes[node as usize];
        if !part.is_here() {
            return 0;
        }
        least_done(&self.plan, &self.nodes, part.done_run())
    }

    /// Whether every other node that is a member, or asks to be one, is the end of a bridge.
    pub(crate) fn only_bridges(&self, past: &[RingEntry], node: u8) -> bool
        requires kept { IsBehind past.now self.now }
        ensures { result ≡ only_bridges
            (bare_net self.now) (ring_after (bare_net self.now) past.now).nodes node }
    {
        only_bridges(&self.plan, &self.nodes, node)
    }

    /// Whether a node is one of the plan's members, whether or not it has left.
    pub fn is_member(&self, past: &[RingEntry], node: u8) -> bool
        requires kept { IsBehind past.now self.now }
        ensures only { result ≡ true → IsMember (bare_net self.now) node }
        ensures all { IsMember (bare_net self.now) node → result ≡ true }
    {
        self.book.get(node).is_some()
    }

    /// Whether a frame's number is above all that were posted on its path.
    pub fn is_next(&self, past: &[RingEntry], node: u8, kind: FrameKind, id: CallId) -> bool
        requires kept { IsBehind past.now self.now }
        requires member { IsMember (bare_net self.now) node }
        ensures only { result ≡ true → IsNextNumber
            (ring_node (ring_after (bare_net self.now) past.now) node) kind id }
        ensures all { IsNextNumber
            (ring_node (ring_after (bare_net self.now) past.now) node) kind id → result ≡ true }
    {
        self.nodes[node as usize].is_next(kind, id)
    }

    /// Why a member waits; a node that has left is let through.
    pub fn free_no(&self, past: &[RingEntry], node: u8) -> Option<RingNo>
        requires kept { IsBehind past.now self.now }
        requires member { IsMember (bare_net self.now) node }
        ensures { result ≡ free_no (ring_after (bare_net self.now) past.now) node }
    {
        if !self.nodes[node as usize].is_here() || self.holder == node {
            return None;
        }
        Some(RingNo::NotHolder(self.holder))
    }

    /// Why a node waits, or has left.
    pub fn turn_no(&self, past: &[RingEntry], node: u8) -> Option<RingNo>
        requires kept { IsBehind past.now self.now }
        requires member { IsMember (bare_net self.now) node }
        ensures { result ≡ turn_no (ring_after (bare_net self.now) past.now) node }
    {
        if !self.nodes[node as usize].is_here() {
            return Some(RingNo::NotMember);
        }
        if self.holder == node {
            return None;
        }
        Some(RingNo::NotHolder(self.holder))
    }

    /// Why a frame may not be posted.
    pub fn post_no(&self, past: &[RingEntry], node: u8, frame: &Frame) -> Option<RingNo>
        requires kept { IsBehind past.now self.now }
        requires member { IsMember (bare_net self.now) node }
        ensures { result ≡ post_no (ring_after (bare_net self.now) past.now) node frame.now }
    {
        if let Some(why) = self.free_no(past, node) {
            return Some(why);
        }
        self.nodes[node as usize].path_no(frame.kind, frame.id.path)
    }

    /// Puts a frame last into the node's outbox, where nothing refuses it.
    pub fn post(&mut self, past: &[RingEntry], node: u8, frame: Frame) -> Result<(), AllocError>
        requires kept { IsBehind past.now self.old }
        requires member { IsMember (bare_net self.old) node }
        requires from { IsFrom node frame.kind frame }
        requires next { IsNextNumber
            (ring_node (ring_after (bare_net self.old) past.now) node) frame.kind frame.id }
        requires free { post_no (ring_after (bare_net self.old) past.now) node frame ≡ None }
        ensures ok { OnOk result
            (BareMade past.now (RingEntry.Post node frame) self.old self.new) }
        ensures err { OnErr result (BareStayed past.now self.old self.new) }
    {
        let kind = frame.kind;
        let part = &mut self.nodes[node as usize];
        part.post(frame)?;
        count(&mut self.stats, node, post_event(kind));
        Ok(())
    }

    /// A copy of the first frame of the node's inbox.
    pub fn first(&self, past: &[RingEntry], node: u8) -> Result<Option<Frame>, AllocError>
        requires kept { IsBehind past.now self.now }
        requires member { IsMember (bare_net self.now) node }
        ensures { IfOk result (λ first. MatchOption first
            ((ring_node (ring_after (bare_net self.now) past.now) node).inbox ≡ [])
            (IsFirst (ring_node (ring_after (bare_net self.now) past.now) node).inbox)) }
    {
        self.nodes[node as usize].first(self.alloc)
    }

    /// Takes the first frame out of the node's inbox, where nothing refuses it; None exactly where
    /// it is empty. Takes no memory.
    pub fn take(&mut self, past: &[RingEntry], node: u8) -> Option<Frame>
        requires kept { IsBehind past.now self.old }
        requires member { IsMember (bare_net self.old) node }
        requires turn { turn_no (ring_after (bare_net self.old) past.now) node ≡ None }
        ensures none { result ≡ None →
            ((ring_node (ring_after (bare_net self.old) past.now) node).inbox ≡ [])
            × BareStayed past.now self.old self.new }
        ensures some { IfSome result (λ frame.
            IsFirst (ring_node (ring_after (bare_net self.old) past.now) node).inbox frame
            × BareMade past.now (RingEntry.Take node frame) self.old self.new) }
    {
        let part = &mut self.nodes[node as usize];
        let frame = part.take()?;
        count(&mut self.stats, node, take_event(frame.kind));
        Some(frame)
    }

    /// A copy of the first frame of the node's outbox.
    pub fn head(&self, past: &[RingEntry], node: u8) -> Result<Option<Frame>, AllocError>
        requires kept { IsBehind past.now self.now }
        requires member { IsMember (bare_net self.now) node }
        ensures head { IfOk result (λ head. MatchOption head
            ((ring_node (ring_after (bare_net self.now) past.now) node).outbox ≡ [])
            (IsFirst (ring_node (ring_after (bare_net self.now) past.now) node).outbox)) }
        ensures some { OnErr result (empty_no
            (ring_node (ring_after (bare_net self.now) past.now) node).outbox ≡ None) }
    {
        self.nodes[node as usize].head(self.alloc)
    }

    /// Transmits the first frame of the node's outbox, and says what the node was told of it.
    pub fn send(&mut self, past: &[RingEntry], node: u8, frame: Frame) -> Result<Heard, AllocError>
        requires kept { IsBehind past.now self.old }
        requires member { IsMember (bare_net self.old) node }
        requires turn { turn_no (ring_after (bare_net self.old) past.now) node ≡ None }
        requires head { IsFirst
            (ring_node (ring_after (bare_net self.old) past.now) node).outbox frame }
        ensures heard { IfOk result (λ heard. IsHeard (bare_net self.old)
            (ring_after (bare_net self.old) past.now)
            (ring_node (ring_after (bare_net self.old) past.now) node).outbox heard) }
        ensures ok { IfOk result (λ heard.
            BareMade past.now (RingEntry.Send node heard) self.old self.new) }
        ensures err { OnErr result (BareStayed past.now self.old self.new) }
    {
        let kind = frame.kind;
        let id = frame.id;
        let to = frame.to;
        let fate = fate_at(self.plan.fates.as_slice(), self.sent);
        let there = hears(&self.plan, &self.nodes, to, frame.is_onward());
        let fell = arrival(&self.plan, &self.nodes, fate, &frame);
        let heard = heard_of(fate, fell);
        settle(&mut self.nodes, frame, fell)?;
        let part = &mut self.nodes[node as usize];
        part.hear(kind, id, there, heard);
        count_arrival(&mut self.stats, to, fell);
        count(&mut self.stats, node, heard_event(heard));
        self.sent += 1;
        Ok(heard)
    }

    // How many words went with a node's latest token.
    fn passed(&self, past: &[RingEntry], node: u8) -> u16
        requires kept { IsBehind past.now self.now }
        ensures { result ≡ length (heard_words node past.now) }
    {
        match self.book.get(node) {
            None => 0,
            Some(words) => words.len() as u16,
        }
    }

    // The statistics words of a node.
    fn statistics(&self, past: &[RingEntry], node: u8) -> [u16; 20]
        requires kept { IsBehind past.now self.now }
        requires member { IsMember (bare_net self.now) node }
        ensures { result ≡ statistics (bare_net self.now) past.now node }
    {
        let passed = self.passed(past, node);
        let members = members_now(&self.nodes) as u16;
        station_words(&self.stats, node, members, passed)
    }

    /// What a call of the own station comes to.
    pub fn local_result(&self, past: &[RingEntry], node: u8, op: &LocalOp) -> MstrResult
        requires kept { IsBehind past.now self.now }
        requires member { IsMember (bare_net self.now) node }
        ensures { result ≡ local_result (bare_net self.now) past.now node op.now }
    {
        match op {
            LocalOp::GetStats | LocalOp::RemoteGet => {
                MstrResult::Good(Block::of(&self.statistics(past, node)))
            }
            LocalOp::GetGlobal { node, length } => self.global_answer(past, *node, *length),
            _ => MstrResult::Good(Block::of(&[])),
        }
    }

    // How many words a node passed last, and the first of them.
    fn global_answer(&self, past: &[RingEntry], node: u8, length: u16) -> MstrResult
        requires kept { IsBehind past.now self.now }
        ensures { result ≡ global_answer (heard_words node past.now) length }
    {
        match self.book.get(node) {
            None => global_answer(&[], length as usize),
            Some(words) => global_answer(words, length as usize),
        }
    }

    /// A call that concerns this station alone, where nothing refuses it, with the result that it
    /// comes to. Takes no memory.
    pub fn local(
        &mut self,
        past: &[RingEntry],
        node: u8,
        id: CallId,
        op: &LocalOp,
        outcome: &MstrResult,
    )
        requires kept { IsBehind past.now self.old }
        requires member { IsMember (bare_net self.old) node }
        requires room { HasRoom op.now }
        requires free { free_no (ring_after (bare_net self.old) past.now) node ≡ None }
        requires comes { outcome.now ≡ local_result (bare_net self.old) past.now node op.now }
        ensures { BareMade past.now (RingEntry.Local node id op.now outcome.now) self.old self.new }
    {
        put_global(&mut self.book, node, op);
        count_local(&mut self.stats, node, id, op);
    }

    /// Why a call may not be given up.
    pub fn give_up_no(&self, past: &[RingEntry], id: CallId) -> Option<RingNo>
        requires kept { IsBehind past.now self.now }
        requires member { IsMember (bare_net self.now) id.node }
        ensures { result ≡
            give_up_no (bare_net self.now) (ring_after (bare_net self.now) past.now) id }
    {
        if let Some(why) = self.free_no(past, id.node) {
            return Some(why);
        }
        let part = &self.nodes[id.node as usize];
        let awaits = part.awaits(id.path);
        if let Some(why) = awaits.awaited_no(id.seq) {
            return Some(why);
        }
        if part.is_here() {
            awaits.answer_no(self.plan.answer)
        } else {
            None
        }
    }

    /// The error word of a call that is given up.
    pub fn word_of(&self, past: &[RingEntry], id: CallId) -> u16
        requires kept { IsBehind past.now self.now }
        requires member { IsMember (bare_net self.now) id.node }
        ensures { result ≡
            word_of (bare_net self.now) (ring_after (bare_net self.now) past.now) id }
    {
        let part = &self.nodes[id.node as usize];
        match part.awaits(id.path) {
            Await::Failed { word, .. } => word,
            Await::Out { to, onward, .. } => {
                silence_word(part.is_here() && hears(&self.plan, &self.nodes, to, onward))
            }
            _ => silence_word(false),
        }
    }

    /// Gives a call up, where nothing refuses it. Takes no memory.
    pub fn give_up(&mut self, past: &[RingEntry], id: CallId, word: u16)
        requires kept { IsBehind past.now self.old }
        requires member { IsMember (bare_net self.old) id.node }
        requires path { IsPath id.path }
        requires due { give_up_no (bare_net self.old)
            (ring_after (bare_net self.old) past.now) id ≡ None }
        requires word { word ≡
            word_of (bare_net self.old) (ring_after (bare_net self.old) past.now) id }
        ensures { BareMade past.now (RingEntry.GiveUp id word) self.old self.new }
    {
        let part = &mut self.nodes[id.node as usize];
        part.give_up(id);
        count(&mut self.stats, id.node, StatEvent::GiveUp);
    }

    /// Why the token may not be passed on.
    pub fn pass_no(&self, past: &[RingEntry], node: u8) -> Option<RingNo>
        requires kept { IsBehind past.now self.now }
        requires member { IsMember (bare_net self.now) node }
        ensures { result ≡ pass_no (ring_after (bare_net self.now) past.now) node }
    {
        if let Some(why) = self.turn_no(past, node) {
            return Some(why);
        }
        self.nodes[node as usize].boxes_no()
    }

    /// A copy of the words that go with a node's token.
    pub fn waiting(&self, past: &[RingEntry], node: u8) -> Result<Words, AllocError>
        requires kept { IsBehind past.now self.now }
        requires member { IsMember (bare_net self.now) node }
        ensures { IfOk result (λ words. words ≡ words_put node past.now) }
    {
        match self.book.waiting(node) {
            None => Words::of(self.alloc, &[]),
            Some(words) => Words::of(self.alloc, words),
        }
    }

    /// Passes the token, with the node's global words, to its successor, where nothing refuses it,
    /// and all who ask come in. Takes no memory.
    pub fn pass(&mut self, past: &[RingEntry], node: u8, done: bool, words: &Words)
        requires kept { IsBehind past.now self.old }
        requires member { IsMember (bare_net self.old) node }
        requires free { pass_no (ring_after (bare_net self.old) past.now) node ≡ None }
        requires waiting { words.now ≡ words_put node past.now }
        ensures { BareMade past.now (RingEntry.Pass node done words.now) self.old self.new }
    {
        let part = &mut self.nodes[node as usize];
        part.pass(done);
        self.holder = hand_on(&mut self.nodes, node);
        self.book.heard(node);
        count(&mut self.stats, node, StatEvent::Pass);
    }

    // How much of its cause to leave a node has, and how much it needs.
    fn leave_due(&self, past: &[RingEntry], node: u8, cause: LeaveCause) -> LeaveDue
        requires kept { IsBehind past.now self.now }
        requires member { IsMember (bare_net self.now) node }
        ensures { result ≡ leave_due (bare_net self.now)
            (ring_after (bare_net self.now) past.now) node cause }
    {
        match cause {
            LeaveCause::Ended => LeaveDue {
                held: self.quiet(past, node),
                needed: self.plan.rounds as u64,
            },
            LeaveCause::Spent => LeaveDue {
                held: self.nodes[node as usize].passes(),
                needed: self.plan.holds as u64,
            },
            LeaveCause::Down(down) => LeaveDue {
                held: down as u64,
                needed: self.nodes[node as usize].down() as u64 + 1,
            },
        }
    }

    /// Why a node may not leave.
    pub fn leave_no(&self, past: &[RingEntry], node: u8, cause: LeaveCause) -> Option<RingNo>
        requires kept { IsBehind past.now self.now }
        requires member { IsMember (bare_net self.now) node }
        ensures { result ≡ leave_no (bare_net self.now)
            (ring_after (bare_net self.now) past.now) node cause }
    {
        if let Some(why) = self.turn_no(past, node) {
            return Some(why);
        }
        if let Some(why) = self.nodes[node as usize].cause_boxes_no(cause) {
            return Some(why);
        }
        let due = self.leave_due(past, node, cause);
        due_no(due.held, due.needed)
    }

    /// The node leaves the ring, where nothing refuses it, all who ask come in, and its successor
    /// holds the token. Takes no memory.
    pub fn leave(&mut self, past: &[RingEntry], node: u8, cause: LeaveCause)
        requires kept { IsBehind past.now self.old }
        requires member { IsMember (bare_net self.old) node }
        requires due { leave_no (bare_net self.old)
            (ring_after (bare_net self.old) past.now) node cause ≡ None }
        ensures { BareMade past.now (RingEntry.Leave node cause) self.old self.new }
    {
        lose_words(&mut self.book, node, cause);
        let part = &mut self.nodes[node as usize];
        part.leave(cause);
        self.holder = hand_on(&mut self.nodes, node);
    }

    /// Why a node may not ask to come in again.
    pub fn join_no(&self, past: &[RingEntry], node: u8) -> Option<RingNo>
        requires kept { IsBehind past.now self.now }
        requires member { IsMember (bare_net self.now) node }
        ensures { result ≡ join_no (ring_after (bare_net self.now) past.now) node }
    {
        self.nodes[node as usize].join_no()
    }

    /// The node asks to come in, where nothing refuses it; where nobody holds the token it is in at
    /// once, and holds it. Takes no memory.
    pub fn join(&mut self, past: &[RingEntry], node: u8)
        requires kept { IsBehind past.now self.old }
        requires member { IsMember (bare_net self.old) node }
        requires free { join_no (ring_after (bare_net self.old) past.now) node ≡ None }
        ensures { BareMade past.now (RingEntry.Join node) self.old self.new }
    {
        if is_here(&self.nodes, self.holder) {
            let part = &mut self.nodes[node as usize];
            part.set_status(NodeStatus::Asking);
        } else {
            let part = &mut self.nodes[node as usize];
            part.set_status(NodeStatus::In);
            self.holder = node;
        }
    }
}
