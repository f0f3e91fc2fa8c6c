//! A node's part of the ring.
ghost use Rattle.std.specs.Prelude.{◌≡◌, ◌<◌, ◌≤◌, ◌+◌, ◌^◌, ℕ, List, [], ◌∷◌, ◌++◌, length};
ghost use Rattle.std.specs.Prelude.{get_or};
ghost use Rattle.std.specs.Prelude.{set, drop, filter, not, true, false, OnOk, OnErr, IfOk, IfSome};
ghost use Rattle.std.specs.Prelude.{None, MatchOption, All};
ghost use Rattle.ring_core.specs.Machine.{NodeIs, posted, took, after_pass, gone_by, fresh};
ghost use Rattle.ring_core.specs.Machine.{path_of, is_here, downed, admitted, with_status};
ghost use Rattle.ring_core.specs.Machine.{no_path, awaited_number, CanAge, is_repeat, is_full};
ghost use Rattle.ring_core.specs.Machine.{waits_for, fell, with_frame, heard_by, sent_off, failed};
ghost use Rattle.ring_core.specs.Machine.{gave_up, is_head, silence_word, paths_awaiting};
ghost use Rattle.ring_core.specs.Refusals.{path_no, boxes_no, cause_boxes_no, empty_no};
ghost use Rattle.ring_core.specs.Refusals.{away_no, paths_no, or_no};
ghost use Rattle.ring_core.specs.Legal.{IsFirst, IsNextNumber, TookFirst};
ghost use Rattle.ring_core.specs.Words.{asks_for};

use crate::accepted::Accepted;
use crate::arrival::Fell;
use crate::entry::{Heard, LeaveCause};
use crate::frame::{Frame, FrameKind};
use crate::path::{Await, Path, no_path};
use crate::refusal::{RingNo, or_no};
use crate::status::NodeStatus;
use mstr_block::{CallId, NOBODY_THERE};
use plant_types::{Copied, PATH_PLACES};
use std::alloc::{AllocError, Global};
use std::collections::VecDeque;
use std::marker::Model;

// How often a frame is transmitted at most without being acknowledged, less one.
const LAST_TRY: u8 = 2;

// The most Requests in an inbox.
const INBOX_LIMIT: usize = 4;

// The word of a Request whose target had no room.
const BUSY: u16 = 0x6105;

// The word of a target that hears the frame and says nothing.
const NO_ANSWER: u16 = 0x6101;

pub(crate) struct Node {
    status: NodeStatus,
    // The number of its latest Down; 0 for none.
    down: u32,
    outbox: VecDeque<Frame>,
    tries: u8,
    inbox: VecDeque<Frame>,
    passes: u64,
    done_run: u64,
    paths: Vec<Path>,
    accepted: Accepted,
}

impl Model for Node {
    ghost use Rattle.ring_core.specs.Machine.{NodeIs};
    ghost use Rattle.ring_core.specs.Coded.{coded_node};

    ghost Value = { NodeIs };

    ghost coded = { coded_node };

    ghost view = { λ n. record {
      status = n.status;
      down = n.down;
      outbox = n.outbox.items;
      tries = n.tries;
      inbox = n.inbox.items;
      passes = n.passes;
      done_run = n.done_run;
      paths = n.paths.items;
      accepted = n.accepted;
    } };
}

impl Drop for Node {
    fn drop(self) {
        let Node {
            status: _,
            down: _,
            outbox: _,
            tries: _,
            inbox: _,
            passes: _,
            done_run: _,
            paths: _,
            accepted: _,
        } = self;
    }
}

// The path after a Request was posted on it.
fn asked_path(seq: u32, to: u8, onward: bool) -> Path
    ensures { result ≡ record { awaits = Await.Out seq to onward 0; posted = seq } }
{
    let passes = 0;
    Path {
        awaits: Await::Out {
            seq,
            to,
            onward,
            passes,
        },
        posted: seq,
    }
}

// A path awaits something else. Where there is no such path nothing changes.
fn set_await(paths: &mut Vec<Path>, path: u8, awaits: Await)
    ensures paths { paths.new.items ≡ paths_awaiting paths.old.items path awaits }
    ensures beyond { length paths.old.items ≤ path → paths.new.items ≡ paths.old.items }
{
    let path = path as usize;
    if path < paths.len() {
        paths[path].awaits = awaits;
    }
}

// The Request of a call leaves an outbox.
fn drop_request(outbox: &mut VecDeque<Frame>, id: CallId)
    ensures { outbox.new.items ≡ filter (λ f. not (asks_for id f)) outbox.old.items }
{
    outbox.retain(|frame| !frame.asks_for(id));
}

impl Node {
    /// A node with empty boxes, which is a member or not.
    pub fn new(alloc: Global, here: bool) -> Result<Node, AllocError>
        ensures { IfOk result (λ node. node ≡ fresh here) }
    {
        Ok(Node {
            status: NodeStatus::at_first(here),
            down: 0,
            outbox: VecDeque::new(alloc),
            tries: 0,
            inbox: VecDeque::new(alloc),
            passes: 0,
            done_run: 0,
            paths: vec![in alloc; no_path(); PATH_PLACES]?,
            accepted: Accepted::new(alloc),
        })
    }

    /// Whether it is a member now.
    pub fn is_here(&self) -> bool
        ensures { result ≡ is_here self.now }
    {
        self.status.is_in()
    }

    /// Where it stands toward the ring.
    pub fn status(&self) -> NodeStatus
        ensures { result ≡ self.now.status }
    {
        self.status
    }

    /// The number of its latest Down; 0 for none.
    pub fn down(&self) -> u32
        ensures { result ≡ self.now.down }
    {
        self.down
    }

    /// How often it passed the token on.
    pub fn passes(&self) -> u64
        ensures { result ≡ self.now.passes }
    {
        self.passes
    }

    /// How many of its latest Passes in a row said that it is done.
    pub fn done_run(&self) -> u64
        ensures { result ≡ self.now.done_run }
    {
        self.done_run
    }

    /// What a path awaits; nothing where there is no such path.
    pub fn awaits(&self, path: u8) -> Await
        ensures path { result ≡ (path_of self.now path).awaits }
        ensures beyond { length self.now.paths ≤ path → result ≡ Await.Nothing }
    {
        let path = path as usize;
        if path < self.paths.len() {
            self.paths[path].awaits
        } else {
            Await::Nothing
        }
    }

    // The greatest number that was posted on a path; 0 where there is no such path.
    fn posted(&self, path: u8) -> u32
        ensures path { result ≡ (path_of self.now path).posted }
        ensures beyond { length self.now.paths ≤ path → result ≡ 0 }
    {
        let path = path as usize;
        if path < self.paths.len() {
            self.paths[path].posted
        } else {
            0
        }
    }

    /// Whether a frame's number is above all that were posted on its path.
    pub fn is_next(&self, kind: FrameKind, id: CallId) -> bool
        ensures only { result ≡ true → IsNextNumber self.now kind id }
        ensures all { IsNextNumber self.now kind id → result ≡ true }
    {
        match kind {
            FrameKind::Request => self.posted(id.path) < id.seq,
            FrameKind::Reply => true,
        }
    }

    /// Why a frame's path refuses it, if so.
    pub fn path_no(&self, kind: FrameKind, path: u8) -> Option<RingNo>
        ensures { result ≡ path_no self.now kind path }
    {
        match kind {
            FrameKind::Request => self.awaits(path).taken_no(),
            FrameKind::Reply => None,
        }
    }

    /// Why the token cannot be passed on, if so.
    pub fn boxes_no(&self) -> Option<RingNo>
        ensures { result ≡ boxes_no self.now }
    {
        let unsent = self.outbox.len();
        if unsent > 0 {
            return Some(RingNo::Unsent(unsent as u64));
        }
        let untaken = self.inbox.len();
        if untaken > 0 {
            return Some(RingNo::Untaken(untaken as u64));
        }
        None
    }

    /// Why a node with a cause to leave has to empty a box first, if so.
    pub fn cause_boxes_no(&self, cause: LeaveCause) -> Option<RingNo>
        ensures { result ≡ cause_boxes_no cause self.now }
    {
        match cause {
            LeaveCause::Ended | LeaveCause::Spent => self.boxes_no(),
            LeaveCause::Down(_) => None,
        }
    }

    // Why a node that is not away cannot ask to come in.
    fn away_no(&self) -> Option<RingNo>
        ensures { result ≡ away_no self.now.status }
    {
        match self.status {
            NodeStatus::Away => None,
            NodeStatus::In | NodeStatus::Asking | NodeStatus::Gone => Some(RingNo::NotAway),
        }
    }

    // Why a node whose calls are not given up cannot ask to come in: the first path that waits.
    fn paths_no(&self) -> Option<RingNo>
        ensures { result ≡ paths_no self.now }
    {
        let third = or_no(self.awaits(3).taken_no(), self.awaits(4).taken_no());
        let second = or_no(self.awaits(2).taken_no(), third);
        or_no(self.awaits(1).taken_no(), second)
    }

    /// Why the node cannot ask to come in, if so.
    pub fn join_no(&self) -> Option<RingNo>
        ensures { result ≡ or_no (away_no self.now.status) (paths_no self.now) }
    {
        or_no(self.away_no(), self.paths_no())
    }

    /// Puts a frame last in the outbox.
    pub fn post(&mut self, frame: Frame) -> Result<(), AllocError>
        requires path { frame.kind ≡ FrameKind.Request → frame.id.path < length self.old.paths }
        ensures ok { OnOk result (self.new ≡ posted self.old frame) }
        ensures err { OnErr result (self.new ≡ self.old) }
    {
        let kind = frame.kind;
        let id = frame.id;
        let to = frame.to;
        let onward = frame.is_onward();
        self.outbox.push_back(frame)?;
        if let FrameKind::Request = kind {
            self.paths[id.path as usize] = asked_path(id.seq, to, onward);
        }
        Ok(())
    }

    /// A copy of the first frame in the inbox.
    pub fn first(&self, alloc: Global) -> Result<Option<Frame>, AllocError>
        ensures { IfOk result
            (λ first. MatchOption first (self.now.inbox ≡ []) (IsFirst self.now.inbox)) }
    {
        match self.inbox.front() {
            None => Ok(None),
            Some(frame) => Ok(Some(frame.copied(alloc)?)),
        }
    }

    /// The first frame leaves the inbox.
    pub fn take(&mut self) -> Option<Frame>
        ensures none { result ≡ None → (self.old.inbox ≡ []) × (self.new ≡ self.old) }
        ensures some { IfSome result (TookFirst self.old self.new) }
    {
        let frame = self.inbox.pop_front()?;
        if let FrameKind::Reply = frame.kind {
            set_await(&mut self.paths, frame.id.path, Await::Nothing);
        }
        Some(frame)
    }

    /// A copy of the frame that is sent next.
    pub fn head(&self, alloc: Global) -> Result<Option<Frame>, AllocError>
        ensures head { IfOk result
            (λ head. MatchOption head (self.now.outbox ≡ []) (IsFirst self.now.outbox)) }
        ensures some { OnErr result (empty_no self.now.outbox ≡ None) }
    {
        match self.outbox.front() {
            None => Ok(None),
            Some(frame) => Ok(Some(frame.copied(alloc)?)),
        }
    }

    fn is_repeat(&self, id: CallId) -> bool
        ensures { result ≡ is_repeat self.now id }
    {
        let greatest = self.accepted.greatest(id);
        id.seq <= greatest
    }

    fn is_full(&self) -> bool
        ensures { result ≡ is_full self.now }
    {
        self.inbox.iter().filter(|frame| frame.is_request()).count() >= INBOX_LIMIT
    }

    fn waits_for(&self, id: CallId) -> bool
        ensures { result ≡ waits_for (path_of self.now id.path).awaits id.seq }
    {
        match self.awaits(id.path) {
            Await::Out { seq, .. } => seq == id.seq,
            _ => false,
        }
    }

    /// What becomes of a frame that arrives.
    pub fn fell(&self, kind: FrameKind, id: CallId) -> Fell
        ensures { result ≡ fell self.now kind id }
    {
        match kind {
            FrameKind::Request => {
                if self.is_repeat(id) {
                    return Fell::RepeatedRequest;
                }
                if self.is_full() {
                    Fell::CrowdedOut
                } else {
                    Fell::AcceptedRequest
                }
            }
            FrameKind::Reply => {
                if self.waits_for(id) {
                    Fell::AcceptedReply
                } else {
                    Fell::DroppedReply
                }
            }
        }
    }

    fn accept_request(&mut self, frame: Frame) -> Result<(), AllocError>
        ensures ok { OnOk result (self.new ≡ with_frame self.old Fell.AcceptedRequest frame) }
        ensures err { OnErr result (self.new ≡ self.old) }
    {
        let id = frame.id;
        self.inbox.reserve(1)?;
        self.accepted.accept(id)?;
        let _ = self.inbox.push_back(frame);
        Ok(())
    }

    fn accept_reply(&mut self, frame: Frame) -> Result<(), AllocError>
        ensures ok { OnOk result (self.new ≡ with_frame self.old Fell.AcceptedReply frame) }
        ensures err { OnErr result (self.new ≡ self.old) }
    {
        let id = frame.id;
        self.inbox.push_back(frame)?;
        set_await(&mut self.paths, id.path, Await::Arrived(id.seq));
        Ok(())
    }

    /// A frame arrives.
    pub fn receive(&mut self, fell: Fell, frame: Frame) -> Result<(), AllocError>
        ensures ok { OnOk result (self.new ≡ with_frame self.old fell frame) }
        ensures err { OnErr result (self.new ≡ self.old) }
    {
        match fell {
            Fell::AcceptedRequest => self.accept_request(frame),
            Fell::AcceptedReply => self.accept_reply(frame),
            _ => Ok(()),
        }
    }

    // The head frame leaves the outbox, and a Request fails.
    fn fail(&mut self, kind: FrameKind, id: CallId, word: u16)
        ensures { self.new ≡ sent_off self.old (failed self.old kind id word) }
    {
        let _ = self.outbox.pop_front();
        self.tries = 0;
        if let FrameKind::Request = kind {
            set_await(
                &mut self.paths,
                id.path,
                Await::Failed { seq: id.seq, word },
            );
        }
    }

    /// What was told of the head frame.
    pub fn hear(&mut self, kind: FrameKind, id: CallId, there: bool, heard: Heard)
        ensures { self.new ≡ heard_by self.old kind id there heard }
    {
        match heard {
            Heard::Acked => {
                let _ = self.outbox.pop_front();
                self.tries = 0;
            }
            Heard::Busy => self.fail(kind, id, BUSY),
            Heard::Silent => {
                if self.tries >= LAST_TRY {
                    self.fail(kind, id, silence_word(there));
                } else {
                    self.tries += 1;
                }
            }
        }
    }

    // The call's Request is the head of the outbox.
    fn is_head(&self, id: CallId) -> bool
        ensures { result ≡ is_head id self.now.outbox }
    {
        match self.outbox.front() {
            None => false,
            Some(frame) => frame.asks_for(id),
        }
    }

    /// A call is given up.
    pub fn give_up(&mut self, id: CallId)
        ensures { self.new ≡ gave_up self.old id }
    {
        if self.is_head(id) {
            self.tries = 0;
        }
        drop_request(&mut self.outbox, id);
        set_await(&mut self.paths, id.path, Await::Nothing);
    }

    /// The node passes the token on.
    pub fn pass(&mut self, done: bool)
        requires passes { self.old.passes + 1 < 2 ^ 64 }
        requires done_run { self.old.done_run + 1 < 2 ^ 64 }
        requires waits { All CanAge self.old.paths }
        ensures { self.new ≡ after_pass self.old done }
    {
        self.passes += 1;
        self.done_run = if done { self.done_run + 1 } else { 0 };
        for path in self.paths.iter_mut() {
            *path = path.aged();
        }
    }

    // Power fails: what was to be sent is lost, and the row of Passes that said done is over.
    fn lose(&mut self, down: u32)
        ensures { self.new ≡ downed self.old down }
    {
        self.status = NodeStatus::Away;
        self.down = down;
        self.outbox.clear();
        self.tries = 0;
        self.inbox.clear();
        self.done_run = 0;
    }

    /// The node leaves.
    pub fn leave(&mut self, cause: LeaveCause)
        ensures { self.new ≡ gone_by cause self.old }
    {
        match cause {
            LeaveCause::Ended | LeaveCause::Spent => {
                self.status = NodeStatus::Gone;
                self.inbox.clear();
            }
            LeaveCause::Down(down) => self.lose(down),
        }
    }

    /// The node has another status.
    pub fn set_status(&mut self, status: NodeStatus)
        ensures { self.new ≡ with_status self.old status }
    {
        self.status = status;
    }

    /// The node comes in if it asks.
    pub fn admit(&mut self)
        ensures { self.new ≡ admitted self.old }
    {
        self.status = self.status.admitted();
    }
}

// The word of a target that says nothing.
pub(crate) fn silence_word(there: bool) -> u16
    ensures { result ≡ silence_word there }
{
    if there { NO_ANSWER } else { NOBODY_THERE }
}
