//! What happens on the ring.
ghost use Rattle.std.specs.Prelude.{◌≡◌, ◌↔◌, IsTrue};

use crate::frame::Frame;
use mstr_block::{CallId, MstrResult};
use plant_types::Words;

/// A call that concerns the own station, or one that another node asked for
/// (*Modicon Ladder Logic Block Library User Guide*).
pub enum LocalOp {
    GetStats,
    ClearStats,
    /// At most 32 words.
    PutGlobal(Words),
    GetGlobal { node: u8, length: u16 },
    /// The statistics for another node.
    RemoteGet,
    RemoteClear,
}

impl Drop for LocalOp {
    fn drop(self) {
        match self {
            LocalOp::GetStats
            | LocalOp::ClearStats
            | LocalOp::PutGlobal(_)
            | LocalOp::GetGlobal { node: _, length: _ }
            | LocalOp::RemoteGet
            | LocalOp::RemoteClear => {}
        }
    }
}

impl LocalOp {
    /// Whether two operations are one.
    pub fn is_same(&self, other: &LocalOp) -> bool
        ensures { IsTrue result ↔ (self.now ≡ other.now) }
    {
        match self {
            LocalOp::GetStats => matches!(other, LocalOp::GetStats),
            LocalOp::ClearStats => matches!(other, LocalOp::ClearStats),
            LocalOp::PutGlobal(words) => match other {
                LocalOp::PutGlobal(others) => words.words() == others.words(),
                _ => false,
            },
            LocalOp::GetGlobal { node, length } => match other {
                LocalOp::GetGlobal {
                    node: from,
                    length: most,
                } => *node == *from && *length == *most,
                _ => false,
            },
            LocalOp::RemoteGet => matches!(other, LocalOp::RemoteGet),
            LocalOp::RemoteClear => matches!(other, LocalOp::RemoteClear),
        }
    }
}

/// What a sender is told of its transmission.
#[derive(Clone, Copy, Debug, Drop, PartialEq, Eq)]
pub enum Heard {
    Acked,
    Silent,
    /// The target's inbox is full.
    Busy,
}

/// Why a node leaves. This project's own.
#[derive(Clone, Copy, Debug, Drop, PartialEq, Eq)]
pub enum LeaveCause {
    /// All members have had nothing to do for some rounds.
    Ended,
    /// Its Passes are used up.
    Spent,
    /// Its power failed, for so many times by now.
    Down(u32),
}

/// One thing that happened on the ring.
pub enum RingEntry {
    Post {
        node: u8,
        frame: Frame,
    },
    Send {
        node: u8,
        heard: Heard,
    },
    Take {
        node: u8,
        frame: Frame,
    },
    Local {
        node: u8,
        id: CallId,
        op: LocalOp,
        result: MstrResult,
    },
    /// The caller's node is that of the id.
    GiveUp {
        id: CallId,
        word: u16,
    },
    /// `words` are the global words that go with the token.
    Pass {
        node: u8,
        done: bool,
        words: Words,
    },
    Leave {
        node: u8,
        cause: LeaveCause,
    },
    /// A node that lost its power asks to come in again.
    Join {
        node: u8,
    },
}

impl Drop for RingEntry {
    fn drop(self) {
        match self {
            RingEntry::Post { node: _, frame: _ }
            | RingEntry::Send { node: _, heard: _ }
            | RingEntry::Take { node: _, frame: _ }
            | RingEntry::Local {
                node: _,
                id: _,
                op: _,
                result: _,
            }
            | RingEntry::GiveUp { id: _, word: _ }
            | RingEntry::Pass {
                node: _,
                done: _,
                words: _,
            }
            | RingEntry::Leave { node: _, cause: _ }
            | RingEntry::Join { node: _ } => {}
        }
    }
}
