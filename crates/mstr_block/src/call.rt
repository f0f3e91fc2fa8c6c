//! Calls, their names and their results.
ghost use Rattle.std.specs.Prelude.{◌≡◌};
ghost use Rattle.mstr_block.specs.Call.{is_same_call, words_told};

use plant_types::{Block, Copied, Route};
use std::alloc::{AllocError, Global};

/// The name of a call: who calls, on which of its paths, and its number there.
/// The four paths are those of the *Modbus Plus Network Planning and Installation Guide*; paths of
/// an MSTR call's own station are 0. The number is this project's own.
#[derive(Clone, Copy, Debug, Drop, PartialEq, Eq)]
pub struct CallId {
    /// The caller's address, 1 to 64.
    pub node: u8,
    /// 1 to 4, or 0 for a call of the own station.
    pub path: u8,
    /// From 1 on, rising.
    pub seq: u32,
}

/// What an MSTR block asks for (*Modicon Ladder Logic Block Library User Guide*).
#[derive(Drop)]
pub enum MstrAsk {
    /// These words into the holding registers of another node from `start` on.
    Write {
        route: Route,
        start: u16,
        words: Block,
    },
    /// As many holding registers of another node from `start` on.
    Read {
        route: Route,
        start: u16,
        length: u16,
    },
    /// The own statistics.
    LocalStats,
    /// The own statistics from zero on.
    ClearLocal,
    /// These words, at most 32, with the own token from then on.
    PutGlobal(Block),
    /// As many of the words that a node passed with its token.
    GetGlobal {
        node: u8,
        length: u16,
    },
    /// The statistics of another node.
    RemoteStats {
        route: Route,
    },
    /// The statistics of another node from zero on.
    ClearRemote {
        route: Route,
    },
}

/// A call that an MSTR block started.
#[derive(Drop)]
pub struct MstrCall {
    pub id: CallId,
    pub ask: MstrAsk,
}

/// The error word of a call whose target is no member, or does not hear its frame.
pub const NOBODY_THERE: u16 = 0x6103;

/// How a call ended: with words, or with an error word.
#[derive(Drop)]
pub enum MstrResult {
    Good(Block),
    Bad(u16),
}

impl CallId {
    /// Whether two names name one call.
    pub fn is_same(self, other: CallId) -> bool
        ensures { result ≡ is_same_call self other }
    {
        self.node == other.node && (self.path == other.path && self.seq == other.seq)
    }
}

impl MstrResult {
    /// Its words, or none of them where it is an error word.
    pub fn words_told(&self) -> &[u16]
        ensures { result.now ≡ words_told self.now }
    {
        match self {
            MstrResult::Good(words) => words.words(),
            MstrResult::Bad(_) => &[],
        }
    }
}

impl Copied for CallId {
    fn copied(&self, _: Global) -> Result<Self, AllocError> {
        Ok(*self)
    }
}

// Copies that take no memory.

impl MstrAsk {
    pub(crate) fn again(&self) -> MstrAsk
        ensures { result ≡ self.now }
    {
        match self {
            MstrAsk::Write {
                route,
                start,
                words,
            } => MstrAsk::Write {
                route: *route,
                start: *start,
                words: Block::of(words.words()),
            },
            MstrAsk::Read {
                route,
                start,
                length,
            } => MstrAsk::Read {
                route: *route,
                start: *start,
                length: *length,
            },
            MstrAsk::LocalStats => MstrAsk::LocalStats,
            MstrAsk::ClearLocal => MstrAsk::ClearLocal,
            MstrAsk::PutGlobal(words) => MstrAsk::PutGlobal(Block::of(words.words())),
            MstrAsk::GetGlobal { node, length } => MstrAsk::GetGlobal {
                node: *node,
                length: *length,
            },
            MstrAsk::RemoteStats { route } => MstrAsk::RemoteStats { route: *route },
            MstrAsk::ClearRemote { route } => MstrAsk::ClearRemote { route: *route },
        }
    }
}

impl MstrResult {
    pub(crate) fn again(&self) -> MstrResult
        ensures { result ≡ self.now }
    {
        match self {
            MstrResult::Good(words) => MstrResult::Good(Block::of(words.words())),
            MstrResult::Bad(word) => MstrResult::Bad(*word),
        }
    }
}

impl Copied for MstrAsk {
    fn copied(&self, _: Global) -> Result<Self, AllocError> {
        Ok(self.again())
    }
}

impl Copied for MstrCall {
    fn copied(&self, _: Global) -> Result<Self, AllocError> {
        Ok(MstrCall {
            id: self.id,
            ask: self.ask.again(),
        })
    }
}

impl Copied for MstrResult {
    fn copied(&self, _: Global) -> Result<Self, AllocError> {
        Ok(self.again())
    }
}
