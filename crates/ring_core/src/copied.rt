//! Copies of frames and entries.
use crate::entry::{Heard, LeaveCause, LocalOp, RingEntry};
use crate::frame::Frame;
use plant_types::Copied;
use std::alloc::{AllocError, Global};

impl Copied for Frame {
    fn copied(&self, alloc: Global) -> Result<Self, AllocError> {
        Ok(Frame {
            kind: self.kind,
            to: self.to,
            rest: self.rest,
            id: self.id,
            pdu: self.pdu.copied(alloc)?,
        })
    }
}

impl Copied for LocalOp {
    fn copied(&self, alloc: Global) -> Result<Self, AllocError> {
        match self {
            LocalOp::GetStats => Ok(LocalOp::GetStats),
            LocalOp::ClearStats => Ok(LocalOp::ClearStats),
            LocalOp::PutGlobal(words) => Ok(LocalOp::PutGlobal(words.copied(alloc)?)),
            LocalOp::GetGlobal { node, length } => Ok(LocalOp::GetGlobal {
                node: *node,
                length: *length,
            }),
            LocalOp::RemoteGet => Ok(LocalOp::RemoteGet),
            LocalOp::RemoteClear => Ok(LocalOp::RemoteClear),
        }
    }
}

impl Copied for RingEntry {
    fn copied(&self, alloc: Global) -> Result<Self, AllocError> {
        match self {
            RingEntry::Post { node, frame } => Ok(RingEntry::Post {
                node: *node,
                frame: frame.copied(alloc)?,
            }),
            &RingEntry::Send { node, heard } => Ok(RingEntry::Send { node, heard }),
            RingEntry::Take { node, frame } => Ok(RingEntry::Take {
                node: *node,
                frame: frame.copied(alloc)?,
            }),
            RingEntry::Local {
                node,
                id,
                op,
                result,
            } => Ok(RingEntry::Local {
                node: *node,
                id: *id,
                op: op.copied(alloc)?,
                result: result.copied(alloc)?,
            }),
            &RingEntry::GiveUp { id, word } => Ok(RingEntry::GiveUp { id, word }),
            RingEntry::Pass { node, done, words } => Ok(RingEntry::Pass {
                node: *node,
                done: *done,
                words: words.copied(alloc)?,
            }),
            &RingEntry::Leave { node, cause } => Ok(RingEntry::Leave { node, cause }),
            &RingEntry::Join { node } => Ok(RingEntry::Join { node }),
        }
    }
}
