//! Copies of calls and entries.
use crate::call::{Call, CallKind};
use crate::entry::Entry;
use plant_types::Copied;
use std::alloc::{AllocError, Global};

impl Copied for CallKind {
    fn copied(&self, alloc: Global) -> Result<Self, AllocError> {
        match self {
            CallKind::Net { route, pdu } => Ok(CallKind::Net {
                route: *route,
                pdu: pdu.copied(alloc)?,
            }),
            CallKind::Local(op) => Ok(CallKind::Local(op.copied(alloc)?)),
        }
    }
}

impl Copied for Call {
    fn copied(&self, alloc: Global) -> Result<Self, AllocError> {
        Ok(Call {
            id: self.id,
            kind: self.kind.copied(alloc)?,
        })
    }
}

impl Copied for Entry {
    fn copied(&self, alloc: Global) -> Result<Self, AllocError> {
        match self {
            Entry::Begin => Ok(Entry::Begin),
            Entry::Input(row) => Ok(Entry::Input(*row)),
            Entry::Solve(row) => Ok(Entry::Solve(*row)),
            Entry::Output { row, words } => Ok(Entry::Output {
                row: *row,
                words: words.copied(alloc)?,
            }),
            Entry::End => Ok(Entry::End),
            Entry::Fail => Ok(Entry::Fail),
            Entry::Dark => Ok(Entry::Dark),
            Entry::Collect(calls) => Ok(Entry::Collect(calls.copied(alloc)?)),
            Entry::Peer { id, request, reply } => Ok(Entry::Peer {
                id: *id,
                request: request.copied(alloc)?,
                reply: reply.copied(alloc)?,
            }),
            Entry::Off { id, request } => Ok(Entry::Off {
                id: *id,
                request: request.copied(alloc)?,
            }),
            Entry::Finish { id, result } => Ok(Entry::Finish {
                id: *id,
                result: result.copied(alloc)?,
            }),
        }
    }
}
