//! What a worker's side of the ring knows without entering the gate.
use crate::meets::Meet;
use std::cell::Cell;
use std::sync::atomic::{AtomicU64, Ordering};

/// What a worker asks its side of the ring without entering the gate.
pub trait Outside {
    /// How often an entry was made through this side.
    fn entries(&self) -> u64;

    /// The node was the last to be given the token, as far as is known outside.
    fn may_hold(&self, node: u8) -> bool;
}

/// Tells of each entry and counts them, and knows where the token went.
pub struct Tally<'a, M: Meet> {
    meet: &'a M,
    token: &'a AtomicU64,
    entries: Cell<u64>,
}

impl<'a, M: Meet> Tally<'a, M> {
    /// Has told of no entry. The word is that of the ring, which all its sides share.
    pub fn new(meet: &'a M, token: &'a AtomicU64) -> Tally<'a, M> {
        Tally {
            meet,
            token,
            entries: Cell::new(0),
        }
    }

    /// An entry was made in this node's name.
    pub fn tell(&self, node: u8) {
        self.entries.set(self.entries.get().wrapping_add(1));
        self.meet.ring_entry(node);
    }

    /// The token went to this node.
    pub fn note(&self, holder: u8) {
        self.token.store(u64::from(holder), Ordering::SeqCst);
    }

    /// Of how many entries it told.
    pub fn entries(&self) -> u64 {
        self.entries.get()
    }

    /// The token went to this node last, as far as is known.
    pub fn may_hold(&self, node: u8) -> bool {
        self.token.load(Ordering::SeqCst) == u64::from(node)
    }
}

impl<M: Meet> Drop for Tally<'_, M> {
    fn drop(self) {
        let Tally {
            meet: _,
            token: _,
            entries: _,
        } = self;
    }
}
