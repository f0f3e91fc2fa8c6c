//! A tape by itself.
ghost use Rattle.std.specs.Prelude.{◌≡◌, ◌++◌, []};
ghost use Rattle.gated_tape.specs.Marks.{mark, added_on, mark_count, IsNext, IsLegalTape};
ghost use Rattle.gated_tape.specs.Marks.{TellsRoom};

use crate::refusals::PutNo;
use std::alloc::{AllocError, Global};
use std::marker::Model;

/// One entry of a tape: the writer's node and a word.
#[derive(Drop, Clone, Copy)]
pub struct Mark {
    pub node: u32,
    pub word: u64,
}

/// At most `limit` marks, in the order in which they were put. The words of each node count up from
/// 0.
#[derive(Drop)]
pub struct Tape {
    limit: u64,
    marks: Vec<Mark>,
}

impl Model for Tape {
    ghost use Rattle.gated_tape.specs.Marks.{TapeFacts, IsLegalTape};

    ghost Value = { TapeFacts };

    ghost view = { λ t. record { limit = t.limit; marks = t.marks.items } };

    ghost invariant = { λ t. IsLegalTape t.limit t.marks.items };
}

impl Tape {
    /// A tape with no mark.
    pub fn new(alloc: Global, limit: u64) -> Tape
        ensures { result ≡ record { limit = limit; marks = [] } }
    {
        Tape {
            limit,
            marks: Vec::new(alloc),
        }
    }

    /// The marks, the oldest first.
    pub fn marks(&self) -> &[Mark]
        ensures marks { result.now ≡ self.now.marks }
        ensures legal { IsLegalTape self.now.limit self.now.marks }
    {
        self.marks.as_slice()
    }

    /// How many marks are the node's. It reads all marks.
    pub fn count(&self, node: u32) -> u64
        ensures { result ≡ mark_count node self.now.marks }
    {
        self.marks.iter().filter(|mark| mark.node == node).count() as u64
    }

    /// Puts a mark at the end, whose word is the number of the node's marks so far. A tape with
    /// `limit` marks is full.
    pub fn put(&mut self, node: u32, word: u64) -> Result<(), PutNo>
        requires { IsNext node word self.old.marks }
        ensures marks { let added = added_on result (mark node word) in
            self.new ≡ record self.old { marks = self.old.marks ++ added } }
        ensures room { TellsRoom self.new.limit result self.new.marks }
    {
        if self.marks.len() as u64 >= self.limit {
            return Err(PutNo::Full);
        }
        self.marks.push(Mark { node, word })?;
        Ok(())
    }
}
