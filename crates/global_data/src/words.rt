//! The global words of one node.
ghost use Rattle.std.specs.Prelude.{◌≡◌, ◌≤◌, length};
ghost use Rattle.global_data.specs.Book.{GlobalIs, no_words};
ghost use Rattle.plant_types.specs.Words.{global_limit};

use plant_types::Block;
use std::marker::Model;

// What a node put, and what went with its latest token: at most 32 words each.
#[derive(Drop)]
pub(crate) struct GlobalWords {
    put: Block,
    heard: Block,
}

impl Model for GlobalWords {
    ghost use Rattle.std.specs.Prelude.{◌≤◌, length};
    ghost use Rattle.global_data.specs.Book.{GlobalIs};
    ghost use Rattle.plant_types.specs.Words.{global_limit};

    ghost Value = { GlobalIs };

    ghost view = { λ w. record { put = w.put; heard = w.heard } };

    ghost invariant = { λ w. (length w.put ≤ global_limit) × (length w.heard ≤ global_limit) };
}

impl GlobalWords {
    /// No words.
    pub fn new() -> GlobalWords
        ensures { result ≡ no_words }
    {
        GlobalWords {
            put: Block::of(&[]),
            heard: Block::of(&[]),
        }
    }

    /// Puts words, at most 32, in the place of those put before.
    pub fn put(&mut self, words: &[u16])
        requires { length words.now ≤ global_limit }
        ensures { self.new ≡ record { put = words.now; heard = self.old.heard } }
    {
        self.put = Block::of(words);
    }

    /// The words that were put go with the token.
    pub fn pass(&mut self)
        ensures { self.new ≡ record { put = self.old.put; heard = self.old.put } }
    {
        self.heard = Block::of(self.put.words());
    }

    /// The words that were put.
    pub fn waiting(&self) -> &[u16]
        ensures words { result.now ≡ self.now.put }
        ensures fits { length self.now.put ≤ global_limit }
    {
        self.put.words()
    }

    /// The words that went with the latest token.
    pub fn heard(&self) -> &[u16]
        ensures words { result.now ≡ self.now.heard }
        ensures fits { length self.now.heard ≤ global_limit }
    {
        self.heard.words()
    }
}
