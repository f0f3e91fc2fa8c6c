//! A book of the global words, by node.
ghost use Rattle.std.specs.Prelude.{◌≡◌, ◌≤◌, [], length, true, is_some, None, IfOk, IfSome};
ghost use Rattle.std.specs.FinMap.{contains_key};
ghost use Rattle.global_data.specs.Book.{words_at, with_put, with_passed, new_book};
ghost use Rattle.plant_types.specs.Words.{global_limit};

use crate::words::GlobalWords;
use std::alloc::{AllocError, Global};
use std::collections::BTreeMap;
use std::marker::Model;

/// The words that each member put, and those that went with its latest token
/// (*Modbus Plus Network Planning and Installation Guide*).
#[derive(Drop)]
pub struct GlobalBook {
    words: BTreeMap<u8, GlobalWords>,
}

impl Model for GlobalBook {
    ghost use Rattle.std.specs.FinMap.{from_entries};
    ghost use Rattle.global_data.specs.Book.{Book};
    ghost use Rattle.global_data.specs.Coded.{coded_book};

    ghost Value = { Book };

    ghost coded = { coded_book };

    ghost view = { λ b. from_entries b.words.entries };
}

impl GlobalBook {
    /// A book in which no member has put anything.
    pub fn new(alloc: Global, members: &[u8]) -> Result<GlobalBook, AllocError>
        ensures { IfOk result (λ book. book ≡ new_book members.now) }
    {
        let mut words = BTreeMap::new(alloc);
        for member in members {
            words.insert(*member, GlobalWords::new())?;
        }
        Ok(GlobalBook { words })
    }

    /// A member puts words, at most 32. Takes no memory.
    pub fn put(&mut self, node: u8, words: &[u16])
        requires member { contains_key self.old node ≡ true }
        requires words { length words.now ≤ global_limit }
        ensures { self.new ≡ with_put self.old node words.now }
    {
        if let Some(own) = self.words.get_mut(&node) {
            own.put(words);
        }
    }

    /// A member passes its token: the words that it has put are heard. Takes no memory.
    pub fn heard(&mut self, node: u8)
        requires member { contains_key self.old node ≡ true }
        ensures { self.new ≡ with_passed self.old node }
    {
        if let Some(own) = self.words.get_mut(&node) {
            own.pass();
        }
    }

    /// The words that went with a member's latest token; None exactly where it is no member.
    pub fn get(&self, node: u8) -> Option<&[u16]>
        ensures words { IfSome result (λ words. words.now ≡ (words_at self.now node).heard) }
        ensures fits { IfSome result (λ words. length words.now ≤ global_limit) }
        ensures none { result ≡ None → (words_at self.now node).heard ≡ [] }
        ensures member { is_some result ≡ contains_key self.now node }
    {
        match self.words.get(&node) {
            None => None,
            Some(own) => Some(own.heard()),
        }
    }

    /// The words that go with a member's next token; None exactly where it is no member.
    pub fn waiting(&self, node: u8) -> Option<&[u16]>
        ensures words { IfSome result (λ words. words.now ≡ (words_at self.now node).put) }
        ensures none { result ≡ None → (words_at self.now node).put ≡ [] }
        ensures member { is_some result ≡ contains_key self.now node }
    {
        match self.words.get(&node) {
            None => None,
            Some(own) => Some(own.waiting()),
        }
    }
}
