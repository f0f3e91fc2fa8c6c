//! A `Vec` that contracts see as a list.
ghost use Rattle.std.specs.Prelude.{◌≡◌, ◌<◌, List as Items, [], ◌∷◌, ◌++◌, length, Some};
ghost use Rattle.std.specs.Prelude.{OnOk, OnErr, IfNone, option_to_list, slice_get, slice_set};

use std::alloc::{AllocError, Global};
use std::marker::Model;
use std::mem;

/// A growing list. This project's own.
pub struct List<T> {
    items: Vec<T>,
}

impl<T> Model for List<T> {
    ghost Value = { Items T };

    ghost view = { λ l. l.items.items };
}

impl<T: Drop> Drop for List<T> {
    fn drop(self) {
        let List { items: _ } = self;
    }
}

impl<T> List<T> {
    /// A list of nothing, which takes no memory.
    pub fn new(alloc: Global) -> List<T>
        ensures { result ≡ [] }
    {
        List {
            items: Vec::new(alloc),
        }
    }

    /// The list of these items; takes no memory.
    pub fn from_vec(items: Vec<T>) -> List<T>
        ensures { result ≡ items.items }
    {
        List { items }
    }

    /// Its items, the first one first.
    pub fn as_slice(&self) -> &[T]
        ensures { result.now ≡ self.now }
    {
        self.items.as_slice()
    }

    /// Puts an item last. Where memory is refused the item is dropped.
    pub fn push(&mut self, item: T) -> Result<(), AllocError>
    where
        T: Drop,
        ensures ok { OnOk result (self.new ≡ self.old ++ item ∷ []) }
        ensures err { OnErr result (self.new ≡ self.old) }
    {
        self.items.push(item)?;
        Ok(())
    }

    /// Takes the last item out, where there is one.
    pub fn pop(&mut self) -> Option<T>
        ensures items { self.old ≡ self.new ++ option_to_list result }
        ensures empty { IfNone result (self.old ≡ []) }
    {
        self.items.pop()
    }

    /// Puts an item at a place, counted from 0, and gives back the one that stood there. Takes no
    /// memory.
    pub fn replace(&mut self, at: usize, item: T) -> T
        requires { at < length self.old }
        ensures items { self.new ≡ slice_set self.old at item }
        ensures given { slice_get self.old at ≡ Some result }
    {
        mem::replace(&mut self.items[at], item)
    }
}
