//! A `Vec` of bytes that contracts see as a list.
ghost use Rattle.std.specs.Prelude.{◌≡◌};

use std::marker::Model;

/// Bytes. This project's own.
pub struct Words8 {
    items: Vec<u8>,
}

impl Model for Words8 {
    ghost use Rattle.std.specs.Prelude.{ℕ, List};

    ghost Value = { List ℕ };

    ghost view = { λ w. w.items.items };
}

impl Drop for Words8 {
    fn drop(self) {
        let Words8 { items: _ } = self;
    }
}

impl Words8 {
    /// These bytes; takes no memory.
    pub(crate) fn of(items: Vec<u8>) -> Words8
        ensures { result ≡ items.items }
    {
        Words8 { items }
    }

    /// Its bytes, the first one first.
    pub fn bytes(&self) -> &[u8]
        ensures { result.now ≡ self.now }
    {
        self.items.as_slice()
    }

    /// The bytes alone; takes no memory.
    pub fn into_vec(self) -> Vec<u8>
        ensures { result.items ≡ self }
    {
        let Words8 { items } = self;
        items
    }
}
