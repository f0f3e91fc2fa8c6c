//! The numbers of the Requests that a node has accepted.
ghost use Rattle.std.specs.Prelude.{◌≡◌, OnOk, OnErr};
ghost use Rattle.std.specs.FinMap.{empty};
ghost use Rattle.ring_core.specs.Machine.{accepted_of, accepting};

use mstr_block::CallId;
use std::alloc::{AllocError, Global};
use std::collections::BTreeMap;
use std::marker::Model;

// The greatest number that was accepted of each source: the node that asks, and its path.
#[derive(Drop)]
pub(crate) struct Accepted {
    numbers: BTreeMap<(u8, u8), u32>,
}

impl Model for Accepted {
    ghost use Rattle.std.specs.FinMap.{from_entries};
    ghost use Rattle.ring_core.specs.Machine.{AcceptedIs};
    ghost use Rattle.ring_core.specs.Coded.{coded_accepted};

    ghost Value = { AcceptedIs };

    ghost coded = { coded_accepted };

    ghost view = { λ a. from_entries a.numbers.entries };
}

impl Accepted {
    /// Nothing is accepted yet. Takes no memory.
    pub fn new(alloc: Global) -> Accepted
        ensures { result ≡ empty }
    {
        Accepted {
            numbers: BTreeMap::new(alloc),
        }
    }

    /// The greatest number that was accepted of a Request's source; 0 for none.
    pub fn greatest(&self, id: CallId) -> u32
        ensures { result ≡ accepted_of self.now id }
    {
        self.numbers.get(&(id.node, id.path)).copied().unwrap_or(0)
    }

    /// A Request is accepted.
    pub fn accept(&mut self, id: CallId) -> Result<(), AllocError>
        ensures ok { OnOk result (self.new ≡ accepting self.old id) }
        ensures err { OnErr result (self.new ≡ self.old) }
    {
        self.numbers.insert((id.node, id.path), id.seq)?;
        Ok(())
    }
}
