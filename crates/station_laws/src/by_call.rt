//! Values by the name of a call.
ghost use Rattle.std.specs.Prelude.{◌≡◌, None, Some, OnOk, MatchOption};
ghost use Rattle.mstr_block.specs.declared.call.CallId.{CallId as Name};
ghost use Rattle.station_laws.specs.Named.{Puts, value_of_call};

use mstr_block::CallId;
use std::alloc::{AllocError, Global};
use std::collections::BTreeMap;

/// A value for each of some calls.
#[derive(Drop)]
pub struct ByCall<T> {
    pub values: BTreeMap<(u8, (u8, u32)), T>,
}

impl<T: Drop> ByCall<T> {
    /// No call has a value.
    pub fn new(alloc: Global) -> ByCall<T>
        ensures { (q : Name) → value_of_call result q ≡ None }
    {
        ByCall {
            values: BTreeMap::new(alloc),
        }
    }

    /// The value of a call.
    pub fn get(&self, id: CallId) -> Option<&T>
        ensures { MatchOption result (value_of_call self.now id ≡ None)
            (λ found. value_of_call self.now id ≡ Some found.now) }
    {
        self.values.get(&(id.node, (id.path, id.seq)))
    }

    /// Gives a call a value, in place of an earlier one.
    pub fn put(&mut self, id: CallId, value: T) -> Result<(), AllocError>
        ensures { OnOk result (Puts self.old id value self.new) }
    {
        match self.values.insert((id.node, (id.path, id.seq)), value) {
            Ok(_) => Ok(()),
            Err(_) => Err(AllocError),
        }
    }
}
