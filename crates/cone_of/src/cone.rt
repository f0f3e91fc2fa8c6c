//! A set of references.
ghost use Rattle.std.specs.Prelude.{◌≡◌, OnOk};
ghost use Rattle.std.specs.List.{list_all, list_any};
ghost use Rattle.std.specs.FinSet.{contains, empty, insert};
ghost use Rattle.cone_of.specs.Growing.{AddsAll};

use plant_types::Ref;
use std::alloc::{AllocError, Global};
use std::collections::BTreeSet;
use std::marker::Model;

/// The references that can matter to what is asked. This project's own.
#[derive(Drop)]
pub struct Cone {
    refs: BTreeSet<Ref>,
}

impl Model for Cone {
    ghost use Rattle.std.specs.FinSet.{code, from_list};
    ghost use Rattle.plant_types.specs.Discretes.{Refs};
    ghost use Rattle.plant_types.specs.MapRam.{coded_ref};

    ghost Value = { Refs };

    ghost coded = { code coded_ref };

    ghost view = { λ c. from_list c.refs.keys };
}

impl Cone {
    /// No reference; takes no memory.
    pub(crate) fn new(alloc: Global) -> Cone
        ensures { result ≡ empty }
    {
        Cone {
            refs: BTreeSet::new(alloc),
        }
    }

    /// Whether it has a reference.
    pub fn has(&self, at: Ref) -> bool
        ensures { result ≡ contains self.now at }
    {
        self.refs.contains(&at)
    }

    /// Takes a reference in.
    pub(crate) fn add(&mut self, at: Ref) -> Result<(), AllocError>
        ensures { OnOk result (self.new ≡ insert self.old at) }
    {
        self.refs.insert(at)?;
        Ok(())
    }

    /// Whether it has all of these.
    pub(crate) fn has_all(&self, refs: &[Ref]) -> bool
        ensures { result ≡ list_all (contains self.now) refs.now }
    {
        refs.iter().all(|at| self.has(*at))
    }

    /// Whether it has one of these.
    pub(crate) fn has_any(&self, refs: &[Ref]) -> bool
        ensures { result ≡ list_any (contains self.now) refs.now }
    {
        refs.iter().any(|at| self.has(*at))
    }

    /// Takes all of these in.
    pub(crate) fn add_all(&mut self, refs: &[Ref]) -> Result<(), AllocError>
        ensures { OnOk result (AddsAll refs.now self.old self.new) }
    {
        for at in refs {
            self.add(*at)?;
        }
        Ok(())
    }
}
