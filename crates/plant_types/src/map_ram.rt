//! The plain store: an ordered map.
ghost use Rattle.std.specs.Prelude.{◌≡◌, true, Some, IfOk, OnOk};
ghost use Rattle.std.specs.BTreeMap as tree;
ghost use Rattle.std.specs.FinMap as map;
ghost use Rattle.plant_types.specs.Discretes.{DiscretesAreOn};
ghost use Rattle.plant_types.specs.MapRam.{AddsZeros};
ghost use Rattle.plant_types.specs.Sizes.{cleared, sizes_from, StartsCleared, DiscretesFollow};
ghost use Rattle.plant_types.specs.Store.{Keeps, part_within};

use crate::reference::{Ref, RefKind};
use crate::store::RefStore;
use std::alloc::{AllocError, Global};
use std::collections::BTreeMap;
use std::marker::Model;

/// A store over a `BTreeMap`. Its sets take no memory. This project's own.
#[derive(Drop)]
pub struct MapRam {
    values: BTreeMap<Ref, u16>,
}

impl Model for MapRam {
    ghost use Rattle.std.specs.FinMap as map;
    ghost use Rattle.plant_types.specs.Store.{Contents};
    ghost use Rattle.plant_types.specs.MapRam.{coded_contents};

    ghost Value = { Contents };

    ghost coded = { coded_contents };

    ghost view = { λ a. map.from_entries a.values.entries };
}

/// Adds the references of a kind from 1 to a number, each 0.
fn add_zeros(values: &mut BTreeMap<Ref, u16>, kind: RefKind, count: u16) -> Result<(), AllocError>
    ensures { OnOk result (AddsZeros kind count values.old values.new) }
{
    for number in 0..count {
        let number = number + 1;
        values.insert(Ref { kind, number }, 0)?;
    }
    Ok(())
}

impl MapRam {
    /// A store with all references of these sizes, each 0.
    pub fn new(
        alloc: Global,
        coils: u16,
        inputs: u16,
        input_registers: u16,
        registers: u16,
    ) -> Result<MapRam, AllocError>
        ensures { IfOk result (λ ram.
            ram ≡ cleared (sizes_from coils inputs input_registers registers)) }
    {
        let mut values = BTreeMap::new(alloc);
        add_zeros(&mut values, RefKind::Register, registers)?;
        add_zeros(&mut values, RefKind::InputRegister, input_registers)?;
        add_zeros(&mut values, RefKind::Input, inputs)?;
        add_zeros(&mut values, RefKind::Coil, coils)?;
        Ok(MapRam { values })
    }

    /// Each reference of this store takes the number that it has in another. Takes no memory.
    pub fn copy_from(&mut self, other: &MapRam)
        requires { Keeps self.old other.now }
        ensures copied { self.new ≡ part_within self.old other.now }
        ensures keeps { Keeps self.old self.new }
        ensures no_more { Keeps self.new self.old }
    {
        // A loop over the places would leave unsaid what each of them holds then.
        self.values.retain(|at, number| {
            *number = other.value(*at).unwrap_or(0);
            true
        });
    }

    fn value(&self, at: Ref) -> Option<u16>
        ensures { result ≡ map.get self.now at }
    {
        self.values.get(&at).copied()
    }

    fn set(&mut self, at: Ref, value: u16)
        requires { map.contains_key self.old at ≡ true }
        ensures stored { self.new ≡ map.insert self.old at value }
        ensures keeps { Keeps self.old self.new }
    {
        if let Some(place) = self.values.get_mut(&at) {
            *place = value;
        }
    }
}

impl RefStore for MapRam {
    ghost contents = { λ s. s };

    fn has(&self, at: Ref) -> bool {
        self.value(at).is_some()
    }

    fn bit(&self, at: Ref) -> bool {
        self.value(at).unwrap_or(0) > 0
    }

    fn set_bit(&mut self, at: Ref, on: bool) {
        self.set(at, u16::from(on));
    }

    fn word(&self, at: Ref) -> u16 {
        self.value(at).unwrap_or(0)
    }

    fn set_word(&mut self, at: Ref, value: u16) {
        self.set(at, value);
    }
}

/// A store when it starts has the references of its sizes, each 0, and no others.
pub fn starts_cleared()
    ensures { StartsCleared }
{}

/// The discretes of a store that keeps the references of its sizes, as `copy_from` takes them.
pub fn discretes_follow()
    ensures { DiscretesFollow }
{}

/// A discrete is in the set of those that are on exactly where it is on.
pub fn discretes_are_on()
    ensures { DiscretesAreOn }
{}
