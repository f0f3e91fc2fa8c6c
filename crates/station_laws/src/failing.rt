//! The fifth law: a node went down no oftener than the power of its station failed.
ghost use Rattle.std.specs.Prelude.{◌≡◌, ◌++◌, [], count_by, IfOk, OnOk};
ghost use Rattle.std.specs.List.{cons_option};
ghost use Rattle.tied_lists.specs.Items.{down_of, downs_by};
ghost use Rattle.station_laws.specs.Failing.{GoUpTo, is_fail};
ghost use Rattle.station_laws.specs.Picked.{AreWithin, picked};

use controller_core::Entry;
use ring_core::{LeaveCause, RingEntry};
use std::alloc::{AllocError, Global};

/// How often power failed.
pub fn count_fails(entries: &[Entry]) -> usize
    ensures { result ≡ count_by is_fail entries.now }
{
    entries
        .iter()
        .filter(|entry| matches!(entry, Entry::Fail))
        .count()
}

fn add_down(list: &mut Vec<u32>, entry: &RingEntry) -> Result<(), AllocError>
    ensures { OnOk result
        (list.new.items ≡ list.old.items ++ cons_option (down_of entry.now) []) }
{
    if let RingEntry::Leave {
        cause: LeaveCause::Down(number),
        ..
    } = entry
    {
        list.push(*number)?;
    }
    Ok(())
}

/// The numbers of a node's Downs.
pub fn downs(alloc: Global, ring: &[RingEntry], places: &[usize]) -> Result<Vec<u32>, AllocError>
    requires { AreWithin ring.now places.now }
    ensures { IfOk result (λ list. list.items ≡ downs_by (picked ring.now places.now)) }
{
    let mut list = Vec::new(alloc);
    for place in places {
        add_down(&mut list, &ring[*place])?;
    }
    Ok(list)
}

/// The first Down, counted from 0, whose number is not above the one before, or is above the number
/// of power failures.
pub(crate) fn first_unfounded(downs: &[u32], fails: usize) -> Option<usize>
    ensures { GoUpTo fails downs.now result }
{
    let mut before = 0;
    for place in 0..downs.len() {
        let number = downs[place];
        if number <= before || number as usize > fails {
            return Some(place);
        }
        before = number;
    }
    None
}
