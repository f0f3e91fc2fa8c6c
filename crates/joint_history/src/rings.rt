//! The entries of all rings of a joint history.
ghost use Rattle.std.specs.Prelude.{◌≡◌, ◌++◌, IfOk, OnOk};
ghost use Rattle.joint_history.specs.Nets.{entries_of_rings};

use crate::joint::RingLog;
use plant_types::{Copied, List};
use ring_core::RingEntry;
use std::alloc::{AllocError, Global};

fn add_copied(
    alloc: Global,
    noted: &mut List<RingEntry>,
    entries: &[RingEntry],
) -> Result<(), AllocError>
    ensures { OnOk result (noted.new ≡ noted.old ++ entries.now) }
{
    for entry in entries {
        noted.push(entry.copied(alloc)?)?;
    }
    Ok(())
}

/// A copy of the entries of all rings, one ring after the other.
pub fn noted_copied(alloc: Global, rings: &[RingLog]) -> Result<List<RingEntry>, AllocError>
    ensures { IfOk result (λ noted. noted ≡ entries_of_rings rings.now) }
{
    let mut noted = List::new(alloc);
    for ring in rings {
        add_copied(alloc, &mut noted, ring.entries.as_slice())?;
    }
    Ok(noted)
}
