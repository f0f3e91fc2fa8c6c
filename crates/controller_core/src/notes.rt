//! What a controller notes of its panel, scan by scan.
ghost use Rattle.std.specs.Prelude.{◌≡◌, ◌≤◌, ◌+◌, ◌++◌, length, true, vec_capacity, vec_len};
ghost use Rattle.std.specs.FinMap.{contains_key};
ghost use Rattle.plant_types.specs.Checks.{HasPanel};
ghost use Rattle.plant_types.specs.Store.{value_at};
ghost use Rattle.controller_core.specs.Notes.{values_of};
ghost use Rattle.controller_core.specs.Scans.{closes_scan};

use plant_types::{List, Ref, RefKind, RefStore};
use scan_order::{ScanStep, ends_scan};
use state_ram::PackedRam;

/// What the panel of a controller showed. This project's own.
pub struct Notes {
    /// The values of the panel's references as each scan was over, one scan after another.
    pub values: List<u16>,
    /// How many scans are gone: they ended, failed or were dark.
    pub gone: u32,
    /// The code with which the controller stopped; 0 where it did not.
    pub stop: u16,
}

impl Drop for Notes {
    fn drop(self) {
        let Notes {
            values: _,
            gone: _,
            stop: _,
        } = self;
    }
}

/// Whether a step is the last of its scan, by the stop code after it.
pub(crate) fn closes_scan(step: ScanStep, stop: u16) -> bool
    ensures { result ≡ closes_scan step stop }
{
    match step {
        ScanStep::Solve(_) => stop != 0,
        _ => ends_scan(step),
    }
}

/// The number at a reference: 0 or 1 for a discrete.
pub(crate) fn value_at(ram: &PackedRam, at: Ref) -> u16
    requires { contains_key ram.now at ≡ true }
    ensures { result ≡ value_at ram.now at }
{
    match at.kind {
        RefKind::Coil | RefKind::Input => u16::from(ram.bit(at)),
        RefKind::InputRegister | RefKind::Register => ram.word(at),
    }
}

/// Adds the values of these references, for which there is room: takes no memory.
pub(crate) fn push_values(values: &mut Vec<u16>, panel: &[Ref], ram: &PackedRam)
    requires there { HasPanel ram.now panel.now }
    requires room { vec_len values.old + length panel.now ≤ vec_capacity values.old }
    ensures values { values.new.items ≡ values.old.items ++ values_of ram.now panel.now }
    ensures capacity { vec_capacity values.old ≤ vec_capacity values.new }
{
    for at in panel {
        let _ = values.push(value_at(ram, *at));
    }
}
