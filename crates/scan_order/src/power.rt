//! What becomes of a controller's power in each scan.
ghost use Rattle.std.specs.Prelude.{◌≡◌, length};
ghost use Rattle.std.specs.List.{find, list_any};
ghost use Rattle.std.specs.Option.{option_copied};
ghost use Rattle.scan_order.specs.Power.{ends_off, is_dark_by, is_failure_in, power_in};
ghost use Rattle.scan_order.specs.Power.{KeptPowerStays};

use plant_types::{ControllerPlan, PowerRow};

/// What becomes of the power in a scan.
#[derive(Clone, Copy, Debug, PartialEq, Eq)]
pub enum ScanPower {
    /// There is power up to the End.
    Stays,
    /// It fails behind the Solve of this row of the order of solve; where that is 0, behind Begin.
    Fails(u16),
    /// There is none.
    Dark,
}

fn failure_in(plan: &ControllerPlan, scan: u32) -> Option<&PowerRow>
    ensures { option_copied result
        ≡ find (is_failure_in (length plan.now.orders) scan) plan.now.power }
{
    let orders = plan.orders.as_slice().len();
    plan.power
        .as_slice()
        .iter()
        .find(|row| row.scan == scan && usize::from(row.row) <= orders)
}

fn is_dark(plan: &ControllerPlan, scan: u32) -> bool
    ensures { result ≡ list_any (is_dark_by scan) plan.now.power }
{
    plan.power
        .as_slice()
        .iter()
        .any(|row| row.scan < scan && scan - row.scan <= row.dark)
}

/// What becomes of the power in the scan of this number, from 1 on. Takes no memory.
#[tactic(auto, unfolding(crate::specs::Power::power_in))]
pub fn power_in(plan: &ControllerPlan, scan: u32) -> ScanPower
    ensures { result ≡ power_in plan.now scan }
{
    match failure_in(plan, scan) {
        Some(row) => ScanPower::Fails(row.row),
        None if is_dark(plan, scan) => ScanPower::Dark,
        None => ScanPower::Stays,
    }
}

impl ScanPower {
    /// Whether the scan ends without power.
    pub fn ends_off(self) -> bool
        ensures { result ≡ ends_off self }
    {
        match self {
            ScanPower::Stays => false,
            ScanPower::Fails(_) | ScanPower::Dark => true,
        }
    }
}

/// A plan without power rows has power in each scan.
pub fn kept_power_stays()
    ensures { KeptPowerStays }
{}
