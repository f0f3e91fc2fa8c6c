//! The coils of all controllers that are on.
ghost use Rattle.std.specs.Prelude.{◌≡◌, length};
ghost use Rattle.std.specs.List.{sum_by, zip};
ghost use Rattle.serial_run.specs.Stations.{station_coils};

use crate::stations::ControllerStation;
use plant_types::ControllerPlan;
use summary_text::coils_on;

/// How many coils of all controllers are on.
pub(crate) fn coils_of(plans: &[ControllerPlan], stations: &[ControllerStation]) -> u128
    requires { length stations.now ≡ length plans.now }
    ensures { result ≡ sum_by station_coils (zip plans.now stations.now) }
{
    let mut total = 0;
    for (at, station) in stations.iter().enumerate() {
        total += coils_on(&station.controller, &plans[at]) as u128;
    }
    total
}
