//! What scans keep of states that are alike.
ghost use Rattle.field_runs.specs.Alike.{AlikeStatesStay, ScansSettle};
ghost use Rattle.field_runs.specs.Played.{ScansAreFieldRuns};
ghost use Rattle.field_runs.specs.Told.{FieldRunsAreScans};

use alike_states::{solves_ask_no_hour, tables_stay_alone};
use plant_types::{discretes_are_on, discretes_follow};
use scan_order::kept_power_stays;

/// Alike states stay alike under each scan in which the field brings both the same, timers included.
pub fn alike_states_stay()
    ensures { AlikeStatesStay }
{
    solves_ask_no_hour();
}

/// A controller settles with each scan that ends, and it starts so.
pub fn scans_settle()
    ensures { ScansSettle }
{
    tables_stay_alone();
    discretes_follow();
    discretes_are_on();
}

/// Each scan of a run of the field is one in which the field brings rows of the plan's drops.
pub fn field_runs_are_scans()
    ensures { FieldRunsAreScans }
{
    kept_power_stays();
}

/// Whatever rows of a plan's drops are told for scans, a run of its field brings them.
pub fn scans_are_field_runs()
    ensures { ScansAreFieldRuns }
{
    kept_power_stays();
}
