//! What runs side by side are, scan by scan.
ghost use Rattle.side_runs.specs.Laws.{BroughtRunsAreScans, DropsStayAlone, FieldsArePlayed};
ghost use Rattle.side_runs.specs.Laws.{PairCoversHold, PairPathsAreRuns};

use field_runs::{alike_states_stay, scans_settle};
use scan_order::kept_power_stays;

/// Each scan of a run in which a field brings rows is one with these rows.
pub fn brought_runs_are_scans()
    ensures { BroughtRunsAreScans }
{
    kept_power_stays();
}

/// Whatever a field brings in some scans, a plan brings it that plays in the field of a controller.
pub fn fields_are_played()
    ensures { FieldsArePlayed }
{
    kept_power_stays();
}

/// A controller is alone with the drops of another too that takes the same field.
pub fn drops_stay_alone()
    ensures { DropsStayAlone }
{}

/// What is never so of the pairs of keys that cover two controllers is never so of their runs side
/// by side, and the states of these are alike those of the keys.
pub fn pair_covers_hold()
    ensures { PairCoversHold }
{
    alike_states_stay();
    scans_settle();
    brought_runs_are_scans();
    drops_stay_alone();
}

/// What moves lead to, two runs side by side come to.
pub fn pair_paths_are_runs()
    ensures { PairPathsAreRuns }
{
    alike_states_stay();
    scans_settle();
    brought_runs_are_scans();
    fields_are_played();
    drops_stay_alone();
}
