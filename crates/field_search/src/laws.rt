//! What keys that cover a field say of it.
ghost use Rattle.field_search.specs.Covered.{CoversHoldInField, CoversReachAll};
ghost use Rattle.field_search.specs.Found.{PathsAreRuns};

use cone_runs::alike_in_stay;
use field_runs::{field_runs_are_scans, scans_are_field_runs, scans_settle};

/// What is never so of the states of keys that cover a field is never so in a run of it.
pub fn covers_hold_in_the_field()
    ensures { CoversHoldInField }
{
    alike_in_stay();
    field_runs_are_scans();
    scans_settle();
}

/// Each state of a run of a field is alike that of one of the keys that cover it.
pub fn covers_reach_all()
    ensures { CoversReachAll }
{
    alike_in_stay();
    field_runs_are_scans();
    scans_settle();
}

/// What moves lead to, the run of the field with their rows as scripts comes to.
pub fn paths_are_runs()
    ensures { PathsAreRuns }
{
    alike_in_stay();
    scans_are_field_runs();
    scans_settle();
}
