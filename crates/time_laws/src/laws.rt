//! Laws of lists in time, whoever else writes between their entries. This project's own.
ghost use Rattle.time_laws.specs.Laws.{TurnsStayInTime, VisitsStayInTime, HostTurnsStayInTime};
ghost use Rattle.time_laws.specs.Laws.{AwayTurnsStayInTime, OthersStayInTime};
ghost use Rattle.time_laws.specs.Laws.{HostOthersStayInTime};
ghost use Rattle.time_laws.specs.Laws.{StartsInTime, HostStartsInTime};

use controller_core::segments_keep_calls;
use mstr_block::{calls_are_taken_in_order, finishes_end_one_call, stays_table};

/// A hold of the token, the turn of a node that is away, and a visit of a controller whose node has
/// left, keep a station in time with its node.
pub fn turns_stay_in_time()
    ensures turns { TurnsStayInTime }
    ensures away { AwayTurnsStayInTime }
    ensures visits { VisitsStayInTime }
    ensures hosts { HostTurnsStayInTime }
{
    segments_keep_calls();
    calls_are_taken_in_order();
    finishes_end_one_call();
    stays_table();
}

/// What others write does too, and each station begins in time.
pub fn others_stay_in_time()
    ensures controllers { OthersStayInTime }
    ensures hosts { HostOthersStayInTime }
    ensures starts { StartsInTime }
    ensures host_starts { HostStartsInTime }
{}
