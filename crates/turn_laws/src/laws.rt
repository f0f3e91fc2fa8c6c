//! Laws of turns, whoever else writes between their entries. This project's own.
ghost use Rattle.turn_laws.specs.Laws.{StartsKeep, TurnsKeepOn, VisitsKeepOn, ScansKeepOn};
ghost use Rattle.turn_laws.specs.Laws.{OthersKeepOn, ControllersComplete, HostStartsKeep};
ghost use Rattle.turn_laws.specs.Laws.{HostTurnsKeepOn, HostOthersKeepOn, HostsComplete};
ghost use Rattle.turn_laws.specs.Laws.{LeavesWhenEnded, TurnsSpendNothing};
ghost use Rattle.turn_laws.specs.Laws.{HostTurnsSpendNothing, VisitsSpendNothing, NobodySpends};
ghost use Rattle.turn_laws.specs.Laws.{AwayTurnsKeepOn, AwayTurnsSpendNothing, AwayTurnsEndWhere};
ghost use Rattle.turn_laws.specs.Laws.{EndedStays, SomebodyHolds, TurnsEndWhere, VisitsCollect};

use controller_core::segments_keep_calls;
use mstr_block::{calls_are_taken_in_order, finishes_end_one_call, stays_table};
use ring_core::holder_is_member;
use time_laws::turns_stay_in_time;

/// A controller without entries, and its node, have all that turns keep.
pub fn starts_keep()
    ensures { StartsKeep }
{}

/// A hold of the token keeps what a controller's list and its node's own list keep.
pub fn turns_keep_on()
    ensures { TurnsKeepOn }
{
    turns_stay_in_time();
    segments_keep_calls();
    calls_are_taken_in_order();
    finishes_end_one_call();
    stays_table();
}

/// The turn of a node that is away keeps it too.
pub fn away_turns_keep_on()
    ensures { AwayTurnsKeepOn }
{
    turns_stay_in_time();
    segments_keep_calls();
    calls_are_taken_in_order();
    finishes_end_one_call();
    stays_table();
}

/// Where a turn leaves its node.
pub fn turns_end_where()
    ensures holds { TurnsEndWhere }
    ensures away { AwayTurnsEndWhere }
{}

/// Who holds the token is in, unless it is nobody.
pub fn somebody_holds()
    ensures { SomebodyHolds }
{
    holder_is_member();
}

/// A visit of a controller whose node has left keeps it too.
pub fn visits_keep_on()
    ensures { VisitsKeepOn }
{
    turns_stay_in_time();
    segments_keep_calls();
    calls_are_taken_in_order();
    finishes_end_one_call();
    stays_table();
}

/// Events of the scan keep it too: none comes once a Pass said done.
pub fn scans_keep_on()
    ensures { ScansKeepOn }
{}

/// Entries of other nodes keep it too.
pub fn others_keep_on()
    ensures { OthersKeepOn }
{}

/// A controller whose scans have ended, whose calls were all collected, and whose node is gone, or
/// away without power, is complete.
pub fn controllers_complete()
    ensures { ControllersComplete }
{
    segments_keep_calls();
    calls_are_taken_in_order();
    finishes_end_one_call();
    stays_table();
}

/// A host without entries, and its node, have all that turns keep.
pub fn host_starts_keep()
    ensures { HostStartsKeep }
{}

/// A hold of the token keeps what a host's list and its node's own list keep.
pub fn host_turns_keep_on()
    ensures { HostTurnsKeepOn }
{}

/// Entries of other nodes keep it too.
pub fn host_others_keep_on()
    ensures { HostOthersKeepOn }
{}

/// A host whose node is gone is complete.
pub fn hosts_complete()
    ensures { HostsComplete }
{}

/// A worker without a budget leaves only once its controller's scans have ended and its calls were
/// all collected.
pub fn leaves_when_ended()
    ensures { LeavesWhenEnded }
{}

/// Once the scans have ended a visit leaves no call uncollected, and power stays as it is.
pub fn visits_collect()
    ensures visits { VisitsCollect }
    ensures ended { EndedStays }
{
    segments_keep_calls();
    calls_are_taken_in_order();
    finishes_end_one_call();
    stays_table();
}

/// In its holds of the token, in those of a host's worker, in its visits, and as it comes back, no
/// node leaves because its Passes are spent.
pub fn none_is_spent()
    ensures turns { TurnsSpendNothing }
    ensures away { AwayTurnsSpendNothing }
    ensures hosts { HostTurnsSpendNothing }
    ensures visits { VisitsSpendNothing }
    ensures all { NobodySpends }
{}
