//! Laws of ends of bridges in time, whoever else writes between their entries. This project's own.
ghost use Rattle.end_times.specs.Inside.{BridgesKeepOrder};
ghost use Rattle.end_times.specs.Laws.{EndTurnsStayInTime, EndOthersStayInTime, EndsStartInTime};

/// A hold of the token by an end keeps it in time with its node.
pub fn end_turns_stay_in_time()
    ensures { EndTurnsStayInTime }
{}

/// Entries of the other end, and of other nodes, keep an end in time.
pub fn end_others_stay_in_time()
    ensures { EndOthersStayInTime }
{}

/// An end of which nothing stands in either list is in time.
pub fn ends_start_in_time()
    ensures { EndsStartInTime }
{}

/// In each front of a bridge's legal list nothing stands before its cause.
pub fn bridges_keep_order()
    ensures { BridgesKeepOrder }
{}
