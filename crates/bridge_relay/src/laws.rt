//! What stays true of the ends and the calls of a bridge.
ghost use Rattle.bridge_relay.specs.Laws.{OwnEntriesTellTheEnd, NumbersCount, ForwardsMakeNewCalls};
ghost use Rattle.bridge_relay.specs.Laws.{CallsAreMadeOnce, CallsOutAreUnderWay, FinishesEndCalls};

/// The paths of an end, and whether it has left, are told by its own entries alone.
pub fn own_entries_tell()
    ensures { OwnEntriesTellTheEnd }
{}

/// The number that a path gave last is how many calls went out on it.
pub fn numbers_count()
    ensures { NumbersCount }
{}

/// A call that goes out has the next number of a path.
pub fn forwards_make_new_calls()
    ensures { ForwardsMakeNewCalls }
{}

/// No call goes out twice, and none ends twice.
pub fn calls_are_made_once()
    ensures { CallsAreMadeOnce }
{}

/// A call that is out went out once and has not ended.
pub fn calls_out_are_under_way()
    ensures { CallsOutAreUnderWay }
{}

/// A call ends behind its one Forward, and has not ended before.
pub fn finishes_end_calls()
    ensures { FinishesEndCalls }
{}
