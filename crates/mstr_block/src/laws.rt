//! What stays true of the calls of a bank.
ghost use Rattle.mstr_block.specs.Laws.{SolvesKeepCalls, FinishesEndOneCall, CallsAreTakenInOrder};
ghost use Rattle.mstr_block.specs.Laws.{SolvesGiveNewNumbers, PowerFailuresKeepCalls, StaysTable};

/// A solve keeps that there is a started call that was not taken, and that a call is out.
pub fn solves_keep_calls()
    ensures { SolvesKeepCalls }
{}

/// A finish ends its call, and changes nothing for any other.
pub fn finishes_end_one_call()
    ensures { FinishesEndOneCall }
{}

/// Taking goes through the started calls in block order, and leaves them out.
pub fn calls_are_taken_in_order()
    ensures { CallsAreTakenInOrder }
{}

/// A call that a solve starts has a number above all that its path gave before.
pub fn solves_give_new_numbers()
    ensures { SolvesGiveNewNumbers }
{}

/// A power failure starts, takes and ends no call, and gives no number.
pub fn power_failures_keep_calls()
    ensures { PowerFailuresKeepCalls }
{}

/// The calls of a bank have names, no two the same, and each path by the network has at most one.
pub fn stays_table()
    ensures { StaysTable }
{}
