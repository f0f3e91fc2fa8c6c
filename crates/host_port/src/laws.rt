//! What stays true of the calls of a host.
ghost use Rattle.host_port.specs.Laws.{AsksKeepCalls, AnswersEndOneCall, ServingKeepsCalls};
ghost use Rattle.host_port.specs.Laws.{AsksHaveNewNames, OpenRequestsFollow};

/// A call that is out is still out behind an Ask.
pub fn asks_keep_calls()
    ensures { AsksKeepCalls }
{}

/// An Answer ends its call, and changes nothing for any other.
pub fn answers_end_one_call()
    ensures { AnswersEndOneCall }
{}

/// What is served to another node changes nothing for any call.
pub fn serving_keeps_calls()
    ensures { ServingKeepsCalls }
{}

/// Each path of a host has at most one request without an answer, from its Ask to its Answer.
pub fn open_requests_follow()
    ensures { OpenRequestsFollow }
{}

/// No call of a host has an answer before it is asked.
pub fn asks_have_new_names()
    ensures { AsksHaveNewNames }
{}
