//! What holds of all answers.
ghost use Rattle.modbus_exec.specs.Laws.{UnlistedAreRefused, MisformedAreRefused};
ghost use Rattle.modbus_exec.specs.Laws.{SpelledAreExecuted};

/// The answer to bytes is the one that the grammar gives: exception 1 where their function is not
/// served, exception 3 where it is and they spell no request, else what a request that they spell
/// comes to.
pub fn answers_follow_the_grammar()
    ensures unlisted { UnlistedAreRefused }
    ensures misformed { MisformedAreRefused }
    ensures spelled { SpelledAreExecuted }
{}
