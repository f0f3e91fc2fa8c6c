//! Laws of fixed parts that agree on a history.
ghost use Rattle.fed_turns.specs.Laws.{HoldsAgree, RowsAgree, ScansAgree, VisitsAgree};

/// A controller with a row more agrees with the one before on each history after which the row can
/// be added.
pub fn rows_agree()
    ensures { RowsAgree }
{}

/// A hold of the token stays one where a fixed part agrees on the history that it leaves.
pub fn holds_agree()
    ensures { HoldsAgree }
{}

/// A visit stays one where a fixed part agrees on the history that it leaves.
pub fn visits_agree()
    ensures { VisitsAgree }
{}

/// A whole scan stays the same where a fixed part agrees on the history that it leaves.
pub fn scans_agree()
    ensures { ScansAgree }
{}
