//! Laws of the turns of a bridge's end, whoever else writes between their entries. This project's
//! own.
ghost use Rattle.end_laws.specs.Laws.{EndsStartKeep, EndTurnsKeepOn, EndOthersKeepOn};
ghost use Rattle.end_laws.specs.Laws.{EndTurnsSpendNothing, EndsAcrossKeepOn, EndsComplete};

/// An end of which nothing stands in either list has all that turns keep.
pub fn ends_start_keep()
    ensures { EndsStartKeep }
{}

/// A hold of the token by a bridge's end keeps it.
pub fn end_turns_keep_on()
    ensures { EndTurnsKeepOn }
{}

/// No end without a budget leaves because its Passes are spent, in its holds of the token.
pub fn end_turns_spend_nothing()
    ensures { EndTurnsSpendNothing }
{}

/// Entries of other nodes keep what an end's turns keep.
pub fn end_others_keep_on()
    ensures { EndOthersKeepOn }
{}

/// Entries of the other end of the bridge keep it too.
pub fn ends_across_keep_on()
    ensures { EndsAcrossKeepOn }
{}

/// An end that has left is complete.
pub fn ends_complete()
    ensures { EndsComplete }
{}
