//! What is first is one.
ghost use Rattle.time_judge.specs.Judging.{OneStandstill};

/// A joint history stands still first at one station and in one place, whatever was taken before.
pub fn stands_still_once()
    ensures { OneStandstill }
{}
