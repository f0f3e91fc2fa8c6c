//! What the counters say of all that happened.
ghost use Rattle.station_stats.specs.Counts.{CountsAreFromScratch};

/// Counters that run along are the counts from scratch.
pub fn counts_are_from_scratch()
    ensures { CountsAreFromScratch }
{}
