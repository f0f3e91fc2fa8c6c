//! What holds of runs whose plant is given a row.
ghost use Rattle.serial_feed.specs.Feeding.{RowsKeepRuns};

/// A run of repetitions stays one of the plant that is given a row which can be fed after it.
pub fn rows_keep_runs()
    ensures { RowsKeepRuns }
{}
