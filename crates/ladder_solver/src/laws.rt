//! What stays true of the calls of MSTR blocks while a segment is solved.
ghost use Rattle.ladder_solver.specs.Laws.{SegmentsKeepCalls};

use mstr_block::{solves_give_new_numbers, solves_keep_calls, stays_table};

/// What the solve of a block keeps of the calls, the solve of a segment keeps.
pub fn segments_keep_calls()
    ensures { SegmentsKeepCalls }
{
    solves_keep_calls();
    solves_give_new_numbers();
    stays_table();
}
