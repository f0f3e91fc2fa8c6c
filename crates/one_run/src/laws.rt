//! Laws of turns and runs: they are deterministic. This project's own.
ghost use Rattle.one_run.specs.OneTurn.{OneEndTurn, OneHostTurn, OneTurn, OneVisit};
ghost use Rattle.one_run.specs.OneRun.{OneSerialRun, OneTurnsRun};

use ladder_solver::segments_keep_calls;
use mstr_block::{calls_are_taken_in_order, finishes_end_one_call, stays_table};

/// Two holds of the token by a controller that begin alike end alike.
pub fn one_turn()
    ensures { OneTurn }
{
    segments_keep_calls();
    calls_are_taken_in_order();
    finishes_end_one_call();
    stays_table();
}

/// Two visits of a controller whose node has left that begin alike end alike.
pub fn one_visit()
    ensures { OneVisit }
{
    segments_keep_calls();
    calls_are_taken_in_order();
    finishes_end_one_call();
    stays_table();
}

/// Two holds of the token by a host that begin alike end alike.
pub fn one_host_turn()
    ensures { OneHostTurn }
{}

/// Two holds of the token by an end of a bridge that begin alike end alike.
pub fn one_end_turn()
    ensures { OneEndTurn }
{}

/// Two joint histories of a plant that turns in one order made are equal, where their lists are
/// legal and keep the laws between them.
pub fn one_turns_run()
    ensures { OneTurnsRun }
{
    segments_keep_calls();
    calls_are_taken_in_order();
    finishes_end_one_call();
    stays_table();
}

/// Two joint histories of a plant's serial run are equal, where their lists are legal and keep the
/// laws between them.
pub fn one_serial_run()
    ensures { OneSerialRun }
{
    segments_keep_calls();
    calls_are_taken_in_order();
    finishes_end_one_call();
    stays_table();
}
