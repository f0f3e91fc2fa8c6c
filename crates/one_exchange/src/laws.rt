//! A law of word exchanges: they are deterministic. This project's own.
ghost use Rattle.one_exchange.specs.OneExchange.{OneExchange};

use ladder_solver::segments_keep_calls;
use mstr_block::{calls_are_taken_in_order, finishes_end_one_call, stays_table};
use one_run::one_serial_run;
use word_exchange::{
    exchanges_are_counted, repetitions_exchange, repetitions_go_on, rows_follow_rules, rows_stay,
};

/// Two word exchanges of a plant that can be run, of its wires and of so many scans have one plant
/// with its rows and one joint history, where the lists of both joint histories are legal and keep
/// the laws between them.
pub fn one_exchange()
    ensures { OneExchange }
{
    segments_keep_calls();
    calls_are_taken_in_order();
    finishes_end_one_call();
    stays_table();
    one_serial_run();
    exchanges_are_counted();
    repetitions_exchange();
    repetitions_go_on();
    rows_follow_rules();
    rows_stay();
}
