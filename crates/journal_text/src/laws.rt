//! Which joint histories have a journal.
ghost use Rattle.journal_text.specs.Laws.{LegalIsPlain, OneHistoryOfAText, OneJournalInFront};

use ladder_solver::segments_keep_calls;
use mstr_block::{calls_are_taken_in_order, finishes_end_one_call, stays_table};
use ring_laws::{only_its_target, reply_to_its_caller};

/// Each legal joint history of a plant is plain, so it has a journal.
pub fn legal_is_plain()
    ensures { LegalIsPlain }
{
    segments_keep_calls();
    calls_are_taken_in_order();
    finishes_end_one_call();
    stays_table();
    only_its_target();
    reply_to_its_caller();
}

/// A journal is that of one joint history.
pub fn one_history_of_a_text()
    ensures { OneHistoryOfAText }
{}

/// What begins with a journal begins with one alone.
pub fn one_journal_in_front()
    ensures { OneJournalInFront }
{}
