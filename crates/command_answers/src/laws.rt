//! What holds of all that is due.
ghost use Rattle.command_answers.specs.OneDue.{OneDue};
ghost use Rattle.command_answers.specs.Written.{WrittenIsLegal};

use joint_law::verdicts_agree;
use journal_text::{one_history_of_a_text, one_journal_in_front};
use one_exchange::{one_exchange, one_serial_run};
use peer_cop::tested_plants_can_be_wired;
use same_text::one_answer_same;

/// For each command but that of a live run, and each input, at most one status is due, and at most
/// one text with it; where a run was found, it may be any of the shortest.
pub fn one_due()
    ensures { OneDue }
{
    one_serial_run();
    tested_plants_can_be_wired();
    one_exchange();
    one_answer_same();
    one_history_of_a_text();
    verdicts_agree();
}

/// What `trace` and `live` write for a plant file is the journal and the panel of one joint
/// history: of that file and that journal `check` can answer only legal, and `replay` only that
/// panel.
pub fn written_is_legal()
    ensures { WrittenIsLegal }
{
    one_due();
    one_journal_in_front();
}
