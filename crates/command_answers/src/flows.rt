//! What is due for what conducted.
ghost use Rattle.std.specs.Prelude.{IfOk};
ghost use Rattle.joint_history.specs.Runnable.{CanRunPlant};
ghost use Rattle.command_words.specs.Words.{IsCommandInRange, IsNumberOfScans};
ghost use Rattle.command_answers.specs.Due.{IsDueWith, IsFound, as_due, has_journal};

use crate::answered::Answer;
use crate::answering::{illegal, journal_tells_all};
use crate::judging::{Judged, judge_journal};
use crate::status::Status;
use command_words::Command;
use flow_text::flow_text;
use one_exchange::run_noted;
use plant_types::Plant;
use route_laws::effects_are_right;
use std::alloc::{AllocError, Global};

/// The joint history of the journal behind a plant file, or of a run where there is no journal.
fn history_behind(
    alloc: Global,
    scans: u32,
    plant: &Plant,
    behind: &[u8],
) -> Result<Judged, AllocError>
    requires scans { IsNumberOfScans scans }
    requires plant { CanRunPlant plant.now }
    ensures { IfOk result (IsFound (has_journal behind.now) plant.now scans behind.now) }
{
    if behind.is_empty() {
        Ok(Judged::Whole(run_noted(alloc, plant, scans)?))
    } else {
        judge_journal(alloc, plant, scans, behind)
    }
}

/// The answer to what conducted from one scan to another, with a plant that is accepted.
pub(crate) fn answer_flow(
    alloc: Global,
    first: u32,
    last: u32,
    plant: &Plant,
    behind: &[u8],
) -> Result<Answer, AllocError>
    requires command { IsCommandInRange (Command.Flow first last) }
    requires plant { CanRunPlant plant.now }
    ensures { IfOk result (λ answer.
        IsDueWith (Command.Flow first last) plant.now behind.now (as_due answer)) }
{
    effects_are_right();
    match history_behind(alloc, last, plant, behind)? {
        Judged::Whole(noted) => {
            journal_tells_all(plant, &noted.joint);
            let text = flow_text(alloc, plant, &noted.joint, first, last)?;
            Ok(Answer {
                status: Status::Ok,
                text,
            })
        }
        Judged::Illegal(spot) => illegal(alloc, spot.as_str()),
    }
}
