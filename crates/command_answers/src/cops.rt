//! What is due for a word exchange.
ghost use Rattle.std.specs.Prelude.{◌≡◌, IfOk};
ghost use Rattle.std.specs.List.{All};
ghost use Rattle.controller_tables.specs.Accepted.{PassesDropTests};
ghost use Rattle.joint_history.specs.Runnable.{CanRunPlant};
ghost use Rattle.one_exchange.specs.Runs.{AreWiresOf};
ghost use Rattle.command_words.specs.Words.{IsNumberOfScans};
ghost use Rattle.command_answers.specs.Due.{IsDueWith, IsExchangeShown, as_due, bad_wire};

use crate::answered::Answer;
use crate::answering::{journal_tells_all, panel_of};
use crate::status::Status;
use command_words::Command;
use one_exchange::cop_run;
use peer_cop::{Wire, WireEnd, read_wires, tested_plants_can_be_wired};
use plant_types::Plant;
use std::alloc::{AllocError, Global};

/// The line that a line behind the plant file is no wire, with the status Refused.
fn bad_wire(alloc: Global, line: u32) -> Result<Answer, AllocError>
    ensures { IfOk result (λ answer. as_due answer ≡ bad_wire line) }
{
    let text = format!(in alloc; "refused 18 BadWire wire {line}\n")?;
    Ok(Answer {
        status: Status::Refused,
        text: text.into_bytes(),
    })
}

/// The panel of the word exchange of a plant and its wires.
fn exchange_answer(
    alloc: Global,
    scans: u32,
    plant: &Plant,
    wires: &[Wire],
) -> Result<Answer, AllocError>
    requires scans { IsNumberOfScans scans }
    requires plant { CanRunPlant plant.now }
    requires tested { All PassesDropTests plant.now.controllers }
    requires wires { AreWiresOf plant.now wires.now }
    ensures { IfOk result (λ answer.
        IsExchangeShown plant.now wires.now scans (as_due answer)) }
{
    let exchanged = cop_run(alloc, plant, wires, scans)?;
    let (fed, noted) = (&exchanged.plant, &exchanged.noted);
    journal_tells_all(fed, &noted.joint);
    let text = panel_of(alloc, fed, noted)?;
    Ok(Answer {
        status: Status::Ok,
        text,
    })
}

/// The answer to a word exchange with a plant that is accepted.
pub(crate) fn answer_cop(
    alloc: Global,
    scans: u32,
    plant: &Plant,
    behind: &[u8],
) -> Result<Answer, AllocError>
    requires scans { IsNumberOfScans scans }
    requires plant { CanRunPlant plant.now }
    requires tested { All PassesDropTests plant.now.controllers }
    ensures { IfOk result (λ answer.
        IsDueWith (Command.Cop scans) plant.now behind.now (as_due answer)) }
{
    tested_plants_can_be_wired();
    match read_wires(alloc, behind, plant) {
        Ok(wires) => exchange_answer(alloc, scans, plant, wires.as_slice()),
        Err(WireEnd::BadWire(line)) => bad_wire(alloc, line),
        Err(WireEnd::NoMemory) => Err(AllocError),
    }
}
