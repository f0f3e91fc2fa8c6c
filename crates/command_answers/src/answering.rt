//! What is due for a command and an input.
ghost use Rattle.std.specs.Prelude.{◌≡◌, ◌<◌, ◌^◌, [], false, IfOk, length, string_bytes};
ghost use Rattle.std.specs.List.{All};
ghost use Rattle.controller_tables.specs.Accepted.{PassesDropTests};
ghost use Rattle.plant_loader.specs.Plant.{plant_of};
ghost use Rattle.joint_history.specs.JointLaws.{IsLegalJoint, most_scans};
ghost use Rattle.joint_history.specs.Noted.{IsNoted};
ghost use Rattle.joint_history.specs.Runnable.{CanRunPlant};
ghost use Rattle.journal_text.specs.Fronts.{IsJournalOf};
ghost use Rattle.journal_text.specs.Journal.{journal};
ghost use Rattle.panel_text.specs.Panel.{panel};
ghost use Rattle.summary_text.specs.Summary.{summary};
ghost use Rattle.command_words.specs.Words.{IsCommandInRange, IsNumberOfScans};
ghost use Rattle.command_answers.specs.Due.{IsDue, IsDueOf, IsDueWith, IsFound, IsShown};
ghost use Rattle.command_answers.specs.Due.{IsTaskDue, as_due, illegal_at, judges, refusal_text};
ghost use Rattle.command_answers.specs.Due.{refused, task_text};

use crate::answered::Answer;
use crate::cops::answer_cop;
use crate::cutting::{cut, cut_at_new, cut_at_port, cut_at_wires};
use crate::flows::answer_flow;
use crate::judging::{Judged, judge_journal};
use crate::nevers::answer_never;
use crate::pairs::answer_standby;
use crate::sames::answer_same;
use crate::sessions::answer_session;
use crate::status::Status;
use command_words::{Command, Task};
use joint_history::{Joint, Noted};
use journal_text::{fits_its_types, journal_text, legal_is_plain};
use one_exchange::{run_counted, run_noted};
use panel_text::panel_from_notes;
use plant_gen::plant_from;
use plant_loader::{LoadEnd, Version, load};
use plant_types::{Place, Plant, PlantFault};
use route_laws::effects_are_right;
use std::alloc::{AllocError, Global};
use summary_text::summary_text;

fn refusal_text(alloc: Global, fault: PlantFault, place: Place) -> Result<String, AllocError>
    ensures { IfOk result (λ text. string_bytes text ≡ refusal_text fault place) }
{
    format!(in alloc; "refused {fault} {place}\n")
}

/// The line that names a fault and its place, with the status Refused.
pub fn refused(alloc: Global, fault: PlantFault, place: Place) -> Result<Answer, AllocError>
    ensures { IfOk result (λ answer. as_due answer ≡ refused (fault, place)) }
{
    let text = refusal_text(alloc, fault, place)?;
    Ok(Answer {
        status: Status::Refused,
        text: text.into_bytes(),
    })
}

pub(crate) fn illegal(alloc: Global, spot: &str) -> Result<Answer, AllocError>
    ensures { IfOk result (λ answer. as_due answer ≡ illegal_at spot.now) }
{
    let text = format!(in alloc; "illegal {spot}")?;
    Ok(Answer {
        status: Status::Illegal,
        text: text.into_bytes(),
    })
}

/// The journal of a joint history tells all of it. A call made for the prover alone.
pub(crate) fn journal_tells_all(plant: &Plant, joint: &Joint)
    requires plant { CanRunPlant plant.now }
    requires joint { IsLegalJoint plant.now most_scans joint.now }
    ensures { IsJournalOf joint.now (journal joint.now) }
{
    legal_is_plain();
    fits_its_types(joint);
}

/// The panel of a joint history, by the notes beside it.
pub(crate) fn panel_of(alloc: Global, plant: &Plant, noted: &Noted) -> Result<Vec<u8>, AllocError>
    requires joint { IsLegalJoint plant.now most_scans noted.now.joint }
    requires notes { IsNoted plant.now noted.now }
    ensures { IfOk result (λ text. text.items ≡ panel plant.now noted.now.joint) }
{
    panel_from_notes(alloc, plant, &noted.joint, noted.notes.as_slice())
}

/// The journal, and behind it the panel.
fn trace_text(alloc: Global, plant: &Plant, noted: &Noted) -> Result<Vec<u8>, AllocError>
    requires plant { CanRunPlant plant.now }
    requires joint { IsLegalJoint plant.now most_scans noted.now.joint }
    requires notes { IsNoted plant.now noted.now }
    ensures { IfOk result (λ text. text.items ≡ task_text Task.Trace plant.now noted.now.joint) }
{
    legal_is_plain();
    let mut text = journal_text(alloc, &noted.joint)?;
    let panel = panel_of(alloc, plant, noted)?;
    text.extend_from_slice(panel.as_slice())?;
    Ok(text)
}

/// The journal of a run that was made, and behind it the panel, with the status Ok.
pub fn traced(alloc: Global, plant: &Plant, scans: u32, noted: &Noted) -> Result<Answer, AllocError>
    requires scans { IsNumberOfScans scans }
    requires plant { CanRunPlant plant.now }
    requires joint { IsLegalJoint plant.now scans noted.now.joint }
    requires notes { IsNoted plant.now noted.now }
    ensures told { IfOk result (λ answer. IsJournalOf noted.now.joint (journal noted.now.joint)) }
    ensures status { IfOk result (λ answer. answer.status ≡ Status.Ok) }
    ensures text { IfOk result (λ answer.
        answer.text.items ≡ task_text Task.Trace plant.now noted.now.joint) }
{
    journal_tells_all(plant, &noted.joint);
    let text = trace_text(alloc, plant, noted)?;
    Ok(Answer {
        status: Status::Ok,
        text,
    })
}

/// What a task writes of a joint history.
fn task_text(alloc: Global, task: Task, plant: &Plant, noted: &Noted) -> Result<Vec<u8>, AllocError>
    requires plant { CanRunPlant plant.now }
    requires joint { IsLegalJoint plant.now most_scans noted.now.joint }
    requires notes { IsNoted plant.now noted.now }
    ensures { IfOk result (λ text. text.items ≡ task_text task plant.now noted.now.joint) }
{
    match task {
        Task::Run => panel_of(alloc, plant, noted),
        Task::Trace => trace_text(alloc, plant, noted),
        Task::Check => Vec::from_slice(alloc, b"legal\n"),
        Task::Replay => panel_of(alloc, plant, noted),
    }
}

/// Whether a task takes the joint history of a journal.
fn judges(task: Task) -> bool
    ensures { result ≡ judges task }
{
    match task {
        Task::Run | Task::Trace => false,
        Task::Check | Task::Replay => true,
    }
}

/// The joint history that a task is about: that of the journal, or of a run.
fn history_of(
    alloc: Global,
    task: Task,
    scans: u32,
    plant: &Plant,
    behind: &[u8],
) -> Result<Judged, AllocError>
    requires scans { IsNumberOfScans scans }
    requires plant { CanRunPlant plant.now }
    ensures { IfOk result (IsFound (judges task) plant.now scans behind.now) }
{
    if judges(task) {
        judge_journal(alloc, plant, scans, behind)
    } else {
        Ok(Judged::Whole(run_noted(alloc, plant, scans)?))
    }
}

/// The answer to a task with a plant that is accepted, by what its joint history came to.
fn answer_task(
    alloc: Global,
    task: Task,
    scans: u32,
    plant: &Plant,
    behind: &[u8],
) -> Result<Answer, AllocError>
    requires scans { IsNumberOfScans scans }
    requires plant { CanRunPlant plant.now }
    ensures { IfOk result (λ answer.
        IsTaskDue task scans plant.now behind.now (as_due answer)) }
{
    effects_are_right();
    match history_of(alloc, task, scans, plant, behind)? {
        Judged::Whole(noted) => {
            journal_tells_all(plant, &noted.joint);
            let text = task_text(alloc, task, plant, &noted)?;
            Ok(Answer {
                status: Status::Ok,
                text,
            })
        }
        Judged::Illegal(spot) => illegal(alloc, spot.as_str()),
    }
}

/// The summary of a run of a plant, whatever number it stands for.
fn answer_summary(alloc: Global, scans: u32, plant: &Plant) -> Result<Answer, AllocError>
    requires scans { IsNumberOfScans scans }
    requires plant { CanRunPlant plant.now }
    ensures { IfOk result (λ answer.
        IsShown false plant.now scans [] (summary plant.now) (as_due answer)) }
{
    let counted = run_counted(alloc, plant, scans)?;
    let joint = &counted.noted.joint;
    journal_tells_all(plant, joint);
    let text = summary_text(alloc, joint, counted.coils)?;
    Ok(Answer {
        status: Status::Ok,
        text,
    })
}

/// The answer to a command with a plant that is accepted.
fn answer_with(
    alloc: Global,
    command: Command,
    plant: &Plant,
    behind: &[u8],
) -> Result<Answer, AllocError>
    requires command { IsCommandInRange command }
    requires plant { CanRunPlant plant.now }
    requires tested { All PassesDropTests plant.now.controllers }
    requires short { length behind.now < 2 ^ 32 }
    ensures { IfOk result (λ answer. IsDueWith command plant.now behind.now (as_due answer)) }
{
    match command {
        Command::Do { task, scans } => answer_task(alloc, task, scans, plant, behind),
        Command::Gen { scans, .. } => answer_summary(alloc, scans, plant),
        Command::Session { node, scans } => answer_session(alloc, node, scans, plant, behind),
        Command::Flow { first, last } => answer_flow(alloc, first, last, plant, behind),
        Command::Standby { node, fail, scans } => {
            answer_standby(alloc, node, fail, scans, plant, behind)
        }
        Command::Never { node, asked, depth } => answer_never(alloc, node, asked, depth, plant),
        Command::Cop { scans } => answer_cop(alloc, scans, plant, behind),
        Command::Same { node, depth } => answer_same(alloc, node, depth, plant, behind),
    }
}

/// The answer to a command with the plant of a file.
fn answer_over(
    alloc: Global,
    command: Command,
    file: &[u8],
    behind: &[u8],
) -> Result<Answer, AllocError>
    requires command { IsCommandInRange command }
    requires short { length behind.now < 2 ^ 32 }
    ensures { IfOk result (λ answer.
        IsDueOf command behind.now (plant_of Version.Two file.now) (as_due answer)) }
{
    match load(alloc, Version::Two, file) {
        Ok(plant) => answer_with(alloc, command, &plant, behind),
        Err(LoadEnd::Refused(fault, place)) => refused(alloc, fault, place),
        Err(LoadEnd::NoMemory) => Err(AllocError),
    }
}

/// The answer to a task over an input.
fn answer_to_task(alloc: Global, task: Task, scans: u32, input: &[u8]) -> Result<Answer, AllocError>
    requires scans { IsNumberOfScans scans }
    requires short { length input.now < 2 ^ 32 }
    ensures { IfOk result (λ answer.
        IsDue (Command.Do task scans) input.now (as_due answer)) }
{
    let command = Command::Do { task, scans };
    if judges(task) {
        let (file, journal) = cut(input);
        answer_over(alloc, command, file, journal)
    } else {
        answer_over(alloc, command, input, &[])
    }
}

/// The answer to a command over an input.
pub fn answer_to(alloc: Global, command: Command, input: &[u8]) -> Result<Answer, AllocError>
    requires command { IsCommandInRange command }
    requires short { length input.now < 2 ^ 32 }
    ensures { IfOk result (λ answer. IsDue command input.now (as_due answer)) }
{
    match command {
        Command::Do { task, scans } => answer_to_task(alloc, task, scans, input),
        Command::Gen { number, .. } => {
            let file = plant_from(alloc, number)?;
            answer_over(alloc, command, file.as_slice(), &[])
        }
        Command::Session { .. } | Command::Standby { .. } => {
            let (file, port) = cut_at_port(input);
            answer_over(alloc, command, file, port)
        }
        Command::Flow { .. } => {
            let (file, journal) = cut(input);
            answer_over(alloc, command, file, journal)
        }
        Command::Never { .. } => answer_over(alloc, command, input, &[]),
        Command::Cop { .. } => {
            let (file, wires) = cut_at_wires(input);
            answer_over(alloc, command, file, wires)
        }
        Command::Same { .. } => {
            let (old, new) = cut_at_new(input);
            answer_over(alloc, command, old, new)
        }
    }
}
