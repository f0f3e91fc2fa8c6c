//! What a journal comes to.
ghost use Rattle.std.specs.Prelude.{◌≡◌, ◌≤◌, IfOk, string_bytes};
ghost use Rattle.plant_types.specs.Limits.{most_scans};
ghost use Rattle.journal_text.specs.Fronts.{IsJournalOf};
ghost use Rattle.joint_history.specs.Runnable.{CanRunPlant};
ghost use Rattle.command_answers.specs.Judged.{IsJudged, law_text, ring_text, spot_place_text};
ghost use Rattle.command_answers.specs.Judged.{spot_text, wrong_line_text};

use joint_history::{Joint, Noted};
use joint_law::{Judgement, Spot, judge_noted};
use journal_text::{JournalFault, read_journal};
use plant_types::Plant;
use std::alloc::{AllocError, Global};
use std::fmt::Write;

/// What a journal comes to.
#[derive(Drop)]
pub enum Judged {
    /// The joint history of a complete run, with what its controllers noted of their panels.
    Whole(Noted),
    /// The text of the spot at which it is not that of a complete run.
    Illegal(String),
}

fn wrong_line_text(alloc: Global, line: u32) -> Result<String, AllocError>
    ensures { IfOk result (λ text. string_bytes text ≡ wrong_line_text line) }
{
    format!(in alloc; "text {line}\n")
}

fn spot_place_text(alloc: Global, section: &str, node: u8, place: u32) -> Result<String, AllocError>
    ensures { IfOk result (λ text. string_bytes text ≡ spot_place_text section.now node place) }
{
    let mut text = String::new(alloc);
    write!(text, "{section} {node} {place}\n")?;
    Ok(text)
}

fn law_text(alloc: Global, law: u8, node: u8, place: u32) -> Result<String, AllocError>
    ensures { IfOk result (λ text. string_bytes text ≡ law_text law node place) }
{
    let mut text = String::new(alloc);
    write!(text, "J{law} {node} {place}\n")?;
    Ok(text)
}

fn ring_text(alloc: Global, network: u8, entry: u32) -> Result<String, AllocError>
    ensures { IfOk result (λ text. string_bytes text ≡ ring_text network entry) }
{
    let mut text = String::new(alloc);
    if network == 0 {
        write!(text, "R {entry}\n")?;
    } else {
        write!(text, "R{network} {entry}\n")?;
    }
    Ok(text)
}

fn spot_text(alloc: Global, spot: Spot) -> Result<String, AllocError>
    ensures { IfOk result (λ text. string_bytes text ≡ spot_text spot) }
{
    match spot {
        Spot::Sections => String::from_str(alloc, "sections\n"),
        Spot::Controller { node, entry } => spot_place_text(alloc, "C", node, entry),
        Spot::Host { node, entry } => spot_place_text(alloc, "H", node, entry),
        Spot::Bridge { left, entry } => spot_place_text(alloc, "W", left, entry),
        Spot::Ring { network, entry } => ring_text(alloc, network, entry),
        Spot::Law { law, node, place } => law_text(alloc, law, node, place),
        Spot::Incomplete(node) => format!(in alloc; "D16 {node}\n"),
    }
}

/// What a joint history that was read comes to.
fn judge_joint(
    alloc: Global,
    plant: &Plant,
    scans: u32,
    journal: &[u8],
    joint: Joint,
) -> Result<Judged, AllocError>
    requires plant { CanRunPlant plant.now }
    requires scans { scans ≤ most_scans }
    requires read { IsJournalOf joint journal.now }
    ensures { IfOk result (IsJudged plant.now scans journal.now) }
{
    match judge_noted(alloc, plant, &joint, scans)? {
        Judgement::Legal(notes) => Ok(Judged::Whole(Noted { joint, notes })),
        Judgement::Illegal(spot) => Ok(Judged::Illegal(spot_text(alloc, spot)?)),
    }
}

/// What bytes come to.
pub fn judge_journal(
    alloc: Global,
    plant: &Plant,
    scans: u32,
    journal: &[u8],
) -> Result<Judged, AllocError>
    requires plant { CanRunPlant plant.now }
    requires scans { scans ≤ most_scans }
    ensures { IfOk result (IsJudged plant.now scans journal.now) }
{
    match read_journal(alloc, journal) {
        Ok(joint) => judge_joint(alloc, plant, scans, journal, joint),
        Err(JournalFault::Text(line)) => Ok(Judged::Illegal(wrong_line_text(alloc, line)?)),
        Err(JournalFault::NoMemory) => Err(AllocError),
    }
}
