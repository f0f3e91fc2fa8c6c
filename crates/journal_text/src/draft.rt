//! A journal that is read line by line.
ghost use Rattle.std.specs.Prelude.{◌≡◌, Some};
ghost use Rattle.journal_reading.specs.Reading.{Reads};
ghost use Rattle.journal_text.specs.Drafts.{first_head, inside_line, inside_step, next_entry};
ghost use Rattle.journal_text.specs.Drafts.{next_section, no_sections, open_line, start_line, step};
ghost use Rattle.journal_text.specs.Drafts.{with_section};

use crate::section::{Head, Section, goes_before, read_head};
use joint_history::Joint;
use journal_reading::{LineFault, is_text};
use plant_types::List;
use std::alloc::Global;

/// How far a journal is read. The section that goes on stands for itself.
#[derive(Drop)]
pub(crate) enum Draft {
    /// Nothing yet.
    Start,
    /// Its first line.
    Open,
    Inside { done: Joint, section: Section },
    /// Its last line too.
    End(Joint),
}

fn no_sections(alloc: Global) -> Joint
    ensures { result ≡ no_sections }
{
    Joint {
        controllers: List::new(alloc),
        hosts: List::new(alloc),
        bridges: List::new(alloc),
        rings: List::new(alloc),
    }
}

fn with_section(done: Joint, section: Section) -> Result<Joint, LineFault>
    ensures { Reads (λ joint. joint) result (Some (with_section done section)) }
{
    let mut done = done;
    match section {
        Section::Controller(log) => {
            done.controllers.push(log)?;
            Ok(done)
        }
        Section::Host(log) => {
            done.hosts.push(log)?;
            Ok(done)
        }
        Section::Bridge(log) => {
            done.bridges.push(log)?;
            Ok(done)
        }
        Section::Ring(log) => {
            done.rings.push(log)?;
            Ok(done)
        }
    }
}

#[tactic(auto, unfolding(crate::specs::Drafts::start_line))]
fn start_line(line: &[u8]) -> Result<Draft, LineFault>
    ensures { Reads (λ draft. draft) result (start_line line.now) }
{
    if is_text(line, "%JOURNAL") {
        Ok(Draft::Open)
    } else {
        Err(LineFault::Wrong)
    }
}

#[tactic(auto, unfolding(crate::specs::Drafts::first_head))]
fn first_head(alloc: Global, line: &[u8]) -> Result<Draft, LineFault>
    ensures { Reads (λ draft. draft) result (first_head line.now) }
{
    let head = read_head(line)?;
    Ok(Draft::Inside {
        done: no_sections(alloc),
        section: Section::new(alloc, head),
    })
}

#[tactic(auto, unfolding(crate::specs::Drafts::open_line))]
fn open_line(alloc: Global, line: &[u8]) -> Result<Draft, LineFault>
    ensures { Reads (λ draft. draft) result (open_line line.now) }
{
    if is_text(line, "%END") {
        Ok(Draft::End(no_sections(alloc)))
    } else {
        first_head(alloc, line)
    }
}

#[tactic(auto, unfolding(crate::specs::Drafts::next_section))]
fn next_section(
    alloc: Global,
    done: Joint,
    section: Section,
    head: Head,
) -> Result<Draft, LineFault>
    ensures { Reads (λ draft. draft) result (next_section done section head) }
{
    if !goes_before(section.head(), head) {
        return Err(LineFault::Wrong);
    }
    let done = with_section(done, section)?;
    Ok(Draft::Inside {
        done,
        section: Section::new(alloc, head),
    })
}

#[tactic(auto, unfolding(crate::specs::Drafts::next_entry))]
fn next_entry(alloc: Global, done: Joint, section: Section, line: &[u8]) -> Result<Draft, LineFault>
    ensures { Reads (λ draft. draft) result (next_entry done section line.now) }
{
    let section = section.with_line(alloc, line)?;
    Ok(Draft::Inside { done, section })
}

#[tactic(auto, unfolding(crate::specs::Drafts::inside_line))]
fn inside_line(
    alloc: Global,
    done: Joint,
    section: Section,
    line: &[u8],
) -> Result<Draft, LineFault>
    ensures { Reads (λ draft. draft) result (inside_line done section line.now) }
{
    match read_head(line) {
        Ok(head) => next_section(alloc, done, section, head),
        Err(LineFault::Wrong) => next_entry(alloc, done, section, line),
        Err(LineFault::NoMemory) => Err(LineFault::NoMemory),
    }
}

#[tactic(auto, unfolding(crate::specs::Drafts::inside_step))]
fn inside_step(
    alloc: Global,
    done: Joint,
    section: Section,
    line: &[u8],
) -> Result<Draft, LineFault>
    ensures { Reads (λ draft. draft) result (inside_step done section line.now) }
{
    if is_text(line, "%END") {
        let joint = with_section(done, section)?;
        Ok(Draft::End(joint))
    } else {
        inside_line(alloc, done, section, line)
    }
}

/// What a line adds to what is read. Where it is refused, what was read is dropped.
#[tactic(auto, unfolding(crate::specs::Drafts::step))]
pub(crate) fn step(alloc: Global, draft: Draft, line: &[u8]) -> Result<Draft, LineFault>
    ensures { Reads (λ draft. draft) result (step draft line.now) }
{
    match draft {
        Draft::Start => start_line(line),
        Draft::Open => open_line(alloc, line),
        Draft::Inside { done, section } => inside_step(alloc, done, section, line),
        Draft::End(_) => Err(LineFault::Wrong),
    }
}
