//! Commands, and the words that spell them.
ghost use Rattle.std.specs.Prelude.{◌≡◌, ◌↔◌, IfOk, Some, codes, map, string_bytes};
ghost use Rattle.command_words.specs.Words.{ReadsJust, SpellsBehind, SpellsCommand, SpellsLive};
ghost use Rattle.command_words.specs.Words.{SpellsLiveBehind, task_name};

use crate::arguments::{number_and_scans_of, scans_of};
use crate::cops::cop_behind;
use crate::flows::flow_behind;
use crate::nevers::never_behind;
use crate::sames::same_behind;
use crate::standbys::standby_behind;
use plant_types::{NODE_LIMIT, Ref};
use std::alloc::{AllocError, Global};

/// The largest number that stands for a plant.
const PLANT_LIMIT: u32 = 9999;

/// The highest address of a node.
pub(crate) const ADDRESS_LIMIT: u32 = NODE_LIMIT as u32;

/// What is done with a plant. This project's own.
#[derive(Clone, Copy, Debug, PartialEq, Eq)]
pub enum Task {
    /// The panel lines of its run.
    Run,
    /// The journal of its run, and then the panel lines.
    Trace,
    /// Whether the journal behind its file is that of a complete run.
    Check,
    /// The panel lines of that journal.
    Replay,
}

/// What a controller is asked never to come to. This project's own.
#[derive(Clone, Copy, Debug, PartialEq, Eq)]
pub enum Question {
    /// This coil or input, with a number of 1 to 9999, is on at the end of a scan.
    On(Ref),
    /// It has stopped.
    Stop,
}

/// What the program is asked to do. This project's own.
#[derive(Clone, Copy, Debug, PartialEq, Eq)]
pub enum Command {
    /// A task with the plant of the input and so many scans of it, 1 to 2000.
    Do {
        task: Task,
        scans: u32,
    },
    /// The summary of so many scans of the plant that a number stands for.
    Gen {
        number: u32,
        scans: u32,
    },
    /// So many scans of the controller with this node, 1 to 64, alone on a bench, and what the port
    /// behind the plant's file asks of it.
    Session {
        node: u8,
        scans: u32,
    },
    /// What conducted from one scan to another, both 1 to 2000, in the run of so many scans of the
    /// plant of the input, or in that of the journal behind its file.
    Flow {
        first: u32,
        last: u32,
    },
    /// So many scans, 1 to 2000, of the controller with this node, 1 to 64, as a primary alone on a
    /// bench that fails after one of them, and of the standby that goes on, and what the port behind
    /// the plant's file asks of both.
    Standby {
        node: u8,
        fail: u32,
        scans: u32,
    },
    /// Whether the controller with this node, 1 to 64, never comes to what is asked, in any run of
    /// its field, or in any of at most so many scans, 1 to 2000.
    Never {
        node: u8,
        asked: Question,
        depth: Option<u32>,
    },
    /// The panel lines of the run of so many scans, 1 to 2000, of the plant of the input, whose
    /// controllers exchange words by the wires behind its file.
    Cop {
        scans: u32,
    },
    /// Whether the controllers with this node, 1 to 64, of two plants, the old one and the new one,
    /// show the same in every run of their field, or in every one of at most so many scans, 1 to
    /// 2000.
    Same {
        node: u8,
        depth: Option<u32>,
    },
}

/// The task of a name.
fn task_of(name: &str) -> Option<Task>
    ensures { ReadsJust (λ task. task_name task ≡ name.now) result }
{
    match name {
        "run" => Some(Task::Run),
        "trace" => Some(Task::Trace),
        "check" => Some(Task::Check),
        "replay" => Some(Task::Replay),
        _ => None,
    }
}

/// A task, with the number of scans that the words behind its name ask for.
fn task_behind(alloc: Global, task: Task, behind: &[String]) -> Result<Option<Command>, AllocError>
    ensures { IfOk result
        (ReadsJust (SpellsBehind (task_name task) (map string_bytes behind.now))) }
{
    match scans_of(alloc, behind)? {
        Some(scans) => Ok(Some(Command::Do { task, scans })),
        None => Ok(None),
    }
}

/// A summary, with the numbers that the words behind its name ask for.
fn gen_behind(alloc: Global, behind: &[String]) -> Result<Option<Command>, AllocError>
    ensures { IfOk result
        (ReadsJust (SpellsBehind (codes "gen") (map string_bytes behind.now))) }
{
    match number_and_scans_of(alloc, behind, PLANT_LIMIT)? {
        Some((number, scans)) => Ok(Some(Command::Gen { number, scans })),
        None => Ok(None),
    }
}

/// A session, with the numbers that the words behind its name ask for.
fn session_behind(alloc: Global, behind: &[String]) -> Result<Option<Command>, AllocError>
    ensures { IfOk result
        (ReadsJust (SpellsBehind (codes "session") (map string_bytes behind.now))) }
{
    match number_and_scans_of(alloc, behind, ADDRESS_LIMIT)? {
        Some((node, scans)) => Ok(Some(Command::Session {
            node: node as u8,
            scans,
        })),
        None => Ok(None),
    }
}

/// The command of a name, with the numbers behind it.
fn command_named(
    alloc: Global,
    name: &str,
    behind: &[String],
) -> Result<Option<Command>, AllocError>
    ensures { IfOk result (ReadsJust (SpellsBehind name.now (map string_bytes behind.now))) }
{
    match name {
        "gen" => gen_behind(alloc, behind),
        "session" => session_behind(alloc, behind),
        "flow" => flow_behind(alloc, behind),
        "standby" => standby_behind(alloc, behind),
        "never" => never_behind(alloc, behind),
        "cop" => cop_behind(alloc, behind),
        "same" => same_behind(alloc, behind),
        _ => match task_of(name) {
            Some(task) => task_behind(alloc, task, behind),
            None => Ok(None),
        },
    }
}

/// The command that the words after the program's name spell.
pub fn command_of(alloc: Global, words: &[String]) -> Result<Option<Command>, AllocError>
    ensures { IfOk result (ReadsJust (SpellsCommand (map string_bytes words.now))) }
{
    match words {
        [name, behind @ ..] => command_named(alloc, name.as_str(), behind),
        [] => Ok(None),
    }
}

/// How many scans the words behind the name of a live run ask for.
fn live_named(alloc: Global, name: &str, behind: &[String]) -> Result<Option<u32>, AllocError>
    ensures { IfOk result
        (ReadsJust (SpellsLiveBehind name.now (map string_bytes behind.now))) }
{
    if name == "live" {
        scans_of(alloc, behind)
    } else {
        Ok(None)
    }
}

/// How many scans of a live run the words after the program's name ask for.
pub fn live_scans(alloc: Global, words: &[String]) -> Result<Option<u32>, AllocError>
    ensures { IfOk result (ReadsJust (SpellsLive (map string_bytes words.now))) }
{
    match words {
        [name, behind @ ..] => live_named(alloc, name.as_str(), behind),
        [] => Ok(None),
    }
}
