// The live top call: the plant runs in threads, and may wait.
ghost use Rattle.std.specs.Prelude.{◌≡◌, IfOk, map, string_bytes};
ghost use Rattle.joint_history.specs.Runnable.{CanRunPlant};
ghost use Rattle.command_words.specs.Words.{IsNumberOfScans, SpellsLive};
ghost use Rattle.command_answers.specs.Due.{IsLiveDue, IsLiveShown, as_due};
ghost use Rattle.plant984.specs.Promise.{AsksInput, PromisedLive, WritesNothing, always};
ghost use Rattle.plant984.specs.Promise.{before_after};

use crate::serial::INPUT_LIMIT;
use crate::writing::write_due;
use command_answers::{Answer, Status, refused, traced};
use command_words::live_scans;
use live_run::{Meet, live_noted};
use plant_io::{ReadEnd, Sink, Source, read_all};
use plant_loader::{LoadEnd, Version, load};
use plant_types::Plant;
use std::alloc::{AllocError, Global};
use std::sync::Wait;
use std::thread::Threads;
use std::time::Clock;

/// The journal and the panel of a live run of a plant.
fn show_live<M: Meet + Sync, R: Threads + Wait + Clock + Sync>(
    rt: &R,
    alloc: Global,
    scans: u32,
    plant: &Plant,
    meet: &M,
) -> Result<Answer, AllocError>
    requires scans { IsNumberOfScans scans }
    requires plant { CanRunPlant plant.now }
    ensures { IfOk result (λ answer. IsLiveShown scans plant.now (as_due answer)) }
{
    let noted = live_noted(rt, alloc, plant, scans, meet)?;
    let answer = traced(alloc, plant, scans, &noted)?;
    Ok(answer)
}

/// The answer to a live run of the plant of a file.
fn answer_live<M: Meet + Sync, R: Threads + Wait + Clock + Sync>(
    rt: &R,
    alloc: Global,
    scans: u32,
    input: &[u8],
    meet: &M,
) -> Result<Answer, AllocError>
    requires { IsNumberOfScans scans }
    ensures { IfOk result (λ answer. IsLiveDue scans input.now (as_due answer)) }
{
    match load(alloc, Version::Two, input) {
        Ok(plant) => show_live(rt, alloc, scans, &plant, meet),
        Err(LoadEnd::Refused(fault, place)) => refused(alloc, fault, place),
        Err(LoadEnd::NoMemory) => Err(AllocError),
    }
}

/// Runs the plant of the input in threads, if the words say so, and writes its journal and its
/// panel. It may wait; the outcome depends on the schedule.
pub fn plant_live<S: Source, K: Sink, M: Meet + Sync, R: Threads + Wait + Clock + Sync>(
    rt: &R,
    alloc: Global,
    words: &[String],
    source: &mut S,
    sink: &mut K,
    meet: &M,
) -> Status
    ensures promised { PromisedLive result (map string_bytes words.now)
        (before_after S.left S.faults source.old source.new)
        (before_after K.taken K.faults sink.old sink.new) }
    ensures reads_nothing { ¬ AsksInput SpellsLive always (map string_bytes words.now)
        → source.new ≡ source.old }
    ensures nothing_written { WritesNothing result → sink.new ≡ sink.old }
{
    let Ok(asked) = live_scans(alloc, words) else {
        return Status::NoMemory;
    };
    let Some(scans) = asked else {
        return Status::Usage;
    };
    match read_all(alloc, source, INPUT_LIMIT) {
        Err(ReadEnd::Fault) => Status::ReadFault,
        Err(ReadEnd::TooLong) => Status::TooLong,
        Err(ReadEnd::NoMemory) => Status::NoMemory,
        Ok(input) => write_due(answer_live(rt, alloc, scans, input.as_slice(), meet), sink),
    }
}
