// The top call of the program.
ghost use Rattle.std.specs.Prelude.{◌≡◌, IsTrue, ◌↔◌, IfErr, IfOk, codes, map, string_bytes};
ghost use Rattle.std.specs.Process.{exit_status};
ghost use Rattle.plant984.specs.Promise.{AsksNothing, ExitsWith, PromisedAll, StartsLive};
ghost use Rattle.plant984.specs.Promise.{WritesNothing, before_after};
ghost use Rattle.command_answers.specs.Status.{exit_number};

use crate::live::plant_live;
use crate::serial::plant_serial;
use command_answers::Status;
use live_run::Meet;
use plant_io::{Sink, Source};
use std::alloc::Global;
use std::process::ExitCode;
use std::sync::Wait;
use std::thread::Threads;
use std::time::Clock;

fn is_live(name: &str) -> bool
    ensures { IsTrue result ↔ (name.now ≡ codes "live") }
{
    name == "live"
}

/// Whether the first word is that of a live run.
fn starts_live(words: &[String]) -> bool
    ensures { IsTrue result ↔ StartsLive (map string_bytes words.now) }
{
    match words {
        [name, ..] => is_live(name.as_str()),
        [] => false,
    }
}

/// Does what the words after the program's name say, and answers how that ended: a live run in
/// threads, which may wait, and all else without.
pub fn plant_top<S: Source, K: Sink, M: Meet + Sync, R: Threads + Wait + Clock + Sync>(
    rt: &R,
    alloc: Global,
    words: &[String],
    source: &mut S,
    sink: &mut K,
    meet: &M,
) -> Status
    ensures promised { PromisedAll (map string_bytes words.now)
        (before_after S.left S.faults source.old source.new)
        (before_after K.taken K.faults sink.old sink.new) result }
    ensures reads_nothing { AsksNothing (map string_bytes words.now) → source.new ≡ source.old }
    ensures nothing_written { WritesNothing result → sink.new ≡ sink.old }
{
    if starts_live(words) {
        plant_live(rt, alloc, words, source, sink, meet)
    } else {
        plant_serial(alloc, words, source, sink)
    }
}

/// The top call, and the number of its status, with which the process ends.
pub fn exit_of<S: Source, K: Sink, M: Meet + Sync, R: Threads + Wait + Clock + Sync>(
    rt: &R,
    alloc: Global,
    words: &[String],
    source: &mut S,
    sink: &mut K,
    meet: &M,
) -> ExitCode
    ensures promised { ExitsWith (exit_status result) (λ status.
        (WritesNothing status → sink.new ≡ sink.old) × PromisedAll (map string_bytes words.now)
        (before_after S.left S.faults source.old source.new)
        (before_after K.taken K.faults sink.old sink.new) status) }
    ensures reads_nothing { AsksNothing (map string_bytes words.now) → source.new ≡ source.old }
{
    ExitCode::from(plant_top(rt, alloc, words, source, sink, meet))
}

/// The same for the words of a command line, or, where they could not be read, the number of that
/// status: then nothing is read or written.
pub fn exit_by<S: Source, K: Sink, M: Meet + Sync, R: Threads + Wait + Clock + Sync>(
    rt: &R,
    alloc: Global,
    words: Result<Vec<String>, Status>,
    source: &mut S,
    sink: &mut K,
    meet: &M,
) -> ExitCode
    ensures unread { IfErr words (λ status. (exit_status result ≡ exit_number status)
        × (source.new ≡ source.old) × (sink.new ≡ sink.old)) }
    ensures promised { IfOk words (λ words. ExitsWith (exit_status result) (λ status.
        (WritesNothing status → sink.new ≡ sink.old) × PromisedAll (map string_bytes words.items)
        (before_after S.left S.faults source.old source.new)
        (before_after K.taken K.faults sink.old sink.new) status)) }
    ensures reads_nothing { IfOk words
        (λ words. AsksNothing (map string_bytes words.items) → source.new ≡ source.old) }
{
    match words {
        Ok(words) => exit_of(rt, alloc, &words, source, sink, meet),
        Err(status) => ExitCode::from(status),
    }
}
