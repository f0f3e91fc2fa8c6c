// The serial top call: the whole input is read, and then the whole text is written.
ghost use Rattle.std.specs.Prelude.{◌≡◌, map, string_bytes};
ghost use Rattle.command_answers.specs.Due.{reads_input};
ghost use Rattle.plant984.specs.Promise.{AsksCommandInput, Promised, WritesNothing, before_after};

use crate::writing::write_due;
use command_answers::{Status, answer_to};
use command_words::{Command, command_of};
use plant_io::{ReadEnd, Sink, Source, read_all};
use std::alloc::Global;

/// The most bytes of input that are taken.
pub const INPUT_LIMIT: usize = 67_108_864;

fn reads_input(command: Command) -> bool
    ensures { result ≡ reads_input command }
{
    !matches!(command, Command::Gen { .. })
}

/// Does what the words say, without threads. It reads the whole input before it writes, and makes
/// the whole text before it writes any of it.
pub fn plant_serial<S: Source, K: Sink>(
    alloc: Global,
    words: &[String],
    source: &mut S,
    sink: &mut K,
) -> Status
    ensures promised { Promised result (map string_bytes words.now)
        (before_after S.left S.faults source.old source.new)
        (before_after K.taken K.faults sink.old sink.new) }
    ensures reads_nothing { ¬ AsksCommandInput (map string_bytes words.now)
        → source.new ≡ source.old }
    ensures nothing_written { WritesNothing result → sink.new ≡ sink.old }
{
    let Ok(asked) = command_of(alloc, words) else {
        return Status::NoMemory;
    };
    let Some(command) = asked else {
        return Status::Usage;
    };
    if !reads_input(command) {
        return write_due(answer_to(alloc, command, &[]), sink);
    }
    match read_all(alloc, source, INPUT_LIMIT) {
        Err(ReadEnd::Fault) => Status::ReadFault,
        Err(ReadEnd::TooLong) => Status::TooLong,
        Err(ReadEnd::NoMemory) => Status::NoMemory,
        Ok(input) => write_due(answer_to(alloc, command, input.as_slice()), sink),
    }
}
