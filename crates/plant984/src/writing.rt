// Writes an answer.
ghost use Rattle.std.specs.Prelude.{◌≡◌, ◌≤◌, ◌↔◌, IsErr};
ghost use Rattle.plant984.specs.Promise.{HasWrittenDue, WritesNothing, before_after};

use command_answers::{Answer, Status};
use plant_io::{Sink, write_all};
use std::alloc::AllocError;

/// Writes the text of an answer, where there is one, and answers how that ended.
pub fn write_due<K: Sink>(answered: Result<Answer, AllocError>, sink: &mut K) -> Status
    ensures answers { HasWrittenDue answered
        (before_after K.taken K.faults sink.old sink.new) result }
    ensures no_memory { (result ≡ Status.NoMemory) ↔ IsErr answered }
    ensures later { K.faults sink.old ≤ K.faults sink.new }
    ensures nothing_written { WritesNothing result → sink.new ≡ sink.old }
{
    match answered {
        Ok(Answer { status, text }) => match write_all(sink, text.as_slice()) {
            Ok(()) => status,
            Err(_) => Status::WriteFault,
        },
        Err(AllocError) => Status::NoMemory,
    }
}
