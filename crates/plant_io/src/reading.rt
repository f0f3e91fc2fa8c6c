ghost use Rattle.std.specs.Prelude.{◌≡◌, ◌+◌, ◌<◌, ◌≤◌, ◌↔◌, ℕ, List, [], length, take, Option};
ghost use Rattle.std.specs.Prelude.{IfOk, IsOk, IfSome, OnErr, ◌⊎◌};
ghost use Rattle.plant_io.specs.Causes.{HasCause, Rose};
ghost use Rattle.plant_io.specs.Streams.{Gave, GaveFront, GaveAll, IsTooLong};
ghost use Rattle.plant_io.specs.declared.reading.ReadEnd.TheVariants.{Fault, NoMemory};

use crate::Failed;
use std::alloc::{AllocError, Global};
use std::error::Error;
use std::fmt;

/// Where bytes come from.
pub trait Source {
    /// The bytes that are left, where the source tells them.
    ghost left: { Self → Option (List ℕ) };

    /// How often it has failed.
    ghost faults: { Self → ℕ };

    /// Moves bytes to the front of the buffer, and answers how many: none at the end of input.
    fn read(&mut self, buf: &mut [u8]) -> Result<usize, Failed>
        requires { 0 < length buf.old }
        ensures within { IfOk result (λ count. count ≤ length buf.new) }
        ensures gave { IfOk result (λ count.
            Gave (left self.old) (left self.new) (take count buf.new)) }
        ensures end { IfOk result (λ count.
            IfSome (left self.old) (λ bytes. (count ≡ 0) ↔ (bytes ≡ []))) }
        ensures kept { OnErr result (left self.new ≡ left self.old) }
        ensures cause { HasCause (faults self.old) (faults self.new) result };
}

/// Why reading to the end ended early.
#[derive(Clone, Copy, Debug, PartialEq, Eq)]
pub enum ReadEnd {
    Fault,
    TooLong,
    NoMemory,
}

impl fmt::Display for ReadEnd {
    ghost use Rattle.plant_io.specs.Texts.{end_text};
    ghost use Rattle.std.specs.Prelude.{Some};

    ghost output = { λ end. Some (end_text end) };

    fn fmt<W: fmt::Write>(&self, f: &mut fmt::Formatter<W>) -> fmt::Result {
        match self {
            ReadEnd::Fault => f.write_str("the input could not be read"),
            ReadEnd::TooLong => f.write_str("the input is too long"),
            ReadEnd::NoMemory => f.write_str("out of memory"),
        }
    }
}

impl Error for ReadEnd {}

impl From<Failed> for ReadEnd {
    ghost from_gives = { λ _ end. end ≡ Fault };

    fn from(_failed: Failed) -> ReadEnd {
        ReadEnd::Fault
    }
}

impl From<AllocError> for ReadEnd {
    ghost from_gives = { λ _ end. end ≡ NoMemory };

    fn from(_error: AllocError) -> ReadEnd {
        ReadEnd::NoMemory
    }
}

/// The most bytes that one read asks for.
const PIECE: usize = 65_536;

/// Reads all bytes up to the end of input. Of a longer input it reads the limit and one byte.
pub fn read_all<S: Source>(alloc: Global, source: &mut S, limit: usize) -> Result<Vec<u8>, ReadEnd>
    ensures whole { IfOk result (λ bytes.
        GaveAll (S.left source.old) (S.left source.new) bytes.items) }
    ensures within { IfOk result (λ bytes. length bytes.items ≤ limit) }

    // Each early end has its cause, and the source is where the reading ended.
    ensures too_long { result ≡ Err ReadEnd.TooLong →
        IsTooLong (S.left source.old) (S.left source.new) limit }
    ensures fault { result ≡ Err ReadEnd.Fault →
        Rose (S.faults source.old) (S.faults source.new) }
    ensures fault_front { result ≡ Err ReadEnd.Fault →
        GaveFront (S.left source.old) (S.left source.new) limit }
    ensures memory_front { result ≡ Err ReadEnd.NoMemory →
        GaveFront (S.left source.old) (S.left source.new) (limit + 1) }
    ensures later { S.faults source.old ≤ S.faults source.new }

    // Where nothing fails, the length of the input alone decides.
    ensures short { (input : List ℕ) → S.left source.old ≡ Some input → length input ≤ limit →
        ¬ (Rose (S.faults source.old) (S.faults source.new)) →
        IsOk result ⊎ (result ≡ Err ReadEnd.NoMemory) }
    ensures long { (input : List ℕ) → S.left source.old ≡ Some input → limit < length input →
        ¬ (Rose (S.faults source.old) (S.faults source.new)) →
        (result ≡ Err ReadEnd.TooLong) ⊎ (result ≡ Err ReadEnd.NoMemory) }
{
    let mut bytes = Vec::new(alloc);
    let mut buffer = vec![in alloc; 0u8; PIECE.min(limit.saturating_add(1))]?;
    let piece = buffer.as_mut_slice();
    while bytes.len() <= limit {
        let room = piece.len().min((limit - bytes.len()).saturating_add(1));
        let count = source.read(&mut piece[..room])?;
        if count == 0 {
            return Ok(bytes);
        }
        bytes.extend_from_slice(&piece[..count])?;
    }
    Err(ReadEnd::TooLong)
}
