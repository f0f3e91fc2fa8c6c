// A source and a sink in memory, which fail at the calls that they are told.
ghost use Rattle.std.specs.Prelude.{◌≡◌, ◌<◌, ◌+◌, ◌≤◌, ◌↔◌, ◌++◌, ◌⊎◌, [], min, drop, take};
ghost use Rattle.std.specs.Prelude.{length, Some, Contains, IsErr, IfOk, OnErr};
ghost use Rattle.plant_io.specs.Causes.{HasCause, raised};
ghost use Rattle.plant_io.specs.Streams.{Gave, Took};

use crate::calls::Calls;
use crate::{Failed, Sink, Source};
use std::alloc::Global;
use std::marker::Model;

/// Bytes in memory, to be read.
#[derive(Debug, Drop)]
pub struct MemSource {
    bytes: Vec<u8>,
    at: usize,
    piece: usize,
    calls: Calls,
}

impl Model for MemSource {
    ghost use Rattle.std.specs.Prelude.{◌<◌, ◌≤◌, drop, vec_len};
    ghost use Rattle.plant_io.specs.Memory.{Input};

    ghost Value = { Input };

    ghost view = { λ s. record {
      left = drop s.at s.bytes.items;
      piece = s.piece;
      fails = s.calls.fails.items;
      calls = s.calls.made;
      faults = s.calls.failed;
    } };

    ghost invariant = { λ s. (s.at ≤ vec_len s.bytes) × (0 < s.piece) };
}

impl MemSource {
    /// At most `piece` bytes come at a read. The calls whose numbers, from 1, stand in `fails`
    /// fail.
    pub fn new(bytes: Vec<u8>, piece: usize, fails: Vec<u64>) -> MemSource
        requires { 0 < piece }
        ensures left { result.left ≡ bytes.items }
        ensures piece { result.piece ≡ piece }
        ensures fails { result.fails ≡ fails.items }
        ensures fresh { (result.calls ≡ 0) × (result.faults ≡ 0) }
    {
        MemSource {
            bytes,
            at: 0,
            piece,
            calls: Calls::new(fails),
        }
    }
}

impl Source for MemSource {
    ghost left = { λ source. Some source.left };

    ghost faults = { λ source. source.faults };

    fn read(&mut self, buf: &mut [u8]) -> Result<usize, Failed>
        requires { 0 < length buf.old }
        ensures end { IfOk result (λ count. (count ≡ 0) ↔ (self.old.left ≡ [])) }
        ensures cause { HasCause self.old.faults self.new.faults result }

        // Exactly the calls of the list fail, and each other one gives all that it can.
        ensures fails { IsErr result ↔ Contains self.old.fails (self.old.calls + 1) }
        ensures count { IfOk result (λ count. count ≡
            min self.old.piece (min (length buf.old) (length self.old.left))) }
        ensures ok { IfOk result (λ count. self.new ≡
            record self.old { left = drop count self.old.left; calls = raised self.old.calls }) }
        ensures err { OnErr result (self.new ≡ record self.old {
          calls = raised self.old.calls;
          faults = raised self.old.faults;
        }) }
        ensures filled { IfOk result (λ count. buf.new ≡
            take count self.old.left ++ drop count buf.old) }
        ensures untouched { OnErr result (buf.new ≡ buf.old) }
    {
        if self.calls.fails_next() {
            self.calls.fail();
            return Err(Failed);
        }
        let count = self.piece.min(buf.len()).min(self.bytes.len() - self.at);
        buf[..count].copy_from_slice(&self.bytes[self.at..self.at + count]);
        self.at += count;
        Ok(count)
    }
}

/// Bytes in memory, as they were written.
#[derive(Debug, Drop)]
pub struct MemSink {
    bytes: Vec<u8>,
    piece: usize,
    calls: Calls,
}

impl Model for MemSink {
    ghost use Rattle.std.specs.Prelude.{◌<◌, vec_capacity};
    ghost use Rattle.plant_io.specs.Memory.{Output};

    ghost Value = { Output };

    ghost view = { λ s. record {
      taken = s.bytes.items;
      room = vec_capacity s.bytes;
      piece = s.piece;
      fails = s.calls.fails.items;
      calls = s.calls.made;
      faults = s.calls.failed;
    } };

    ghost invariant = { λ s. 0 < s.piece };
}

impl MemSink {
    /// At most `piece` bytes go at a write. The calls whose numbers, from 1, stand in `fails`
    /// fail, and so does one that gets no memory.
    pub fn new(alloc: Global, piece: usize, fails: Vec<u64>) -> MemSink
        requires { 0 < piece }
        ensures taken { result.taken ≡ [] }
        ensures piece { result.piece ≡ piece }
        ensures fails { result.fails ≡ fails.items }
        ensures fresh { (result.calls ≡ 0) × (result.faults ≡ 0) }
    {
        MemSink {
            bytes: Vec::new(alloc),
            piece,
            calls: Calls::new(fails),
        }
    }

    /// What it took.
    pub fn bytes(&self) -> &[u8]
        ensures { result.now ≡ self.now.taken }
    {
        &self.bytes
    }
}

impl Sink for MemSink {
    ghost taken = { λ sink. Some sink.taken };

    ghost faults = { λ sink. sink.faults };

    fn write(&mut self, piece: &[u8]) -> Result<usize, Failed>
        requires { 0 < length piece.now }
        ensures some { IfOk result (λ count. 0 < count) }
        ensures cause { HasCause self.old.faults self.new.faults result }

        // The calls of the list fail, and no other one unless it finds no room for more.
        ensures fails { Contains self.old.fails (self.old.calls + 1) → IsErr result }
        ensures full { IsErr result → Contains self.old.fails (self.old.calls + 1) ⊎
            (self.old.room < length self.old.taken + min self.old.piece (length piece.now)) }
        ensures count { IfOk result (λ count. count ≡ min self.old.piece (length piece.now)) }
        ensures ok { IfOk result (λ count. self.new ≡ record self.old {
          taken = self.old.taken ++ take count piece.now;
          calls = raised self.old.calls;
          room = self.new.room;
        }) }
        ensures err { OnErr result (self.new ≡ record self.old {
          calls = raised self.old.calls;
          faults = raised self.old.faults;
          room = self.new.room;
        }) }
        ensures room { self.old.room ≤ self.new.room }
    {
        let fails = self.calls.fails_next();
        let count = self.piece.min(piece.len());
        if fails || self.bytes.extend_from_slice(&piece[..count]).is_err() {
            self.calls.fail();
            return Err(Failed);
        }
        Ok(count)
    }
}
