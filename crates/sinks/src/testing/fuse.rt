//! A sink over memory that fails on demand, for tests.

ghost use Rattle.std.specs.Prelude.{◌≡◌, ◌-◌, ◌≤◌, ◌<◌, ◌^◌, ◌↔◌, ◌==◌, true, IfOk, IsErr, IsOk};
ghost use Rattle.std.specs.Prelude.{IsTrue};
ghost use Rattle.sinks.specs.Fuses.{counted};
ghost use Rattle.sinks.specs.Sinks.{CountsFault, IsTakenLength, AppendsTaken};

use crate::sink::{Sink, SinkFault};
use crate::testing::memory_sink::MemSink;
use std::marker::Model;

/// A sink over memory for tests, which fails and takes short pieces on demand.
#[derive(Drop)]
pub struct Fuse {
    sink: MemSink,
    fails_at: u64,
    most: usize,
    flush_ok: bool,
    writes: u64,
}

impl Model for Fuse {
    ghost use Rattle.std.specs.Prelude.{◌<◌};
    ghost use Rattle.sinks.specs.Fuses.{FuseView};

    ghost Value = { FuseView };

    ghost view = { λ s. record {
      memory = s.sink;
      fails_at = s.fails_at;
      most = s.most;
      flush_ok = s.flush_ok;
      writes = s.writes;
    } };

    ghost invariant = { λ s. 0 < s.most };
}

impl Fuse {
    /// A sink that goes on from what `sink` took and from its faults.
    ///
    /// Its write number `fails_at`, counted from 1, is a fault that takes nothing, and later writes
    /// go on; 0 means none. A write takes at most `most` bytes. If `flush_ok` is false, each
    /// flush is a fault.
    pub fn new(sink: MemSink, fails_at: u64, most: usize, flush_ok: bool) -> Fuse
        requires { 0 < most }
        ensures memory { result.memory ≡ sink }
        ensures settings { (result.fails_at ≡ fails_at)
            × (result.most ≡ most)
            × (result.flush_ok ≡ flush_ok) }
        ensures writes { result.writes ≡ 0 }
    {
        Fuse {
            sink,
            fails_at,
            most,
            flush_ok,
            writes: 0,
        }
    }

    /// The bytes taken so far, those of the first sink included.
    pub fn bytes(&self) -> &[u8]
        ensures { result.now ≡ self.now.memory.bytes }
    {
        self.sink.bytes()
    }

    /// How many calls of `write` there were, up to the largest number that fits.
    pub fn writes(&self) -> u64
        ensures { result ≡ self.now.writes }
    {
        self.writes
    }
}

impl Sink for Fuse {
    ghost use Rattle.std.specs.Prelude.{Some, ⊤};

    ghost bytes = { λ s. Some s.memory.bytes };

    ghost faults = { λ s. s.memory.faults };

    ghost is_flushed = { λ _. ⊤ };

    fn write(&mut self, piece: &[u8]) -> Result<usize, SinkFault>
        requires { self.old.memory.faults < 2 ^ 64 - 1 }
        ensures count { IfOk result (λ n. IsTakenLength n piece.now) }
        ensures bytes { AppendsTaken (⟦<Fuse as Sink>⟧.bytes self.old)
            (⟦<Fuse as Sink>⟧.bytes self.new) result piece.now }
        ensures faults { CountsFault self.old.memory.faults self.new.memory.faults result }
        ensures writes { self.new.writes ≡ counted self.old.writes }
        ensures most { IfOk result (λ n. n ≤ self.old.most) }
        ensures fails { self.new.writes ≡ self.old.fails_at → IsErr result }
        ensures settings { (self.new.fails_at ≡ self.old.fails_at)
            × (self.new.most ≡ self.old.most)
            × (self.new.flush_ok ≡ self.old.flush_ok) }
    {
        self.writes = self.writes.saturating_add(1);
        if self.writes == self.fails_at {
            self.sink.note_fault();
            return Err(SinkFault);
        }
        self.sink.write(&piece[..piece.len().min(self.most)])
    }

    fn flush(&mut self) -> Result<(), SinkFault>
        requires { self.old.memory.faults < 2 ^ 64 - 1 }
        ensures flushed { IsOk result ↔ (self.old.flush_ok ≡ true) }
        ensures bytes { self.new.memory.bytes ≡ self.old.memory.bytes }
        ensures faults { CountsFault self.old.memory.faults self.new.memory.faults result }
        ensures writes { self.new.writes ≡ self.old.writes }
        ensures settings { (self.new.fails_at ≡ self.old.fails_at)
            × (self.new.most ≡ self.old.most)
            × (self.new.flush_ok ≡ self.old.flush_ok) }
    {
        if self.flush_ok {
            return Ok(());
        }
        self.sink.note_fault();
        Err(SinkFault)
    }
}
