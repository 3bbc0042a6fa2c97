//! A sink over memory.

ghost use Rattle.std.specs.Prelude.{◌≡◌, ◌+◌, ◌-◌, ◌^◌, ◌<◌, [], IsOk};

use crate::sink::{Sink, SinkFault};
use std::alloc::Global;
use std::marker::Model;

/// A sink over memory, which contracts see as the bytes that it took and the number of its faults.
///
/// An allocation that fails is a fault, and then nothing is taken.
#[derive(Drop)]
pub struct MemSink {
    taken: Vec<u8>,
    faults: u64,
}

impl Model for MemSink {
    ghost use Rattle.sinks.specs.Fuses.{MemoryView};

    ghost Value = { MemoryView };

    ghost view = { λ s. record { bytes = s.taken.items; faults = s.faults } };
}

impl MemSink {
    /// An empty sink. It takes no memory.
    pub fn new(alloc: Global) -> MemSink
        ensures bytes { result.bytes ≡ [] }
        ensures faults { result.faults ≡ 0 }
    {
        MemSink {
            taken: Vec::new(alloc),
            faults: 0,
        }
    }

    /// Counts a fault.
    pub(crate) fn note_fault(&mut self)
        requires { self.old.faults < 2 ^ 64 - 1 }
        ensures bytes { self.new.bytes ≡ self.old.bytes }
        ensures faults { self.new.faults ≡ self.old.faults + 1 }
    {
        self.faults += 1;
    }

    /// The bytes taken so far.
    pub fn bytes(&self) -> &[u8]
        ensures { result.now ≡ self.now.bytes }
    {
        self.taken.as_slice()
    }
}

impl Sink for MemSink {
    ghost use Rattle.std.specs.Prelude.{Some, ⊤};

    ghost bytes = { λ s. Some s.bytes };

    ghost faults = { λ s. s.faults };

    ghost is_flushed = { λ _. ⊤ };

    fn write(&mut self, piece: &[u8]) -> Result<usize, SinkFault> {
        match self.taken.extend_from_slice(piece) {
            Ok(()) => Ok(piece.len()),
            Err(_) => {
                self.note_fault();
                Err(SinkFault)
            }
        }
    }

    /// Always succeeds.
    fn flush(&mut self) -> Result<(), SinkFault>
        ensures flushed { IsOk result }
        ensures same { self.new ≡ self.old }
    {
        Ok(())
    }
}
