//! Where bytes go: sinks, and a sink over a writer.

ghost use Rattle.std.specs.Prelude.{◌≡◌, ℕ, ◌-◌, ◌^◌, ◌<◌, List, Option, IfOk, IsSome};
ghost use Rattle.sinks.specs.Sinks.{CountsFault, IsTakenLength, AppendsOrBreaksOff, AppendsTaken};

use std::io::Write;
use std::snapshot::Snapshot;

/// A sink couldn't take a piece, or couldn't flush.
#[derive(Debug, Drop, Clone, Copy, PartialEq, Eq)]
pub struct SinkFault;

/// What takes bytes.
pub trait Sink {
    /// The bytes taken so far, or `None` of a sink that doesn't tell them.
    ghost bytes: { Self → Option (List ℕ) };

    /// How many calls failed.
    ghost faults: { Self → ℕ };

    /// Whether all that was taken is passed on, as a flush leaves it.
    ghost is_flushed: { Self → Type 0 };

    /// Takes the first bytes of a piece, at least one unless it is empty, and returns how many.
    ///
    /// # Errors
    /// `SinkFault` if it couldn't: nothing was taken, and the faults rise by one.
    fn write(&mut self, piece: &[u8]) -> Result<usize, SinkFault>
        requires { faults self.old < 2 ^ 64 - 1 }
        ensures count { IfOk result (λ n. IsTakenLength n piece.now) }
        ensures bytes { AppendsTaken (bytes self.old) (bytes self.new) result piece.now }
        ensures faults { CountsFault (faults self.old) (faults self.new) result };

    /// Passes on all that was taken.
    ///
    /// # Errors
    /// `SinkFault` if it couldn't: the faults rise by one.
    fn flush(&mut self) -> Result<(), SinkFault>
        requires { faults self.old < 2 ^ 64 - 1 }
        ensures passed_on { IfOk result (λ _. is_flushed self.new) }
        ensures bytes { bytes self.new ≡ bytes self.old }
        ensures faults { CountsFault (faults self.old) (faults self.new) result };

    /// Hears now and then how far the run has come that writes here: how many candidates were
    /// taken, and how many boards were written.
    ///
    /// A sink may pass on what it has gathered, or show the counts to a person; unless it says
    /// otherwise, it does nothing. It takes no bytes, and no call of it fails: if passing on fails,
    /// so does the next `write` or `flush`.
    fn watch(&mut self, candidates: u64, boards: u64)
        ensures bytes { bytes self.new ≡ bytes self.old }
        ensures faults { faults self.new ≡ faults self.old }
    {
        let _ = (candidates, boards);
    }
}

/// Writes the whole piece.
///
/// # Errors
/// `SinkFault` if the sink failed: a proper prefix of the piece was written, and nothing more.
pub fn put_all<S: Sink>(sink: &mut S, piece: &[u8]) -> Result<(), SinkFault>
    requires { S.faults sink.old < 2 ^ 64 - 1 }
    ensures bytes { AppendsOrBreaksOff (S.bytes sink.old) (S.bytes sink.new) result piece.now }
    ensures faults { CountsFault (S.faults sink.old) (S.faults sink.new) result }
{
    let mut rest = piece;
    while !rest.is_empty() {
        let taken = sink.write(rest)?;
        rest = &rest[taken..];
    }
    Ok(())
}

/// A sink over a writer of std. It tells the bytes that the writer tells: all that a `Vec<u8>`
/// holds, and none of a file or a terminal.
///
/// Any error of the writer is a fault, and so is a count of 0 for a piece that isn't empty. Each
/// piece is handed on at once: wrap the writer in a buffer if that matters.
#[derive(Drop)]
pub struct Piped<W: Write> {
    writer: W,
    // The writer as it was handed in, for proofs alone: it takes no memory. A writer that told
    // nothing then may tell something later.
    first: Snapshot<W>,
    // Whether nothing was taken since the last flush, for proofs alone too.
    flushed: Snapshot<bool>,
    faults: u64,
    ghost tells: { IsSome (W.contents first.value) → IsSome (W.contents writer) },
}

impl<W: Write> Piped<W> {
    /// A sink over `writer`, with no fault so far.
    pub fn new(writer: W) -> Piped<W>
        ensures bytes { ⟦<Piped<W> as Sink>⟧.bytes result ≡ W.contents writer }
        ensures faults { ⟦<Piped<W> as Sink>⟧.faults result ≡ 0 }
    {
        let first = Snapshot::of(&writer);
        Piped {
            writer,
            first,
            flushed: Snapshot::of(&false),
            faults: 0,
        }
    }

    /// How many calls failed.
    pub fn fault_count(&self) -> u64
        ensures { result ≡ ⟦<Piped<W> as Sink>⟧.faults self.now }
    {
        let Piped { faults, .. } = self;
        *faults
    }
}

impl<W: Write> Sink for Piped<W> {
    ghost use Rattle.std.specs.Prelude.{true};
    ghost use Rattle.sinks.specs.Writers.{told};

    ghost bytes = { λ s. told W.contents s.first.value s.writer };

    ghost faults = { λ s. s.faults };

    ghost is_flushed = { λ s. s.flushed.value ≡ true };

    fn write(&mut self, piece: &[u8]) -> Result<usize, SinkFault> {
        self.flushed = Snapshot::of(&false);
        match self.writer.write(piece) {
            Ok(taken) if taken > 0 || piece.is_empty() => Ok(taken),
            _ => {
                self.faults += 1;
                Err(SinkFault)
            }
        }
    }

    fn flush(&mut self) -> Result<(), SinkFault> {
        match self.writer.flush() {
            Ok(()) => {
                self.flushed = Snapshot::of(&true);
                Ok(())
            }
            Err(_) => {
                self.faults += 1;
                Err(SinkFault)
            }
        }
    }
}
