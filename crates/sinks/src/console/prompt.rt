//! The output, with its boards passed on as they are found.

ghost use Rattle.std.specs.Prelude.{◌≡◌, ◌+◌, ◌-◌, ◌^◌, ◌<◌, [], false, IfOk, IsSome, OnOk};
ghost use Rattle.std.specs.Io.Buffered.{writer_buffer, writer_contents};
ghost use Rattle.sinks.specs.Sinks.{CountsFault};
ghost use Rattle.sinks.specs.Writers.{told};

use crate::console::counts::{Counts, Remark};
use crate::{Sink, SinkFault};
use std::io::{BufWriter, Error, Write};
use std::snapshot::Snapshot;
use std::time::Clock;

/// For how many milliseconds a board is gathered that is found by a search, before it is passed on.
pub const GATHERED_MILLIS: u64 = 200;

/// A clock's time in milliseconds, if it tells one.
pub fn millis(clock: &impl Clock) -> Option<u64> {
    u64::try_from(clock.monotonic().ok()?.as_millis()).ok()
}

/// A sink over a writer with a buffer, for a person who may watch. It tells the bytes that the
/// writer tells and those in the buffer, and is flushed when the buffer is empty.
///
/// When the run says how far it is, bytes that were gathered for long enough are passed on. Before
/// counts are shown all bytes are, so no board is missing that they count. The counts are wiped
/// when the sink is flushed or fails.
///
/// Any error of the writer is a fault, and so is a count of 0 for a piece that isn't empty. If
/// passing on fails, the next `write` or `flush` is a fault.
pub struct Prompt<W: Write + Drop, C, E, R> {
    writer: BufWriter<W>,
    // The writer as it was handed in, for proofs alone: it takes no memory.
    first: Snapshot<BufWriter<W>>,
    clock: C,
    counts: Counts<E, R>,
    /// For how many milliseconds bytes are gathered.
    gathered_millis: u64,
    /// Whether bytes may be in the buffer, and when the last ones were passed on.
    gathers: bool,
    passed_on: u64,
    /// Whether passing on failed, and no call told it so far.
    fails: bool,
    /// Why the writer failed last.
    reason: Option<Error>,
    faults: u64,
    ghost tells: { IsSome (writer_contents W.contents first.value)
        → IsSome (writer_contents W.contents writer) },
    ghost gathered: { gathers ≡ false → writer_buffer writer ≡ [] },
}

// By hand, so that to drop one is a call (docs/DECISIONS.md).
impl<W: Write + Drop, C: Drop, E: Drop, R: Drop> Drop for Prompt<W, C, E, R> {
    fn drop(self) {
        let Prompt {
            writer: _,
            first: _,
            clock: _,
            counts: _,
            gathered_millis: _,
            gathers: _,
            passed_on: _,
            fails: _,
            reason: _,
            faults: _,
        } = self;
    }
}

impl<W: Write + Drop, C: Clock, E: Write, R: Remark> Prompt<W, C, E, R> {
    /// A sink over `writer` that gathers for this many milliseconds, with no fault so far.
    pub fn new(
        writer: BufWriter<W>,
        clock: C,
        counts: Counts<E, R>,
        gathered_millis: u64,
    ) -> Prompt<W, C, E, R>
        ensures bytes { ⟦<Prompt<W, C, E, R> as Sink>⟧.bytes result
            ≡ writer_contents W.contents writer }
        ensures faults { ⟦<Prompt<W, C, E, R> as Sink>⟧.faults result ≡ 0 }
    {
        let first = Snapshot::of(&writer);
        let gathers = !writer.buffer().is_empty();
        Prompt {
            writer,
            first,
            clock,
            counts,
            gathered_millis,
            gathers,
            passed_on: 0,
            fails: false,
            reason: None,
            faults: 0,
        }
    }

    /// How many calls failed.
    pub fn fault_count(&self) -> u64
        ensures { result ≡ ⟦<Prompt<W, C, E, R> as Sink>⟧.faults self.now }
    {
        self.faults
    }

    /// Why the writer failed last, if it told why.
    pub fn reason(&self) -> Option<&Error> {
        self.reason.as_ref()
    }

    /// Whether what was gathered is due to be passed on.
    fn is_due(&self, now: u64) -> bool {
        now.saturating_sub(self.passed_on) >= self.gathered_millis
    }

    /// Has the writer pass on what is in the buffer.
    fn empty_buffer(&mut self) -> Result<(), Error>
        ensures empty { OnOk result (writer_buffer self.new.writer ≡ []) }
        ensures bytes { told (writer_contents W.contents) self.new.first.value self.new.writer
            ≡ told (writer_contents W.contents) self.old.first.value self.old.writer }
        ensures same { (self.new.fails ≡ self.old.fails) × (self.new.faults ≡ self.old.faults) }
    {
        self.gathers = true;
        self.writer.flush()?;
        self.gathers = false;
        Ok(())
    }

    /// Passes on what was gathered, if anything was.
    fn pass_on(&mut self, now: u64)
        ensures bytes { told (writer_contents W.contents) self.new.first.value self.new.writer
            ≡ told (writer_contents W.contents) self.old.first.value self.old.writer }
        ensures faults { self.new.faults ≡ self.old.faults }
    {
        if !self.gathers {
            return;
        }
        self.passed_on = now;
        if let Err(error) = self.empty_buffer() {
            self.fails = true;
            self.reason = Some(error);
        }
    }
}

impl<W: Write + Drop, C: Clock, E: Write, R: Remark> Prompt<W, C, E, R> {
    /// Counts a fault, and says nothing more of the counts.
    fn fault(&mut self) -> SinkFault
        requires { self.old.faults < 2 ^ 64 - 1 }
        ensures same { (self.new.first ≡ self.old.first) × (self.new.writer ≡ self.old.writer) }
        ensures faults { self.new.faults ≡ self.old.faults + 1 }
    {
        self.counts.wipe();
        self.faults += 1;
        SinkFault
    }

    /// Tells that passing on failed, if no call told it so far.
    fn tell(&mut self) -> Result<(), SinkFault>
        requires { self.old.faults < 2 ^ 64 - 1 }
        ensures same { (self.new.first ≡ self.old.first) × (self.new.writer ≡ self.old.writer) }
        ensures told { IfOk result (λ _. self.new.fails ≡ false) }
        ensures faults { CountsFault self.old.faults self.new.faults result }
    {
        if !self.fails {
            return Ok(());
        }
        self.fails = false;
        Err(self.fault())
    }
}

impl<W: Write + Drop, C: Clock, E: Write, R: Remark> Sink for Prompt<W, C, E, R> {
    ghost use Rattle.std.specs.Prelude.{[]};
    ghost use Rattle.std.specs.Io.Buffered.{writer_buffer, writer_contents};
    ghost use Rattle.sinks.specs.Writers.{told};

    ghost bytes = { λ s. told (writer_contents W.contents) s.first.value s.writer };

    ghost faults = { λ s. s.faults };

    ghost is_flushed = { λ s. (writer_buffer s.writer ≡ []) × (s.fails ≡ false) };

    fn write(&mut self, piece: &[u8]) -> Result<usize, SinkFault> {
        self.tell()?;
        self.gathers = true;
        match self.writer.write(piece) {
            Ok(taken) if taken > 0 || piece.is_empty() => Ok(taken),
            Ok(_) => Err(self.fault()),
            Err(error) => {
                self.reason = Some(error);
                Err(self.fault())
            }
        }
    }

    /// Passes on all, and wipes the counts.
    fn flush(&mut self) -> Result<(), SinkFault> {
        self.tell()?;
        self.counts.wipe();
        match self.empty_buffer() {
            Ok(()) => Ok(()),
            Err(error) => {
                self.reason = Some(error);
                Err(self.fault())
            }
        }
    }

    /// Passes on what was gathered and shows the counts, each if it is due. Boards that are
    /// counted were passed on.
    fn watch(&mut self, candidates: u64, boards: u64) {
        let Some(now) = millis(&self.clock) else {
            return;
        };
        if self.is_due(now) || self.counts.is_due(now) {
            self.pass_on(now);
        }
        // What was passed on may have wiped the line.
        if self.counts.is_due(now) {
            self.counts.show(now, candidates, boards);
        }
    }
}
