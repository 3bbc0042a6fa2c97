//! Where the bytes of a text come from.

ghost use Rattle.std.specs.Prelude.{◌≡◌, ◌+◌, ◌-◌, ◌<◌, ◌≤◌, ◌^◌, ℕ, List, [], Option, Some};
ghost use Rattle.std.specs.Prelude.{length, IfErr, IfOk, MatchResult, take};
ghost use Rattle.std.specs.Io.KnownBytes.{Consumes, IsAtEnd, Keeps};

use std::io::{ErrorKind, Read};

/// The most bytes that a source gives.
pub const MOST_BYTES: u64 = 1 << 50;

/// The most turns of a loop over an input's bytes, lines or games, with the one that finds its end.
pub(crate) const MOST_TURNS: u64 = MOST_BYTES + 1;

/// A source couldn't be read.
#[derive(Debug, Drop, Clone, Copy, PartialEq, Eq)]
pub struct SourceFault;

/// What gives bytes.
pub trait Source {
    /// The bytes that it will give, or `None` of a source that doesn't tell them.
    ghost rest: { Self → Option (List ℕ) };

    /// How many bytes it gave.
    ghost given: { Self → ℕ };

    /// How many calls failed.
    ghost faults: { Self → ℕ };

    /// Reads the next bytes into the front of `piece`, which isn't empty. Returns how many; 0 only
    /// at the end. A source gives at most 2^50 bytes: it fails rather than risk giving more.
    ///
    /// # Errors
    /// `SourceFault` if it couldn't be read: nothing is given, and the fault count rises by one.
    fn read(&mut self, piece: &mut [u8]) -> Result<usize, SourceFault>
        requires room { 0 < length piece.old }
        requires faults { faults self.old < 2 ^ 64 - 1 }
        ensures piece { length piece.new ≡ length piece.old }
        ensures range { IfOk result (λ n. n ≤ length piece.new) }
        ensures bytes { IfOk result (λ n.
            Consumes (rest self.old) (rest self.new) (take n piece.new)) }
        ensures end { IfOk result (λ n. n ≡ 0 → IsAtEnd (rest self.new)) }
        ensures kept { IfErr result (λ _. Keeps (rest self.old) (rest self.new)) }
        ensures given { MatchResult result
            (λ n. given self.new ≡ given self.old + n)
            (λ _. given self.new ≡ given self.old) }
        ensures bound { IfOk result (λ _. given self.new ≤ 2 ^ 50) }
        ensures faults { MatchResult result
            (λ _. faults self.new ≡ faults self.old)
            (λ _. faults self.new ≡ faults self.old + 1) };
}

/// The source without any bytes, which never fails.
#[derive(Drop, Clone, Copy)]
pub struct NoBytes;

impl Source for NoBytes {
    ghost rest = { λ _. Some [] };

    ghost given = { λ _. 0 };

    ghost faults = { λ _. 0 };

    fn read(&mut self, _piece: &mut [u8]) -> Result<usize, SourceFault> {
        Ok(0)
    }
}

/// A source over a reader of std. It tells the bytes that the reader tells: all of a slice, and
/// none of a file or a terminal.
///
/// A read that a signal interrupts is tried again; any other error of the reader is a fault.
#[derive(Drop)]
pub struct Reader<R: Read> {
    reader: R,
    given: u64,
    faults: u64,
    ghost bound: { given ≤ 2 ^ 50 },
}

/// Reads some bytes, again where a signal interrupts that.
fn read_some<R: Read>(reader: &mut R, piece: &mut [u8]) -> Result<usize, SourceFault>
    requires { 0 < length piece.old }
    ensures range { IfOk result (λ n. n ≤ length piece.new) }
    ensures piece { length piece.new ≡ length piece.old }
    ensures bytes { IfOk result (λ n.
        Consumes (R.remaining reader.old) (R.remaining reader.new) (take n piece.new)) }
    ensures end { IfOk result (λ n. n ≡ 0 → IsAtEnd (R.remaining reader.new)) }
    ensures kept { IfErr result (λ _. Keeps (R.remaining reader.old) (R.remaining reader.new)) }
{
    for _ in 0..u64::MAX {
        match reader.read(piece) {
            Ok(count) => return Ok(count),
            Err(error) if error.kind() == ErrorKind::Interrupted => {}
            Err(_) => return Err(SourceFault),
        }
    }
    Err(SourceFault)
}

impl<R: Read> Reader<R> {
    /// A source over `reader`, which has given nothing, with no fault so far.
    pub fn new(reader: R) -> Reader<R>
        ensures rest { ⟦<Reader<R> as Source>⟧.rest result ≡ R.remaining reader }
        ensures given { ⟦<Reader<R> as Source>⟧.given result ≡ 0 }
        ensures faults { ⟦<Reader<R> as Source>⟧.faults result ≡ 0 }
    {
        Reader {
            reader,
            given: 0,
            faults: 0,
        }
    }

    /// Reads as long as no more bytes are given than a source may give.
    fn read_within(&mut self, piece: &mut [u8]) -> Result<usize, SourceFault>
        requires { 0 < length piece.old }
        ensures range { IfOk result (λ n. n ≤ length piece.new) }
        ensures piece { length piece.new ≡ length piece.old }
        ensures bytes { IfOk result (λ n.
            Consumes (R.remaining self.old.reader) (R.remaining self.new.reader)
            (take n piece.new)) }
        ensures end { IfOk result (λ n. n ≡ 0 → IsAtEnd (R.remaining self.new.reader)) }
        ensures kept { IfErr result (λ _.
            Keeps (R.remaining self.old.reader) (R.remaining self.new.reader)) }
        ensures given { MatchResult result
            (λ n. self.new.given ≡ self.old.given + n)
            (λ _. self.new.given ≡ self.old.given) }
        ensures faults { self.new.faults ≡ self.old.faults }
    {
        if MOST_BYTES - self.given < piece.len() as u64 {
            return Err(SourceFault);
        }
        let count = read_some(&mut self.reader, piece)?;
        self.given += count as u64;
        Ok(count)
    }
}

impl<R: Read> Source for Reader<R> {
    ghost rest = { λ s. R.remaining s.reader };

    ghost given = { λ s. s.given };

    ghost faults = { λ s. s.faults };

    fn read(&mut self, piece: &mut [u8]) -> Result<usize, SourceFault> {
        match self.read_within(piece) {
            Ok(count) => Ok(count),
            Err(fault) => {
                self.faults += 1;
                Err(fault)
            }
        }
    }
}
