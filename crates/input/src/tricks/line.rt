//! A line of an input, read byte by byte.

ghost use Rattle.std.specs.Prelude.{◌≡◌, ◌+◌, ◌-◌, ◌<◌, ◌≤◌, ◌^◌, ◌++◌, ◌∷◌, [], IfOk};
ghost use Rattle.std.specs.Prelude.{MatchResult, OnErr, false, if◌then◌else◌, true};
ghost use Rattle.std.specs.Io.KnownBytes.{Consumes, IsAtEnd};
ghost use Rattle.input.specs.declared.tricks.line.LineEnd.TheVariants.{Feed, Last, Nothing};
ghost use Rattle.input.specs.internal.Telling.{Advances, FailsWithin, GivesByte, ReadsLine, count_of};
ghost use Rattle.input.specs.internal.TricksPicking.{FailsWithinText, FeedsOn, ReadsText};

use crate::blank::is_blank;
use crate::source::{MOST_TURNS, Source, SourceFault};
use arrayvec::ArrayVec;

/// The most bytes that are kept of a line. A line of tricks has 123 at most, and a CR.
pub(crate) const LONGEST: usize = 256;

/// The bytes of a line.
pub(crate) type TricksLine = ArrayVec<u8, LONGEST>;

/// What was read.
#[derive(Clone, Copy)]
pub(crate) enum LineEnd {
    /// A line and its LF.
    Feed,
    /// The last line, which has no LF, and at least one byte.
    Last,
    /// The beginning of a line that has more bytes than are kept.
    TooLong,
    /// No byte: the input ended.
    Nothing,
}

impl LineEnd {
    /// Whether nothing was read.
    pub(crate) fn is_nothing(self) -> bool
        ensures yes { result ≡ true → self ≡ Nothing }
        ensures other { result ≡ false → self ≡ Nothing → ⊥ }
    {
        match self {
            LineEnd::Nothing => true,
            LineEnd::Feed | LineEnd::Last | LineEnd::TooLong => false,
        }
    }

    /// Whether it was the last line, without LF.
    pub(crate) fn is_last(self) -> bool
        ensures yes { result ≡ true → self ≡ Last }
        ensures other { result ≡ false → self ≡ Last → ⊥ }
    {
        match self {
            LineEnd::Last => true,
            LineEnd::Feed | LineEnd::TooLong | LineEnd::Nothing => false,
        }
    }

    /// Whether it was a line with LF.
    pub(crate) fn is_feed(self) -> bool
        ensures yes { result ≡ true → self ≡ Feed }
        ensures other { result ≡ false → self ≡ Feed → ⊥ }
    {
        match self {
            LineEnd::Feed => true,
            LineEnd::Last | LineEnd::TooLong | LineEnd::Nothing => false,
        }
    }
}

/// Reads the next byte, or none at the end.
fn read_byte<I: Source>(input: &mut I) -> Result<Option<u8>, SourceFault>
    requires { I.faults input.old < 2 ^ 64 - 1 }
    ensures given { IfOk result (GivesByte (I.rest input.old) (I.rest input.new)) }
    ensures count { IfOk result (λ b. I.given input.new ≡ I.given input.old + count_of b) }
    ensures bound { IfOk result (λ _. I.given input.new ≤ 2 ^ 50) }
    ensures failed { OnErr result (Consumes (I.rest input.old) (I.rest input.new) []) }
    ensures faults { MatchResult result
        (λ _. I.faults input.new ≡ I.faults input.old)
        (λ _. I.faults input.new ≡ I.faults input.old + 1) }
{
    let mut piece = [0u8];
    let count = input.read(&mut piece)?;
    if count == 0 {
        return Ok(None);
    }
    Ok(Some(piece[0]))
}

/// Reads the next line.
///
/// # Errors
/// `SourceFault` if the input couldn't be read. What it gave of the line is kept.
pub(crate) fn read_line<I: Source>(
    input: &mut I,
    line: &mut TricksLine,
) -> Result<LineEnd, SourceFault>
    requires { I.faults input.old < 2 ^ 64 - 1 }
    ensures reads { IfOk result (λ end. ReadsLine end line.new.items
        (I.rest input.old) (I.rest input.new)) }
    ensures failed { OnErr result (FailsWithin line.new.items
        (I.rest input.old) (I.rest input.new)) }
    ensures advances { IfOk result (λ end. Advances end (I.given input.old) (I.given input.new)) }
    ensures faults { MatchResult result
        (λ _. I.faults input.new ≡ I.faults input.old)
        (λ _. I.faults input.new ≡ I.faults input.old + 1) }
{
    line.clear();
    for turn in 0..LONGEST as u64 + 1 {
        match read_byte(input)? {
            None if line.is_empty() => return Ok(LineEnd::Nothing),
            None => return Ok(LineEnd::Last),
            Some(b'\n') => return Ok(LineEnd::Feed),
            Some(byte) => match line.try_push(byte) {
                Ok(()) => {}
                Err(_) => return Ok(LineEnd::TooLong),
            },
        }
    }
    unreachable!()
}

/// How a line ended at the end of the input.
fn at_end(is_empty: bool) -> LineEnd
    ensures { result ≡ (if is_empty then Nothing else Last) }
{
    if is_empty {
        LineEnd::Nothing
    } else {
        LineEnd::Last
    }
}

/// Reads the next line, without the spaces and tabs in front of it.
///
/// # Errors
/// `SourceFault` if the input couldn't be read.
pub(crate) fn read_text<I: Source>(
    input: &mut I,
    line: &mut TricksLine,
) -> Result<LineEnd, SourceFault>
    requires { I.faults input.old < 2 ^ 64 - 1 }
    ensures reads { IfOk result (λ end. ReadsText end line.new.items
        (I.rest input.old) (I.rest input.new)) }
    ensures failed { OnErr result (FailsWithinText (I.rest input.old) (I.rest input.new)) }
    ensures advances { IfOk result (λ end. FeedsOn end (I.given input.old) (I.given input.new)) }
    ensures faults { MatchResult result
        (λ _. I.faults input.new ≡ I.faults input.old)
        (λ _. I.faults input.new ≡ I.faults input.old + 1) }
{
    line.clear();
    for turn in 0..MOST_TURNS {
        match read_byte(input)? {
            None => return Ok(at_end(line.is_empty())),
            Some(b'\n') => return Ok(LineEnd::Feed),
            Some(byte) if line.is_empty() && is_blank(byte) => {}
            Some(byte) => match line.try_push(byte) {
                Ok(()) => {}
                Err(_) => return Ok(LineEnd::TooLong),
            },
        }
    }
    unreachable!()
}
