//! Boards that are read from an input, and written in a notation.

ghost use Rattle.std.specs.Prelude.{◌≡◌, ◌+◌, ◌-◌, ◌<◌, ◌≤◌, ◌^◌, ◌++◌, ℕ, List, Option};
ghost use Rattle.std.specs.Prelude.{IfErr};
ghost use Rattle.input.specs.Readers.{IsFed, IsFresh, IsReady, OnBoard, ReadsNext};
ghost use Rattle.input.specs.declared.records.reader.BoardReader.{BoardReader};
ghost use Rattle.input.specs.Shown.{FaultsOf, InputFaultsOf, MoreFaults, Puts, Shows};
ghost use Rattle.input.specs.Shown.{told_text};
ghost use Rattle.input.specs.declared.records.shown.ShowFault.TheVariants.{Output};
ghost use Rattle.input.specs.internal.Showing.{ShownFrom};
ghost use Rattle.sinks.specs.Sinks.{AppendsOrBreaksOff, CountsFault};

use crate::records::fault::RefusedRecord;
use crate::records::game::Told;
use crate::records::reader::{BoardReader, Found, Next, ReadFault};
use crate::records::watched::next_watched;
use crate::source::{MOST_TURNS, Source};
use boards::SolvedNotation;
use sinks::{Sink, SinkFault, put_all};

/// Why showing ended before the end of the input.
#[derive(Clone, Copy, Debug, PartialEq, Eq)]
pub enum ShowFault {
    /// The line is refused; the boards before it were written.
    Refused(RefusedRecord),
    /// The input couldn't be read.
    Input,
    /// The output failed.
    Output,
}

/// Writes a board with its tricks.
fn put<N: SolvedNotation, S: Sink>(
    told: &Told,
    notation: &mut N,
    sink: &mut S,
) -> Result<(), SinkFault>
    requires { S.faults sink.old < 2 ^ 64 - 1 }
    ensures layout { N.layout notation.new ≡ N.layout notation.old }
    ensures bytes { AppendsOrBreaksOff (S.bytes sink.old) (S.bytes sink.new) result
        (told_text (N.layout notation.old) told.now) }
    ensures faults { CountsFault (S.faults sink.old) (S.faults sink.new) result }
{
    notation.print(&told.tricks, &told.board);
    put_all(sink, notation.text())
}

/// Writes what comes after this many boards.
fn put_end<N: SolvedNotation, S: Sink>(
    boards: u64,
    notation: &N,
    sink: &mut S,
) -> Result<u64, ShowFault>
    requires { S.faults sink.old < 2 ^ 64 - 1 }
    ensures bytes { Puts result boards (S.bytes sink.old) (S.bytes sink.new)
        (N.layout notation.now).footer }
    ensures fault { IfErr result (λ fault. fault ≡ Output) }
    ensures faults { FaultsOf result (S.faults sink.old) (S.faults sink.new) }
{
    match put_all(sink, notation.footer()) {
        Ok(()) => Ok(boards),
        Err(_) => Err(ShowFault::Output),
    }
}

/// Writes the last board, after others, and what comes after them.
fn put_last<N: SolvedNotation, S: Sink>(
    told: &Told,
    boards: u64,
    notation: &mut N,
    sink: &mut S,
) -> Result<u64, ShowFault>
    requires faults { S.faults sink.old < 2 ^ 64 - 1 }
    requires boards { boards < 2 ^ 63 }
    ensures layout { N.layout notation.new ≡ N.layout notation.old }
    ensures bytes { Puts result (boards + 1) (S.bytes sink.old) (S.bytes sink.new)
        (told_text (N.layout notation.old) told.now ++ (N.layout notation.old).footer) }
    ensures fault { IfErr result (λ fault. fault ≡ Output) }
    ensures faults { FaultsOf result (S.faults sink.old) (S.faults sink.new) }
{
    match put(told, notation, sink) {
        Ok(()) => put_end(boards + 1, notation, sink),
        Err(_) => Err(ShowFault::Output),
    }
}

/// Writes the boards that are left of an input, after this many, and what comes after them.
fn show_rest<N: SolvedNotation, I: Source, S: Sink>(
    reader: &mut BoardReader,
    written: u64,
    notation: &mut N,
    input: &mut I,
    sink: &mut S,
) -> Result<u64, ShowFault>
    requires output { S.faults sink.old < 2 ^ 64 - 1 }
    requires input { I.faults input.old < 2 ^ 64 - 1 }
    requires written { written ≤ 1 }
    requires ready { IsReady reader.old }
    requires fed { IsFed reader.old (I.given input.old) }
    ensures layout { N.layout notation.new ≡ N.layout notation.old }
    ensures shows { (before base : Option (List ℕ))
        → ShownFrom (N.layout notation.old) reader.old written
        before (I.rest input.old) base (S.bytes sink.old)
        → Shows (N.layout notation.old) result
        before (I.rest input.new) base (S.bytes sink.new) }
    ensures faults { FaultsOf result (S.faults sink.old) (S.faults sink.new) }
    ensures input { InputFaultsOf result (I.faults input.old) (I.faults input.new) }
{
    let mut boards = written;
    let mut told = Told::any();
    for turn in 0..MOST_TURNS {
        match next_watched(reader, boards, input, sink, &mut told) {
            Ok(Found::Board) => {}
            Ok(Found::Last) => return put_last(&told, boards, notation, sink),
            Ok(Found::End) => return put_end(boards, notation, sink),
            Err(ReadFault::Refused(line)) => return Err(ShowFault::Refused(line)),
            Err(ReadFault::Input) => return Err(ShowFault::Input),
        }
        match put(&told, notation, sink) {
            Ok(()) => boards += 1,
            Err(_) => return Err(ShowFault::Output),
        }
    }
    unreachable!()
}

/// Writes the header, the boards of an input, each with what its game tells of its tricks, and the
/// footer. Returns how many boards were written.
///
/// `first` is what a new reader read first of the input, so that the notation may have what that
/// says. A board is written as soon as its game ends; before each read the sink hears how many
/// there are.
///
/// # Errors
/// `Refused`, with the first line that is refused: the boards of the games that ended before it
/// were written, and no footer. `Input`: the input couldn't be read; the boards of the games that
/// are sure to have ended were written, and no footer. `Output`: the sink failed; a part of the
/// text was written.
pub fn show<N: SolvedNotation, I: Source, S: Sink>(
    reader: &mut BoardReader,
    first: Result<Next, ReadFault>,
    notation: &mut N,
    input: &mut I,
    sink: &mut S,
) -> Result<u64, ShowFault>
    requires output { S.faults sink.old < 2 ^ 64 - 1 }
    requires input { OnBoard first (I.faults input.old < 2 ^ 64 - 1) }
    requires ready { OnBoard first (IsReady reader.old) }
    requires fed { OnBoard first (IsFed reader.old (I.given input.old)) }
    ensures layout { N.layout notation.new ≡ N.layout notation.old }
    ensures shows { (start : BoardReader) (before : Option (List ℕ)) → IsFresh start
        → ReadsNext start reader.old first before (I.rest input.old)
        → Shows (N.layout notation.old) result
        before (I.rest input.new) (S.bytes sink.old) (S.bytes sink.new) }
    ensures faults { FaultsOf result (S.faults sink.old) (S.faults sink.new) }
    ensures input { MoreFaults first result (I.faults input.old) (I.faults input.new) }
{
    match put_all(sink, notation.header()) {
        Ok(()) => {}
        Err(_) => return Err(ShowFault::Output),
    }
    let told = match first {
        Ok(Next::Board(told)) => told,
        Ok(Next::Last(told)) => return put_last(&told, 0, notation, sink),
        Ok(Next::End) => return put_end(0, notation, sink),
        Err(ReadFault::Refused(line)) => return Err(ShowFault::Refused(line)),
        Err(ReadFault::Input) => return Err(ShowFault::Input),
    };
    match put(&told, notation, sink) {
        Ok(()) => show_rest(reader, 1, notation, input, sink),
        Err(_) => Err(ShowFault::Output),
    }
}
