//! Boards of candidates, each with the tricks that its line of the input tells.

ghost use Rattle.std.specs.Prelude.{◌≡◌, ◌+◌, ◌-◌, ◌<◌, ◌≤◌, ◌^◌, ◌∷◌, [], ℕ, All, List, Option};
ghost use Rattle.std.specs.Prelude.{false, length, true};
ghost use Rattle.boards.specs.Plans.{Planned, candidate_of};
ghost use Rattle.boards.specs.Text.{board_of};
ghost use Rattle.sinks.specs.Sinks.{AppendsOrBreaksOff, CountsFault};
ghost use Rattle.input.specs.declared.numbers.fault.PickFault.TheVariants.{Refused};
ghost use Rattle.input.specs.internal.LineEnds.{without_cr};
ghost use Rattle.input.specs.Told.{FaultsIn, InputFaultsIn, IsReady, Tells, Written};
ghost use Rattle.input.specs.Told.{solved_text, written_by};
ghost use Rattle.input.specs.declared.tricks.line.LineEnd.TheVariants.{Feed};
ghost use Rattle.input.specs.internal.Telling.{EndsAfter, PassesOver, Takes, ToldFrom, ToldLast};
ghost use Rattle.input.specs.internal.Telling.{judged};

use crate::numbers::PickFault;
use crate::refused_line::{LineFault, RefusedLine};
use crate::source::{MOST_TURNS, Source};
use crate::tricks::judge::judge;
use crate::tricks::line::{LineEnd, TricksLine, read_line};
use boards::{Board, Notation, Plan, Tricks, board_after};
use cards::{Deal, DealsByNumber};
use notations::AnyPrinter;
use sinks::{Sink, SinkFault, put_all};

/// Returns the line without a CR at its end.
pub(crate) fn without_cr(line: &[u8]) -> &[u8]
    ensures { result.now ≡ without_cr line.now }
{
    let Some(end) = line.len().checked_sub(1) else {
        return line;
    };
    if line[end] == b'\r' {
        &line[..end]
    } else {
        line
    }
}

/// The line after this many others is refused.
pub(crate) fn refused(lines: u64, fault: LineFault) -> PickFault
    requires { lines < 2 ^ 64 - 1 }
    ensures { result ≡ Refused (record { line = lines + 1; fault = fault }) }
{
    PickFault::Refused(RefusedLine {
        line: lines + 1,
        fault,
    })
}

/// Returns what a line says of the deal's tricks, by how it ended.
fn judged(end: LineEnd, line: &[u8], deal: &Deal) -> Result<Tricks, LineFault>
    ensures { result ≡ judged end deal.now line.now }
{
    match end {
        LineEnd::Nothing => Err(LineFault::Missing),
        LineEnd::TooLong => Err(LineFault::NotTricks),
        LineEnd::Feed => judge(without_cr(line), deal),
        LineEnd::Last => judge(line, deal),
    }
}

/// Writes the board with these tricks.
pub(crate) fn put_board<S: Sink>(
    printer: &mut AnyPrinter,
    tricks: &Tricks,
    board: &Board,
    sink: &mut S,
) -> Result<(), SinkFault>
    requires faults { S.faults sink.old < 2 ^ 64 - 1 }
    requires ready { IsReady printer.old }
    ensures ready { IsReady printer.new }
    ensures same { written_by printer.new ≡ written_by printer.old }
    ensures bytes { AppendsOrBreaksOff (S.bytes sink.old) (S.bytes sink.new) result
        (solved_text (written_by printer.old)
        (record { board = board.now; tricks = tricks.now })) }
    ensures faults { CountsFault (S.faults sink.old) (S.faults sink.new) result }
{
    printer.print_with(tricks, board);
    put_all(sink, printer.text())
}

/// Reads the line of a board, and writes the board. `lines` others were read before.
fn tell_board<I: Source, S: Sink>(
    lines: u64,
    board: &Board,
    printer: &mut AnyPrinter,
    input: &mut I,
    sink: &mut S,
) -> Result<LineEnd, PickFault>
    requires output { S.faults sink.old < 2 ^ 64 - 1 }
    requires input { I.faults input.old < 2 ^ 64 - 1 }
    requires lines { lines < 2 ^ 64 - 1 }
    requires ready { IsReady printer.old }
    ensures ready { IsReady printer.new }
    ensures same { written_by printer.new ≡ written_by printer.old }
    ensures takes { (plan : Planned) (k : ℕ)
        → board.now ≡ board_of plan lines k (candidate_of plan k)
        → Takes (written_by printer.old) plan lines k result
        (I.rest input.old) (I.rest input.new) (S.bytes sink.old) (S.bytes sink.new) }
    ensures faults { FaultsIn result (S.faults sink.old) (S.faults sink.new) }
    ensures input { InputFaultsIn result (I.faults input.old) (I.faults input.new) }
{
    let mut line = TricksLine::new();
    let Ok(end) = read_line(input, &mut line) else {
        return Err(PickFault::Input);
    };
    let tricks = match judged(end, line.as_slice(), &board.deal) {
        Ok(tricks) => tricks,
        Err(fault) => return Err(refused(lines, fault)),
    };
    match put_board(printer, &tricks, board, sink) {
        Ok(()) => Ok(end),
        Err(_) => Err(PickFault::Output),
    }
}

/// Writes what comes after the boards.
pub(crate) fn put_end<S: Sink>(
    printer: &AnyPrinter,
    boards: u64,
    sink: &mut S,
) -> Result<(), PickFault>
    requires faults { S.faults sink.old < 2 ^ 64 - 1 }
    requires ready { IsReady printer.now }
    ensures bytes { EndsAfter (written_by printer.now) result
        (S.bytes sink.old) (S.bytes sink.new) }
    ensures faults { FaultsIn result (S.faults sink.old) (S.faults sink.new) }
    ensures input { (n : ℕ) → InputFaultsIn result n n }
{
    match printer.put_footer(boards, sink) {
        Ok(()) => Ok(()),
        Err(_) => Err(PickFault::Output),
    }
}

/// Whether an empty line was read.
fn is_empty_line(end: LineEnd, line: &[u8]) -> bool
    ensures empty { result ≡ true → (end ≡ Feed) × (without_cr line.now ≡ []) }
    ensures more { result ≡ false → end ≡ Feed → 0 < length (without_cr line.now) }
{
    end.is_feed() && without_cr(line).is_empty()
}

/// Reads the lines that are left over after `lines` others, one for each board.
fn pass_over<I: Source>(lines: u64, input: &mut I) -> Result<(), PickFault>
    requires input { I.faults input.old < 2 ^ 64 - 1 }
    requires lines { lines ≤ 2 ^ 40 }
    ensures ends { (w : Written) (plan : Planned) (numbers : List ℕ)
        (before base now : Option (List ℕ))
        → ToldFrom w plan numbers lines [] before (I.rest input.old) base now
        → PassesOver w plan numbers result before (I.rest input.new) base now }
    ensures faults { (n : ℕ) → FaultsIn result n n }
    ensures input { InputFaultsIn result (I.faults input.old) (I.faults input.new) }
{
    let mut line = TricksLine::new();
    let mut before = lines;
    for turn in 0..MOST_TURNS {
        let Ok(end) = read_line(input, &mut line) else {
            return Err(PickFault::Input);
        };
        if end.is_nothing() {
            return Ok(());
        }
        if !is_empty_line(end, line.as_slice()) {
            return Err(refused(before, LineFault::MoreThanBoards));
        }
        before += 1;
    }
    unreachable!()
}

/// Ends where the input ended after a last line without LF, the line of the last board before these
/// others.
fn end_last<S: Sink>(
    lines: u64,
    others: usize,
    printer: &AnyPrinter,
    sink: &mut S,
) -> Result<(), PickFault>
    requires output { S.faults sink.old < 2 ^ 64 - 1 }
    requires lines { lines < 2 ^ 64 - 1 }
    requires ready { IsReady printer.now }
    ensures ends { (plan : Planned) (numbers rest : List ℕ) (before after_it base : Option (List ℕ))
        → others ≡ length rest
        → ToldLast (written_by printer.now) plan numbers lines rest
        before after_it base (S.bytes sink.old)
        → Tells (written_by printer.now) plan numbers result
        before after_it base (S.bytes sink.new) }
    ensures faults { FaultsIn result (S.faults sink.old) (S.faults sink.new) }
    ensures input { (n : ℕ) → InputFaultsIn result n n }
{
    if others > 0 {
        return Err(refused(lines, LineFault::Missing));
    }
    put_end(printer, lines, sink)
}

/// Writes the boards of these candidates of the plan with the tricks that the input tells, a line
/// for each, to a printer that was made for boards with tricks: the
/// header, the boards, each as soon as its line was read, and the footer. Before each read the sink
/// hears how many there are.
///
/// # Errors
///
/// `Refused`, with the first line that is refused, the one that is missing, or the first that is
/// left over and isn't empty: the boards before it were written, and no footer. `Input`: the input
/// couldn't be read; the boards of the lines that were ended before were written. `Output`: the
/// sink failed; a part of the text was written.
pub fn tell<I: Source, S: Sink>(
    plan: &Plan,
    numbers: &[u64],
    printer: &mut AnyPrinter,
    input: &mut I,
    sink: &mut S,
) -> Result<(), PickFault>
    requires output { S.faults sink.old < 2 ^ 64 - 1 }
    requires input { I.faults input.old < 2 ^ 64 - 1 }
    requires below { All (λ k. k < 2 ^ 40) numbers.now }
    requires few { length numbers.now ≤ 2 ^ 40 }
    requires ready { IsReady printer.old }
    ensures tells { Tells (written_by printer.old) plan.now numbers.now result
        (I.rest input.old) (I.rest input.new) (S.bytes sink.old) (S.bytes sink.new) }
    ensures faults { FaultsIn result (S.faults sink.old) (S.faults sink.new) }
    ensures input { InputFaultsIn result (I.faults input.old) (I.faults input.new) }
{
    match put_all(sink, printer.header()) {
        Ok(()) => {}
        Err(_) => return Err(PickFault::Output),
    }
    let deals = DealsByNumber::new(plan.seed(), plan.fixed());
    let mut lines = 0u64;
    let mut rest = numbers;
    while let Some((number, others)) = rest.split_first() {
        sink.watch(lines, lines);
        let board = board_after(plan, lines, *number, &deals.deal(*number));
        match tell_board(lines, &board, printer, input, sink) {
            Ok(end) if end.is_last() => {
                return end_last(lines + 1, others.len(), printer, sink);
            }
            Ok(_) => lines += 1,
            Err(fault) => return Err(fault),
        }
        rest = others;
    }
    sink.watch(lines, lines);
    match pass_over(lines, input) {
        Ok(()) => end_last(lines, 0, printer, sink),
        Err(fault) => Err(fault),
    }
}
