//! Boards of the candidates whose numbers an input gives, each with the tricks that its line tells.

ghost use Rattle.std.specs.Prelude.{◌≡◌, ◌-◌, ◌<◌, ◌≤◌, ◌^◌, List, Option};
ghost use Rattle.input.specs.internal.LineEnds.{without_cr};
ghost use Rattle.input.specs.TricksPicked.{text_picks};
ghost use Rattle.input.specs.Told.{FaultsIn, InputFaultsIn, IsReady, TellsBy, written_by};
ghost use Rattle.input.specs.internal.TricksPicking.{text_of};

use crate::numbers::PickFault;
use crate::refused_line::LineFault;
use crate::source::{MOST_TURNS, Source};
use crate::tricks::judge::judge;
use crate::tricks::line::{LineEnd, TricksLine, read_text};
use crate::tricks::teller::{put_board, put_end, refused, without_cr};
use crate::tricks::word::{number_in, split_word};
use boards::{Board, Notation, Plan, Tricks, board_after};
use cards::{DealsByNumber, MAX_CANDIDATES};
use notations::AnyPrinter;
use sinks::{Sink, put_all};

/// The most boards that are picked.
const MOST_BOARDS: u64 = MAX_CANDIDATES;

/// A board, and what its line tells of it.
#[derive(Drop)]
pub(crate) struct Picked {
    board: Board,
    tricks: Tricks,
}

/// How a line ended, and how many boards there are after it.
#[derive(Clone, Copy)]
pub(crate) struct PickStep {
    end: LineEnd,
    boards: u64,
}

/// Returns what was read of a line.
fn text_of(end: LineEnd, line: &[u8]) -> &[u8]
    ensures { result.now ≡ text_of end line.now }
{
    match end {
        LineEnd::Feed => without_cr(line),
        LineEnd::Last | LineEnd::TooLong | LineEnd::Nothing => line,
    }
}

/// What picks: the plan, and the deals of its candidates.
#[derive(Drop)]
struct TricksPicker {
    plan: Plan,
    deals: DealsByNumber,
    ghost seed: { deals.seed ≡ plan.seed },
    ghost fixed: { deals.fixed ≡ plan.fixed },
}

impl TricksPicker {
    ghost use Rattle.std.specs.Prelude.{◌≡◌, ◌+◌, ◌-◌, ◌<◌, ◌≤◌, ◌^◌, ℕ, List, Option, IfOk};
    ghost use Rattle.std.specs.Prelude.{false};
    ghost use Rattle.input.specs.NumberTexts.{has_lf, line_says};
    ghost use Rattle.input.specs.TricksPicked.{behind_word, board_by, first_word};
    ghost use Rattle.input.specs.Told.{FaultsIn, InputFaultsIn, IsReady, written_by};
    ghost use Rattle.input.specs.internal.TricksPicking.{FeedsOn, HasRoom, PickedFrom, PicksLine, picked_in};

    fn new(plan: &Plan) -> TricksPicker
        ensures { result.plan ≡ plan.now }
    {
        TricksPicker {
            plan: *plan,
            deals: DealsByNumber::new(plan.seed(), plan.fixed()),
        }
    }

    /// Returns the board that a line without blanks in front tells after this many others, if it
    /// tells one.
    fn board_of(&self, boards: u64, line: &[u8]) -> Result<Option<Picked>, LineFault>
        requires boards { boards ≤ 2 ^ 40 }
        requires line { has_lf line.now ≡ false }
        ensures tells { picked_in result ≡ board_by self.now.plan boards
            (behind_word line.now) (line_says (first_word line.now)) }
        ensures room { IfOk result (HasRoom boards) }
    {
        let (word, behind) = split_word(line);
        match number_in(word)? {
            None => Ok(None),
            Some(_) if boards == MOST_BOARDS => Err(LineFault::TooMany),
            Some(number) => {
                let board = board_after(&self.plan, boards, number, &self.deals.deal(number));
                let tricks = judge(behind, &board.deal)?;
                Ok(Some(Picked { board, tricks }))
            }
        }
    }

    /// Reads a line, and writes the board that it tells. There were this many lines and boards
    /// before.
    fn pick_line<I: Source, S: Sink>(
        &self,
        lines: u64,
        boards: u64,
        printer: &mut AnyPrinter,
        input: &mut I,
        sink: &mut S,
    ) -> Result<PickStep, PickFault>
        requires output { S.faults sink.old < 2 ^ 64 - 1 }
        requires input { I.faults input.old < 2 ^ 64 - 1 }
        requires lines { lines < 2 ^ 64 - 1 }
        requires boards { boards ≤ 2 ^ 40 }
        requires ready { IsReady printer.old }
        ensures ready { IsReady printer.new }
        ensures same { written_by printer.new ≡ written_by printer.old }
        ensures few { IfOk result (λ step. step.boards ≤ 2 ^ 40) }
        ensures takes { (before base : Option (List ℕ))
            → PickedFrom (written_by printer.old) self.now.plan lines boards
            before (I.rest input.old) base (S.bytes sink.old)
            → PicksLine (written_by printer.old) self.now.plan lines result
            before (I.rest input.new) base (S.bytes sink.new) }
        ensures advances { IfOk result (λ step.
            FeedsOn step.end (I.given input.old) (I.given input.new)) }
        ensures faults { FaultsIn result (S.faults sink.old) (S.faults sink.new) }
        ensures input { InputFaultsIn result (I.faults input.old) (I.faults input.new) }
    {
        let mut line = TricksLine::new();
        let Ok(end) = read_text(input, &mut line) else {
            return Err(PickFault::Input);
        };
        match self.board_of(boards, text_of(end, line.as_slice())) {
            Ok(None) => Ok(PickStep { end, boards }),
            Ok(Some(picked)) => match put_board(printer, &picked.tricks, &picked.board, sink) {
                Ok(()) => Ok(PickStep {
                    end,
                    boards: boards + 1,
                }),
                Err(_) => Err(PickFault::Output),
            },
            Err(fault) => Err(refused(lines, fault)),
        }
    }
}

/// Writes the boards of the candidates whose numbers the input gives, each with the tricks that its
/// line tells, to a printer that was made for boards with tricks: the
/// header, the boards, each as soon as its line was read, and the footer. Of the plan its seed, its
/// fixed cards, its first board and its setting count. Before each line the sink hears how many
/// boards there are.
///
/// # Errors
///
/// `Refused`, with the first line that is refused: the boards before it were written, and no
/// footer. `Input`: the input couldn't be read; the boards of the lines that were ended before were
/// written. `Output`: the sink failed; a part of the text was written.
pub fn pick<I: Source, S: Sink>(
    plan: &Plan,
    printer: &mut AnyPrinter,
    input: &mut I,
    sink: &mut S,
) -> Result<(), PickFault>
    requires output { S.faults sink.old < 2 ^ 64 - 1 }
    requires input { I.faults input.old < 2 ^ 64 - 1 }
    requires ready { IsReady printer.old }
    ensures tells { TellsBy (written_by printer.old) (text_picks plan.now) result
        (I.rest input.old) (I.rest input.new) (S.bytes sink.old) (S.bytes sink.new) }
    ensures faults { FaultsIn result (S.faults sink.old) (S.faults sink.new) }
    ensures input { InputFaultsIn result (I.faults input.old) (I.faults input.new) }
{
    match put_all(sink, printer.header()) {
        Ok(()) => {}
        Err(_) => return Err(PickFault::Output),
    }
    let picker = TricksPicker::new(plan);
    let mut boards = 0u64;
    for turn in 0..MOST_TURNS {
        sink.watch(boards, boards);
        match picker.pick_line(turn, boards, printer, input, sink) {
            Ok(step) if step.end.is_feed() => boards = step.boards,
            Ok(step) => return put_end(printer, step.boards, sink),
            Err(fault) => return Err(fault),
        }
    }
    unreachable!()
}
