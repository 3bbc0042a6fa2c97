//! Picking: numbers in, boards out.

ghost use Rattle.std.specs.Prelude.{◌≡◌, ◌-◌, ◌^◌, ◌<◌, [], MatchResult};
ghost use Rattle.input.specs.Outcomes.{FaultsOf, InputFaultsOf, Picks};

use crate::numbers::fault::PickFault;
use crate::numbers::scanner::NumberScanner;
use crate::source::{MOST_TURNS, Source};
use boards::{Notation, Plan, put_board};
use cards::DealsByNumber;
use sinks::{Sink, SinkFault, put_all};

/// How many bytes are read at once.
const PIECE: usize = 8192;

/// What picks: the plan, the deals of its candidates, and what was read.
#[derive(Drop)]
struct NumberPicker {
    plan: Plan,
    deals: DealsByNumber,
    scanner: NumberScanner,
    ghost seed: { deals.seed ≡ plan.seed },
    ghost fixed: { deals.fixed ≡ plan.fixed },
}

impl NumberPicker {
    ghost use Rattle.std.specs.Prelude.{◌≡◌, ◌+◌, ◌-◌, ◌<◌, ◌≤◌, ◌^◌, ◌++◌, ◌∷◌, [], List, OnOk};
    ghost use Rattle.std.specs.Prelude.{length};
    ghost use Rattle.boards.specs.declared.board.Board.{Board};
    ghost use Rattle.input.specs.Scans.{HasScanned};
    ghost use Rattle.input.specs.internal.Picking.{Ends, EndsWith, FaultsIn, Takes};
    ghost use Rattle.boards.specs.Plans.{candidate_of};
    ghost use Rattle.boards.specs.Text.{board_of};
    ghost use Rattle.sinks.specs.Sinks.{AppendsOrBreaksOff, CountsFault};

    /// Returns a picker that has read nothing.
    fn new(plan: &Plan) -> NumberPicker
        ensures plan { result.plan ≡ plan.now }
        ensures scanned { HasScanned result.scanner [] [] }
        ensures lines { result.scanner.lines ≡ 0 }
    {
        NumberPicker {
            plan: *plan,
            deals: DealsByNumber::new(plan.seed(), plan.fixed()),
            scanner: NumberScanner::new(),
        }
    }

    /// Writes the board of the candidate of this number, after `boards` of them.
    fn put_board<N: Notation, S: Sink>(
        &self,
        boards: u64,
        number: u64,
        notation: &mut N,
        sink: &mut S,
    ) -> Result<(), SinkFault>
        requires faults { S.faults sink.old < 2 ^ 64 - 1 }
        requires boards { boards ≤ 2 ^ 40 }
        requires number { number < 2 ^ 40 }
        ensures layout { N.layout notation.new ≡ N.layout notation.old }
        ensures bytes { AppendsOrBreaksOff (S.bytes sink.old) (S.bytes sink.new) result
            ((N.layout notation.old).board
            (board_of self.now.plan boards number (candidate_of self.now.plan number))) }
        ensures printed { (before : List Board) → N.has_printed notation.old before
            → N.has_printed notation.new (before
            ++ board_of self.now.plan boards number (candidate_of self.now.plan number) ∷ []) }
        ensures faults { CountsFault (S.faults sink.old) (S.faults sink.new) result }
    {
        let deal = self.deals.deal(number);
        put_board(&self.plan, notation, boards, number, &deal, sink)
    }

    /// Takes the next byte of the input, and writes the board of the line that it ends.
    fn take_byte<N: Notation, S: Sink>(
        &mut self,
        byte: u8,
        notation: &mut N,
        sink: &mut S,
    ) -> Result<(), PickFault>
        requires faults { S.faults sink.old < 2 ^ 64 - 1 }
        requires lines { self.old.scanner.lines < 2 ^ 64 - 1 }
        ensures plan { self.new.plan ≡ self.old.plan }
        ensures layout { N.layout notation.new ≡ N.layout notation.old }
        ensures lines { OnOk result (self.new.scanner.lines ≤ self.old.scanner.lines + 1) }
        ensures takes { Takes (N.layout notation.old) (N.has_printed notation.old)
            (N.has_printed notation.new) self.old.plan self.old.scanner self.new.scanner
            (byte ∷ []) result (S.bytes sink.old) (S.bytes sink.new) }
        ensures faults { FaultsIn result (S.faults sink.old) (S.faults sink.new) }
    {
        let boards = self.scanner.numbers();
        match self.scanner.take(byte) {
            Ok(None) => Ok(()),
            Ok(Some(number)) => match self.put_board(boards, number, notation, sink) {
                Ok(()) => Ok(()),
                Err(_) => Err(PickFault::Output),
            },
            Err(line) => Err(PickFault::Refused(line)),
        }
    }

    /// Takes a piece of the input, and writes the boards of the lines that it ends.
    fn take_piece<N: Notation, S: Sink>(
        &mut self,
        piece: &[u8],
        notation: &mut N,
        sink: &mut S,
    ) -> Result<(), PickFault>
        requires faults { S.faults sink.old < 2 ^ 64 - 1 }
        requires lines { self.old.scanner.lines + length piece.now < 2 ^ 64 }
        ensures plan { self.new.plan ≡ self.old.plan }
        ensures layout { N.layout notation.new ≡ N.layout notation.old }
        ensures lines { OnOk result
            (self.new.scanner.lines ≤ self.old.scanner.lines + length piece.now) }
        ensures takes { Takes (N.layout notation.old) (N.has_printed notation.old)
            (N.has_printed notation.new) self.old.plan self.old.scanner self.new.scanner
            piece.now result (S.bytes sink.old) (S.bytes sink.new) }
        ensures faults { FaultsIn result (S.faults sink.old) (S.faults sink.new) }
    {
        for byte in piece {
            match self.take_byte(*byte, notation, sink) {
                Ok(()) => {}
                Err(fault) => return Err(fault),
            }
        }
        Ok(())
    }

    /// Takes the end of the input, and writes the board of a last line without an end. Returns how
    /// many boards were written.
    fn end_input<N: Notation, S: Sink>(
        &self,
        notation: &mut N,
        sink: &mut S,
    ) -> Result<u64, PickFault>
        requires faults { S.faults sink.old < 2 ^ 64 - 1 }
        requires lines { self.now.scanner.lines < 2 ^ 64 - 1 }
        ensures layout { N.layout notation.new ≡ N.layout notation.old }
        ensures ends { Ends (N.layout notation.old) (N.has_printed notation.old)
            (N.has_printed notation.new) self.now.plan self.now.scanner result
            (S.bytes sink.old) (S.bytes sink.new) }
        ensures faults { FaultsIn result (S.faults sink.old) (S.faults sink.new) }
    {
        let boards = self.scanner.numbers();
        match self.scanner.finish() {
            Ok(None) => Ok(boards),
            Ok(Some(number)) => match self.put_board(boards, number, notation, sink) {
                Ok(()) => Ok(boards + 1),
                Err(_) => Err(PickFault::Output),
            },
            Err(line) => Err(PickFault::Refused(line)),
        }
    }

    /// Takes the end of the input: writes the board of a last line without an end, and the footer.
    /// Returns how many boards were written.
    fn finish<N: Notation, S: Sink>(&self, notation: &mut N, sink: &mut S) -> Result<u64, PickFault>
        requires faults { S.faults sink.old < 2 ^ 64 - 1 }
        requires lines { self.now.scanner.lines < 2 ^ 64 - 1 }
        ensures layout { N.layout notation.new ≡ N.layout notation.old }
        ensures ends { EndsWith (N.layout notation.old) (N.has_printed notation.old)
            self.now.plan self.now.scanner result (S.bytes sink.old) (S.bytes sink.new) }
        ensures faults { FaultsIn result (S.faults sink.old) (S.faults sink.new) }
    {
        match self.end_input(notation, sink) {
            Ok(boards) => match notation.put_footer(boards, sink) {
                Ok(()) => Ok(boards),
                Err(_) => Err(PickFault::Output),
            },
            Err(fault) => Err(fault),
        }
    }
}

/// Reads the numbers of candidates from the input, and writes the header, the board of each
/// candidate in order, and the footer, in a notation that has printed nothing. Returns how many
/// boards were written.
///
/// Only the plan's seed, fixed cards, first board and setting are used: its own candidates aren't
/// tried. The input is read in pieces, in constant memory, and a board is written as soon as its
/// line was read; before each read the sink is told how many boards there are.
///
/// # Errors
///
/// `Refused`, with the first line that is refused: the boards of the lines before it were written,
/// and no footer. `Input`: the input couldn't be read; the boards of the lines that were ended
/// before were written. `Output`: the sink failed; a part of the text was written.
pub fn pick<N: Notation, I: Source, S: Sink>(
    plan: &Plan,
    notation: &mut N,
    input: &mut I,
    sink: &mut S,
) -> Result<u64, PickFault>
    requires output { S.faults sink.old < 2 ^ 64 - 1 }
    requires input { I.faults input.old < 2 ^ 64 - 1 }
    requires printed { N.has_printed notation.old [] }
    ensures layout { N.layout notation.new ≡ N.layout notation.old }
    ensures picked { Picks (N.layout notation.old) plan.now result
        (I.rest input.old) (I.rest input.new) (S.bytes sink.old) (S.bytes sink.new) }
    ensures faults { MatchResult result
        (λ _. S.faults sink.new ≡ S.faults sink.old)
        (λ fault. FaultsOf fault (S.faults sink.old) (S.faults sink.new)) }
    // The input failed if the result says so, and else not.
    ensures input { MatchResult result
        (λ _. I.faults input.new ≡ I.faults input.old)
        (λ fault. InputFaultsOf fault (I.faults input.old) (I.faults input.new)) }
{
    match put_all(sink, notation.header()) {
        Ok(()) => {}
        Err(_) => return Err(PickFault::Output),
    }
    let mut picker = NumberPicker::new(plan);
    let mut piece = [0u8; PIECE];
    for turn in 0..MOST_TURNS {
        let boards = picker.scanner.numbers();
        sink.watch(boards, boards);
        let count = input.read(&mut piece)?;
        if count == 0 {
            return picker.finish(notation, sink);
        }
        match picker.take_piece(&piece[..count], notation, sink) {
            Ok(()) => {}
            Err(fault) => return Err(fault),
        }
    }
    unreachable!()
}
