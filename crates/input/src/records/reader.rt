//! Boards that are read from an input.

ghost use Rattle.std.specs.Prelude.{◌≡◌, ◌-◌, ◌+◌, ◌<◌, ◌≤◌, ◌^◌, [], ℕ, List, IfErr, IfOk};
ghost use Rattle.std.specs.Prelude.{◌++◌, MatchResult, OnOk, drop, false, length};
ghost use Rattle.std.specs.Prelude.{take, true};
ghost use Rattle.std.specs.Io.KnownBytes.{IsAtEnd, Keeps};
ghost use Rattle.input.specs.Readers.{Fills, InputFaults, IsFed, IsReady, ReadsNext};
ghost use Rattle.input.specs.Readers.{OnBoard, TellsEnd, left, unread_spells};
ghost use Rattle.input.specs.RecordScans.{IsWithin, spells_from};
ghost use Rattle.input.specs.Texts.{after, list_of, refused_with, spelled};
ghost use Rattle.input.specs.internal.Endings.{next_found, told_if};
ghost use Rattle.input.specs.internal.TagTexts.{Reads};

use crate::records::fault::RefusedRecord;
use crate::records::game::Told;
use crate::records::scanner::RecordScanner;
use crate::source::{MOST_TURNS, Source, SourceFault};

/// How many bytes are read at once.
const PIECE: usize = 32768;

/// What comes next of an input.
#[derive(Drop)]
pub enum Next {
    /// The board of a game that ended.
    Board(Told),
    /// The board of the last game, after which the input ended.
    Last(Told),
    /// The input ended.
    End,
}

/// What was found next in an input: what `Next` has, but that the board is told elsewhere.
#[derive(Clone, Copy)]
pub(crate) enum Found {
    /// The board of a game that ended.
    Board,
    /// The board of the last game, after which the input ended.
    Last,
    /// The input ended.
    End,
}

/// Why no more boards were read.
#[derive(Clone, Copy, Debug, PartialEq, Eq)]
pub enum ReadFault {
    /// The line is refused.
    Refused(RefusedRecord),
    /// The input couldn't be read.
    Input,
}

/// Reads boards from an input by pieces. It keeps a piece, and how far it was read; the memory that
/// it takes is constant.
#[derive(Drop)]
pub struct BoardReader {
    scanner: RecordScanner,
    piece: [u8; PIECE],
    from: usize,
    to: usize,
    taken: u64,
}

/// Reads on in this part of a piece, up to a board, which is then told, or its end. Returns how
/// many bytes were read, and whether there is a board.
fn read_part(
    scanner: &mut RecordScanner,
    piece: &[u8; PIECE],
    from: usize,
    to: usize,
    told: &mut Told,
) -> Result<(usize, bool), RefusedRecord>
    requires within { from ≤ to }
    requires piece { to ≤ length piece.now }
    requires room { IsWithin scanner.old (2 ^ 57) }
    ensures reads { IfOk result (λ r.
        Reads scanner.old scanner.new (drop from (take to piece.now)) r.0 (told_if r.1 told.new)) }
    ensures more { IfOk result (λ r. r.1 ≡ true → 0 < r.0) }
    ensures all { IfOk result (λ r. r.1 ≡ false → r.0 ≡ to - from) }
    ensures refused { IfErr result (λ e. (rest : List ℕ)
        → spells_from scanner.old (drop from (take to piece.now) ++ rest) ≡ refused_with e) }
{
    scanner.read(&piece[from..to], told)
}

impl BoardReader {
    /// Nothing was read.
    pub fn new() -> BoardReader
        ensures begin { (text : List ℕ) → unread_spells result text ≡ spelled text }
        ensures ready { IsReady result }
        ensures left { left result ≡ 0 }
    {
        BoardReader {
            scanner: RecordScanner::new(),
            piece: [0; PIECE],
            from: 0,
            to: 0,
            taken: 0,
        }
    }

    /// Reads on in the piece, up to a board, which is then told, or the end of the piece. Returns
    /// whether there is a board.
    pub(crate) fn take_piece(&mut self, told: &mut Told) -> Result<bool, RefusedRecord>
        requires { IsReady self.old }
        ensures goes_on { IfOk result (λ ended. (rest : List ℕ)
            → unread_spells self.old rest
            ≡ after (list_of (told_if ended told.new)) (unread_spells self.new rest)) }
        ensures refused { IfErr result (λ e. (rest : List ℕ)
            → unread_spells self.old rest ≡ refused_with e) }
        ensures ready { OnOk result (IsReady self.new) }
        ensures left { OnOk result (left self.new ≡ left self.old) }
        ensures more { IfOk result (λ ended. ended ≡ true → self.old.taken < self.new.taken) }
        ensures all { IfOk result (λ ended. ended ≡ false → self.new.from ≡ self.new.to) }
        ensures taken { self.old.taken ≤ self.new.taken }
    {
        match read_part(&mut self.scanner, &self.piece, self.from, self.to, told) {
            Ok((count, ended)) => {
                self.from += count;
                self.taken += count as u64;
                Ok(ended)
            }
            Err(line) => Err(line),
        }
    }

    /// Reads the next piece of the input, after the last. Returns whether there is one.
    fn fill<I: Source>(&mut self, input: &mut I) -> Result<bool, SourceFault>
        requires ready { IsReady self.old }
        requires empty { self.old.from ≡ self.old.to }
        requires fed { IsFed self.old (I.given input.old) }
        requires faults { I.faults input.old < 2 ^ 64 - 1 }
        ensures ready { OnOk result (IsReady self.new) }
        ensures fed { OnOk result (IsFed self.new (I.given input.new)) }
        ensures taken { self.new.taken ≡ self.old.taken }
        ensures fills { IfOk result (λ _. Fills self.old self.new
            (I.rest input.old) (I.rest input.new)) }
        ensures some { IfOk result (λ more. more ≡ true → self.new.from < self.new.to) }
        ensures none { IfOk result (λ more. more ≡ false → self.new.from ≡ self.new.to) }
        ensures end { IfOk result (λ more. more ≡ false → IsAtEnd (I.rest input.new)) }
        ensures kept { IfErr result (λ _. Keeps (I.rest input.old) (I.rest input.new)) }
        ensures faults { MatchResult result
            (λ _. I.faults input.new ≡ I.faults input.old)
            (λ _. I.faults input.new ≡ I.faults input.old + 1) }
    {
        let count = input.read(&mut self.piece)?;
        self.from = 0;
        self.to = count;
        Ok(count > 0)
    }

    /// Takes the end of the input. The last board is told, if there is one.
    fn finish(&mut self, told: &mut Told) -> Result<Found, ReadFault>
        requires ready { IsReady self.old }
        requires empty { self.old.from ≡ self.old.to }
        ensures { TellsEnd self.old (next_found result told.new) }
    {
        match self.scanner.finish(told) {
            Ok(true) => Ok(Found::Last),
            Ok(false) => Ok(Found::End),
            Err(line) => Err(ReadFault::Refused(line)),
        }
    }

    /// Reads on to the next board of an input, which is then told, from which all was read that was
    /// read before.
    ///
    /// # Errors
    /// As `next`.
    pub(crate) fn find<I: Source>(
        &mut self,
        input: &mut I,
        told: &mut Told,
    ) -> Result<Found, ReadFault>
        requires ready { IsReady self.old }
        requires fed { IsFed self.old (I.given input.old) }
        requires faults { I.faults input.old < 2 ^ 64 - 1 }
        ensures reads { ReadsNext self.old self.new (next_found result told.new)
            (I.rest input.old) (I.rest input.new) }
        ensures ready { OnBoard (next_found result told.new) (IsReady self.new) }
        ensures fed { OnBoard (next_found result told.new) (IsFed self.new (I.given input.new)) }
        ensures more { OnBoard (next_found result told.new) (self.old.taken < self.new.taken) }
        ensures faults { InputFaults result (I.faults input.old) (I.faults input.new) }
    {
        for turn in 0..MOST_TURNS {
            match self.take_piece(told) {
                Ok(false) => {}
                Ok(true) => return Ok(Found::Board),
                Err(line) => return Err(ReadFault::Refused(line)),
            }
            match self.fill(input) {
                Ok(true) => {}
                Ok(false) => return self.finish(told),
                Err(_) => return Err(ReadFault::Input),
            }
        }
        unreachable!()
    }

    /// Reads on to the next board of an input, from which all was read that was read before.
    /// Returns the board, and whether the input ended; or that it ended without one.
    ///
    /// After a `Next::Board` it can be called again, for the board after that.
    ///
    /// # Errors
    /// `Refused`: the first line that is refused; there is no board before it any more.
    /// `Input`: the input couldn't be read, and no game is sure to have ended since the last board.
    pub fn next<I: Source>(&mut self, input: &mut I) -> Result<Next, ReadFault>
        requires ready { IsReady self.old }
        requires fed { IsFed self.old (I.given input.old) }
        requires faults { I.faults input.old < 2 ^ 64 - 1 }
        ensures reads { ReadsNext self.old self.new result (I.rest input.old) (I.rest input.new) }
        ensures ready { OnBoard result (IsReady self.new) }
        ensures fed { OnBoard result (IsFed self.new (I.given input.new)) }
        ensures more { OnBoard result (self.old.taken < self.new.taken) }
        ensures faults { InputFaults result (I.faults input.old) (I.faults input.new) }
    {
        let mut told = Told::any();
        match self.find(input, &mut told) {
            Ok(Found::Board) => Ok(Next::Board(told)),
            Ok(Found::Last) => Ok(Next::Last(told)),
            Ok(Found::End) => Ok(Next::End),
            Err(fault) => Err(fault),
        }
    }
}
