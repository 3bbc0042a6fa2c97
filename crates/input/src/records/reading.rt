//! What was read of a text, up to a byte within a line or the end of one.

ghost use Rattle.std.specs.Prelude.{◌≡◌, ◌≢◌, ◌+◌, ◌-◌, ◌<◌, ◌≤◌, ◌^◌, ℕ, IfErr, IfOk};
ghost use Rattle.std.specs.Prelude.{List, OnOk, false, length, true, unwrap_or};
ghost use Rattle.input.specs.Texts.{InRoom, Spelled, after, begin_text, after_line, ends_game};
ghost use Rattle.input.specs.Texts.{ends_line, list_of, reads_byte, refused_with, takes_tag};
ghost use Rattle.input.specs.Texts.{nothing_more, with_last_tag};
ghost use Rattle.input.specs.Kinds.{kind_of};
ghost use Rattle.input.specs.internal.Endings.{told_if};
ghost use Rattle.input.specs.internal.TagTexts.{IsStart, after_tag, with_place};

use crate::records::fault::{RecordFault, RefusedRecord};
use crate::records::game::{Game, Told};
use crate::records::kind::{TagKind, kind_of};
use crate::records::line::{LINE_BYTES, LineStep, RecordLine};

/// What was read of a text: where in a line it ends, how many lines there were before, what the
/// game says so far, and the number of the last board, or 0.
#[derive(Drop)]
pub(crate) struct Reading {
    pub(crate) line: RecordLine,
    pub(crate) lines: u64,
    pub(crate) game: Game,
    pub(crate) last: u64,
}

impl Reading {
    /// Nothing was read.
    pub(crate) fn new() -> Reading
        ensures value { result ≡ begin_text }
        ensures room { InRoom result 0 }
    {
        Reading {
            line: RecordLine::new(),
            lines: 0,
            game: Game::none(),
            last: 0,
        }
    }

    /// This line is refused.
    fn refused(&self, fault: RecordFault) -> RefusedRecord
        requires { self.now.lines < 2 ^ 64 - 1 }
        ensures { result ≡ record { line = self.now.lines + 1; fault = fault } }
    {
        RefusedRecord {
            line: self.lines + 1,
            fault,
        }
    }

    /// Ends the game. Returns whether it has a board, which is then told.
    fn end_game(&mut self, told: &mut Told) -> Result<bool, RefusedRecord>
        requires { InRoom self.old (2 ^ 62) }
        ensures ends { IfOk result (λ ended. (next : Reading → Spelled)
            → ends_game self.old next ≡ after (list_of (told_if ended told.new)) (next self.new)) }
        ensures refused { IfErr result (λ e. (next : Reading → Spelled)
            → ends_game self.old next ≡ refused_with e) }
        ensures lines { OnOk result (self.new.lines ≡ self.old.lines) }
        ensures room { (n : ℕ) → InRoom self.old n → OnOk result (InRoom self.new (n + 1)) }
    {
        let ended = self.game.says(self.last, told)?;
        self.game.clear();
        if ended {
            self.last = told.board.number;
        }
        Ok(ended)
    }

    /// Adds the last tag to the game.
    fn add_tag(&mut self, kind: TagKind)
        requires { self.old.lines < 2 ^ 64 - 1 }
        ensures value { self.new ≡ with_last_tag kind self.old }
        ensures number { unwrap_or self.old.game.number 0 ≤ 2 ^ 40
            → unwrap_or self.new.game.number 0 ≤ 2 ^ 40 }
    {
        self.game.add_tag(kind, self.line.value(), self.lines + 1);
    }

    /// Goes to the next line.
    fn leave_line(&mut self)
        requires { self.old.lines < 2 ^ 64 - 1 }
        ensures { self.new ≡ after_line self.old }
    {
        self.line.end();
        self.lines += 1;
    }

    /// Goes from the beginning of a line that is a tag to the next line.
    fn leave_tag(&mut self)
        requires lines { self.old.lines < 2 ^ 64 - 1 }
        requires start { IsStart self.old.line }
        ensures { (name value : List ℕ)
            → self.new ≡ after_line (with_place (after_tag name value) self.old) }
    {
        self.line.stop_skipping();
        self.leave_line();
    }

    /// Takes the end of a tag. A game that has a tag of this kind already ends before it. Returns
    /// whether that had a board, which is then told.
    fn take_tag(&mut self, told: &mut Told) -> Result<bool, RefusedRecord>
        requires { InRoom self.old (2 ^ 62) }
        ensures takes { IfOk result (λ ended. (next : Reading → Spelled)
            → takes_tag (kind_of self.old.line.name) self.old next
            ≡ after (list_of (told_if ended told.new)) (next self.new)) }
        ensures refused { IfErr result (λ e. (next : Reading → Spelled)
            → takes_tag (kind_of self.old.line.name) self.old next ≡ refused_with e) }
        ensures room { (n : ℕ) → InRoom self.old n → OnOk result (InRoom self.new (n + 1)) }
    {
        let Some(kind) = kind_of(self.line.name()) else {
            return Ok(false);
        };
        if !self.game.has(kind) {
            self.add_tag(kind);
            return Ok(false);
        }
        match self.end_game(told) {
            Ok(ended) => {
                self.add_tag(kind);
                Ok(ended)
            }
            Err(line) => Err(line),
        }
    }

    /// Takes a tag at the beginning of a line, unless the game ends before it. Returns whether it
    /// did.
    pub(crate) fn pass_tag(&mut self, kind: Option<TagKind>, name: &[u8], value: &[u8]) -> bool
        requires room { InRoom self.old (2 ^ 62) }
        requires start { IsStart self.old.line }
        requires fits { length name.now + length value.now + 5 ≤ 4096 }
        ensures passed { result ≡ true → (next : Reading → Spelled)
            → takes_tag kind (with_place (after_tag name.now value.now) self.old) next
            ≡ next self.new }
        ensures kept { result ≡ false → self.new ≡ self.old }
        ensures room { (n : ℕ) → InRoom self.old n → InRoom self.new n }
    {
        let Some(kind) = kind else {
            self.line.take_tag(name, value);
            return true;
        };
        if self.game.has(kind) {
            return false;
        }
        self.line.take_tag(name, value);
        self.add_tag(kind);
        true
    }

    /// Takes a whole line that is a tag, unless the game ends before it. Returns whether it did.
    ///
    /// Nothing is kept of the line, its name neither, since it ends.
    pub(crate) fn pass_line(&mut self, kind: Option<TagKind>, value: &[u8]) -> bool
        requires room { InRoom self.old (2 ^ 62) }
        requires start { IsStart self.old.line }
        ensures passed { result ≡ true → (name : List ℕ) (next : Reading → Spelled)
            → takes_tag kind (with_place (after_tag name value.now) self.old)
            (λ t. ends_line t next) ≡ next self.new }
        ensures kept { result ≡ false → self.new ≡ self.old }
        ensures room { (n : ℕ) → InRoom self.old n → InRoom self.new (n + 1) }
    {
        let Some(kind) = kind else {
            self.leave_tag();
            return true;
        };
        if self.game.has(kind) {
            return false;
        }
        self.game.add_tag(kind, value, self.lines + 1);
        self.leave_tag();
        true
    }

    /// Takes the next byte of a line where any byte only goes on with it. Returns whether it did.
    pub(crate) fn pass(&mut self, byte: u8) -> bool
        ensures passed { result ≡ true → (next : Reading → Spelled)
            → reads_byte self.old byte next ≡ next self.new }
        ensures kept { result ≡ false → self.new ≡ self.old }
        ensures room { (n : ℕ) → InRoom self.old n → InRoom self.new n }
    {
        if self.line.column() == LINE_BYTES || !self.line.is_free() {
            return false;
        }
        let _on = self.line.take(byte);
        true
    }

    /// Takes the end of a line that ends no game. Returns whether it did.
    pub(crate) fn pass_end(&mut self) -> bool
        requires { InRoom self.old (2 ^ 62) }
        ensures passed { result ≡ true → (next : Reading → Spelled)
            → ends_line self.old next ≡ next self.new }
        ensures kept { result ≡ false → self.new ≡ self.old }
        ensures room { (n : ℕ) → InRoom self.old n → InRoom self.new (n + 1) }
    {
        if self.line.is_in_tag() || self.line.is_empty() {
            return false;
        }
        self.leave_line();
        true
    }

    /// Takes the next byte of a line. Returns whether it ends a game with a board, which is then
    /// told.
    ///
    /// # Errors
    /// The line, if it is refused, whatever comes after.
    pub(crate) fn take(&mut self, byte: u8, told: &mut Told) -> Result<bool, RefusedRecord>
        requires { InRoom self.old (2 ^ 62) }
        ensures reads { IfOk result (λ ended. (next : Reading → Spelled)
            → reads_byte self.old byte next
            ≡ after (list_of (told_if ended told.new)) (next self.new)) }
        ensures refused { IfErr result (λ e. (next : Reading → Spelled)
            → reads_byte self.old byte next ≡ refused_with e) }
        ensures tag { IfOk result (λ ended. byte ≢ 93 → ended ≡ false) }
        ensures room { (n : ℕ) → InRoom self.old n → OnOk result (InRoom self.new (n + 1)) }
    {
        if self.line.column() == LINE_BYTES {
            return Err(self.refused(RecordFault::TooLong));
        }
        match self.line.take(byte) {
            LineStep::On => Ok(false),
            LineStep::Whole => self.take_tag(told),
            LineStep::Wrong => Err(self.refused(RecordFault::NotATag)),
        }
    }

    /// Takes the end of a line. Returns whether it ends a game with a board, which is then told.
    ///
    /// # Errors
    /// The line, if it is refused, whatever comes after.
    pub(crate) fn end_line(&mut self, told: &mut Told) -> Result<bool, RefusedRecord>
        requires { InRoom self.old (2 ^ 62) }
        ensures ends { IfOk result (λ ended. (next : Reading → Spelled)
            → ends_line self.old next ≡ after (list_of (told_if ended told.new)) (next self.new)) }
        ensures refused { IfErr result (λ e. (next : Reading → Spelled)
            → ends_line self.old next ≡ refused_with e) }
        ensures room { (n : ℕ) → InRoom self.old n → OnOk result (InRoom self.new (n + 1)) }
    {
        if self.line.is_in_tag() {
            return Err(self.refused(RecordFault::NotATag));
        }
        if !self.line.is_empty() {
            self.leave_line();
            return Ok(false);
        }
        match self.end_game(told) {
            Ok(ended) => {
                self.leave_line();
                Ok(ended)
            }
            Err(line) => Err(line),
        }
    }

    /// Takes the end of the text. Returns whether the last game has a board, which is then told.
    ///
    /// # Errors
    /// The last line, if it is refused, or one of the last game.
    pub(crate) fn finish(&mut self, told: &mut Told) -> Result<bool, RefusedRecord>
        requires { InRoom self.old (2 ^ 62) }
        ensures ends { IfOk result (λ ended.
            ends_line self.old (λ t. ends_game t nothing_more)
            ≡ record { boards = list_of (told_if ended told.new); refused = None }) }
        ensures refused { IfErr result (λ e.
            ends_line self.old (λ t. ends_game t nothing_more) ≡ refused_with e) }
    {
        if self.line.is_in_tag() {
            return Err(self.refused(RecordFault::NotATag));
        }
        self.end_game(told)
    }
}
