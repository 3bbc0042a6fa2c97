//! A text that is read byte by byte.

ghost use Rattle.std.specs.Prelude.{◌≡◌, ◌≢◌, ◌+◌, ◌<◌, ◌^◌, ◌∷◌, [], ℕ, List, IfErr, IfOk, None};
ghost use Rattle.std.specs.Prelude.{OnOk, ◌++◌, ◌≤◌, IfSome, false, length, true};
ghost use Rattle.input.specs.NumberTexts.{starts_with_lf};
ghost use Rattle.input.specs.Kinds.{kind_of};
ghost use Rattle.input.specs.RecordScans.{IsWithin, spells_from};
ghost use Rattle.input.specs.Texts.{InRoom};
ghost use Rattle.input.specs.Texts.{list_of, refused_with, spelled};
ghost use Rattle.input.specs.internal.Endings.{told_if};
ghost use Rattle.input.specs.internal.TagTexts.{IsStart, IsTag, Reads, ReadsByte, RefusesByte};
ghost use Rattle.input.specs.internal.TagTexts.{tag_text};

use crate::records::fault::RefusedRecord;
use crate::records::game::Told;
use crate::records::reading::Reading;
use crate::records::tag::{SIGNS, Tag, tag_at};

/// Reads a text byte by byte. It keeps what was read of the game, and whether a CR came last.
#[derive(Drop)]
pub struct RecordScanner {
    reading: Reading,
    after_cr: bool,
}

impl RecordScanner {
    /// Nothing was read.
    pub fn new() -> RecordScanner
        ensures begin { (text : List ℕ) → spells_from result text ≡ spelled text }
        ensures room { IsWithin result 0 }
    {
        RecordScanner {
            reading: Reading::new(),
            after_cr: false,
        }
    }

    /// Takes the end of a line. Returns whether it ends a game with a board, which is then told.
    fn end_line(&mut self, told: &mut Told) -> Result<bool, RefusedRecord>
        requires { IsWithin self.old (2 ^ 60) }
        ensures goes_on { ReadsByte self.old self.new 10 told.new result }
        ensures refused { RefusesByte self.old 10 result }
        ensures room { (n : ℕ) → IsWithin self.old n → OnOk result (IsWithin self.new (n + 1)) }
    {
        self.after_cr = false;
        self.reading.end_line(told)
    }

    /// Takes a CR into the line that isn't at its end, if one came last.
    fn take_cr(&mut self, told: &mut Told) -> Result<(), RefusedRecord>
        requires { InRoom self.old.reading (2 ^ 61) }
        ensures goes_on { IfOk result (λ _. (rest : List ℕ) → starts_with_lf rest ≡ false
            → spells_from self.old rest ≡ spells_from self.new rest) }
        ensures refused { IfErr result (λ e. (rest : List ℕ) → starts_with_lf rest ≡ false
            → spells_from self.old rest ≡ refused_with e) }
        ensures room { (n : ℕ) → InRoom self.old.reading n
            → OnOk result (InRoom self.new.reading (n + 1)) }
        ensures taken { OnOk result (self.new.after_cr ≡ false) }
    {
        if !self.after_cr {
            return Ok(());
        }
        match self.reading.take(b'\r', told) {
            Ok(_) => {
                self.after_cr = false;
                Ok(())
            }
            Err(line) => Err(line),
        }
    }

    /// Takes a byte after another than a CR. Returns whether it ends a game with a board, which is
    /// then told.
    fn go_on(&mut self, byte: u8, told: &mut Told) -> Result<bool, RefusedRecord>
        requires room { InRoom self.old.reading (2 ^ 62) }
        requires within { byte ≢ 10 }
        requires plain { self.old.after_cr ≡ false }
        ensures goes_on { ReadsByte self.old self.new byte told.new result }
        ensures refused { RefusesByte self.old byte result }
        ensures room { (n : ℕ) → InRoom self.old.reading n
            → OnOk result (InRoom self.new.reading (n + 1)) }
    {
        if byte == b'\r' {
            self.after_cr = true;
            return Ok(false);
        }
        self.reading.take(byte, told)
    }

    /// Whether a line begins here, outside a comment.
    pub(crate) fn is_at_start(&self) -> bool
        ensures { result ≡ true → IsStart self.now.reading.line × (self.now.after_cr ≡ false) }
    {
        !self.after_cr && self.reading.line.is_at_start()
    }

    /// Takes a tag at the beginning of a line, unless a game ends before it. Returns whether it
    /// did.
    fn pass_tag(&mut self, tag: &Tag<'_>) -> bool
        requires room { IsWithin self.old (2 ^ 60) }
        requires start { IsStart self.old.reading.line × (self.old.after_cr ≡ false) }
        requires tag { IsTag tag.now.name.now tag.now.value.now }
        requires kind { tag.now.kind ≡ kind_of tag.now.name.now }
        ensures passed { result ≡ true → (rest : List ℕ)
            → spells_from self.old (tag_text tag.now.name.now tag.now.value.now ++ rest)
            ≡ spells_from self.new rest }
        ensures kept { result ≡ false → self.new ≡ self.old }
        ensures room { (n : ℕ) → IsWithin self.old n → IsWithin self.new (n + 1) }
    {
        self.reading.pass_tag(tag.kind, tag.name, tag.value)
    }

    /// Takes a line that is a tag, unless a game ends before it. Returns whether it did.
    fn pass_line(&mut self, tag: &Tag<'_>) -> bool
        requires room { IsWithin self.old (2 ^ 60) }
        requires start { IsStart self.old.reading.line × (self.old.after_cr ≡ false) }
        requires tag { IsTag tag.now.name.now tag.now.value.now }
        requires kind { tag.now.kind ≡ kind_of tag.now.name.now }
        ensures passed { result ≡ true → (rest : List ℕ)
            → spells_from self.old (tag_text tag.now.name.now tag.now.value.now ++ (10 ∷ rest))
            ≡ spells_from self.new rest }
        ensures kept { result ≡ false → self.new ≡ self.old }
        ensures room { (n : ℕ) → IsWithin self.old n → IsWithin self.new (n + 1) }
    {
        self.reading.pass_line(tag.kind, tag.value)
    }

    /// Takes a tag, with which a line begins here, and the end of the line if it comes next, unless
    /// a game ends before it. Returns how many bytes were taken.
    fn pass_this(&mut self, tag: &Tag<'_>) -> usize
        requires room { IsWithin self.old (2 ^ 60) }
        requires start { IsStart self.old.reading.line × (self.old.after_cr ≡ false) }
        requires tag { IsTag tag.now.name.now tag.now.value.now }
        requires kind { tag.now.kind ≡ kind_of tag.now.name.now }
        ensures { Reads self.old self.new
            (tag_text tag.now.name.now tag.now.value.now ++ tag.now.rest.now) result None }
    {
        let count = tag.name.len() + tag.value.len() + SIGNS;
        match tag.rest.strip_prefix(b"\n") {
            Some(_) => {
                if self.pass_line(tag) {
                    return count + 1;
                }
            }
            None => {
                if self.pass_tag(tag) {
                    return count;
                }
            }
        }
        0
    }

    /// Takes the tag that a line begins with here, if no game ends before it. Returns how many
    /// bytes were taken.
    fn pass_tag_at(&mut self, bytes: &[u8]) -> usize
        requires { IsWithin self.old (2 ^ 60) }
        ensures { Reads self.old self.new bytes.now result None }
    {
        if !self.is_at_start() {
            return 0;
        }
        match tag_at(bytes) {
            Some(tag) => self.pass_this(&tag),
            None => 0,
        }
    }

    /// Takes the next byte of the text where that ends no tag and no game. Returns whether it did.
    pub(crate) fn pass(&mut self, byte: u8) -> bool
        requires { IsWithin self.old (2 ^ 60) }
        ensures passed { result ≡ true → (rest : List ℕ)
            → spells_from self.old (byte ∷ rest) ≡ spells_from self.new rest }
        ensures kept { result ≡ false → self.new ≡ self.old }
        ensures room { (n : ℕ) → IsWithin self.old n → IsWithin self.new (n + 1) }
    {
        if byte == b'\n' {
            if !self.reading.pass_end() {
                return false;
            }
            self.after_cr = false;
            return true;
        }
        if byte == b'[' || byte == b'\r' || self.after_cr {
            return false;
        }
        self.reading.pass(byte)
    }

    /// Takes the next byte of the text. Returns whether it ends a game with a board, which is then
    /// told.
    ///
    /// # Errors
    /// The line that is refused, whatever comes after.
    pub(crate) fn take(&mut self, byte: u8, told: &mut Told) -> Result<bool, RefusedRecord>
        requires { IsWithin self.old (2 ^ 60) }
        ensures goes_on { ReadsByte self.old self.new byte told.new result }
        ensures refused { RefusesByte self.old byte result }
        ensures room { (n : ℕ) → IsWithin self.old n → OnOk result (IsWithin self.new (n + 1)) }
    {
        if byte == b'\n' {
            return self.end_line(told);
        }
        match self.take_cr(told) {
            Ok(()) => self.go_on(byte, told),
            Err(line) => Err(line),
        }
    }

    /// Takes bytes that end no tag and no game, as far as there are any. Returns how many.
    fn skim(&mut self, bytes: &[u8]) -> usize
        requires room { IsWithin self.old (2 ^ 59) }
        requires few { length bytes.now ≤ 2 ^ 50 }
        ensures { Reads self.old self.new bytes.now result None }
    {
        for (i, byte) in bytes.iter().enumerate() {
            if !self.pass(*byte) {
                return i;
            }
        }
        bytes.len()
    }

    /// Takes the first byte. Returns whether it ends a game with a board, which is then told.
    fn take_first(&mut self, bytes: &[u8], told: &mut Told) -> Result<bool, RefusedRecord>
        requires room { IsWithin self.old (2 ^ 60) }
        requires some { 0 < length bytes.now }
        ensures reads { IfOk result (λ ended.
            Reads self.old self.new bytes.now 1 (told_if ended told.new)) }
        ensures refused { IfErr result (λ e. (rest : List ℕ)
            → spells_from self.old (bytes.now ++ rest) ≡ refused_with e) }
    {
        self.take(bytes[0], told)
    }

    /// Takes bytes and tags before which no game ends, as far as there are any. Returns how many
    /// bytes.
    fn pass_on(&mut self, bytes: &[u8]) -> usize
        requires room { IsWithin self.old (2 ^ 58) }
        requires few { length bytes.now ≤ 2 ^ 50 }
        ensures { Reads self.old self.new bytes.now result None }
    {
        let mut from = 0;
        while from < bytes.len() {
            from += self.skim(&bytes[from..]);
            let count = self.pass_tag_at(&bytes[from..]);
            if count == 0 {
                return from;
            }
            from += count;
        }
        from
    }

    /// Reads on in the bytes, up to a board, which is then told, or their end. Returns how many
    /// were read, and whether there is a board.
    ///
    /// # Errors
    /// The line that is refused, whatever comes after.
    pub(crate) fn read(
        &mut self,
        bytes: &[u8],
        told: &mut Told,
    ) -> Result<(usize, bool), RefusedRecord>
        requires room { IsWithin self.old (2 ^ 57) }
        requires few { length bytes.now ≤ 2 ^ 50 }
        ensures reads { IfOk result (λ r.
            Reads self.old self.new bytes.now r.0 (told_if r.1 told.new)) }
        ensures more { IfOk result (λ r. r.1 ≡ true → 0 < r.0) }
        ensures all { IfOk result (λ r. r.1 ≡ false → r.0 ≡ length bytes.now) }
        ensures refused { IfErr result (λ e. (rest : List ℕ)
            → spells_from self.old (bytes.now ++ rest) ≡ refused_with e) }
    {
        let mut from = 0;
        while from < bytes.len() {
            from += self.pass_on(&bytes[from..]);
            if from == bytes.len() {
                return Ok((from, false));
            }
            let ended = self.take_first(&bytes[from..], told)?;
            from += 1;
            if ended {
                return Ok((from, true));
            }
        }
        Ok((from, false))
    }

    /// Takes the end of the text. Returns whether the last game has a board, which is then told.
    ///
    /// # Errors
    /// The line that is refused.
    pub(crate) fn finish(&mut self, told: &mut Told) -> Result<bool, RefusedRecord>
        requires { IsWithin self.old (2 ^ 60) }
        ensures says { IfOk result (λ ended. spells_from self.old []
            ≡ record { boards = list_of (told_if ended told.new); refused = None }) }
        ensures refused { IfErr result (λ e. spells_from self.old [] ≡ refused_with e) }
    {
        match self.take_cr(told) {
            Ok(()) => self.reading.finish(told),
            Err(line) => Err(line),
        }
    }
}
