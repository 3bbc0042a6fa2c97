//! A line that is read byte by byte, up to the tags in it.

ghost use Rattle.std.specs.Prelude.{◌≡◌, ◌≢◌, ◌+◌, ◌<◌, ◌≤◌, ℕ, false, length, true};
ghost use Rattle.input.specs.Places.{begin, is_empty, is_in_tag, is_name_byte};
ghost use Rattle.input.specs.Places.{moved, new_line, opened, place_after, step_at};
ghost use Rattle.input.specs.internal.TagTexts.{IsStart, after_tag};
ghost use Rattle.input.specs.declared.records.line.LineStep.TheVariants.{On, Wrong};
ghost use Rattle.input.specs.declared.records.line.LinePart.TheVariants.{Bracket, Name, Gap, Value};
ghost use Rattle.input.specs.declared.records.line.LinePart.TheVariants.{Escape, Close};

use crate::blank::is_blank;
use arrayvec::ArrayVec;
use std::marker::Model;

/// The most bytes of a line.
pub(crate) const LINE_BYTES: usize = 4096;

/// Where in a line a reader is.
#[derive(Clone, Copy, PartialEq, Eq)]
pub enum LinePart {
    /// Where a tag may begin, or a comment; or where all is skipped.
    Open,
    /// In what is left of a line that counts for nothing.
    Rest,
    /// After the `[` of a tag.
    Bracket,
    /// In its name.
    Name,
    /// In the blanks after it.
    Gap,
    /// In its value.
    Value,
    /// After a `\` in the value.
    Escape,
    /// After the value.
    Close,
}

/// What a byte does.
#[derive(Clone, Copy)]
pub enum LineStep {
    /// Nothing but that the line goes on.
    On,
    /// It ends a tag.
    Whole,
    /// It can't stand in a tag there.
    Wrong,
}

/// A line that is read byte by byte, and the tag in it that was read last.
#[derive(Drop)]
pub(crate) struct RecordLine {
    part: LinePart,
    skips: bool,
    comment: bool,
    column: usize,
    name: ArrayVec<u8, 4096>,
    value: ArrayVec<u8, 4096>,
}

impl Model for RecordLine {
    ghost use Rattle.std.specs.Prelude.{◌≤◌, length};
    ghost use Rattle.input.specs.Places.{Place};

    ghost Value = { Place };

    ghost view = { λ l. record {
      part = l.part;
      skips = l.skips;
      comment = l.comment;
      column = l.column;
      name = l.name.items;
      value = l.value.items;
    } };

    ghost invariant = { λ l. record {
      column : l.column ≤ 4096;
      name : length l.name.items ≤ l.column;
      value : length l.value.items ≤ l.column;
    } };
}

/// Which bytes a name may have: letters, digits and `_`.
const IN_NAMES: [bool; 256] = [
    false, false, false, false, false, false, false, false, false, false, false, false, false,
    false, false, false, false, false, false, false, false, false, false, false, false, false,
    false, false, false, false, false, false, false, false, false, false, false, false, false,
    false, false, false, false, false, false, false, false, false, true, true, true, true, true,
    true, true, true, true, true, false, false, false, false, false, false, false, true, true,
    true, true, true, true, true, true, true, true, true, true, true, true, true, true, true, true,
    true, true, true, true, true, true, true, true, false, false, false, false, true, false, true,
    true, true, true, true, true, true, true, true, true, true, true, true, true, true, true, true,
    true, true, true, true, true, true, true, true, true, false, false, false, false, false, false,
    false, false, false, false, false, false, false, false, false, false, false, false, false,
    false, false, false, false, false, false, false, false, false, false, false, false, false,
    false, false, false, false, false, false, false, false, false, false, false, false, false,
    false, false, false, false, false, false, false, false, false, false, false, false, false,
    false, false, false, false, false, false, false, false, false, false, false, false, false,
    false, false, false, false, false, false, false, false, false, false, false, false, false,
    false, false, false, false, false, false, false, false, false, false, false, false, false,
    false, false, false, false, false, false, false, false, false, false, false, false, false,
    false, false, false, false, false, false, false, false, false, false, false, false, false,
    false, false, false, false, false, false, false, false, false, false,
];

pub(crate) fn is_name_byte(byte: u8) -> bool
    ensures { result ≡ is_name_byte byte }
{
    IN_NAMES[usize::from(byte)]
}

impl RecordLine {
    /// Nothing was read.
    pub(crate) fn new() -> RecordLine
        ensures { result ≡ begin }
    {
        RecordLine {
            part: LinePart::Open,
            skips: false,
            comment: false,
            column: 0,
            name: ArrayVec::new(),
            value: ArrayVec::new(),
        }
    }

    /// How many bytes of the line there were.
    pub(crate) fn column(&self) -> usize
        ensures value { result ≡ self.now.column }
        ensures range { result ≤ 4096 }
    {
        self.column
    }

    /// The name of the tag that was read last.
    pub(crate) fn name(&self) -> &[u8]
        ensures { result.now ≡ self.now.name }
    {
        self.name.as_slice()
    }

    /// Its value.
    pub(crate) fn value(&self) -> &[u8]
        ensures { result.now ≡ self.now.value }
    {
        self.value.as_slice()
    }

    /// Whether a tag has begun that hasn't ended.
    pub(crate) fn is_in_tag(&self) -> bool
        ensures { result ≡ is_in_tag self.now.part }
    {
        !matches!(self.part, LinePart::Open | LinePart::Rest)
    }

    /// Whether the line is empty.
    pub(crate) fn is_empty(&self) -> bool
        ensures { result ≡ is_empty self.now }
    {
        self.column == 0 && !self.comment
    }

    /// Takes the end of the line.
    pub(crate) fn end(&mut self)
        ensures { self.new ≡ new_line self.old }
    {
        self.part = LinePart::Open;
        self.column = 0;
        self.name.clear();
        self.value.clear();
    }

    /// Whether nothing was read of the line, and no comment goes on.
    pub(crate) fn is_at_start(&self) -> bool
        ensures { result ≡ true → IsStart self.now }
    {
        self.column == 0 && self.part == LinePart::Open && !self.comment
    }

    /// Whether the line goes on after any byte.
    pub(crate) fn is_free(&self) -> bool
        ensures { result ≡ true → (b : ℕ) → step_at self.now.part b ≡ On }
    {
        matches!(
            self.part,
            LinePart::Open | LinePart::Rest | LinePart::Value | LinePart::Escape
        )
    }

    /// Takes a tag at the beginning of the line.
    pub(crate) fn take_tag(&mut self, name: &[u8], value: &[u8])
        requires start { IsStart self.old }
        requires fits { length name.now + length value.now + 5 ≤ 4096 }
        ensures { self.new ≡ after_tag name.now value.now }
    {
        self.skips = false;
        self.column = name.len() + value.len() + 5;
        self.name.clear();
        let _fits = self.name.try_extend_from_slice(name);
        self.value.clear();
        let _fits = self.value.try_extend_from_slice(value);
    }

    /// Skips no more, as a tag begins.
    pub(crate) fn stop_skipping(&mut self)
        ensures { self.new ≡ record self.old { skips = false } }
    {
        self.skips = false;
    }

    /// Takes a byte where a tag or a comment may begin.
    fn take_open(&mut self, byte: u8)
        ensures { self.new ≡ opened self.old byte }
    {
        if self.column == 1 && byte == b'%' {
            self.part = LinePart::Rest;
        } else if self.comment {
            self.comment = byte != b'}';
        } else if byte == b'{' {
            self.comment = true;
        } else if byte == b';' {
            self.part = LinePart::Rest;
        } else if byte == b'[' && (self.column == 1 || !self.skips) {
            self.part = LinePart::Bracket;
            self.skips = false;
        } else if !is_blank(byte) {
            self.skips = true;
        }
    }

    /// Takes the first byte of a name.
    fn take_bracket(&mut self, byte: u8) -> LineStep
        requires { 0 < self.old.column }
        ensures step { result ≡ step_at Bracket byte }
        ensures moved { result ≢ Wrong → self.new ≡ moved Bracket self.old byte }
    {
        if !is_name_byte(byte) {
            return LineStep::Wrong;
        }
        self.name.clear();
        self.name.push(byte);
        self.part = LinePart::Name;
        LineStep::On
    }

    /// Takes a byte of a name or after it.
    fn take_name(&mut self, byte: u8) -> LineStep
        requires { length self.old.name < self.old.column }
        ensures step { result ≡ step_at Name byte }
        ensures moved { result ≢ Wrong → self.new ≡ moved Name self.old byte }
    {
        if byte == b'"' {
            self.value.clear();
            self.part = LinePart::Value;
        } else if is_blank(byte) {
            self.part = LinePart::Gap;
        } else if is_name_byte(byte) {
            self.name.push(byte);
        } else {
            return LineStep::Wrong;
        }
        LineStep::On
    }

    /// Takes a byte between a name and a value.
    fn take_gap(&mut self, byte: u8) -> LineStep
        ensures step { result ≡ step_at Gap byte }
        ensures moved { result ≢ Wrong → self.new ≡ moved Gap self.old byte }
    {
        if byte == b'"' {
            self.value.clear();
            self.part = LinePart::Value;
            LineStep::On
        } else if is_blank(byte) {
            LineStep::On
        } else {
            LineStep::Wrong
        }
    }

    /// Takes a byte of a value or after it.
    fn take_value(&mut self, byte: u8)
        requires { length self.old.value < self.old.column }
        ensures { self.new ≡ moved Value self.old byte }
    {
        if byte == b'"' {
            self.part = LinePart::Close;
            return;
        }
        self.value.push(byte);
        if byte == b'\\' {
            self.part = LinePart::Escape;
        }
    }

    /// Takes a byte that a `\` takes with it.
    fn take_escaped(&mut self, byte: u8)
        requires { length self.old.value < self.old.column }
        ensures { self.new ≡ moved Escape self.old byte }
    {
        self.value.push(byte);
        self.part = LinePart::Value;
    }

    /// Takes a byte after a value.
    fn take_close(&mut self, byte: u8) -> LineStep
        ensures step { result ≡ step_at Close byte }
        ensures moved { result ≢ Wrong → self.new ≡ moved Close self.old byte }
    {
        if byte == b']' {
            self.part = LinePart::Open;
            LineStep::Whole
        } else if is_blank(byte) {
            LineStep::On
        } else {
            LineStep::Wrong
        }
    }

    /// Takes the next byte of a line that isn't too long for it.
    pub(crate) fn take(&mut self, byte: u8) -> LineStep
        requires { self.old.column < 4096 }
        ensures step { result ≡ step_at self.old.part byte }
        ensures moved { result ≢ Wrong → self.new ≡ place_after self.old byte }
    {
        self.column += 1;
        match self.part {
            LinePart::Open => {
                self.take_open(byte);
                LineStep::On
            }
            LinePart::Rest => LineStep::On,
            LinePart::Bracket => self.take_bracket(byte),
            LinePart::Name => self.take_name(byte),
            LinePart::Gap => self.take_gap(byte),
            LinePart::Value => {
                self.take_value(byte);
                LineStep::On
            }
            LinePart::Escape => {
                self.take_escaped(byte);
                LineStep::On
            }
            LinePart::Close => self.take_close(byte),
        }
    }
}
