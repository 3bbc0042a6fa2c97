//! A text in the parts that a person sees: words, numbers and signs, faulty ones too.

ghost use Rattle.std.specs.Prelude.{◌<◌, ◌≤◌, length};

use crate::rules::kinds::Kinds;
use crate::rules::lists::THROUGH;
use crate::rules::words::{
    depth_after, is, is_in_value, is_number, is_one_of, is_seat, is_short_line,
};
use std::alloc::{AllocError, Global};

/// The longest text that a hint repeats.
const LONGEST: usize = 60;

/// What a byte belongs to.
#[derive(Clone, Copy)]
enum ByteClass {
    Blank,
    Comment,
    Letter,
    Digit,
    /// A sign of a comparison, or one that a person takes for `and`, `or` or `not`.
    Relation,
    /// A byte that isn't ASCII: several make a letter or a sign.
    Wide,
    /// Any other byte, which is a part by itself.
    Single,
}

/// A part of a text, from its byte `at` on.
#[derive(Clone, Copy)]
struct TextPart<'t> {
    at: usize,
    bytes: &'t [u8],
}

/// A text's parts, and which of them is at fault.
pub(crate) struct Parts<'t> {
    text: &'t [u8],
    /// The parts, after an empty one: so nothing is at 0, and nothing after the last.
    parts: Vec<TextPart<'t>>,
    /// Where the part with the fault is, or the end.
    pub fault: usize,
    /// That part in small letters.
    pub word: Vec<u8>,
    /// The kinds of tokens that may come there.
    pub can: Kinds,
}

impl<'t> Drop for Parts<'t> {
    fn drop(self) {
        let Parts {
            text: _,
            parts: _,
            fault: _,
            word: _,
            can: _,
        } = self;
    }
}

fn class_of(byte: u8) -> ByteClass {
    if byte.is_ascii_alphabetic() {
        ByteClass::Letter
    } else if byte.is_ascii_digit() {
        ByteClass::Digit
    } else if !byte.is_ascii() {
        ByteClass::Wide
    } else if b" \t\n\r".contains(&byte) {
        ByteClass::Blank
    } else if b"=!<>&|".contains(&byte) {
        ByteClass::Relation
    } else if byte == b'#' {
        ByteClass::Comment
    } else {
        ByteClass::Single
    }
}

/// How many bytes of the class the text begins with; of a comment, up to the end of the line.
fn run_len(text: &[u8], class: ByteClass) -> usize
    ensures { result ≤ length text.now }
{
    for (i, byte) in text.iter().enumerate() {
        let goes_on = if class == ByteClass::Comment {
            *byte != b'\n'
        } else {
            class_of(*byte) == class
        };
        if !goes_on {
            return i;
        }
    }
    text.len()
}

/// The class of the text's first part, and its length.
fn first_part(text: &[u8]) -> (ByteClass, usize)
    requires { 0 < length text.now }
    ensures some { 0 < result.1 }
    ensures within { result.1 ≤ length text.now }
{
    let class = class_of(text[0]);
    let len = match class {
        ByteClass::Blank | ByteClass::Single => 1,
        _ => run_len(text, class),
    };
    (class, len.max(1))
}

/// The bytes in small letters.
fn small(alloc: Global, bytes: &[u8]) -> Result<Vec<u8>, AllocError> {
    let mut word = Vec::new(alloc);
    for byte in bytes {
        word.push(byte.to_ascii_lowercase())?;
    }
    Ok(word)
}

impl<'t> Parts<'t> {
    /// The parts of the text, of which the one with the byte `at` is at fault, or the end, where
    /// only these kinds may come.
    pub(crate) fn of(
        alloc: Global,
        text: &'t [u8],
        at: usize,
        can: Kinds,
    ) -> Result<Parts<'t>, AllocError> {
        let mut parts = Vec::new(alloc);
        parts.push(TextPart { at: 0, bytes: b"" })?;
        let mut rest = text;
        let mut start = 0;
        let mut fault = 1;
        while !rest.is_empty() {
            let (class, len) = first_part(rest);
            let (bytes, more) = rest.split_at(len);
            if class != ByteClass::Blank && class != ByteClass::Comment {
                parts.push(TextPart { at: start, bytes })?;
            }
            start += len;
            rest = more;
            if start <= at {
                fault = parts.len();
            }
        }
        let word = small(alloc, bytes_at(parts.as_slice(), fault))?;
        Ok(Parts {
            text,
            parts,
            fault,
            word,
            can,
        })
    }

    /// The bytes of a part, or none.
    pub(crate) fn at(&self, i: usize) -> &'t [u8] {
        bytes_at(self.parts.as_slice(), i)
    }

    /// How many there are, with the empty one in front.
    pub(crate) fn count(&self) -> usize {
        self.parts.len()
    }

    /// Whether a part is one of these texts.
    pub(crate) fn has(&self, texts: &str) -> bool {
        self.parts.iter().any(|part| is_one_of(part.bytes, texts))
    }

    /// Where the text gives the name after a `let`. At 0, if it doesn't.
    pub(crate) fn given_at(&self, name: &[u8]) -> usize {
        for i in 1..self.count() {
            if self.at(i) == name && is(self.at(i - 1), "let") {
                return i;
            }
        }
        0
    }

    /// Whether the part is in the brackets that say what its name, given before, stands for.
    pub(crate) fn is_in_own_brackets(&self, i: usize) -> bool {
        let given = self.given_at(self.at(i));
        let mut is_after_is = false;
        let mut depth = 0usize;
        for k in given..i {
            let part = self.at(k);
            if is(part, "is") {
                is_after_is = true;
            } else if is_after_is && is(part, "(") {
                depth = depth.saturating_add(1);
            } else if is_after_is && is(part, ")") {
                depth = depth.saturating_sub(1);
                if depth == 0 {
                    return false;
                }
            }
        }
        given > 0 && depth > 0
    }

    /// Whether the part is the bracket that ends what a name stands for.
    pub(crate) fn ends_definition(&self, last: usize) -> bool {
        let mut depth: usize = 0;
        for back in 0..last.saturating_add(1) {
            let part = self.at(last - back);
            if is(part, ")") {
                depth = depth.saturating_add(1);
            } else if is(part, "(") {
                depth = depth.saturating_sub(1);
            }
            if depth == 0 {
                return back > 0 && is(self.at((last - back).saturating_sub(1)), "is");
            }
        }
        false
    }

    /// Whether the fault is in what a name without brackets stands for.
    pub(crate) fn is_in_plain_body(&self) -> bool {
        for open in 4..self.fault {
            if is(self.at(open), "(")
                && is(self.at(open - 1), "is")
                && is(self.at(open - 3), "let")
                && self.is_open_at_fault(open)
            {
                return true;
            }
        }
        false
    }

    /// Whether the fault is in brackets in which the class means a seat: those of an `any` or
    /// `every`, or of what a name with it stands for; or after these words, if the bracket isn't
    /// there.
    pub(crate) fn is_bound(&self, class: &[u8]) -> bool {
        for open in 3..self.fault.saturating_add(1) {
            let binds = if is(self.at(open - 1), "is") {
                self.at(open - 3) == class || self.at(open.saturating_sub(5)) == class
            } else {
                self.at(open - 1) == class && is_one_of(self.at(open - 2), THROUGH)
            };
            if binds && (!is(self.at(open), "(") || self.is_open_at_fault(open)) {
                return true;
            }
        }
        false
    }

    /// Whether this bracket isn't closed before the fault.
    fn is_open_at_fault(&self, open: usize) -> bool {
        let mut depth: usize = 0;
        for i in open..self.fault {
            let part = self.at(i);
            depth = depth_after(depth, part);
            if depth == 0 {
                return false;
            }
        }
        true
    }

    /// What comes after a use of the name, for a seat and a suit.
    pub(crate) fn arguments_of(&self, name: &[u8]) -> &'static str {
        let given = self.given_at(name);
        let parameter = self.at(given.saturating_add(2));
        let has_suit_too = is(self.at(given.saturating_add(3)), ",");
        if !is(self.at(given.saturating_add(1)), "(") {
            ""
        } else if is(parameter, "suit") {
            "(spades)"
        } else if has_suit_too {
            "(north,spades)"
        } else {
            "(north)"
        }
    }

    /// The last seat before the fault, or North.
    pub(crate) fn last_seat(&self) -> &'t [u8] {
        for back in 0..self.fault {
            let part = self.at(self.fault - back);
            if is_seat(part) {
                return part;
            }
        }
        b"north"
    }

    /// What is written from the first of these parts to the last.
    pub(crate) fn written(&self, first: usize, last: usize) -> Option<&'t [u8]> {
        self.text.get(self.range(first).0..self.range(last).1)
    }

    /// Where the part begins in the text, and where it ends.
    fn range(&self, i: usize) -> (usize, usize) {
        match self.parts.as_slice().get(i) {
            Some(part) => (part.at, part.at.saturating_add(part.bytes.len())),
            None => (self.text.len(), self.text.len()),
        }
    }

    /// Whether the part comes right after the one before it, and apart from the one after it.
    pub(crate) fn is_suffix(&self, i: usize) -> bool {
        let (from, to) = self.range(i);
        from == self.range(i.saturating_sub(1)).1 && to != self.range(i.saturating_add(1)).0
    }

    /// Whether the word with the fault goes on with a letter that isn't ASCII, as in `cœur`.
    pub(crate) fn is_cut(&self) -> bool {
        let next = self.fault.saturating_add(1);
        let is_letter = matches!(self.at(next), [0xC3..=0xC5, ..]);
        is_letter && self.range(self.fault).1 == self.range(next).0
    }

    /// Where the value begins that ends with this part. After the part, if none does.
    pub(crate) fn value_start(&self, last: usize) -> usize {
        let mut depth: usize = 0;
        for back in 0..last.saturating_add(1) {
            let i = last - back;
            let bytes = self.at(i);
            if is(bytes, ")") {
                depth = depth.saturating_add(1);
            } else if is(bytes, "(") && depth > 0 {
                depth -= 1;
            } else if depth == 0 && !is_in_value(bytes) {
                return i.saturating_add(1);
            }
        }
        0
    }

    /// The value that ends with this part, as it is written, if it is one short printable line.
    pub(crate) fn value(&self, last: usize) -> Option<&'t [u8]> {
        let start = self.value_start(last);
        let first = self.at(start);
        let ends = is_number(self.at(last)) || is(self.at(last), ")");
        if last < start || !ends || !is_in_value(first) || is(first, "+") {
            return None;
        }
        let line = self.written(start, last)?;
        is_short_line(line, LONGEST).then_some(line)
    }

    /// Where the word of the call is in which the fault is. At 0, if it is in none.
    pub(crate) fn call_at(&self) -> usize {
        let mut depth: usize = 0;
        for back in 1..self.fault.saturating_add(1) {
            let i = self.fault - back;
            let bytes = self.at(i);
            if is(bytes, ")") {
                depth = depth.saturating_add(1);
            } else if is(bytes, "(") {
                if depth == 0 {
                    return i.saturating_sub(1);
                }
                depth -= 1;
            }
        }
        0
    }

    /// The class of the innermost `any` or `every` in whose brackets the fault is, or none.
    pub(crate) fn class(&self) -> &'t [u8] {
        let mut depth: usize = 0;
        for back in 1..self.fault.saturating_add(1) {
            let i = self.fault - back;
            let bytes = self.at(i);
            if is(bytes, ")") {
                depth = depth.saturating_add(1);
            } else if is(bytes, "(") && depth > 0 {
                depth -= 1;
            } else if is(bytes, "(") && is_one_of(self.at(i.saturating_sub(2)), THROUGH) {
                return self.at(i.saturating_sub(1));
            }
        }
        b""
    }

    /// The word of the call in which the fault is.
    pub(crate) fn call(&self) -> &'t [u8] {
        self.at(self.call_at())
    }
}

fn bytes_at<'t>(parts: &[TextPart<'t>], i: usize) -> &'t [u8] {
    match parts.get(i) {
        Some(part) => part.bytes,
        None => b"",
    }
}
