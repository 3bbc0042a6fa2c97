//! The labels that a game may have: event, site and date.

ghost use Rattle.std.specs.Prelude.{◌≡◌, ◌↔◌, length, None, IsTrue, IsSome, IfSome};
ghost use Rattle.boards.specs.Labels.{IsLabel, IsLabelByte, IsDate};
ghost use Rattle.boards.specs.internal.LabelBytes.{FitsDate};

use std::marker::Model;

/// The greatest length of a label, in bytes.
pub const MAX_LABEL_LEN: usize = 100;

/// The text of an event or a site, which contracts see as its bytes.
///
/// It has at most 100 printable characters of ASCII, without `"` and `\`. It may be empty.
#[derive(Clone, Copy)]
pub struct Label {
    bytes: [u8; MAX_LABEL_LEN],
    len: usize,
}

impl Model for Label {
    ghost use Rattle.std.specs.Prelude.{List, ℕ, take, length, refl};
    ghost use Rattle.boards.specs.internal.LabelBytes.{IsPadded, padded_label};

    ghost Value = { List ℕ };

    ghost view = { λ l. take l.len l.bytes };

    ghost invariant = { λ l. IsPadded l.bytes l.len };

    ghost inverse = { λ text. record { bytes = padded_label text; len = length text } };

    ghost inverse_ok = { λ l ok. Prim.rw (← ok.rest, ok.count) refl };
}

impl Label {
    /// Returns the label of this text, or `None` if and only if it has more than 100 bytes, or a
    /// byte that isn't 0x20 to 0x7E or is `"` or `\`.
    pub fn new(text: &[u8]) -> Option<Label>
        ensures sound { IsSome result ↔ IsLabel text.now }
        ensures kept { IfSome result (λ label. label ≡ text.now) }
    {
        if text.len() > MAX_LABEL_LEN {
            return None;
        }
        let mut bytes = [0; MAX_LABEL_LEN];
        for (i, byte) in text.iter().enumerate() {
            if !is_label_byte(*byte) {
                return None;
            }
            bytes[i] = *byte;
        }
        Some(Label {
            bytes,
            len: text.len(),
        })
    }

    /// Returns the label's bytes.
    pub fn as_bytes(&self) -> &[u8]
        ensures value { result.now ≡ self.now }
        ensures label { IsLabel self.now }
    {
        &self.bytes[..self.len]
    }
}

fn is_label_byte(byte: u8) -> bool
    ensures { IsTrue result ↔ IsLabelByte byte }
{
    (0x20..=0x7E).contains(&byte) && byte != b'"' && byte != b'\\'
}

/// A date as `YYYY.MM.DD`, which contracts see as its ten bytes. No calendar is consulted.
#[derive(Clone, Copy)]
pub struct Date {
    bytes: [u8; 10],
}

impl Model for Date {
    ghost use Rattle.std.specs.Prelude.{List, ℕ};
    ghost use Rattle.boards.specs.Labels.{IsDate};

    ghost Value = { List ℕ };

    ghost view = { λ d. d.bytes };

    ghost invariant = { λ d. IsDate d.bytes };

    ghost inverse = { λ text. record { bytes = text } };
}

impl Date {
    /// Returns the date of this text, or `None` if and only if the text isn't four digits, `.`, two
    /// digits, `.`, two digits.
    pub fn new(text: &[u8]) -> Option<Date>
        ensures sound { IsSome result ↔ IsDate text.now }
        ensures kept { IfSome result (λ date. date ≡ text.now) }
    {
        if text.len() != 10 {
            return None;
        }
        let mut bytes = [0; 10];
        for (i, byte) in text.iter().enumerate() {
            if !fits_date(i, *byte) {
                return None;
            }
            bytes[i] = *byte;
        }
        Some(Date { bytes })
    }

    /// Returns the date's ten bytes.
    pub fn as_bytes(&self) -> &[u8]
        ensures value { result.now ≡ self.now }
        ensures date { IsDate self.now }
        ensures ten { length result.now ≡ 10 }
    {
        self.bytes.as_slice()
    }
}

/// Whether the byte may be byte i of a date.
fn fits_date(i: usize, byte: u8) -> bool
    ensures { IsTrue result ↔ FitsDate i byte }
{
    if i == 4 || i == 7 {
        byte == b'.'
    } else {
        byte.is_ascii_digit()
    }
}

/// The labels of a game. A label that isn't given has no line.
#[derive(Clone, Copy)]
pub struct Heading {
    pub event: Option<Label>,
    pub site: Option<Label>,
    pub date: Option<Date>,
}

impl Heading {
    /// Returns the heading without any label.
    pub fn none() -> Heading
        ensures { result ≡ record { event = None; site = None; date = None } }
    {
        Heading {
            event: None,
            site: None,
            date: None,
        }
    }
}
