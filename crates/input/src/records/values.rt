//! What the values of tags say.

ghost use Rattle.std.specs.Prelude.{◌≡◌, ◌≤◌, ◌^◌};
ghost use Rattle.input.specs.Values.{date_in, dealer_in, is_no_label, is_unknown, is_word};
ghost use Rattle.input.specs.Values.{is_unescaped, label_in, number_in, short_in, vulnerable_in};

use arrayvec::ArrayVec;
use boards::{Caption, Date, Vul};
use cards::{MAX_CANDIDATES, Seat};
use std::marker::Model;

/// The greatest number of a board.
const MOST_NUMBER: u64 = MAX_CANDIDATES;

/// The number of a board that is written in decimal, or 0 if it isn't one.
pub(crate) fn number_in(value: &[u8]) -> u64
    ensures value { result ≡ number_in value.now }
    ensures range { result ≤ 2 ^ 40 }
{
    let mut number = 0u64;
    for byte in value {
        if !byte.is_ascii_digit() {
            return 0;
        }
        number = number * 10 + u64::from(*byte - b'0');
        if number > MOST_NUMBER {
            return 0;
        }
    }
    number
}

/// Whether the value stands for no label.
fn is_no_label(value: &[u8]) -> bool
    ensures { result ≡ is_no_label value.now }
{
    value == b"?".as_slice() || value == b"#".as_slice()
}

/// Whether no backslash is before a sign of the value.
fn is_unescaped(value: &[u8]) -> bool
    ensures { result ≡ is_unescaped value.now }
{
    value.iter().all(|byte| *byte != b'\\')
}

/// The event or the site that a value tells, if it tells one.
pub(crate) fn label_in(value: &[u8]) -> Option<Caption>
    ensures { result ≡ label_in value.now }
{
    if is_no_label(value) {
        None
    } else if is_unescaped(value) {
        Caption::new(value)
    } else {
        None
    }
}

/// The date that a value tells, if it tells one.
pub(crate) fn date_in(value: &[u8]) -> Option<Date>
    ensures { result ≡ date_in value.now }
{
    Date::new(value)
}

/// Whether the value says that nothing is known.
pub(crate) fn is_unknown(value: &[u8]) -> bool
    ensures { result ≡ is_unknown value.now }
{
    value == b"?".as_slice()
}

/// The dealer of a value.
#[tactic(auto, unfolding(crate::specs::Values::dealer_in))]
pub(crate) fn dealer_in(value: &[u8]) -> Option<Seat>
    ensures { result ≡ dealer_in value.now }
{
    match value {
        b"N" => Some(Seat::North),
        b"E" => Some(Seat::East),
        b"S" => Some(Seat::South),
        b"W" => Some(Seat::West),
        _ => None,
    }
}

/// Whether the value is this word, in capitals or small letters.
fn is_word(value: &[u8], word: &[u8]) -> bool
    ensures { result ≡ is_word word.now value.now }
{
    value.eq_ignore_ascii_case(word)
}

/// The vulnerability of a value.
#[tactic(auto, unfolding(crate::specs::Values::vulnerable_in))]
pub(crate) fn vulnerable_in(value: &[u8]) -> Option<Vul>
    ensures { result ≡ vulnerable_in value.now }
{
    if is_word(value, b"none") || is_word(value, b"-") || is_word(value, b"love") {
        Some(Vul::Neither)
    } else if is_word(value, b"ns") {
        Some(Vul::NorthSouth)
    } else if is_word(value, b"ew") {
        Some(Vul::EastWest)
    } else if is_word(value, b"all") || is_word(value, b"both") {
        Some(Vul::Both)
    } else {
        None
    }
}

/// The most bytes of a value that tells of tricks.
const SHORT: usize = 24;

/// A short value, which contracts see as its bytes.
#[derive(Drop)]
pub struct Short {
    bytes: ArrayVec<u8, SHORT>,
}

impl Model for Short {
    ghost use Rattle.std.specs.Prelude.{List, ℕ};

    ghost Value = { List ℕ };

    ghost view = { λ s. s.bytes.items };
}

impl Short {
    /// Its bytes.
    pub(crate) fn as_bytes(&self) -> &[u8]
        ensures { result.now ≡ self.now }
    {
        self.bytes.as_slice()
    }
}

/// The value, or nothing if it is too long to tell of tricks.
#[tactic(auto, unfolding(crate::specs::Values::short_in))]
pub(crate) fn short_in(value: &[u8]) -> Short
    ensures { result ≡ short_in value.now }
{
    let mut bytes = ArrayVec::new();
    if value.len() <= SHORT {
        let _fits = bytes.try_extend_from_slice(value);
    }
    Short { bytes }
}
