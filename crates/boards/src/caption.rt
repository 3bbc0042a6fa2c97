//! A text that people read above boards: an event or a site.

ghost use Rattle.std.specs.Prelude.{◌≡◌, ◌≤◌, length, true};
ghost use Rattle.std.specs.List.{list_all};
ghost use Rattle.std.specs.Str.{chars};
ghost use Rattle.boards.specs.Captions.{caption_of, is_caption, is_control, is_printable};
ghost use Rattle.boards.specs.Room.{room};

use crate::Label;
use std::marker::Model;

/// The greatest number of a caption's characters.
pub const MAX_CAPTION_CHARS: usize = 100;

/// How many bytes these have at most.
const MAX_CAPTION_BYTES: usize = 400;

/// The text of an event or a site, which contracts see as its bytes.
///
/// It is well-formed UTF-8 of at most 100 characters, none of which is a control character or sets
/// the direction of what follows. It may be empty.
#[derive(Clone, Copy)]
pub struct Caption {
    bytes: [u8; MAX_CAPTION_BYTES],
    len: usize,
}

impl Model for Caption {
    ghost use Rattle.std.specs.Prelude.{List, ℕ, length, refl, take};
    ghost use Rattle.boards.specs.internal.Kept.{IsPadded, padded};

    ghost Value = { List ℕ };

    ghost view = { λ c. take c.len c.bytes };

    ghost invariant = { λ c. IsPadded c.bytes c.len };

    ghost inverse = { λ text. record { bytes = padded text; len = length text } };

    ghost inverse_ok = { λ c ok. Prim.rw (← ok.rest, ok.count) refl };
}

impl Caption {
    /// Returns the caption of this text, or `None` if and only if it isn't well-formed UTF-8, has
    /// more than 100 characters, or has one of U+0000 to U+001F, U+007F to U+009F, U+2028 to U+202E
    /// and U+2066 to U+2069.
    pub fn new(text: &[u8]) -> Option<Caption>
        ensures { result ≡ caption_of text.now }
    {
        if is_caption(text) {
            Some(kept(text))
        } else {
            None
        }
    }

    /// Returns the caption of a label's text, as every label has one.
    #[tactic(auto, using(crate::proofs::OfLabels::label_is_caption))]
    pub fn of_label(label: &Label) -> Caption
        ensures { result ≡ label.now }
    {
        kept(label.as_bytes())
    }

    /// Returns the caption's bytes.
    #[tactic(auto, using(crate::proofs::Rooms::sizes))]
    pub fn as_bytes(&self) -> &[u8]
        ensures value { result.now ≡ self.now }
        ensures caption { is_caption self.now ≡ true }
        ensures most { length self.now ≤ 400 }
        ensures wide { room 5 self.now ≤ 500 }
        ensures narrow { room 4 self.now ≤ 400 }
    {
        &self.bytes[..self.len]
    }
}

/// The caption of a text that is one.
#[tactic(auto, using(crate::proofs::Rooms::length_of_caption))]
fn kept(text: &[u8]) -> Caption
    requires { is_caption text.now ≡ true }
    ensures { result ≡ text.now }
{
    let mut bytes = [0; MAX_CAPTION_BYTES];
    for (i, byte) in text.iter().enumerate() {
        bytes[i] = *byte;
    }
    Caption {
        bytes,
        len: text.len(),
    }
}

/// Whether the text is a caption.
#[tactic(auto, using(crate::proofs::Tested::no_utf8))]
fn is_caption(text: &[u8]) -> bool
    ensures { result ≡ is_caption text.now }
{
    match str::from_utf8(text) {
        Ok(letters) => count(letters) <= MAX_CAPTION_CHARS && are_printable(letters),
        Err(_) => false,
    }
}

/// How many characters the text has.
fn count(text: &str) -> usize
    ensures { result ≡ length (chars text.now) }
{
    text.chars().count()
}

/// Whether a caption may have all characters of the text.
fn are_printable(text: &str) -> bool
    ensures { result ≡ list_all is_printable (chars text.now) }
{
    for letter in text.chars() {
        if is_control(letter) {
            return false;
        }
    }
    true
}

/// Whether the character has no place in a line of text.
fn is_control(letter: char) -> bool
    ensures { result ≡ is_control letter }
{
    matches!(
        letter,
        '\0'..='\u{1F}' | '\u{7F}'..='\u{9F}' | '\u{2028}'..='\u{202E}' | '\u{2066}'..='\u{2069}'
    )
}
