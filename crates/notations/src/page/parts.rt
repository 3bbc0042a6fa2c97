//! The suits of a hand.

ghost use Rattle.std.specs.Prelude.{◌≡◌, ◌≤◌, ◌+◌, ◌++◌, length};
ghost use Rattle.boards.specs.declared.buffer.TheConstants.{CAPACITY};
ghost use Rattle.notations.specs.Pages.{sign, suit_text, suits_text};

use boards::{SuitLetters, TextBuffer};
use cards::{Hand, Suit};

/// Appends the four suits of the hand, each on a line of its own.
#[inline(always)]
pub(crate) fn put_suits(text: &mut TextBuffer, letters: &SuitLetters, hand: &Hand)
    requires { length text.old + 120 ≤ CAPACITY }
    ensures text { text.new ≡ text.old ++ suits_text hand.now }
    ensures most { length text.new ≤ length text.old + 104 }
{
    put_suit(text, letters, hand, Suit::Spades);
    text.put(b"<br>");
    put_suit(text, letters, hand, Suit::Hearts);
    text.put(b"<br>");
    put_suit(text, letters, hand, Suit::Diamonds);
    text.put(b"<br>");
    put_suit(text, letters, hand, Suit::Clubs);
}

/// Appends the suit of the hand: its sign, and its ranks or a dash.
#[inline(always)]
fn put_suit(text: &mut TextBuffer, letters: &SuitLetters, hand: &Hand, suit: Suit)
    requires { length text.old + 26 ≤ CAPACITY }
    ensures text { text.new ≡ text.old ++ suit_text hand.now suit }
    ensures most { length text.new ≤ length text.old + 23 }
{
    text.put(&sign(suit));
    letters.put_or_dash(text, hand, suit, b"\xE2\x80\x93");
}

/// The sign of the suit.
#[inline(always)]
fn sign(suit: Suit) -> [u8; 10]
    ensures { result ≡ sign suit }
{
    match suit {
        Suit::Spades => *b"<i>\xE2\x99\xA0</i>",
        Suit::Hearts => *b"<b>\xE2\x99\xA5</b>",
        Suit::Diamonds => *b"<b>\xE2\x99\xA6</b>",
        Suit::Clubs => *b"<i>\xE2\x99\xA3</i>",
    }
}
