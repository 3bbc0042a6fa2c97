//! Deals as PBN and JSON write them, with the hands that are shown.

ghost use Rattle.std.specs.Prelude.{◌≡◌, ◌≤◌, ◌+◌, ◌++◌, length};
ghost use Rattle.boards.specs.declared.buffer.TheConstants.{CAPACITY};
ghost use Rattle.notations.specs.Dotted.{deal_value, dotted, hand_value};
ghost use Rattle.boards.specs.Show.{hand_in};
ghost use Rattle.pbn_text.specs.Games.{dealer_text, hand_text};

use boards::{Board, Show, SuitLetters, TextBuffer};
use cards::{Hand, Seat, Suit};

/// Appends the deal as PBN has it: North's hand, East's, South's and West's.
pub(crate) fn put_deal(text: &mut TextBuffer, letters: &SuitLetters, show: Show, board: &Board)
    requires { length text.old + 300 ≤ CAPACITY }
    ensures text { text.new ≡ text.old ++ deal_value (hand_in show board.now) }
    ensures most { length text.new ≤ length text.old + 225 }
{
    text.put(b"N:");
    put_hand(text, letters, &show.hand(board, Seat::North));
    text.put(b" ");
    put_hand(text, letters, &show.hand(board, Seat::East));
    text.put(b" ");
    put_hand(text, letters, &show.hand(board, Seat::South));
    text.put(b" ");
    put_hand(text, letters, &show.hand(board, Seat::West));
}

/// Appends the hand, or a dash if it isn't shown.
pub(crate) fn put_hand(text: &mut TextBuffer, letters: &SuitLetters, hand: &Option<Hand>)
    requires { length text.old + 60 ≤ CAPACITY }
    ensures text { text.new ≡ text.old ++ hand_value hand.now }
    ensures most { length text.new ≤ length text.old + 55 }
{
    match hand {
        Some(hand) => put_cards(text, letters, hand),
        None => text.put(b"-"),
    }
}

/// Appends the ranks of the hand's suits, separated by dots.
#[inline(always)]
fn put_cards(text: &mut TextBuffer, letters: &SuitLetters, hand: &Hand)
    requires { length text.old + 60 ≤ CAPACITY }
    ensures text { text.new ≡ text.old ++ hand_text hand.now }
    ensures most { length text.new ≤ length text.old + 55 }
{
    put_dotted(text, letters, hand, Suit::Spades);
    put_dotted(text, letters, hand, Suit::Hearts);
    put_dotted(text, letters, hand, Suit::Diamonds);
    letters.put(text, hand, Suit::Clubs);
}

/// Appends the ranks of the suit, and a dot.
#[inline(always)]
fn put_dotted(text: &mut TextBuffer, letters: &SuitLetters, hand: &Hand, suit: Suit)
    requires { length text.old + 16 ≤ CAPACITY }
    ensures text { text.new ≡ text.old ++ dotted hand.now suit }
    ensures most { length text.new ≤ length text.old + 14 }
{
    let entry = letters.with_dot(hand, suit);
    text.put_first(&entry, usize::from(entry[15]) + 1);
}
