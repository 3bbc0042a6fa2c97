//! LIN, the notation of Bridge Base Online: a line a board.
//!
//! A text has no header and no footer. Labels are not written.

ghost use Rattle.std.specs.Prelude.{◌≡◌, ◌≤◌, ◌+◌, ◌++◌, [], length};
ghost use Rattle.boards.specs.declared.buffer.TheConstants.{CAPACITY};
ghost use Rattle.notations.specs.Lin.{deal_text, dealer_digit, hand_text, lin_line};
ghost use Rattle.notations.specs.Lin.{shown_text, vulnerable_letter};
ghost use Rattle.boards.specs.Show.{hand_in};

use boards::{Board, Show, SuitLetters, TextBuffer, Vul};
use cards::{Hand, Seat, Suit};

/// Writes the board's line into the empty buffer.
#[tactic(auto, unfolding(crate::specs::Lin::lin_line))]
pub(crate) fn put_line(line: &mut TextBuffer, letters: &SuitLetters, show: Show, board: &Board)
    requires { line.old ≡ [] }
    ensures { line.new ≡ lin_line show board.now }
{
    let number = board.number;
    line.put(b"qx|o");
    line.put_number(number);
    line.put(b"|md|");
    line.put(&dealer_digit(board.dealer));
    put_deal(line, letters, show, board);
    line.put(b"|sv|");
    line.put(&vulnerable_letter(board.vulnerable));
    line.put(b"|ah|Board ");
    line.put_number(number);
    line.put(b"|pg||\n");
}

/// Appends the hands of South, West, North and East.
fn put_deal(line: &mut TextBuffer, letters: &SuitLetters, show: Show, board: &Board)
    requires { length line.old + 300 ≤ CAPACITY }
    ensures text { line.new ≡ line.old ++ deal_text (hand_in show board.now) }
    ensures most { length line.new ≤ length line.old + 227 }
{
    put_shown(line, letters, &show.hand(board, Seat::South));
    line.put(b",");
    put_shown(line, letters, &show.hand(board, Seat::West));
    line.put(b",");
    put_shown(line, letters, &show.hand(board, Seat::North));
    line.put(b",");
    put_shown(line, letters, &show.hand(board, Seat::East));
}

/// Appends the hand, or nothing if it isn't shown.
fn put_shown(line: &mut TextBuffer, letters: &SuitLetters, hand: &Option<Hand>)
    requires { length line.old + 60 ≤ CAPACITY }
    ensures text { line.new ≡ line.old ++ shown_text hand.now }
    ensures most { length line.new ≤ length line.old + 56 }
{
    if let Some(hand) = hand {
        put_hand(line, letters, hand);
    }
}

/// Appends the hand: of each suit its letter and its ranks.
#[inline(always)]
fn put_hand(line: &mut TextBuffer, letters: &SuitLetters, hand: &Hand)
    requires { length line.old + 60 ≤ CAPACITY }
    ensures text { line.new ≡ line.old ++ hand_text hand.now }
    ensures most { length line.new ≤ length line.old + 56 }
{
    line.put(b"S");
    letters.put(line, hand, Suit::Spades);
    line.put(b"H");
    letters.put(line, hand, Suit::Hearts);
    line.put(b"D");
    letters.put(line, hand, Suit::Diamonds);
    line.put(b"C");
    letters.put(line, hand, Suit::Clubs);
}

/// The dealer as a digit, clockwise from South.
fn dealer_digit(dealer: Seat) -> [u8; 1]
    ensures { result ≡ dealer_digit dealer }
{
    match dealer {
        Seat::South => *b"1",
        Seat::West => *b"2",
        Seat::North => *b"3",
        Seat::East => *b"4",
    }
}

/// The vulnerability as a letter.
fn vulnerable_letter(sides: Vul) -> [u8; 1]
    ensures { result ≡ vulnerable_letter sides }
{
    match sides {
        Vul::Neither => *b"o",
        Vul::NorthSouth => *b"n",
        Vul::EastWest => *b"e",
        Vul::Both => *b"b",
    }
}
