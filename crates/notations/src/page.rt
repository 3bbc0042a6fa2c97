//! One page of HTML, to look at and to print: each board's four hands around the table, with its
//! number, dealer, vulnerability and points.
//!
//! A page needs nothing else: its style is in its header, and it has no script and loads nothing.
//! It is UTF-8, for the signs of the suits. Labels are its title and its heading.

ghost use Rattle.std.specs.Prelude.{◌≡◌, ◌≤◌, ◌+◌, ◌++◌, [], length};
ghost use Rattle.std.specs.Option.{option_copied};
ghost use Rattle.boards.specs.declared.buffer.TheConstants.{CAPACITY};
ghost use Rattle.notations.specs.Pages.{board_text, count_text, facts_text, hand_text, hands_text};
ghost use Rattle.notations.specs.Pages.{number_text, seat_text};
ghost use Rattle.boards.specs.Show.{counted_in, hand_in};
ghost use Rattle.notations.specs.Tricks.{or_nothing};

mod header;
mod par;
mod parts;
mod style;
mod table;

use crate::names::seat_name;
use boards::{Board, Show, SuitLetters, TextBuffer, Tricks, Vul};
use cards::{Hand, Seat};
pub(crate) use header::{PageLook, put_header};
pub(crate) use parts::put_suits;
use pbn_text::vulnerable_word;
pub(crate) use style::{
    number_style, page_style, put_title_style, sign_style, table_style, vulnerable_style,
};
pub(crate) use table::put_tricks;

/// Writes the board's section into the empty buffer.
#[tactic(auto, unfolding(crate::specs::Pages::board_text))]
pub(crate) fn put_board(
    text: &mut TextBuffer,
    letters: &SuitLetters,
    show: Show,
    tricks: Option<&Tricks>,
    board: &Board,
)
    requires { text.old ≡ [] }
    ensures { text.new ≡ board_text show (or_nothing (option_copied tricks.entry)) board.now }
{
    text.put(b"<section class=\"board\">\n");
    put_number(text, board.vulnerable, board.number);
    put_facts(text, board.dealer, board.vulnerable);
    put_hands(text, letters, show, board);
    put_tricks(text, tricks);
    text.put(b"</section>\n");
}

/// Appends the hands that are shown.
fn put_hands(text: &mut TextBuffer, letters: &SuitLetters, show: Show, board: &Board)
    requires { length text.old + 900 ≤ CAPACITY }
    ensures text { text.new
        ≡ text.old ++ hands_text (hand_in show board.now) (counted_in show board.now) }
    ensures most { length text.new ≤ length text.old + 760 }
{
    put_hand(text, letters, show, board, Seat::North);
    put_hand(text, letters, show, board, Seat::East);
    put_hand(text, letters, show, board, Seat::South);
    put_hand(text, letters, show, board, Seat::West);
}

/// Appends the board's number, with the vulnerability as its style.
#[tactic(auto, unfolding(crate::specs::Pages::number_text))]
fn put_number(text: &mut TextBuffer, vulnerable: Vul, number: u64)
    requires { length text.old + 60 ≤ CAPACITY }
    ensures text { text.new ≡ text.old ++ number_text vulnerable number }
    ensures most { length text.new ≤ length text.old + 52 }
{
    text.put(b"<h2 class=\"");
    text.put(vulnerable_word(vulnerable));
    text.put(b"\">Board ");
    text.put_number(number);
    text.put(b"</h2>\n");
}

/// Appends who deals, and which sides are vulnerable.
#[tactic(auto, unfolding(crate::specs::Pages::facts_text))]
pub(crate) fn put_facts(text: &mut TextBuffer, dealer: Seat, vulnerable: Vul)
    requires { length text.old + 60 ≤ CAPACITY }
    ensures text { text.new ≡ text.old ++ facts_text dealer vulnerable }
    ensures most { length text.new ≤ length text.old + 34 }
{
    text.put(b"<p>Dealer ");
    text.put(seat_name(dealer));
    text.put(b"<br>Vul ");
    text.put(vulnerable_word(vulnerable));
    text.put(b"</p>\n");
}

/// Appends the hand in the seat, if it is shown: the seat, its points if they are written, and the
/// suits.
#[inline(always)]
#[tactic(auto, unfolding(crate::specs::Pages::hand_text))]
fn put_hand(text: &mut TextBuffer, letters: &SuitLetters, show: Show, board: &Board, seat: Seat)
    requires { length text.old + 210 ≤ CAPACITY }
    ensures text { text.new ≡ text.old
        ++ hand_text seat (hand_in show board.now seat) (counted_in show board.now seat) }
    ensures most { length text.new ≤ length text.old + 190 }
{
    if let Some(hand) = show.hand(board, seat) {
        put_seat(text, seat);
        put_count(text, &show.counted(board, seat));
        text.put(b"</h3>");
        put_suits(text, letters, &hand);
        text.put(b"</div>\n");
    }
}

/// Appends the seat of a hand.
#[inline(always)]
#[tactic(auto, unfolding(crate::specs::Pages::seat_text))]
fn put_seat(text: &mut TextBuffer, seat: Seat)
    requires { length text.old + 60 ≤ CAPACITY }
    ensures text { text.new ≡ text.old ++ seat_text seat }
    ensures most { length text.new ≤ length text.old + 28 }
{
    let name = seat_name(seat);
    text.put(b"<div class=\"");
    text.put(name);
    text.put(b"\"><h3>");
    text.put(name);
}

/// Appends the points of a hand, if they are written.
#[tactic(auto, unfolding(crate::specs::Pages::count_text))]
fn put_count(text: &mut TextBuffer, counted: &Option<Hand>)
    requires { length text.old + 50 ≤ CAPACITY }
    ensures text { text.new ≡ text.old ++ count_text counted.now }
    ensures most { length text.new ≤ length text.old + 41 }
{
    if let Some(hand) = counted {
        text.put(b" <small>");
        text.put_number(u64::from(hand.points()));
        text.put(b" HCP</small>");
    }
}
