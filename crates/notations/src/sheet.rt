//! A club's sheet of hand records: a page of HTML on which eighteen boards have room on a sheet of
//! paper. Its header, its footer and what is known of the tricks are those of the page.

ghost use Rattle.std.specs.Prelude.{◌≡◌, ◌≤◌, ◌+◌, ◌++◌, [], length};
ghost use Rattle.std.specs.Option.{option_copied};
ghost use Rattle.boards.specs.declared.buffer.TheConstants.{CAPACITY};
ghost use Rattle.notations.specs.Sheets.{all_points, hand_text, hands_text, middle_text, number_text};
ghost use Rattle.notations.specs.Sheets.{points_text, section_text};
ghost use Rattle.boards.specs.Show.{counted_in, hand_in};
ghost use Rattle.notations.specs.Tricks.{or_nothing};

mod style;

use crate::names::seat_name;
use crate::page::{put_facts, put_suits, put_tricks};
use boards::{Board, Show, SuitLetters, TextBuffer, Tricks};
use cards::{Hand, Seat};
use pbn_text::vulnerable_word;
pub(crate) use style::put_sheet_style;

/// Writes the board's section into the empty buffer.
#[tactic(auto, unfolding(crate::specs::Sheets::section_text))]
pub(crate) fn put_section(
    text: &mut TextBuffer,
    letters: &SuitLetters,
    show: Show,
    tricks: Option<&Tricks>,
    board: &Board,
)
    requires { text.old ≡ [] }
    ensures { text.new ≡ section_text show (or_nothing (option_copied tricks.entry)) board.now }
{
    text.put(b"<section class=\"board\">\n");
    put_number(text, board.number);
    put_facts(text, board.dealer, board.vulnerable);
    put_hands(text, letters, show, board);
    put_middle(text, show, board);
    put_tricks(text, tricks);
    text.put(b"</section>\n");
}

/// Appends the board's number.
#[tactic(auto, unfolding(crate::specs::Sheets::number_text))]
fn put_number(text: &mut TextBuffer, number: u64)
    requires { length text.old + 40 ≤ CAPACITY }
    ensures text { text.new ≡ text.old ++ number_text number }
    ensures most { length text.new ≤ length text.old + 40 }
{
    text.put(b"<h2>");
    text.put_number(number);
    text.put(b"</h2>\n");
}

/// Appends the hands that are shown.
fn put_hands(text: &mut TextBuffer, letters: &SuitLetters, show: Show, board: &Board)
    requires { length text.old + 700 ≤ CAPACITY }
    ensures text { text.new ≡ text.old ++ hands_text (hand_in show board.now) }
    ensures most { length text.new ≤ length text.old + 600 }
{
    put_hand(text, letters, Seat::North, &show.hand(board, Seat::North));
    put_hand(text, letters, Seat::East, &show.hand(board, Seat::East));
    put_hand(text, letters, Seat::South, &show.hand(board, Seat::South));
    put_hand(text, letters, Seat::West, &show.hand(board, Seat::West));
}

/// Appends the suits of the hand in the seat, if it is shown.
#[tactic(auto, unfolding(crate::specs::Sheets::hand_text))]
fn put_hand(text: &mut TextBuffer, letters: &SuitLetters, seat: Seat, hand: &Option<Hand>)
    requires { length text.old + 170 ≤ CAPACITY }
    ensures text { text.new ≡ text.old ++ hand_text seat hand.now }
    ensures most { length text.new ≤ length text.old + 140 }
{
    if let Some(hand) = hand {
        text.put(b"<div class=\"");
        text.put(seat_name(seat));
        text.put(b"\">");
        put_suits(text, letters, hand);
        text.put(b"</div>\n");
    }
}

/// Appends the points that are written, in their seats around the table.
#[tactic(auto, unfolding(crate::specs::Sheets::middle_text))]
fn put_middle(text: &mut TextBuffer, show: Show, board: &Board)
    requires { length text.old + 330 ≤ CAPACITY }
    ensures text { text.new
        ≡ text.old ++ middle_text board.now.vulnerable (counted_in show board.now) }
    ensures most { length text.new ≤ length text.old + 330 }
{
    text.put(b"<div class=\"middle ");
    text.put(vulnerable_word(board.vulnerable));
    text.put(b"\">");
    put_all_points(text, show, board);
    text.put(b"</div>\n");
}

/// Appends the points that are written.
fn put_all_points(text: &mut TextBuffer, show: Show, board: &Board)
    requires { length text.old + 280 ≤ CAPACITY }
    ensures text { text.new ≡ text.old ++ all_points (counted_in show board.now) }
    ensures most { length text.new ≤ length text.old + 240 }
{
    put_points(text, Seat::North, &show.counted(board, Seat::North));
    put_points(text, Seat::East, &show.counted(board, Seat::East));
    put_points(text, Seat::South, &show.counted(board, Seat::South));
    put_points(text, Seat::West, &show.counted(board, Seat::West));
}

/// Appends the points of the hand in the seat, if they are written.
#[tactic(auto, unfolding(crate::specs::Sheets::points_text))]
fn put_points(text: &mut TextBuffer, seat: Seat, hand: &Option<Hand>)
    requires { length text.old + 70 ≤ CAPACITY }
    ensures text { text.new ≡ text.old ++ points_text seat hand.now }
    ensures most { length text.new ≤ length text.old + 60 }
{
    if let Some(hand) = hand {
        text.put(b"<span class=\"");
        text.put(seat_name(seat));
        text.put(b"\">");
        text.put_number(u64::from(hand.points()));
        text.put(b"</span>");
    }
}
