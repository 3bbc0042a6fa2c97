//! Curtain cards: a page of HTML with a slip to be cut out for each hand. Its header and its footer
//! are those of the page.

ghost use Rattle.std.specs.Prelude.{◌≡◌, ◌≤◌, ◌+◌, ◌++◌, [], length};
ghost use Rattle.boards.specs.declared.buffer.TheConstants.{CAPACITY};
ghost use Rattle.boards.specs.Show.{hand_in};
ghost use Rattle.notations.specs.Slips.{held_text, place_text, slip_text, slips_text};

mod style;

use crate::names::seat_name;
use crate::page::{put_facts, put_suits};
use boards::{Board, Show, SuitLetters, TextBuffer};
use cards::{Hand, Seat};
pub(crate) use style::put_slip_style;

/// Writes the board's slips into the empty buffer.
#[tactic(auto, unfolding(crate::specs::Slips::slips_text))]
pub(crate) fn put_slips(text: &mut TextBuffer, letters: &SuitLetters, show: Show, board: &Board)
    requires { text.old ≡ [] }
    ensures { text.new ≡ slips_text show board.now }
{
    put_slip(text, letters, show, board, Seat::North);
    put_slip(text, letters, show, board, Seat::East);
    put_slip(text, letters, show, board, Seat::South);
    put_slip(text, letters, show, board, Seat::West);
}

/// Appends the slip of the hand in the seat, if it is shown.
#[tactic(auto, unfolding(crate::specs::Slips::slip_text))]
fn put_slip(text: &mut TextBuffer, letters: &SuitLetters, show: Show, board: &Board, seat: Seat)
    requires { length text.old + 330 ≤ CAPACITY }
    ensures text { text.new ≡ text.old ++ slip_text board.now seat (hand_in show board.now seat) }
    ensures most { length text.new ≤ length text.old + 270 }
{
    if let Some(hand) = show.hand(board, seat) {
        put_place(text, board.number, seat);
        put_facts(text, board.dealer, board.vulnerable);
        put_held(text, letters, &hand);
    }
}

/// Appends the board's number and the seat.
#[tactic(auto, unfolding(crate::specs::Slips::place_text))]
fn put_place(text: &mut TextBuffer, number: u64, seat: Seat)
    requires { length text.old + 70 ≤ CAPACITY }
    ensures text { text.new ≡ text.old ++ place_text number seat }
    ensures most { length text.new ≤ length text.old + 70 }
{
    text.put(b"<section class=\"slip\">\n<h2>");
    text.put_number(number);
    text.put(b" ");
    text.put(seat_name(seat));
    text.put(b"</h2>\n");
}

/// Appends the hand.
#[tactic(auto, unfolding(crate::specs::Slips::held_text))]
fn put_held(text: &mut TextBuffer, letters: &SuitLetters, hand: &Hand)
    requires { length text.old + 150 ≤ CAPACITY }
    ensures text { text.new ≡ text.old ++ held_text hand.now }
    ensures most { length text.new ≤ length text.old + 130 }
{
    text.put(b"<div>");
    put_suits(text, letters, hand);
    text.put(b"</div>\n</section>\n");
}
