//! The reference: games written line by line, the way their definition reads.
//!
//! `Printer` writes the same games in a fraction of the time. Both are proved to write the text
//! that the definition gives, so this file is the one to read, and the other the one to use.

ghost use Rattle.std.specs.Prelude.{◌≡◌, ◌≤◌, ◌+◌, List, [], ◌++◌, ⊤, length, take};
ghost use Rattle.arrayvec.specs.ArrayVec.{array_vec_len};
ghost use Rattle.boards.specs.Letters.{suit_letters};
ghost use Rattle.cards.specs.declared.seat.Seat.{Seat};
ghost use Rattle.cards.specs.Deals.{IsPartition};
ghost use Rattle.cards.specs.Hands.{hand_of, length_of};
ghost use Rattle.cards.specs.declared.suit.Suit.TheVariants.{Spades, Hearts, Diamonds, Clubs};
ghost use Rattle.pbn_text.specs.Games.{game as game_of, game_text, no_heading, board_text, pbn};
ghost use Rattle.pbn_text.specs.Games.{hand_text};
ghost use Rattle.pbn_text.specs.Games.{deal_text as text_of_deal};
ghost use Rattle.pbn_text.specs.internal.Lines.{deal_line};

use crate::Heading;
use crate::lines::{HEADER, Text, put, put_heading, put_line};
use crate::words::{seat_letter, vulnerable_word};
use arrayvec::ArrayVec;
use boards::{Board, Notation, RANK_LETTERS};
use cards::{Deal, Hand, Seat, Suit};
use itoa::Buffer;
use sinks::{Sink, SinkFault, put_all};
use std::marker::Model;

/// How many bytes a hand is written into: its cards, its dots, and the letters that are written
/// over.
const HAND_BUFFER_LEN: usize = 64;

/// The text of the board's game: a line for each label of the heading, the board's number, dealer
/// and vulnerability, the deal, and an empty line. The board's number is at least 1.
///
/// It has at most 385 bytes, and at most 144 without a heading. At one board and heading no other
/// deal has this text.
pub fn game(board: u64, heading: &Heading, deal: &Deal) -> ArrayVec<u8, 400>
    requires { 1 ≤ board }
    ensures value { result.items ≡ game_of board heading.now deal.now }
    ensures most { array_vec_len result ≤ 385 }
    ensures plain { heading.now ≡ no_heading → array_vec_len result ≤ 144 }
    ensures one_deal { (other : List Seat)
        → length other ≡ 52
        → game_of board heading.now other ≡ result.items
        → other ≡ deal.now }
{
    print_game(heading, &Board::by_law(board, 0, *deal))
}

/// Returns the deal as the value of its line: `N:` and the four hands from North on, with a dot
/// between two suits and a space between two hands.
///
/// It has 69 bytes, and no other deal has this text.
pub fn deal_text(deal: &Deal) -> ArrayVec<u8, 400>
    ensures value { result.items ≡ text_of_deal deal.now }
    ensures len { array_vec_len result ≡ 69 }
    ensures one_deal { (other : List Seat)
        → length other ≡ 52
        → text_of_deal other ≡ result.items
        → other ≡ deal.now }
{
    let mut text = ArrayVec::new();
    put_deal_text(&mut text, deal);
    text
}

/// Prints games under one heading, one at a time, each line by line: what a reference run writes
/// with. Contracts see the heading and the text that was printed last.
#[derive(Drop)]
pub struct Reference {
    heading: Heading,
    text: Text,
}

impl Model for Reference {
    ghost use Rattle.pbn_text.specs.Printing.{Printing};

    ghost Value = { Printing };

    ghost view = { λ r. record { heading = r.heading; text = r.text.items } };
}

impl Reference {
    /// Returns the reference under the heading, which has printed nothing.
    pub fn new(heading: &Heading) -> Reference
        ensures heading { result.heading ≡ heading.now }
        ensures text { result.text ≡ [] }
    {
        Reference {
            heading: *heading,
            text: ArrayVec::new(),
        }
    }
}

impl Notation for Reference {
    ghost layout = { λ reference. pbn reference.heading };

    ghost printed = { λ reference. reference.text };

    ghost has_printed = { λ _ _. ⊤ };

    fn header(&self) -> &[u8] {
        &HEADER
    }

    fn print(&mut self, board: &Board) {
        self.text = print_game(&self.heading, board);
    }

    fn text(&self) -> &[u8] {
        self.text.as_slice()
    }

    fn put_footer<S: Sink>(&self, _tried: u64, sink: &mut S) -> Result<(), SinkFault> {
        put_all(sink, b"")
    }
}

/// Returns the text of the board's game.
fn print_game(heading: &Heading, board: &Board) -> Text
    ensures value { result.items ≡ game_text heading.now board.now }
    ensures max { array_vec_len result ≤ 385 }
    ensures plain { heading.now ≡ no_heading → array_vec_len result ≤ 144 }
    ensures partition { IsPartition board.now.deal }
{
    let mut text = ArrayVec::new();
    put_heading(&mut text, heading);
    put_board(&mut text, board);
    put_deal(&mut text, &board.deal);
    text
}

/// Appends the lines of the board's number, dealer and vulnerability.
fn put_board(text: &mut Text, board: &Board)
    requires { array_vec_len text.old + 64 ≤ 400 }
    ensures items { text.new.items ≡ text.old.items ++ board_text board.now }
    ensures max { array_vec_len text.new ≤ array_vec_len text.old + 64 }
{
    let mut buffer = Buffer::new();
    put_line(text, b"[Board \"", buffer.format(board.number).as_bytes());
    put_line(text, b"[Dealer \"", &seat_letter(board.dealer));
    put_line(text, b"[Vulnerable \"", vulnerable_word(board.vulnerable));
}

/// Appends the line of the deal and the empty line.
fn put_deal(text: &mut Text, deal: &Deal)
    requires { array_vec_len text.old + 80 ≤ 400 }
    ensures partition { IsPartition deal.now }
    ensures items { text.new.items ≡ text.old.items ++ deal_line deal.now }
    ensures len { array_vec_len text.new ≡ array_vec_len text.old + 80 }
{
    put(text, b"[Deal \"");
    put_deal_text(text, deal);
    put(text, b"\"]\n\n");
}

/// Appends the value of the deal's line.
fn put_deal_text(text: &mut Text, deal: &Deal)
    requires { array_vec_len text.old + 69 ≤ 400 }
    ensures partition { IsPartition deal.now }
    ensures items { text.new.items ≡ text.old.items ++ text_of_deal deal.now }
    ensures len { array_vec_len text.new ≡ array_vec_len text.old + 69 }
{
    put(text, b"N:");
    put_hand(text, deal, Seat::North);
    put(text, b" ");
    put_hand(text, deal, Seat::East);
    put(text, b" ");
    put_hand(text, deal, Seat::South);
    put(text, b" ");
    put_hand(text, deal, Seat::West);
}

/// Appends the seat's thirteen cards and the three dots between its suits.
fn put_hand(text: &mut Text, deal: &Deal, seat: Seat)
    requires { array_vec_len text.old + 16 ≤ 400 }
    ensures partition { IsPartition deal.now }
    ensures items { text.new.items ≡ text.old.items ++ hand_text (hand_of deal.now seat) }
    ensures len { array_vec_len text.new ≡ array_vec_len text.old + 16 }
{
    let mut buffer = [0; HAND_BUFFER_LEN];
    // The end is always 16, and a copy of a known length is quicker.
    let _end = write_hand(&mut buffer, &deal.hand(seat));
    put(text, &buffer[..16]);
}

/// Writes the hand's cards and the three dots to the start of the buffer. Returns where they end.
fn write_hand(buffer: &mut [u8; HAND_BUFFER_LEN], hand: &Hand) -> usize
    ensures written { take result buffer.new ≡ hand_text hand.now }
    ensures len { result
        ≡ length_of hand.now Spades + length_of hand.now Hearts + length_of hand.now Diamonds
        + length_of hand.now Clubs + 3 }
    ensures buffer_len { length buffer.new ≡ 64 }
{
    let mut end = write_suit(buffer, 0, hand, Suit::Spades);
    buffer[end] = b'.';
    end = write_suit(buffer, end + 1, hand, Suit::Hearts);
    buffer[end] = b'.';
    end = write_suit(buffer, end + 1, hand, Suit::Diamonds);
    buffer[end] = b'.';
    write_suit(buffer, end + 1, hand, Suit::Clubs)
}

/// Writes the letters of the hand's ranks in the suit from this index on. Returns where they end.
///
/// Each letter is written, and the next one over it if the hand hasn't the rank: that is quicker
/// than a branch for each.
fn write_suit(buffer: &mut [u8; HAND_BUFFER_LEN], start: usize, hand: &Hand, suit: Suit) -> usize
    requires { start ≤ 42 }
    ensures written { take result buffer.new ≡ take start buffer.old ++ suit_letters hand.now suit }
    ensures len { result ≡ start + length_of hand.now suit }
    ensures max { result ≤ start + 13 }
{
    let ranks = hand.ranks(suit);
    let mut end = start;
    for rank in 0..ranks.len() {
        buffer[end] = RANK_LETTERS[rank];
        end += usize::from(ranks[rank]);
    }
    end
}
