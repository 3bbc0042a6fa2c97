//! The printer that a run uses: games under one heading, each in a fraction of the reference's
//! time. Each game is written over the last one, in one buffer.
//!
//! ```text
//! index   prefix.start      prefix.number_start  272
//!         |                 |                    |
//!         [Event ..[Board "  1 2 3                "]..[Dealer ..  the hands  the end
//! ```
//!
//! A board's number always ends at the same index. The heading's lines end where the number starts,
//! and the rest of the game follows it. So from one board to the next only the last digits, the
//! dealer, the vulnerability and the hands are written.

ghost use Rattle.std.specs.Prelude.{◌≡◌, [], ⊤, IfOk, ◌+◌, ◌≤◌, ◌++◌, length, drop, take, codes};
ghost use Rattle.std.specs.Prelude.{decimal};
ghost use Rattle.boards.specs.Letters.{suit_letters};
ghost use Rattle.pbn_text.specs.Games.{game_text, pbn, hand_text};
ghost use Rattle.cards.specs.Hands.{hand_of, length_of};
ghost use Rattle.cards.specs.declared.suit.Suit.TheVariants.{Spades, Hearts, Diamonds, Clubs};
ghost use Rattle.pbn_text.specs.internal.Lines.{hands_text};
ghost use Rattle.pbn_text.specs.internal.Buffers.{IsPrefix, number_end};

use crate::lines::{put, put_board_lines, put_heading};
use crate::{HEADER, Heading};
use arrayvec::ArrayVec;
use boards::{Board, Notation, SuitLetters};
use cards::{Deal, Hand, Seat, Suit};
use itoa::write_digits;
use sinks::{Sink, SinkFault, put_all};
use std::alloc::{AllocError, Global};
use std::marker::Model;

/// Prints games under one heading, one at a time. Contracts see the heading and the text that was
/// printed last.
///
/// It is made for many games: to create one costs as much as to print some thousand games. It takes
/// 128 KiB of memory once, when it is created, and none to print.
pub struct Printer {
    heading: Heading,
    letters: SuitLetters,
    buffer: LineBuffer,
    prefix: Prefix,
    end: usize,
}

impl Model for Printer {
    ghost use Rattle.std.specs.Prelude.{drop, take};
    ghost use Rattle.pbn_text.specs.Printing.{Printing};
    ghost use Rattle.pbn_text.specs.internal.Buffers.{IsPrinted};

    ghost Value = { Printing };

    ghost view = { λ p. record {
      heading = p.heading;
      text = drop p.prefix.start (take p.end p.buffer);
    } };

    ghost invariant = { λ p.
        IsPrinted p.buffer p.heading p.prefix.start p.prefix.number_start p.prefix.number p.end };
}

// By hand, so that to drop one is a call (docs/DECISIONS.md).
impl Drop for Printer {
    fn drop(self) {
        let Printer {
            heading: _,
            letters: _,
            buffer: _,
            prefix: _,
            end: _,
        } = self;
    }
}

impl Printer {
    /// Returns a printer of games under the heading, which has printed nothing.
    ///
    /// # Errors
    /// `AllocError` if the allocation of its memory failed.
    pub fn new(alloc: Global, heading: &Heading) -> Result<Printer, AllocError>
        ensures heading { IfOk result (λ p. p.heading ≡ heading.now) }
        ensures text { IfOk result (λ p. p.text ≡ []) }
    {
        let letters = SuitLetters::new(alloc)?;
        let mut buffer = [0; 512];
        let prefix = first_prefix(&mut buffer, heading);
        Ok(Printer {
            heading: *heading,
            letters,
            buffer,
            prefix,
            end: prefix.start,
        })
    }

    /// Prints the board's game in place of the last one.
    pub fn print(&mut self, board: &Board)
        ensures heading { self.new.heading ≡ self.old.heading }
        ensures text { self.new.text ≡ game_text self.old.heading board.now }
    {
        self.prefix = put_number(&mut self.buffer, self.prefix, &self.heading, board.number);
        let hands = put_board_lines(&mut self.buffer, board.dealer, board.vulnerable);
        self.end = put_hands(&mut self.buffer, hands, &self.letters, &board.deal);
    }

    /// Returns the text that was printed last.
    pub fn text(&self) -> &[u8]
        ensures { result.now ≡ self.now.text }
    {
        &self.buffer[self.prefix.start..self.end]
    }
}

impl Notation for Printer {
    ghost layout = { λ printer. pbn printer.heading };

    ghost printed = { λ printer. printer.text };

    ghost has_printed = { λ _ _. ⊤ };

    fn header(&self) -> &[u8] {
        &HEADER
    }

    fn print(&mut self, board: &Board) {
        Printer::print(self, board);
    }

    fn text(&self) -> &[u8] {
        Printer::text(self)
    }

    fn put_footer<S: Sink>(&self, _tried: u64, sink: &mut S) -> Result<(), SinkFault> {
        put_all(sink, b"")
    }
}

/// Holds a game, and after it the bytes that copies of a fixed length write over.
pub(crate) type LineBuffer = [u8; 512];

/// Where a board's number ends: it has at most 20 digits, and what comes before it at most 249
/// bytes.
pub(crate) const BOARD_NUMBER_END: usize = 272;

/// A game up to its board's number: where the heading's lines start, where the number starts, and
/// the number.
#[derive(Clone, Copy, Drop)]
pub(crate) struct Prefix {
    pub(crate) start: usize,
    pub(crate) number_start: usize,
    pub(crate) number: u64,
}

/// Writes the heading's lines and the opening of the board's line before the board's number.
#[cold]
#[inline(never)]
pub(crate) fn put_prefix(
    buffer: &mut LineBuffer,
    number_start: usize,
    heading: &Heading,
    number: u64,
) -> Prefix
    requires min { 249 ≤ number_start }
    requires max { number_start ≤ number_end }
    requires digits { drop number_start (take number_end buffer.old) ≡ decimal number }
    ensures prefix { IsPrefix buffer.new heading.now
        result.start result.number_start result.number }
    ensures number { result.number ≡ number }
{
    let mut lines = ArrayVec::new();
    put_heading(&mut lines, heading);
    put(&mut lines, b"[Board \"");
    let start = number_start - lines.len();
    buffer[start..number_start].copy_from_slice(lines.as_slice());
    Prefix {
        start,
        number_start,
        number,
    }
}

/// Writes the prefix of a board 0 into a new buffer.
pub(crate) fn first_prefix(buffer: &mut LineBuffer, heading: &Heading) -> Prefix
    ensures { IsPrefix buffer.new heading.now result.start result.number_start result.number }
{
    let number_start = write_digits(0, buffer, BOARD_NUMBER_END);
    put_prefix(buffer, number_start, heading, 0)
}

/// Writes the board's number over the last one, and the lines before it if it starts at another
/// index. Mostly a board follows the last one, and one digit changes.
#[inline(always)]
pub(crate) fn put_number(
    buffer: &mut LineBuffer,
    last: Prefix,
    heading: &Heading,
    number: u64,
) -> Prefix
    requires { IsPrefix buffer.old heading.now last.start last.number_start last.number }
    ensures prefix { IsPrefix buffer.new heading.now
        result.start result.number_start result.number }
    ensures number { result.number ≡ number }
    ensures len { length buffer.new ≡ 512 }
{
    if number > last.number && number - last.number == 1 && buffer[BOARD_NUMBER_END - 1] < b'9' {
        buffer[BOARD_NUMBER_END - 1] += 1;
        return Prefix { number, ..last };
    }
    let number_start = write_digits(number, buffer, BOARD_NUMBER_END);
    if number_start == last.number_start {
        return Prefix { number, ..last };
    }
    put_prefix(buffer, number_start, heading, number)
}

/// Writes the four hands, the end of the deal's line and the empty line. Returns where they end.
pub(crate) fn put_hands(
    buffer: &mut LineBuffer,
    start: usize,
    letters: &SuitLetters,
    deal: &Deal,
) -> usize
    requires { start ≤ 400 }
    ensures written { take result buffer.new ≡ take start buffer.old ++ hands_text deal.now }
    ensures end { result ≡ start + 71 }
{
    put_hand(buffer, start, letters, deal, Seat::North);
    buffer[start + 16] = b' ';
    put_hand(buffer, start + 17, letters, deal, Seat::East);
    buffer[start + 33] = b' ';
    put_hand(buffer, start + 34, letters, deal, Seat::South);
    buffer[start + 50] = b' ';
    put_hand(buffer, start + 51, letters, deal, Seat::West);
    buffer[start + 67..start + 71].copy_from_slice(b"\"]\n\n");
    start + 71
}

/// Writes the seat's thirteen cards and the three dots between its suits.
#[inline(always)]
fn put_hand(buffer: &mut LineBuffer, start: usize, letters: &SuitLetters, deal: &Deal, seat: Seat)
    requires { start ≤ 451 }
    ensures { take (start + 16) buffer.new
        ≡ take start buffer.old ++ hand_text (hand_of deal.now seat) }
{
    let _end = put_suits(buffer, start, letters, &deal.hand(seat));
}

/// Writes the hand's cards with a dot after each suit. Returns where they end.
#[inline(always)]
fn put_suits(buffer: &mut LineBuffer, start: usize, letters: &SuitLetters, hand: &Hand) -> usize
    requires { start ≤ 451 }
    ensures written { take result buffer.new
        ≡ take start buffer.old ++ (hand_text hand.now ++ codes ".") }
    ensures len { result
        ≡ start + (length_of hand.now Spades + length_of hand.now Hearts
        + length_of hand.now Diamonds + length_of hand.now Clubs + 4) }
{
    let mut end = put_suit(buffer, start, letters, hand, Suit::Spades);
    end = put_suit(buffer, end, letters, hand, Suit::Hearts);
    end = put_suit(buffer, end, letters, hand, Suit::Diamonds);
    put_suit(buffer, end, letters, hand, Suit::Clubs)
}

/// Writes the letters of the hand's ranks in the suit and a dot. Returns where they end.
#[inline(always)]
fn put_suit(
    buffer: &mut LineBuffer,
    start: usize,
    letters: &SuitLetters,
    hand: &Hand,
    suit: Suit,
) -> usize
    requires { start ≤ 496 }
    ensures written { take result buffer.new
        ≡ take start buffer.old ++ (suit_letters hand.now suit ++ codes ".") }
    ensures len { result ≡ start + (length_of hand.now suit + 1) }
    ensures max { result ≤ start + 14 }
{
    let text = letters.with_dot(hand, suit);
    buffer[start..start + 16].copy_from_slice(&text);
    start + usize::from(text[15]) + 1
}
