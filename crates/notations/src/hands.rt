//! Hand records, for print: each board's four hands around the table, with its number, dealer,
//! vulnerability and points.
//!
//! A text begins with the given labels, each on a line of its own, and an empty line after
//! them. Then come the records of the boards, of thirteen lines, or more with tricks. Texts are
//! UTF-8, for the signs of the suits.

ghost use Rattle.std.specs.Prelude.{◌≡◌, ◌<◌, ◌≤◌, ◌+◌, ◌++◌, [], codes, length};
ghost use Rattle.std.specs.Option.{option_copied};
ghost use Rattle.cards.specs.declared.seat.Seat.TheVariants.{North, East, South, West};
ghost use Rattle.cards.specs.declared.suit.Suit.TheVariants.{Diamonds};
ghost use Rattle.boards.specs.declared.buffer.TheConstants.{CAPACITY};
ghost use Rattle.notations.specs.Columns.{columns};
ghost use Rattle.notations.specs.Names.{seat_name};
ghost use Rattle.pbn_text.specs.Games.{vulnerable_text};
ghost use Rattle.notations.specs.Records.{north_lines, number_line, one_count, record_text};
ghost use Rattle.notations.specs.Records.{side_line, side_lines, south_lines, suit_line};
ghost use Rattle.notations.specs.Records.{two_counts};
ghost use Rattle.boards.specs.Show.{counted_in, hand_in};
ghost use Rattle.notations.specs.Tricks.{or_nothing};
ghost use Rattle.notations.specs.internal.Parts.{rest_of_line, shown_suit};

mod header;
mod parts;
mod table;

use crate::hands::parts::{put_gap, put_one_count, put_suit, put_two_counts};
use crate::hands::table::put_tricks;
use boards::{Board, Show, SuitLetters, TextBuffer, Tricks, Vul};
use cards::{Hand, Seat, Suit};
pub(crate) use header::put_header;

/// Writes the board's twelve lines, those of its tricks and the empty one into the empty buffer.
#[tactic(auto, unfolding(crate::specs::Records::record_text))]
pub(crate) fn put_record(
    text: &mut TextBuffer,
    letters: &SuitLetters,
    show: Show,
    tricks: Option<&Tricks>,
    board: &Board,
)
    requires { text.old ≡ [] }
    ensures { text.new ≡ record_text show (or_nothing (option_copied tricks.entry)) board.now }
{
    put_north(text, letters, show, board);
    put_sides(text, letters, show, board);
    put_south(text, letters, show, board);
    put_tricks(text, tricks);
    text.put(b"\n");
}

/// Appends North's suits, with the board's number, dealer and vulnerability.
fn put_north(text: &mut TextBuffer, letters: &SuitLetters, show: Show, board: &Board)
    requires { length text.old + 400 ≤ CAPACITY }
    ensures text { text.new ≡ text.old ++ north_lines board.now (hand_in show board.now North) }
    ensures most { length text.new ≤ length text.old + 400 }
{
    let north = show.hand(board, Seat::North);
    put_number_line(text, letters, board.number, &north);
    put_suit_line(
        text,
        letters,
        dealer_line(board.dealer),
        &north,
        Suit::Hearts,
    );
    put_suit_line(
        text,
        letters,
        vulnerable_line(board.vulnerable),
        &north,
        Suit::Diamonds,
    );
    put_suit_line(text, letters, b"", &north, Suit::Clubs);
}

/// Appends West's suits and East's.
fn put_sides(text: &mut TextBuffer, letters: &SuitLetters, show: Show, board: &Board)
    requires { length text.old + 400 ≤ CAPACITY }
    ensures text { text.new ≡ text.old
        ++ side_lines (hand_in show board.now West) (hand_in show board.now East) }
    ensures most { length text.new ≤ length text.old + 300 }
{
    let west = show.hand(board, Seat::West);
    let east = show.hand(board, Seat::East);
    put_side_line(text, letters, &west, &east, Suit::Spades);
    put_side_line(text, letters, &west, &east, Suit::Hearts);
    put_side_line(text, letters, &west, &east, Suit::Diamonds);
    put_side_line(text, letters, &west, &east, Suit::Clubs);
}

/// Appends South's suits, with the points of all hands.
fn put_south(text: &mut TextBuffer, letters: &SuitLetters, show: Show, board: &Board)
    requires { length text.old + 400 ≤ CAPACITY }
    ensures text { text.new ≡ text.old
        ++ south_lines (hand_in show board.now South) (counted_in show board.now) }
    ensures most { length text.new ≤ length text.old + 320 }
{
    let south = show.hand(board, Seat::South);
    put_suit_line(text, letters, b"", &south, Suit::Spades);
    put_count_line(
        text,
        letters,
        &show.counted(board, Seat::North),
        &south,
        Suit::Hearts,
    );
    put_counts_line(
        text,
        letters,
        &show.counted(board, Seat::West),
        &show.counted(board, Seat::East),
        &south,
    );
    let counted = show.counted(board, Seat::South);
    put_count_line(text, letters, &counted, &south, Suit::Clubs);
}

/// Appends a line of the points of one hand and a suit of South's.
#[tactic(auto, unfolding(crate::specs::Records::suit_line))]
fn put_count_line(
    text: &mut TextBuffer,
    letters: &SuitLetters,
    counted: &Option<Hand>,
    south: &Option<Hand>,
    suit: Suit,
)
    requires { length text.old + 90 ≤ CAPACITY }
    ensures text { text.new ≡ text.old ++ suit_line (one_count counted.now) south.now suit }
    ensures most { length text.new ≤ length text.old + 75 }
{
    let start = text.len();
    put_one_count(text, counted);
    put_rest(text, text.len() - start, 18, letters, south, suit);
}

/// Appends the line of West's points, East's, and South's diamonds.
#[tactic(auto, unfolding(crate::specs::Records::suit_line))]
fn put_counts_line(
    text: &mut TextBuffer,
    letters: &SuitLetters,
    west: &Option<Hand>,
    east: &Option<Hand>,
    south: &Option<Hand>,
)
    requires { length text.old + 90 ≤ CAPACITY }
    ensures text { text.new
        ≡ text.old ++ suit_line (two_counts west.now east.now) south.now Diamonds }
    ensures most { length text.new ≤ length text.old + 75 }
{
    let start = text.len();
    put_two_counts(text, west, east);
    put_rest(text, text.len() - start, 18, letters, south, Suit::Diamonds);
}

/// Appends the line of the board's number and North's spades.
fn put_number_line(text: &mut TextBuffer, letters: &SuitLetters, number: u64, north: &Option<Hand>)
    requires { length text.old + 100 ≤ CAPACITY }
    ensures text { text.new ≡ text.old ++ number_line number north.now }
    ensures most { length text.new ≤ length text.old + 84 }
{
    let start = text.len();
    text.put(b"Board ");
    text.put_number(number);
    put_rest(text, text.len() - start, 18, letters, north, Suit::Spades);
}

/// Appends a line of what is before column 18, of which each byte is a column, and a suit of a
/// hand that is shown.
#[inline(always)]
#[tactic(auto, unfolding(crate::specs::Records::suit_line))]
fn put_suit_line(
    text: &mut TextBuffer,
    letters: &SuitLetters,
    left: &[u8],
    hand: &Option<Hand>,
    suit: Suit,
)
    requires plain { columns left.now ≡ length left.now }
    requires short { length left.now ≤ 12 }
    requires room { length text.old + 80 ≤ CAPACITY }
    ensures text { text.new ≡ text.old ++ suit_line left.now hand.now suit }
    ensures most { length text.new ≤ length text.old + 70 }
{
    text.put(left);
    put_rest(text, left.len(), 18, letters, hand, suit);
}

/// Appends the gap up to the column and the suit, if the hand is shown, and the end of the line, of
/// which `used` columns are written.
fn put_rest(
    text: &mut TextBuffer,
    used: usize,
    column: usize,
    letters: &SuitLetters,
    hand: &Option<Hand>,
    suit: Suit,
)
    requires near { column ≤ 40 }
    requires room { length text.old + 64 ≤ CAPACITY }
    ensures text { text.new ≡ text.old ++ rest_of_line column used hand.now suit }
    ensures most { length text.new ≤ length text.old + 58 }
{
    if let Some(hand) = hand {
        put_gap(text, used, column);
        put_suit(text, letters, hand, suit);
    }
    text.put(b"\n");
}

/// Appends a line of a suit of West's and of East's.
#[tactic(auto, unfolding(crate::specs::Records::side_line))]
fn put_side_line(
    text: &mut TextBuffer,
    letters: &SuitLetters,
    west: &Option<Hand>,
    east: &Option<Hand>,
    suit: Suit,
)
    requires { length text.old + 100 ≤ CAPACITY }
    ensures text { text.new ≡ text.old ++ side_line west.now east.now suit }
    ensures most { length text.new ≤ length text.old + 75 }
{
    let used = put_west(text, letters, west, suit);
    put_rest(text, used, 36, letters, east, suit);
}

/// Appends the suit of West's hand, if it is shown. Returns how many columns it has.
fn put_west(text: &mut TextBuffer, letters: &SuitLetters, west: &Option<Hand>, suit: Suit) -> usize
    requires { length text.old + 20 ≤ CAPACITY }
    ensures text { text.new ≡ text.old ++ shown_suit west.now suit }
    ensures columns { result ≡ columns (shown_suit west.now suit) }
    ensures most { length text.new ≤ length text.old + 17 }
{
    let Some(west) = west else {
        return 0;
    };
    let start = text.len();
    put_suit(text, letters, west, suit);
    // The sign has three bytes in one column.
    text.len() - start - 2
}

/// What is before North's hearts.
fn dealer_line(dealer: Seat) -> &'static [u8]
    ensures value { result.now ≡ codes "Dealer " ++ seat_name dealer }
    ensures plain { columns result.now ≡ length result.now }
    ensures most { length result.now ≤ 12 }
{
    match dealer {
        Seat::North => b"Dealer North",
        Seat::East => b"Dealer East",
        Seat::South => b"Dealer South",
        Seat::West => b"Dealer West",
    }
}

/// What is before North's diamonds.
fn vulnerable_line(sides: Vul) -> &'static [u8]
    ensures value { result.now ≡ codes "Vul " ++ vulnerable_text sides }
    ensures plain { columns result.now ≡ length result.now }
    ensures most { length result.now ≤ 12 }
{
    match sides {
        Vul::Neither => b"Vul None",
        Vul::NorthSouth => b"Vul NS",
        Vul::EastWest => b"Vul EW",
        Vul::Both => b"Vul All",
    }
}
