//! The parts of a record's lines: gaps, suits and points.

ghost use Rattle.std.specs.Prelude.{◌≡◌, ◌<◌, ◌≤◌, ◌+◌, ◌-◌, ◌++◌, None, Some, length, max};
ghost use Rattle.cards.specs.Hands.{points_of};
ghost use Rattle.boards.specs.declared.buffer.TheConstants.{CAPACITY};
ghost use Rattle.notations.specs.Columns.{columns, spaces, two_columns};
ghost use Rattle.notations.specs.Records.{one_count, sign_and_space, suit_text, two_counts};

use boards::{SuitLetters, TextBuffer};
use cards::{Hand, Suit};

/// The longest gap, and more.
const SPACES: [u8; 40] = [b' '; 40];

/// Appends spaces up to the column, at least one, to a line of which `used` columns are written.
#[inline(always)]
pub(crate) fn put_gap(text: &mut TextBuffer, used: usize, column: usize)
    requires near { column ≤ 40 }
    requires room { length text.old + 40 ≤ CAPACITY }
    ensures text { text.new ≡ text.old ++ spaces (max 1 (column - used)) }
    ensures most { length text.new ≤ length text.old + 40 }
{
    let count = column.saturating_sub(used).max(1);
    text.put_first(&SPACES, count);
}

/// Appends the suit of the hand: its sign, a space, and its ranks or a dash.
#[inline(always)]
pub(crate) fn put_suit(text: &mut TextBuffer, letters: &SuitLetters, hand: &Hand, suit: Suit)
    requires { length text.old + 20 ≤ CAPACITY }
    ensures text { text.new ≡ text.old ++ suit_text hand.now suit }
    ensures columns { length text.new
        ≡ length text.old + 2 + columns (suit_text hand.now suit) }
    ensures most { length text.new ≤ length text.old + 17 }
{
    text.put(&sign_and_space(suit));
    letters.put_or_dash(text, hand, suit, b"-");
}

/// The sign of the suit and a space. The signs differ in their last byte.
#[inline(always)]
fn sign_and_space(suit: Suit) -> [u8; 4]
    ensures { result ≡ sign_and_space suit }
{
    let last = match suit {
        Suit::Spades => 0xA0,
        Suit::Hearts => 0xA5,
        Suit::Diamonds => 0xA6,
        Suit::Clubs => 0xA3,
    };
    [0xE2, 0x99, last, b' ']
}

/// Appends the points of one hand, whose last digit is at column 7; nothing if it isn't shown.
pub(crate) fn put_one_count(text: &mut TextBuffer, hand: &Option<Hand>)
    requires { length text.old + 8 ≤ CAPACITY }
    ensures text { text.new ≡ text.old ++ one_count hand.now }
    ensures columns { length text.new ≡ length text.old + columns (one_count hand.now) }
    ensures most { length text.new ≤ length text.old + 8 }
{
    if let Some(hand) = hand {
        text.put(&one_count(hand));
    }
}

fn one_count(hand: &Hand) -> [u8; 8]
    ensures value { result ≡ one_count (Some hand.now) }
    ensures columns { columns result ≡ 8 }
{
    let [tens, ones] = two_columns(hand.points());
    [b' ', b' ', b' ', b' ', b' ', b' ', tens, ones]
}

/// Appends the points of West and East, whose last digits are at columns 3 and 11; nothing for
/// one that isn't shown, and no space at the end.
pub(crate) fn put_two_counts(text: &mut TextBuffer, west: &Option<Hand>, east: &Option<Hand>)
    requires { length text.old + 12 ≤ CAPACITY }
    ensures text { text.new ≡ text.old ++ two_counts west.now east.now }
    ensures columns { length text.new ≡ length text.old + columns (two_counts west.now east.now) }
    ensures most { length text.new ≤ length text.old + 12 }
{
    match (west, east) {
        (Some(west), Some(east)) => text.put(&two_counts(west, east)),
        (Some(west), None) => text.put(&count_of_west(west)),
        (None, Some(east)) => text.put(&count_of_east(east)),
        (None, None) => {}
    }
}

fn two_counts(west: &Hand, east: &Hand) -> [u8; 12]
    ensures value { result ≡ two_counts (Some west.now) (Some east.now) }
    ensures columns { columns result ≡ 12 }
{
    let [west_tens, west_ones] = two_columns(west.points());
    let [tens, ones] = two_columns(east.points());
    [
        b' ', b' ', west_tens, west_ones, b' ', b' ', b' ', b' ', b' ', b' ', tens, ones,
    ]
}

fn count_of_west(west: &Hand) -> [u8; 4]
    ensures value { result ≡ two_counts (Some west.now) None }
    ensures columns { columns result ≡ 4 }
{
    let [tens, ones] = two_columns(west.points());
    [b' ', b' ', tens, ones]
}

fn count_of_east(east: &Hand) -> [u8; 12]
    ensures value { result ≡ two_counts None (Some east.now) }
    ensures columns { columns result ≡ 12 }
{
    let [tens, ones] = two_columns(east.points());
    [
        b' ', b' ', b' ', b' ', b' ', b' ', b' ', b' ', b' ', b' ', tens, ones,
    ]
}

/// The number, below 100, in two columns.
fn two_columns(number: u8) -> [u8; 2]
    requires { number < 100 }
    ensures value { result ≡ two_columns number }
    ensures columns { columns result ≡ 2 }
{
    if number < 10 {
        [b' ', b'0' + number]
    } else {
        [b'0' + number / 10, b'0' + number % 10]
    }
}
