//! Games of PBN with the hands that are shown and with tricks. Those with all hands and without
//! tricks are the crate `pbn_text`'s, whose printer is quicker.

ghost use Rattle.std.specs.Prelude.{◌≡◌, ◌⊎◌, ◌≤◌, ◌+◌, ◌++◌, [], codes, length};
ghost use Rattle.std.specs.Option.{option_copied};
ghost use Rattle.boards.specs.declared.buffer.TheConstants.{CAPACITY};
ghost use Rattle.notations.specs.Games.{game_in, row_text, rows_of, table_tag, table_text};
ghost use Rattle.notations.specs.Games.{tricks_text};
ghost use Rattle.notations.specs.Tricks.{or_nothing};
ghost use Rattle.pbn_text.specs.Games.{board_text, heading_text, label, tag};

use crate::dotted::put_deal;
use crate::results::{five_of, put_given, put_two_columns};
use boards::{Board, Caption, Captions, Date, Show, SuitLetters, TextBuffer, Tricks};
use cards::Seat;
use pbn_text::{seat_letter, vulnerable_word};

/// Writes the board's game into the empty buffer.
#[tactic(auto, unfolding(crate::specs::Games::game_in))]
pub(crate) fn put_game(
    text: &mut TextBuffer,
    letters: &SuitLetters,
    heading: &Captions,
    show: Show,
    tricks: Option<&Tricks>,
    board: &Board,
)
    requires { text.old ≡ [] }
    ensures { text.new
        ≡ game_in heading.now show (or_nothing (option_copied tricks.entry)) board.now }
{
    put_heading(text, heading);
    put_board(text, board);
    text.put(b"[Deal \"");
    put_deal(text, letters, show, board);
    text.put(b"\"]\n");
    put_tricks(text, tricks);
    text.put(b"\n");
}

/// Appends the lines of the given labels.
fn put_heading(text: &mut TextBuffer, heading: &Captions)
    requires { length text.old + 1_000 ≤ CAPACITY }
    ensures text { text.new ≡ text.old ++ heading_text heading.now }
    ensures most { length text.new ≤ length text.old + 900 }
{
    put_caption(text, b"Event", heading.event());
    put_caption(text, b"Site", heading.site());
    put_date(text, heading.date());
}

/// Appends the line of the label, if it is given.
fn put_caption(text: &mut TextBuffer, name: &[u8], given: &Option<Caption>)
    requires { length text.old + length name.now + 406 ≤ CAPACITY }
    ensures text { text.new ≡ text.old ++ label name.now given.now }
    ensures most { length text.new ≤ length text.old + length name.now + 406 }
{
    if let Some(caption) = given {
        put_tag(text, name, caption.as_bytes());
    }
}

/// Appends the line of the date, if it is given.
fn put_date(text: &mut TextBuffer, given: &Option<Date>)
    requires { length text.old + 20 ≤ CAPACITY }
    ensures text { text.new ≡ text.old ++ label (codes "Date") given.now }
    ensures most { length text.new ≤ length text.old + 20 }
{
    if let Some(date) = given {
        put_tag(text, b"Date", date.as_bytes());
    }
}

/// Appends the lines of the board's number, dealer and vulnerability.
fn put_board(text: &mut TextBuffer, board: &Board)
    requires { length text.old + 100 ≤ CAPACITY }
    ensures text { text.new ≡ text.old ++ board_text board.now }
    ensures most { length text.new ≤ length text.old + 64 }
{
    text.put(b"[Board \"");
    text.put_number(board.number);
    text.put(b"\"]\n");
    put_tag(text, b"Dealer", &seat_letter(board.dealer));
    put_tag(text, b"Vulnerable", vulnerable_word(board.vulnerable));
}

/// Appends the line of the tag.
#[inline(always)]
fn put_tag(text: &mut TextBuffer, name: &[u8], value: &[u8])
    requires { length text.old + length name.now + length value.now + 6 ≤ CAPACITY }
    ensures text { text.new ≡ text.old ++ tag name.now value.now }
    ensures most { length text.new ≤ length text.old + length name.now + length value.now + 6 }
{
    text.put(b"[");
    text.put(name);
    text.put(b" \"");
    text.put(value);
    text.put(b"\"]\n");
}

/// Appends what is known of the tricks.
#[tactic(auto, unfolding(crate::specs::Games::table_text))]
fn put_tricks(text: &mut TextBuffer, tricks: Option<&Tricks>)
    requires { length text.old + 1_200 ≤ CAPACITY }
    ensures text { text.new ≡ text.old ++ tricks_text (or_nothing (option_copied tricks.entry)) }
    ensures most { length text.new ≤ length text.old + 1_000 }
{
    if let Some(tricks) = tricks {
        put_given(text, b"[DoubleDummyTricks \"", tricks.digits(), b"\"]\n");
        put_given(text, b"[OptimumScore \"", tricks.score(), b"\"]\n");
        put_given(text, b"[ParContract \"", tricks.contract(), b"\"]\n");
        put_table(text, tricks.digits());
    }
}

/// Appends the table of the results, or nothing if they aren't known.
#[tactic(auto, unfolding(crate::specs::Games::table_text))]
fn put_table(text: &mut TextBuffer, digits: &[u8])
    requires digits { (digits.now ≡ []) ⊎ (length digits.now ≡ 20) }
    requires room { length text.old + 900 ≤ CAPACITY }
    ensures text { text.new ≡ text.old ++ table_text digits.now }
    ensures most { length text.new ≤ length text.old + 700 }
{
    if digits.is_empty() {
        return;
    }
    text.put(table_tag());
    put_rows(text, Seat::North, five_of(digits, Seat::North));
    put_rows(text, Seat::South, five_of(digits, Seat::South));
    put_rows(text, Seat::East, five_of(digits, Seat::East));
    put_rows(text, Seat::West, five_of(digits, Seat::West));
}

/// The tag that names the table's columns.
#[tactic(auto, unfolding(crate::specs::Games::table_tag))]
fn table_tag() -> &'static [u8]
    ensures value { result.now ≡ table_tag }
    ensures most { length result.now ≤ 70 }
{
    b"[OptimumResultTable \"Declarer;Denomination\\2R;Result\\2R\"]\n"
}

/// Appends the rows of the declarer with these five digits.
#[tactic(auto, unfolding(crate::specs::Games::rows_of))]
fn put_rows(text: &mut TextBuffer, declarer: Seat, five: &[u8])
    requires five { length five.now ≡ 5 }
    requires room { length text.old + 150 ≤ CAPACITY }
    ensures text { text.new ≡ text.old ++ rows_of declarer five.now }
    ensures most { length text.new ≤ length text.old + 150 }
{
    put_row(text, declarer, b"NT", five[0]);
    put_row(text, declarer, b" S", five[1]);
    put_row(text, declarer, b" H", five[2]);
    put_row(text, declarer, b" D", five[3]);
    put_row(text, declarer, b" C", five[4]);
}

/// Appends a row of the table.
fn put_row(text: &mut TextBuffer, declarer: Seat, denomination: &[u8; 2], digit: u8)
    requires { length text.old + 30 ≤ CAPACITY }
    ensures text { text.new ≡ text.old ++ row_text declarer denomination.now digit }
    ensures most { length text.new ≤ length text.old + 30 }
{
    text.put(&seat_letter(declarer));
    text.put(b" ");
    text.put(denomination);
    text.put(b" ");
    put_two_columns(text, digit);
    text.put(b"\n");
}
