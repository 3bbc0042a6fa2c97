//! The tricks of a board on a page: a table of declarers and denominations, and par.

ghost use Rattle.std.specs.Prelude.{◌≡◌, ◌⊎◌, ◌≤◌, ◌+◌, ◌*◌, ◌++◌, [], codes, flat_map, length};
ghost use Rattle.std.specs.Option.{option_copied};
ghost use Rattle.boards.specs.declared.buffer.TheConstants.{CAPACITY};
ghost use Rattle.notations.specs.Pages.{cell_text, cells_text, row_text, side_rows};
ghost use Rattle.notations.specs.Pages.{table_head, table_text, tricks_text};
ghost use Rattle.pbn_text.specs.Games.{dealer_text};
ghost use Rattle.notations.specs.Tricks.{or_nothing};

use crate::page::par::put_par;
use crate::results::{five_of, number_of};
use boards::{TextBuffer, Tricks};
use cards::Seat;
use pbn_text::seat_letter;

/// Appends what is known of the tricks.
#[tactic(auto, unfolding(crate::specs::Pages::table_text))]
pub(crate) fn put_tricks(text: &mut TextBuffer, tricks: Option<&Tricks>)
    requires { length text.old + 1_700 ≤ CAPACITY }
    ensures text { text.new ≡ text.old ++ tricks_text (or_nothing (option_copied tricks.entry)) }
    ensures most { length text.new ≤ length text.old + 1_700 }
{
    if let Some(tricks) = tricks {
        put_table(text, tricks.digits());
        put_par(text, b"<p class=\"par\">Par ", tricks, b"</p>\n");
    }
}

/// Appends the table, or nothing if the tricks aren't known.
#[tactic(auto, unfolding(crate::specs::Pages::table_text))]
fn put_table(text: &mut TextBuffer, digits: &[u8])
    requires digits { (digits.now ≡ []) ⊎ (length digits.now ≡ 20) }
    requires room { length text.old + 1_200 ≤ CAPACITY }
    ensures text { text.new ≡ text.old ++ table_text digits.now }
    ensures most { length text.new ≤ length text.old + 1_200 }
{
    if digits.is_empty() {
        return;
    }
    text.put(table_head());
    put_side(text, Seat::North, Seat::South, digits);
    put_side(text, Seat::East, Seat::West, digits);
    text.put(b"</table>\n");
}

/// The denominations, at the head of the table.
#[tactic(auto, unfolding(crate::specs::Pages::table_head))]
fn table_head() -> &'static [u8]
    ensures value { result.now ≡ table_head }
    ensures most { length result.now ≤ 160 }
{
    b"<table>\n<tr><td></td><th>NT</th><th><i>\xE2\x99\xA0</i></th><th><b>\xE2\x99\xA5</b></th>\
    <th><b>\xE2\x99\xA6</b></th><th><i>\xE2\x99\xA3</i></th></tr>\n"
}

/// Appends the row of two partners who make the same, or a row for each of them.
#[tactic(auto, unfolding(crate::specs::Pages::side_rows))]
fn put_side(text: &mut TextBuffer, one: Seat, other: Seat, digits: &[u8])
    requires digits { length digits.now ≡ 20 }
    requires room { length text.old + 400 ≤ CAPACITY }
    ensures text { text.new ≡ text.old ++ side_rows one other digits.now }
    ensures most { length text.new ≤ length text.old + 400 }
{
    let five = five_of(digits, one);
    let others = five_of(digits, other);
    if five == others {
        put_shared_row(text, one, other, five);
    } else {
        put_row(text, one, five);
        put_row(text, other, others);
    }
}

/// Appends the row of two partners.
fn put_shared_row(text: &mut TextBuffer, one: Seat, other: Seat, five: &[u8])
    requires five { length five.now ≡ 5 }
    requires room { length text.old + 180 ≤ CAPACITY }
    ensures text { text.new
        ≡ text.old ++ row_text (dealer_text one ++ dealer_text other) five.now }
    ensures most { length text.new ≤ length text.old + 180 }
{
    text.put(b"<tr><th>");
    text.put(&seat_letter(one));
    text.put(&seat_letter(other));
    put_cells(text, five);
}

/// Appends the row of one player.
fn put_row(text: &mut TextBuffer, declarer: Seat, five: &[u8])
    requires five { length five.now ≡ 5 }
    requires room { length text.old + 180 ≤ CAPACITY }
    ensures text { text.new ≡ text.old ++ row_text (dealer_text declarer) five.now }
    ensures most { length text.new ≤ length text.old + 180 }
{
    text.put(b"<tr><th>");
    text.put(&seat_letter(declarer));
    put_cells(text, five);
}

/// Appends what follows who declares in a row: the five numbers of tricks.
#[tactic(auto, unfolding(crate::specs::Pages::cells_text))]
fn put_cells(text: &mut TextBuffer, five: &[u8])
    requires five { length five.now ≡ 5 }
    requires room { length text.old + 160 ≤ CAPACITY }
    ensures text { text.new ≡ text.old ++ cells_text five.now }
    ensures most { length text.new ≤ length text.old + 160 }
{
    text.put(b"</th>");
    put_numbers(text, five);
    text.put(b"</tr>\n");
}

/// Appends a cell for each number of tricks that the digits say.
fn put_numbers(text: &mut TextBuffer, digits: &[u8])
    requires { length text.old + 29 * length digits.now ≤ CAPACITY }
    ensures text { text.new ≡ text.old ++ flat_map cell_text digits.now }
    ensures most { length text.new ≤ length text.old + 29 * length digits.now }
{
    for digit in digits {
        put_cell(text, *digit);
    }
}

fn put_cell(text: &mut TextBuffer, digit: u8)
    requires { length text.old + 29 ≤ CAPACITY }
    ensures text { text.new ≡ text.old ++ cell_text digit }
    ensures most { length text.new ≤ length text.old + 29 }
{
    text.put(b"<td>");
    text.put_number(u64::from(number_of(digit)));
    text.put(b"</td>");
}
