//! The tricks of a record: a table of declarers and denominations, and par.

ghost use Rattle.std.specs.Prelude.{◌≡◌, ◌⊎◌, ◌≤◌, ◌+◌, ◌*◌, ◌++◌, [], flat_map, length};
ghost use Rattle.std.specs.Option.{option_copied};
ghost use Rattle.boards.specs.declared.buffer.TheConstants.{CAPACITY};
ghost use Rattle.notations.specs.Records.{cell_text, declarer_line, head_line, table_lines};
ghost use Rattle.notations.specs.Records.{tricks_lines};
ghost use Rattle.notations.specs.Tricks.{or_nothing};

use crate::results::{five_of, put_par, put_two_columns};
use boards::{TextBuffer, Tricks};
use cards::Seat;
use pbn_text::seat_letter;

/// Appends what is known of the tricks.
#[tactic(auto, unfolding(crate::specs::Records::table_lines))]
pub(crate) fn put_tricks(text: &mut TextBuffer, tricks: Option<&Tricks>)
    requires { length text.old + 800 ≤ CAPACITY }
    ensures text { text.new ≡ text.old ++ tricks_lines (or_nothing (option_copied tricks.entry)) }
    ensures most { length text.new ≤ length text.old + 700 }
{
    if let Some(tricks) = tricks {
        put_table(text, tricks.digits());
        put_par(text, b"Par ", tricks, b"\n");
    }
}

/// Appends the table, or nothing if the tricks aren't known.
#[tactic(auto, unfolding(crate::specs::Records::table_lines))]
fn put_table(text: &mut TextBuffer, digits: &[u8])
    requires digits { (digits.now ≡ []) ⊎ (length digits.now ≡ 20) }
    requires room { length text.old + 700 ≤ CAPACITY }
    ensures text { text.new ≡ text.old ++ table_lines digits.now }
    ensures most { length text.new ≤ length text.old + 600 }
{
    if digits.is_empty() {
        return;
    }
    text.put(head_line());
    put_declarer(text, Seat::North, five_of(digits, Seat::North));
    put_declarer(text, Seat::South, five_of(digits, Seat::South));
    put_declarer(text, Seat::East, five_of(digits, Seat::East));
    put_declarer(text, Seat::West, five_of(digits, Seat::West));
}

/// The denominations, set right.
#[tactic(auto, unfolding(crate::specs::Records::head_line))]
fn head_line() -> &'static [u8]
    ensures value { result.now ≡ head_line }
    ensures most { length result.now ≤ 40 }
{
    b"     NT  \xE2\x99\xA0  \xE2\x99\xA5  \xE2\x99\xA6  \xE2\x99\xA3\n"
}

/// Appends the line of the declarer with these five digits.
#[tactic(auto, unfolding(crate::specs::Records::declarer_line))]
fn put_declarer(text: &mut TextBuffer, declarer: Seat, five: &[u8])
    requires five { length five.now ≡ 5 }
    requires room { length text.old + 120 ≤ CAPACITY }
    ensures text { text.new ≡ text.old ++ declarer_line declarer five.now }
    ensures most { length text.new ≤ length text.old + 120 }
{
    text.put(&seat_letter(declarer));
    text.put(b"   ");
    put_cells(text, five);
    text.put(b"\n");
}

/// Appends the numbers of tricks that the digits say.
fn put_cells(text: &mut TextBuffer, digits: &[u8])
    requires { length text.old + 22 * length digits.now ≤ CAPACITY }
    ensures text { text.new ≡ text.old ++ flat_map cell_text digits.now }
    ensures most { length text.new ≤ length text.old + 22 * length digits.now }
{
    for digit in digits {
        put_cell(text, *digit);
    }
}

fn put_cell(text: &mut TextBuffer, digit: u8)
    requires { length text.old + 22 ≤ CAPACITY }
    ensures text { text.new ≡ text.old ++ cell_text digit }
    ensures most { length text.new ≤ length text.old + 22 }
{
    text.put(b" ");
    put_two_columns(text, digit);
}
