//! What both ways to print share: the header, and the lines of a heading; and the lines of a
//! board's dealer and vulnerability with the opening of its deal's line, ready for each dealer and
//! each vulnerability, to be copied.

ghost use Rattle.std.specs.Prelude.{◌≡◌, ◌≤◌, ◌+◌, ◌++◌, length, take};
ghost use Rattle.arrayvec.specs.ArrayVec.{array_vec_len};
ghost use Rattle.pbn_text.specs.Games.{heading_text};
ghost use Rattle.pbn_text.specs.internal.Lines.{label_line, line, board_lines};
ghost use Rattle.pbn_text.specs.internal.Lines.{vulnerability_number};
ghost use Rattle.cards.specs.Pack.{seat_number};
ghost use Rattle.pbn_text.specs.internal.Buffers.{number_end};

use crate::printer::{BOARD_NUMBER_END, LineBuffer};
use crate::{Date, Heading, Label};
use arrayvec::ArrayVec;
use boards::Vul;
use cards::Seat;

/// The line before the games, with its line feed.
pub const HEADER: [u8; 10] = *b"% PBN 2.1\n";

/// The text of one game.
pub(crate) type Text = ArrayVec<u8, 400>;

/// Appends the lines of the given labels.
pub(crate) fn put_heading(text: &mut Text, heading: &Heading)
    requires { array_vec_len text.old + 241 ≤ 400 }
    ensures items { text.new.items ≡ text.old.items ++ heading_text heading.now }
    ensures max { array_vec_len text.new ≤ array_vec_len text.old + 241 }
{
    put_label(text, b"[Event \"", &heading.event);
    put_label(text, b"[Site \"", &heading.site);
    put_date(text, b"[Date \"", &heading.date);
}

fn put_label(text: &mut Text, opening: &[u8], label: &Option<Label>)
    requires { array_vec_len text.old + length opening.now + 103 ≤ 400 }
    ensures items { text.new.items ≡ text.old.items ++ label_line opening.now label.now }
    ensures max { array_vec_len text.new ≤ array_vec_len text.old + length opening.now + 103 }
{
    if let Some(label) = label {
        put_line(text, opening, label.as_bytes());
    }
}

fn put_date(text: &mut Text, opening: &[u8], date: &Option<Date>)
    requires { array_vec_len text.old + length opening.now + 13 ≤ 400 }
    ensures items { text.new.items ≡ text.old.items ++ label_line opening.now date.now }
    ensures max { array_vec_len text.new ≤ array_vec_len text.old + length opening.now + 13 }
{
    if let Some(date) = date {
        put_line(text, opening, date.as_bytes());
    }
}

/// Appends a tag line: its opening up to the first quote, its value, and its end.
pub(crate) fn put_line(text: &mut Text, opening: &[u8], value: &[u8])
    requires { array_vec_len text.old + length opening.now + length value.now + 3 ≤ 400 }
    ensures items { text.new.items ≡ text.old.items ++ line opening.now value.now }
    ensures len { array_vec_len text.new
        ≡ array_vec_len text.old + length opening.now + length value.now + 3 }
{
    put(text, opening);
    put(text, value);
    put(text, b"\"]\n");
}

/// Appends the bytes.
pub(crate) fn put(text: &mut Text, bytes: &[u8])
    requires { array_vec_len text.old + length bytes.now ≤ 400 }
    ensures items { text.new.items ≡ text.old.items ++ bytes.now }
    ensures len { array_vec_len text.new ≡ array_vec_len text.old + length bytes.now }
{
    let _fits = text.try_extend_from_slice(bytes);
}

/// What follows a board's number, for each dealer and each vulnerability, filled up to one length.
static DEALER_AND_VULNERABLE: [[[u8; 48]; 4]; 4] = [
    [
        *b"\"]\n[Dealer \"N\"]\n[Vulnerable \"None\"]\n[Deal \"N:...",
        *b"\"]\n[Dealer \"N\"]\n[Vulnerable \"NS\"]\n[Deal \"N:.....",
        *b"\"]\n[Dealer \"N\"]\n[Vulnerable \"EW\"]\n[Deal \"N:.....",
        *b"\"]\n[Dealer \"N\"]\n[Vulnerable \"All\"]\n[Deal \"N:....",
    ],
    [
        *b"\"]\n[Dealer \"E\"]\n[Vulnerable \"None\"]\n[Deal \"N:...",
        *b"\"]\n[Dealer \"E\"]\n[Vulnerable \"NS\"]\n[Deal \"N:.....",
        *b"\"]\n[Dealer \"E\"]\n[Vulnerable \"EW\"]\n[Deal \"N:.....",
        *b"\"]\n[Dealer \"E\"]\n[Vulnerable \"All\"]\n[Deal \"N:....",
    ],
    [
        *b"\"]\n[Dealer \"S\"]\n[Vulnerable \"None\"]\n[Deal \"N:...",
        *b"\"]\n[Dealer \"S\"]\n[Vulnerable \"NS\"]\n[Deal \"N:.....",
        *b"\"]\n[Dealer \"S\"]\n[Vulnerable \"EW\"]\n[Deal \"N:.....",
        *b"\"]\n[Dealer \"S\"]\n[Vulnerable \"All\"]\n[Deal \"N:....",
    ],
    [
        *b"\"]\n[Dealer \"W\"]\n[Vulnerable \"None\"]\n[Deal \"N:...",
        *b"\"]\n[Dealer \"W\"]\n[Vulnerable \"NS\"]\n[Deal \"N:.....",
        *b"\"]\n[Dealer \"W\"]\n[Vulnerable \"EW\"]\n[Deal \"N:.....",
        *b"\"]\n[Dealer \"W\"]\n[Vulnerable \"All\"]\n[Deal \"N:....",
    ],
];

/// How long these are: that depends on the vulnerability alone.
static LENGTHS: [usize; 4] = [45, 43, 43, 44];

/// Writes the lines of the dealer and the vulnerability and the opening of the deal's line, after
/// the board's number. Returns where they end.
pub(crate) fn put_board_lines(buffer: &mut LineBuffer, dealer: Seat, vulnerable: Vul) -> usize
    ensures written { take result buffer.new
        ≡ take number_end buffer.old ++ board_lines dealer vulnerable }
    ensures min { number_end ≤ result }
    ensures max { result ≤ number_end + 45 }
    ensures len { length buffer.new ≡ 512 }
{
    let column = column_of(vulnerable);
    // As for a suit's text: a value of its own is copied at once.
    let lines = DEALER_AND_VULNERABLE[row_of(dealer)][column];
    buffer[BOARD_NUMBER_END..BOARD_NUMBER_END + 48].copy_from_slice(&lines);
    BOARD_NUMBER_END + LENGTHS[column]
}

#[inline(always)]
fn row_of(dealer: Seat) -> usize
    ensures { result ≡ seat_number dealer }
{
    dealer as usize
}

#[inline(always)]
fn column_of(vulnerable: Vul) -> usize
    ensures { result ≡ vulnerability_number vulnerable }
{
    vulnerable as usize
}
