//! The tricks and par of a board, as formats write them.

ghost use Rattle.std.specs.Prelude.{◌≡◌, ◌≤◌, ◌+◌, ◌++◌, length};
ghost use Rattle.boards.specs.declared.buffer.TheConstants.{CAPACITY};
ghost use Rattle.notations.specs.Columns.{two_columns};
ghost use Rattle.notations.specs.Tricks.{five_of, if_given, number_of, par_text};

use boards::{TextBuffer, Tricks};
use cards::Seat;

/// Appends the value between two texts, or nothing at all if it is empty.
pub(crate) fn put_given(text: &mut TextBuffer, before: &[u8], value: &[u8], after: &[u8])
    requires { length text.old + length before.now + length value.now + length after.now
        ≤ CAPACITY }
    ensures text { text.new ≡ text.old ++ if_given before.now value.now after.now }
    ensures most { length text.new
        ≤ length text.old + length before.now + length value.now + length after.now }
{
    if value.is_empty() {
        return;
    }
    text.put(before);
    text.put(value);
    text.put(after);
}

/// Appends par between two texts, or nothing at all if it isn't known.
pub(crate) fn put_par(text: &mut TextBuffer, before: &[u8], tricks: &Tricks, after: &[u8])
    requires { length text.old + length before.now + length after.now + 32 ≤ CAPACITY }
    ensures text { text.new ≡ text.old ++ if_given before.now (par_text tricks.now) after.now }
    ensures most { length text.new
        ≤ length text.old + length before.now + length after.now + 32 }
{
    let score = tricks.score();
    if score.is_empty() {
        return;
    }
    text.put(before);
    text.put(score);
    put_given(text, b" ", tricks.contract(), b"");
    text.put(after);
}

/// The five digits of the declarer, among the twenty of a board: in notrump, spades, hearts,
/// diamonds and clubs.
pub(crate) fn five_of(digits: &[u8], declarer: Seat) -> &[u8]
    requires { length digits.now ≡ 20 }
    ensures value { result.now ≡ five_of declarer digits.now }
    ensures five { length result.now ≡ 5 }
{
    match declarer {
        Seat::North => &digits[..5],
        Seat::South => &digits[5..10],
        Seat::East => &digits[10..15],
        Seat::West => &digits[15..20],
    }
}

/// The number that the digit says: 0 to 9, and `a` to `d` for 10 to 13.
pub(crate) fn number_of(digit: u8) -> u8
    ensures { result ≡ number_of digit }
{
    if digit <= b'9' {
        digit.saturating_sub(b'0')
    } else {
        digit.saturating_sub(b'a' - 10)
    }
}

/// Appends the number that the digit says, set right in two columns.
pub(crate) fn put_two_columns(text: &mut TextBuffer, digit: u8)
    requires { length text.old + 21 ≤ CAPACITY }
    ensures text { text.new ≡ text.old ++ two_columns (number_of digit) }
    ensures most { length text.new ≤ length text.old + 21 }
{
    let number = number_of(digit);
    if number < 10 {
        text.put(&[b' ', b'0' + number]);
    } else {
        text.put_number(u64::from(number));
    }
}
