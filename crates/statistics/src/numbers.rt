//! Numbers and answers as they are written, and texts at the right of a column.

ghost use Rattle.std.specs.Prelude.{◌≡◌, ℕ, ◌≤◌, ◌<◌, ◌+◌, ◌-◌, ◌/◌, ◌∷◌, [], ◌++◌, length};
ghost use Rattle.std.specs.Prelude.{replicate};
ghost use Rattle.boards.specs.declared.buffer.TheConstants.{CAPACITY};
ghost use Rattle.statistics.specs.Columns.{comma_at, commas, grouped, label, no_or_yes, or_dash};
ghost use Rattle.statistics.specs.Columns.{plain_label, right};

use boards::TextBuffer;
use itoa::Buffer;

/// Appends the number in decimal, with commas: 1,048,576.
#[tactic(auto, unfolding(crate::specs::Columns::commas))]
pub(crate) fn put_commas(text: &mut TextBuffer, number: u64)
    requires { length text.old + 40 ≤ CAPACITY }
    ensures text { text.new ≡ text.old ++ commas number }
    ensures most { length text.new ≤ length text.old + 27 }
{
    let mut buffer = Buffer::new();
    put_groups(text, buffer.format(number).as_bytes());
}

/// Appends the digits, with a comma before each group of three but the first.
fn put_groups(text: &mut TextBuffer, digits: &[u8])
    requires few { length digits.now ≤ 20 }
    requires room { length text.old + 40 ≤ CAPACITY }
    ensures text { text.new ≡ text.old ++ grouped digits.now }
    ensures most { length text.new ≤ length text.old + 27 }
{
    for (i, digit) in digits.iter().enumerate() {
        put_digit(text, i, digits.len(), *digit);
    }
}

/// Appends digit `i` of `count`, and the comma before it if there is one.
fn put_digit(text: &mut TextBuffer, i: usize, count: usize, digit: u8)
    requires within { i < count }
    requires room { length text.old + 2 ≤ CAPACITY }
    ensures text { text.new ≡ text.old ++ (comma_at i count ++ digit ∷ []) }
    ensures most { length text.new + (count - (i + 1)) / 3
        ≤ length text.old + (count - i) / 3 + 1 }
{
    if i > 0 && (count - i) % 3 == 0 {
        text.put(b",");
    }
    text.put(&[digit]);
}

/// Appends this many spaces, for which there is room.
#[tactic(auto, using(crate::proofs::Appending::replicate_more))]
pub(crate) fn put_spaces(text: &mut TextBuffer, count: usize)
    requires { length text.old + count ≤ CAPACITY }
    ensures text { text.new ≡ text.old ++ replicate count 0x20 }
    ensures len { length text.new ≡ length text.old + count }
{
    for _space in 0..count {
        text.put(b" ");
    }
}

/// Appends the text at the right of a column.
pub(crate) fn put_right(text: &mut TextBuffer, width: usize, cell: &[u8])
    requires width { width ≤ 100 }
    requires cell { length cell.now ≤ 100 }
    requires room { length text.old + 110 ≤ CAPACITY }
    ensures text { text.new ≡ text.old ++ right width cell.now }
    ensures most { length text.new ≤ length text.old + 100 }
{
    put_spaces(text, width.saturating_sub(cell.len()));
    text.put(cell);
}

/// Appends a condition's answer: `no` for 0, else `yes`.
pub(crate) fn put_no_or_yes(text: &mut TextBuffer, number: u32)
    requires { length text.old + 40 ≤ CAPACITY }
    ensures text { text.new ≡ text.old ++ no_or_yes number }
    ensures most { length text.new ≤ length text.old + 27 }
{
    if number == 0 {
        text.put(b"no");
    } else {
        text.put(b"yes");
    }
}

/// Appends an answer as people read it.
pub(crate) fn put_label(text: &mut TextBuffer, is_condition: bool, number: u32)
    requires { length text.old + 40 ≤ CAPACITY }
    ensures text { text.new ≡ text.old ++ label is_condition number }
    ensures most { length text.new ≤ length text.old + 27 }
{
    if is_condition {
        put_no_or_yes(text, number);
    } else {
        put_commas(text, u64::from(number));
    }
}

/// Appends an answer as a program reads it.
pub(crate) fn put_plain_label(text: &mut TextBuffer, is_condition: bool, number: u32)
    requires { length text.old + 40 ≤ CAPACITY }
    ensures text { text.new ≡ text.old ++ plain_label is_condition number }
    ensures most { length text.new ≤ length text.old + 27 }
{
    if is_condition {
        put_no_or_yes(text, number);
    } else {
        text.put_number(u64::from(number));
    }
}

/// Appends how many deals a cell has, or `-`.
pub(crate) fn put_or_dash(text: &mut TextBuffer, count: u64)
    requires { length text.old + 40 ≤ CAPACITY }
    ensures text { text.new ≡ text.old ++ or_dash count }
    ensures most { length text.new ≤ length text.old + 27 }
{
    if count == 0 {
        text.put(b"-");
    } else {
        put_commas(text, count);
    }
}
