//! The lines of a table of one question, and its mean.

ghost use Rattle.std.specs.Prelude.{◌≡◌, ◌≤◌, ◌<◌, ◌+◌, ◌*◌, ◌/◌, ◌^◌, [], ◌++◌, codes};
ghost use Rattle.std.specs.Prelude.{length};
ghost use Rattle.boards.specs.declared.buffer.TheConstants.{CAPACITY};
ghost use Rattle.statistics.specs.Counting.{most_counted};
ghost use Rattle.statistics.specs.internal.Kept.{most_squared};
ghost use Rattle.statistics.specs.Columns.{commas, label, right};
ghost use Rattle.statistics.specs.OneQuestion.{bar, bar_len, blocks, deviation, line, mean_text};
ghost use Rattle.statistics.specs.OneQuestion.{row};
ghost use Rattle.statistics.specs.Rounded.{fraction};

use crate::fractions::{Digits, put_fraction, put_per_cent, put_with_point, rounded, whole_root};
use crate::numbers::{put_commas, put_label, put_right};
use boards::TextBuffer;

/// How many blocks the longest row's bar has.
const LONGEST_BAR: u64 = 40;

/// What the row of a number tells, and how wide its columns are.
#[derive(Drop)]
pub(crate) struct Row {
    pub(crate) is_condition: bool,
    pub(crate) first: usize,
    pub(crate) second: usize,
    pub(crate) most: u64,
    pub(crate) all: u64,
    pub(crate) number: u32,
    pub(crate) count: u64,
}

/// Appends the header, with columns of these widths.
pub(crate) fn put_header(text: &mut TextBuffer, first: usize, second: usize)
    requires first { first ≤ 100 }
    requires second { second ≤ 100 }
    requires room { length text.old + 400 ≤ CAPACITY }
    ensures text { text.new
        ≡ text.old ++ line first second (codes "value") (codes "deals") (codes "%") [] }
    ensures most { length text.new ≤ length text.old + 305 }
{
    put_right(text, first, b"value");
    text.put(b"  ");
    put_right(text, second, b"deals");
    text.put(b"  ");
    put_right(text, 6, b"%");
    text.put(b"\n");
}

/// Appends the row.
pub(crate) fn put_row(text: &mut TextBuffer, shown: &Row)
    requires first { shown.now.first ≤ 100 }
    requires second { shown.now.second ≤ 100 }
    requires deals { 0 < shown.now.all }
    requires all { shown.now.all ≤ 2 ^ 40 }
    requires count { shown.now.count ≤ shown.now.all }
    requires most { shown.now.count ≤ shown.now.most }
    requires room { length text.old + 550 ≤ CAPACITY }
    ensures text { text.new ≡ text.old ++ row shown.now.is_condition shown.now.first
        shown.now.second shown.now.most shown.now.all shown.now.number shown.now.count }
    ensures most { length text.new ≤ length text.old + 427 }
{
    put_answer(text, shown.first, shown.is_condition, shown.number);
    text.put(b"  ");
    put_deals(text, shown.second, shown.count);
    text.put(b"  ");
    put_share(text, shown.count, shown.all);
    put_bar(text, shown.count, shown.most);
    text.put(b"\n");
}

/// Appends the answer at the right of a column.
fn put_answer(text: &mut TextBuffer, width: usize, is_condition: bool, number: u32)
    requires width { width ≤ 100 }
    requires room { length text.old + 110 ≤ CAPACITY }
    ensures text { text.new ≡ text.old ++ right width (label is_condition number) }
    ensures most { length text.new ≤ length text.old + 100 }
{
    let mut cell = TextBuffer::new();
    put_label(&mut cell, is_condition, number);
    put_right(text, width, cell.as_bytes());
}

/// Appends a number of deals at the right of a column.
fn put_deals(text: &mut TextBuffer, width: usize, deals: u64)
    requires width { width ≤ 100 }
    requires room { length text.old + 110 ≤ CAPACITY }
    ensures text { text.new ≡ text.old ++ right width (commas deals) }
    ensures most { length text.new ≤ length text.old + 100 }
{
    let mut cell = TextBuffer::new();
    put_commas(&mut cell, deals);
    put_right(text, width, cell.as_bytes());
}

/// Appends the deals per cent of all at the right of a column of six.
fn put_share(text: &mut TextBuffer, deals: u64, all: u64)
    requires some { 0 < all }
    requires deals { deals ≤ all }
    requires room { length text.old + 110 ≤ CAPACITY }
    ensures text { text.new ≡ text.old ++ right 6 (fraction 2 (100 * deals) all) }
    ensures most { length text.new ≤ length text.old + 100 }
{
    let mut cell = TextBuffer::new();
    put_per_cent(&mut cell, deals, all);
    put_right(text, 6, cell.as_bytes());
}

/// Appends two spaces and the bar, if the row has a deal.
pub(crate) fn put_bar(text: &mut TextBuffer, count: u64, most: u64)
    requires most { count ≤ most }
    requires room { length text.old + 200 ≤ CAPACITY }
    ensures text { text.new ≡ text.old ++ bar count most }
    ensures most { length text.new ≤ length text.old + 122 }
{
    if count == 0 {
        return;
    }
    text.put(b"  ");
    put_blocks(text, bar_len(count, most));
}

/// Returns how many blocks the bar of some deals has.
fn bar_len(count: u64, most: u64) -> usize
    requires some { 0 < count }
    requires most { count ≤ most }
    ensures value { result ≡ bar_len count most }
    ensures few { result ≤ 40 }
{
    let blocks = rounded(
        u128::from(LONGEST_BAR) * u128::from(count),
        u128::from(most),
    );
    (blocks as usize).max(1)
}

/// Appends this many blocks.
#[tactic(auto, using(crate::proofs::Appending::blocks_more))]
fn put_blocks(text: &mut TextBuffer, count: usize)
    requires few { count ≤ 40 }
    requires room { length text.old + 120 ≤ CAPACITY }
    ensures text { text.new ≡ text.old ++ blocks count }
    ensures len { length text.new ≡ length text.old + 3 * count }
{
    for _block in 0..count {
        text.put(b"\xE2\x96\x88");
    }
}

/// Appends the mean and the standard deviation of some answers, of which these are the number,
/// the sum and the sum of the squares.
#[tactic(auto, unfolding(crate::specs::OneQuestion::mean_text))]
pub(crate) fn put_mean(text: &mut TextBuffer, deals: u64, total: u64, squared: u128)
    requires some { 0 < deals }
    requires deals { deals ≤ 2 ^ 40 }
    requires total { total ≤ deals * most_counted }
    requires squared { squared ≤ deals * most_squared }
    requires room { length text.old + 200 ≤ CAPACITY }
    ensures text { text.new ≡ text.old ++ mean_text deals total squared }
    ensures most { length text.new ≤ length text.old + 106 }
{
    text.put(b"mean ");
    put_fraction(text, Digits::Three, u128::from(total), u128::from(deals));
    text.put(b", standard deviation ");
    put_with_point(
        text,
        Digits::Three,
        deviation(u128::from(deals), u128::from(total), squared),
    );
}

/// Returns the standard deviation of some answers, as a number of thousandths.
#[tactic(auto, unfolding(crate::specs::OneQuestion::deviation))]
fn deviation(deals: u128, total: u128, squared: u128) -> u64
    requires some { 0 < deals }
    requires deals { deals ≤ 2 ^ 40 }
    requires total { total ≤ deals * most_counted }
    requires squared { squared ≤ deals * most_squared }
    ensures { result ≡ deviation deals total squared }
{
    let spread = (deals * squared).saturating_sub(total * total);
    whole_root(millionths(spread, deals * deals))
}

/// Returns a million times the spread, divided by the divisor and rounded down.
fn millionths(spread: u128, divisor: u128) -> u128
    requires divisor { 0 < divisor }
    requires below { divisor ≤ 2 ^ 80 }
    requires whole { spread ≤ divisor * most_squared }
    ensures value { result ≡ 10 ^ 6 * spread / divisor }
    ensures most { result < 2 ^ 68 }
{
    let whole = 1_000_000 * (spread / divisor);
    whole + 1_000_000 * (spread % divisor) / divisor
}
