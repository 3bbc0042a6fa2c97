//! The lines of comma-separated values.

ghost use Rattle.std.specs.Prelude.{◌≡◌, ◌≤◌, ◌+◌, ◌++◌, codes, decimal, length};
ghost use Rattle.boards.specs.declared.buffer.TheConstants.{CAPACITY};
ghost use Rattle.statistics.specs.Csv.{csv_cell, csv_counts, csv_numbered_row, csv_row};
ghost use Rattle.statistics.specs.Csv.{csv_total};

use crate::numbers::put_plain_label;
use boards::TextBuffer;

/// Appends how many deals there are, of how many candidates.
#[tactic(auto, unfolding(crate::specs::Csv::csv_total))]
pub(crate) fn put_total(text: &mut TextBuffer, deals: u64, candidates: u64)
    requires { length text.old + 100 ≤ CAPACITY }
    ensures text { text.new ≡ text.old ++ csv_total deals candidates }
    ensures most { length text.new ≤ length text.old + 60 }
{
    text.put(b"deals,candidates\n");
    text.put_number(deals);
    text.put(b",");
    text.put_number(candidates);
    text.put(b"\n");
}

/// How many candidates and deals there are, above the lines of several questions.
#[tactic(auto, unfolding(crate::specs::Csv::csv_counts))]
pub(crate) fn counts_text(deals: u64, candidates: u64) -> TextBuffer
    ensures { result ≡ csv_counts deals candidates }
{
    let mut text = TextBuffer::new();
    text.put(b"question,value,deals\n0,candidates,");
    text.put_number(candidates);
    text.put(b"\n0,deals,");
    text.put_number(deals);
    text.put(b"\n");
    text
}

/// Appends the line of a number, if it came, of the question of this number.
pub(crate) fn put_numbered_row(
    text: &mut TextBuffer,
    question: u64,
    is_condition: bool,
    number: u32,
    count: u64,
)
    requires { length text.old + 120 ≤ CAPACITY }
    ensures { text.new ≡ text.old ++ csv_numbered_row question is_condition number count }
{
    if count == 0 {
        return;
    }
    text.put_number(question);
    text.put(b",");
    put_plain_label(text, is_condition, number);
    put_count(text, count);
}

/// Appends the line of a number, if it came.
pub(crate) fn put_csv_row(text: &mut TextBuffer, is_condition: bool, number: u32, count: u64)
    requires { length text.old + 80 ≤ CAPACITY }
    ensures text { text.new ≡ text.old ++ csv_row is_condition number count }
    ensures most { length text.new ≤ length text.old + 50 }
{
    if count == 0 {
        return;
    }
    put_plain_label(text, is_condition, number);
    put_count(text, count);
}

/// Appends the line of a pair of numbers, if it came.
pub(crate) fn put_csv_cell(
    text: &mut TextBuffer,
    of_condition: bool,
    by_condition: bool,
    row: u32,
    column: u32,
    count: u64,
)
    requires { length text.old + 120 ≤ CAPACITY }
    ensures text { text.new ≡ text.old
        ++ csv_cell (record { of_condition = of_condition; by_condition = by_condition })
        row column count }
    ensures most { length text.new ≤ length text.old + 80 }
{
    if count == 0 {
        return;
    }
    put_plain_label(text, of_condition, row);
    text.put(b",");
    put_plain_label(text, by_condition, column);
    put_count(text, count);
}

/// Appends a comma, how many deals there are, and the end of the line.
fn put_count(text: &mut TextBuffer, count: u64)
    requires { length text.old + 30 ≤ CAPACITY }
    ensures text { text.new ≡ text.old ++ (codes "," ++ decimal count ++ codes "\n") }
    ensures most { length text.new ≤ length text.old + 22 }
{
    text.put(b",");
    text.put_number(count);
    text.put(b"\n");
}
