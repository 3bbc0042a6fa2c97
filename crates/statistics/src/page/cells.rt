//! The table of two questions on a page: what its lines begin and end with, and its cells.

ghost use Rattle.std.specs.Prelude.{◌≡◌, ◌≤◌, ◌+◌, ◌++◌, length};
ghost use Rattle.boards.specs.declared.buffer.TheConstants.{CAPACITY};
ghost use Rattle.statistics.specs.Page.{column_head, line_head, line_tail, plain, shaded};

use crate::fractions::{Digits, put_fraction};
use crate::numbers::put_commas;
use boards::TextBuffer;

/// What comes before the heads of the columns.
pub(crate) const COLUMNS_HEAD: &[u8] =
    b"<div>\n<table class=\"cells\">\n<thead><tr><th scope=\"col\">value</th>";

/// The head of the last column, and what comes before the rows.
pub(crate) const COLUMNS_TAIL: &[u8] =
    b"<th scope=\"col\" class=\"all\">all</th></tr></thead>\n<tbody>\n";

/// What is between the rows and the line `all`.
pub(crate) const TOTALS_HEAD: &[u8] = b"</tbody>\n<tfoot>\n";

/// What closes the table.
pub(crate) const TOTALS_TAIL: &[u8] = b"</tfoot>\n</table>\n</div>\n";

/// Appends the head of a column.
pub(crate) fn put_column_head(text: &mut TextBuffer, cell: &[u8])
    requires { length text.old + length cell.now + 30 ≤ CAPACITY }
    ensures text { text.new ≡ text.old ++ column_head cell.now }
    ensures most { length text.new ≤ length text.old + length cell.now + 30 }
{
    text.put(b"<th scope=\"col\">");
    text.put(cell);
    text.put(b"</th>");
}

/// Appends what a line begins with: its first column.
pub(crate) fn put_line_head(text: &mut TextBuffer, first: &[u8])
    requires { length text.old + length first.now + 30 ≤ CAPACITY }
    ensures text { text.new ≡ text.old ++ line_head first.now }
    ensures most { length text.new ≤ length text.old + length first.now + 30 }
{
    text.put(b"<tr><th scope=\"row\">");
    text.put(first);
    text.put(b"</th>");
}

/// Appends a cell.
pub(crate) fn put_plain(text: &mut TextBuffer, cell: &[u8])
    requires { length text.old + length cell.now + 30 ≤ CAPACITY }
    ensures text { text.new ≡ text.old ++ plain cell.now }
    ensures most { length text.new ≤ length text.old + length cell.now + 30 }
{
    text.put(b"<td>");
    text.put(cell);
    text.put(b"</td>");
}

/// Appends a cell, shaded by its share of the most.
pub(crate) fn put_shaded(text: &mut TextBuffer, most: u64, count: u64)
    requires most { count ≤ most }
    requires room { length text.old + 150 ≤ CAPACITY }
    ensures text { text.new ≡ text.old ++ shaded most count }
    ensures most { length text.new ≤ length text.old + 100 }
{
    if count == 0 {
        text.put(b"<td>-</td>");
        return;
    }
    text.put(b"<td style=\"--share:");
    put_fraction(text, Digits::Two, u128::from(count), u128::from(most));
    text.put(b"\">");
    put_commas(text, count);
    text.put(b"</td>");
}

/// Appends what a line ends with: its last column.
pub(crate) fn put_line_tail(text: &mut TextBuffer, last: &[u8])
    requires { length text.old + length last.now + 30 ≤ CAPACITY }
    ensures text { text.new ≡ text.old ++ line_tail last.now }
    ensures most { length text.new ≤ length text.old + length last.now + 30 }
{
    text.put(b"<td class=\"all\">");
    text.put(last);
    text.put(b"</td></tr>\n");
}
