//! The table of one question on a page: its header, its rows with their bars, and its mean.

ghost use Rattle.std.specs.Prelude.{◌≡◌, ◌≤◌, ◌<◌, ◌+◌, ◌*◌, ◌^◌, ◌++◌, codes, length};
ghost use Rattle.boards.specs.declared.buffer.TheConstants.{CAPACITY};
ghost use Rattle.statistics.specs.Counting.{most_counted};
ghost use Rattle.statistics.specs.internal.Kept.{most_squared};
ghost use Rattle.statistics.specs.OneQuestion.{mean_text};
ghost use Rattle.statistics.specs.Page.{page_bar, page_header, page_row};

use crate::fractions::put_per_cent;
use crate::numbers::{put_commas, put_label};
use crate::one_lines::{Row, put_mean};
use boards::TextBuffer;

/// Appends the header.
#[tactic(auto, unfolding(crate::specs::Page::page_header))]
pub(crate) fn put_page_header(text: &mut TextBuffer)
    requires { length text.old + 200 ≤ CAPACITY }
    ensures text { text.new ≡ text.old ++ page_header }
    ensures most { length text.new ≤ length text.old + 200 }
{
    text.put(
        b"<table class=\"bars\">\n<thead><tr><th scope=\"col\">value</th>\
        <th scope=\"col\">deals</th><th scope=\"col\">%</th><td></td></tr></thead>\n<tbody>\n",
    );
}

/// Appends the row, whose columns on a page have no widths.
#[tactic(auto, unfolding(crate::specs::Page::page_row))]
pub(crate) fn put_page_row(text: &mut TextBuffer, shown: &Row)
    requires deals { 0 < shown.now.all }
    requires all { shown.now.all ≤ 2 ^ 40 }
    requires count { shown.now.count ≤ shown.now.all }
    requires most { shown.now.count ≤ shown.now.most }
    requires room { length text.old + 400 ≤ CAPACITY }
    ensures text { text.new ≡ text.old ++ page_row shown.now.is_condition shown.now.most
        shown.now.all shown.now.number shown.now.count }
    ensures most { length text.new ≤ length text.old + 350 }
{
    text.put(b"<tr><th scope=\"row\">");
    put_label(text, shown.is_condition, shown.number);
    text.put(b"</th><td>");
    put_commas(text, shown.count);
    text.put(b"</td><td>");
    put_per_cent(text, shown.count, shown.all);
    text.put(b"</td><td class=\"bar\">");
    put_page_bar(text, shown.count, shown.most);
    text.put(b"</td></tr>\n");
}

/// Appends the bar, as wide as its share of the longest, if there is a deal.
fn put_page_bar(text: &mut TextBuffer, count: u64, most: u64)
    requires most { count ≤ most }
    requires room { length text.old + 100 ≤ CAPACITY }
    ensures text { text.new ≡ text.old ++ page_bar count most }
    ensures most { length text.new ≤ length text.old + 70 }
{
    if count == 0 {
        return;
    }
    text.put(b"<i style=\"width:");
    put_per_cent(text, count, most);
    text.put(b"%\"></i>");
}

/// Appends the mean and the standard deviation of some answers, as a paragraph.
pub(crate) fn put_page_mean(text: &mut TextBuffer, deals: u64, total: u64, squared: u128)
    requires some { 0 < deals }
    requires deals { deals ≤ 2 ^ 40 }
    requires total { total ≤ deals * most_counted }
    requires squared { squared ≤ deals * most_squared }
    requires room { length text.old + 250 ≤ CAPACITY }
    ensures text { text.new
        ≡ text.old ++ (codes "<p>" ++ mean_text deals total squared ++ codes "</p>\n") }
    ensures most { length text.new ≤ length text.old + 130 }
{
    text.put(b"<p>");
    put_mean(text, deals, total, squared);
    text.put(b"</p>\n");
}
