//! The table of one question.

ghost use Rattle.std.specs.Prelude.{◌≡◌, ◌≤◌, ◌<◌, ◌-◌, ◌^◌, length, slice_index};
ghost use Rattle.std.specs.List.{flat_map};
ghost use Rattle.sinks.specs.Sinks.{AppendsOrBreaksOff, CountsFault};
ghost use Rattle.statistics.specs.internal.Kept.{IsKeptOne};
ghost use Rattle.statistics.specs.internal.Texts.{AreWidths, HasDeals, numbers_in, one_head};
ghost use Rattle.statistics.specs.internal.Texts.{one_row, one_tail, one_text, rows_of_one};

use crate::csv_lines::put_csv_row;
use crate::line_style::LineStyle;
use crate::one::One;
use crate::one_lines::{Row, put_header, put_mean, put_row};
use crate::page::{put_page_header, put_page_mean, put_page_row};
use crate::pieces::{commas_len, first_len, put_piece};
use crate::rows::{Rows, most_of, rows_shown};
use crate::sums::Sums;
use boards::TextBuffer;
use sinks::{Sink, SinkFault};

/// How wide the columns are, and how many deals the longest row has.
#[derive(Clone, Copy, Drop)]
pub(crate) struct Widths {
    first: usize,
    second: usize,
    most: u64,
}

impl One {
    /// Writes the table, with columns of these widths. One for people has a deal.
    ///
    /// # Errors
    /// `SinkFault` if the sink failed: a proper prefix of the table was written.
    pub(crate) fn put<S: Sink>(
        &self,
        style: LineStyle,
        widths: Widths,
        sink: &mut S,
    ) -> Result<(), SinkFault>
        requires deals { HasDeals style self.now.sums.deals }
        requires widths { AreWidths self.now widths }
        requires faults { S.faults sink.old < 2 ^ 64 - 1 }
        ensures bytes { AppendsOrBreaksOff (S.bytes sink.old) (S.bytes sink.new) result
            (one_text style widths self.now) }
        ensures faults { CountsFault (S.faults sink.old) (S.faults sink.new) result }
    {
        put_piece(sink, &self.head(style, widths))?;
        self.put_rows(style, widths, sink)?;
        put_piece(sink, &self.tail(style))
    }

    /// How wide the columns are, and how many deals the longest row has.
    pub(crate) fn widths(&self) -> Widths
        ensures widths { AreWidths self.now result }
        ensures kept { IsKeptOne self.now }
    {
        let most = most_of(&self.counts, self.rows_shown());
        Widths {
            first: first_len(self.is_condition(), self.sums.greatest),
            second: commas_len(most).max(5),
            most,
        }
    }

    /// The numbers that have a row.
    pub(crate) fn rows_shown(&self) -> Rows
        ensures rows { result ≡ rows_of_one self.now }
        ensures within { result.end ≤ length self.now.counts }
    {
        rows_shown(self.is_condition(), &self.sums)
    }

    /// Writes the rows.
    ///
    /// # Errors
    /// `SinkFault` if the sink failed: a proper prefix of the rows was written.
    fn put_rows<S: Sink>(
        &self,
        style: LineStyle,
        widths: Widths,
        sink: &mut S,
    ) -> Result<(), SinkFault>
        requires deals { HasDeals style self.now.sums.deals }
        requires widths { AreWidths self.now widths }
        requires faults { S.faults sink.old < 2 ^ 64 - 1 }
        ensures bytes { AppendsOrBreaksOff (S.bytes sink.old) (S.bytes sink.new) result
            (flat_map (one_row style widths self.now) (numbers_in (rows_of_one self.now))) }
        ensures faults { CountsFault (S.faults sink.old) (S.faults sink.new) result }
    {
        let rows = self.rows_shown();
        for number in rows.first..rows.end {
            put_piece(sink, &self.row(style, widths, number))?;
        }
        Ok(())
    }

    /// The row of a number.
    #[tactic(auto, unfolding(crate::specs::internal::Texts::one_row))]
    fn row(&self, style: LineStyle, widths: Widths, number: u32) -> TextBuffer
        requires deals { HasDeals style self.now.sums.deals }
        requires widths { AreWidths self.now widths }
        requires within { number < length self.now.counts }
        requires most { slice_index self.now.counts number ≤ widths.most }
        ensures { result ≡ one_row style widths self.now number }
    {
        let mut text = TextBuffer::new();
        let shown = Row {
            is_condition: self.is_condition(),
            first: widths.first,
            second: widths.second,
            most: widths.most,
            all: self.sums.deals,
            number,
            count: self.counts[number as usize],
        };
        match style {
            LineStyle::Table => put_row(&mut text, &shown),
            LineStyle::Csv => put_csv_row(&mut text, shown.is_condition, number, shown.count),
            LineStyle::Html => put_page_row(&mut text, &shown),
        }
        text
    }

    /// What comes before the rows: for people the title and the header.
    #[tactic(auto, unfolding(crate::specs::internal::Texts::one_head))]
    fn head(&self, style: LineStyle, widths: Widths) -> TextBuffer
        requires { AreWidths self.now widths }
        ensures { result ≡ one_head style widths self.now }
    {
        let mut text = TextBuffer::new();
        match style {
            LineStyle::Table => {
                text.put(b"\n");
                text.put(self.asked.title.as_bytes());
                text.put(b"\n");
                put_header(&mut text, widths.first, widths.second);
            }
            LineStyle::Csv => text.put(b"value,deals\n"),
            LineStyle::Html => put_page_header(&mut text),
        }
        text
    }

    /// What comes after the rows: for people the mean of a value.
    #[tactic(auto, unfolding(crate::specs::internal::Texts::one_tail))]
    fn tail(&self, style: LineStyle) -> TextBuffer
        requires { HasDeals style self.now.sums.deals }
        ensures { result ≡ one_tail style self.now }
    {
        let mut text = TextBuffer::new();
        let is_condition = self.is_condition();
        let Sums {
            deals,
            sum,
            squares,
            ..
        } = self.sums;
        match style {
            LineStyle::Table => {
                if !is_condition {
                    text.put(b"\n");
                    put_mean(&mut text, deals, sum, squares);
                    text.put(b"\n");
                }
            }
            LineStyle::Csv => {}
            LineStyle::Html => {
                text.put(b"</tbody>\n</table>\n");
                if !is_condition {
                    put_page_mean(&mut text, deals, sum, squares);
                }
            }
        }
        text
    }
}
