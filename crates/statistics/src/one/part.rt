//! One of several questions.

ghost use Rattle.std.specs.Prelude.{◌≡◌, ◌<◌, ◌-◌, ◌++◌, ◌^◌, ℕ, List, length};
ghost use Rattle.std.specs.List.{flat_map};
ghost use Rattle.sinks.specs.Sinks.{AppendsOrBreaksOff, CountsFault};
ghost use Rattle.statistics.specs.Counting.{part_text};
ghost use Rattle.statistics.specs.Page.{page_heading};
ghost use Rattle.statistics.specs.internal.Kept.{CountsOne, IsKeptOne};
ghost use Rattle.statistics.specs.internal.Parts.{TellsDeals, comma_before, numbered_kept};
ghost use Rattle.statistics.specs.internal.Texts.{numbers_in, rows_of_one};

use crate::csv_lines::put_numbered_row;
use crate::line_style::LineStyle;
use crate::one::One;
use crate::pieces::put_piece;
use boards::html::put_escaped;
use boards::{TableStyle, TextBuffer};
use sinks::{Sink, SinkFault};

impl One {
    /// Writes what is told of the question, which has this number among several. A table for people
    /// has a deal.
    ///
    /// # Errors
    /// `SinkFault` if the sink failed: a proper prefix of the text was written.
    pub(crate) fn put_part<S: Sink>(
        &self,
        style: TableStyle,
        number: u64,
        sink: &mut S,
    ) -> Result<(), SinkFault>
        requires deals { TellsDeals style self.now.sums.deals }
        requires faults { S.faults sink.old < 2 ^ 64 - 1 }
        ensures bytes { (answers : List ℕ) → CountsOne self.now answers
            → AppendsOrBreaksOff (S.bytes sink.old) (S.bytes sink.new) result
            (part_text style number self.now.asked answers) }
        ensures faults { CountsFault (S.faults sink.old) (S.faults sink.new) result }
    {
        match style {
            TableStyle::Table => self.put(LineStyle::Table, self.widths(), sink),
            TableStyle::Csv => self.put_numbered(number, sink),
            TableStyle::Html => {
                put_piece(sink, &self.heading())?;
                self.put(LineStyle::Html, self.widths(), sink)
            }
            TableStyle::Json => {
                put_piece(sink, &comma_before(number))?;
                self.put_json(sink)
            }
        }
    }

    /// The title above a table of a page.
    fn heading(&self) -> TextBuffer
        ensures { result ≡ page_heading self.now.asked.title }
    {
        let mut text = TextBuffer::new();
        text.put(b"<h2>");
        put_escaped(&mut text, self.title());
        text.put(b"</h2>\n");
        text
    }

    /// Writes a line for each number that came, with the number of the question.
    ///
    /// # Errors
    /// `SinkFault` if the sink failed: a proper prefix of the lines was written.
    fn put_numbered<S: Sink>(&self, question: u64, sink: &mut S) -> Result<(), SinkFault>
        requires { S.faults sink.old < 2 ^ 64 - 1 }
        ensures bytes { AppendsOrBreaksOff (S.bytes sink.old) (S.bytes sink.new) result
            (flat_map (numbered_kept question self.now) (numbers_in (rows_of_one self.now))) }
        ensures faults { CountsFault (S.faults sink.old) (S.faults sink.new) result }
        ensures kept { IsKeptOne self.now }
    {
        let _ = &self.counts;
        let rows = self.rows_shown();
        for number in rows.first..rows.end {
            put_piece(sink, &self.numbered_row(question, number))?;
        }
        Ok(())
    }

    /// The line of a number, with the number of the question.
    fn numbered_row(&self, question: u64, number: u32) -> TextBuffer
        requires { number < length self.now.counts }
        ensures { result ≡ numbered_kept question self.now number }
    {
        let mut text = TextBuffer::new();
        let count = self.count_of(number);
        put_numbered_row(&mut text, question, self.is_condition(), number, count);
        text
    }
}

/// The comma before a question, unless it is the first.
fn comma_before(number: u64) -> TextBuffer
    ensures { result ≡ comma_before number }
{
    let mut text = TextBuffer::new();
    if number != 1 {
        text.put(b",");
    }
    text
}
