//! The table of two questions.

ghost use Rattle.std.specs.Prelude.{◌≡◌, ◌≤◌, ◌<◌, ◌+◌, ◌-◌, ◌*◌, ◌^◌, ◌++◌, length};
ghost use Rattle.std.specs.List.{flat_map};
ghost use Rattle.sinks.specs.Sinks.{AppendsOrBreaksOff, CountsFault};
ghost use Rattle.statistics.specs.Counting.{most_counted};
ghost use Rattle.statistics.specs.internal.Kept.{IsKeptTwo, cell_at};
ghost use Rattle.statistics.specs.internal.Lines.{CanShade, IsLine, all_kept, bottom_kept};
ghost use Rattle.statistics.specs.internal.Lines.{cell_in_columns, cell_piece, cell_text};
ghost use Rattle.statistics.specs.internal.Lines.{cells_kept, column_kept, deals_at};
ghost use Rattle.statistics.specs.internal.Lines.{end_in_columns, end_piece, first_text, last_text};
ghost use Rattle.statistics.specs.internal.Lines.{line_text, row_of, start_in_columns};
ghost use Rattle.statistics.specs.internal.Lines.{start_piece, title_line, top_kept, total_at};
ghost use Rattle.statistics.specs.internal.Lines.{totals_kept, two_row, two_text};
ghost use Rattle.statistics.specs.internal.PageLines.{columns_of_two};
ghost use Rattle.statistics.specs.internal.Texts.{numbers_in, rows_of_one};

use crate::cells::put_mean_or_dash;
use crate::csv_lines::put_csv_cell;
use crate::line_style::LineStyle;
use crate::numbers::{put_label, put_or_dash, put_right};
use crate::page::{TOTALS_HEAD, TOTALS_TAIL};
use crate::pieces::{first_len, put_piece};
use crate::rows::{Rows, rows_shown};
use crate::two::Two;
use crate::two::page::PageLine;
use boards::TextBuffer;
use sinks::{Sink, SinkFault, put_all};

/// What a line tells.
#[derive(Clone, Copy, Drop)]
pub(crate) enum Line {
    /// The numbers of the columns.
    Header,
    /// How many deals a row has in each column.
    Row(u32),
    /// How many deals each column has.
    All,
    /// The mean of each column.
    Mean,
    /// The cells of a row that have deals, each on a line of its own, as comma-separated values.
    CsvRow(u32),
    /// A line of a page.
    Page(PageLine),
}

impl Line {
    /// The line of a number, where a cell has at most this many deals.
    fn of_row(style: LineStyle, most: u64, number: u32) -> Line
        ensures { result ≡ row_of style most number }
    {
        match style {
            LineStyle::Table => Line::Row(number),
            LineStyle::Csv => Line::CsvRow(number),
            LineStyle::Html => Line::Page(PageLine::Cells(number, most)),
        }
    }
}

impl Two {
    /// Writes the table.
    ///
    /// # Errors
    /// `SinkFault` if the sink failed: a proper prefix of the table was written.
    pub(crate) fn put<S: Sink>(&self, style: LineStyle, sink: &mut S) -> Result<(), SinkFault>
        requires { S.faults sink.old < 2 ^ 64 - 1 }
        ensures bytes { AppendsOrBreaksOff (S.bytes sink.old) (S.bytes sink.new) result
            (two_text self.now style) }
        ensures faults { CountsFault (S.faults sink.old) (S.faults sink.new) result }
        ensures kept { IsKeptTwo self.now }
    {
        let _ = &self.cells;
        self.put_top(style, sink)?;
        self.put_rows(style, sink)?;
        self.put_bottom(style, sink)
    }

    /// Writes what comes before the rows.
    ///
    /// # Errors
    /// `SinkFault` if the sink failed: a proper prefix of it was written.
    #[tactic(auto, unfolding(crate::specs::internal::Lines::top_kept))]
    fn put_top<S: Sink>(&self, style: LineStyle, sink: &mut S) -> Result<(), SinkFault>
        requires { S.faults sink.old < 2 ^ 64 - 1 }
        ensures bytes { AppendsOrBreaksOff (S.bytes sink.old) (S.bytes sink.new) result
            (top_kept self.now style) }
        ensures faults { CountsFault (S.faults sink.old) (S.faults sink.new) result }
    {
        match style {
            LineStyle::Table => {
                put_piece(sink, &self.title_line())?;
                self.put_line(Line::Header, sink)
            }
            LineStyle::Csv => {
                let mut header = TextBuffer::new();
                header.put(b"value,by,deals\n");
                put_piece(sink, &header)
            }
            LineStyle::Html => self.put_line(Line::Page(PageLine::Heads), sink),
        }
    }

    /// Writes what comes after the rows.
    ///
    /// # Errors
    /// `SinkFault` if the sink failed: a proper prefix of it was written.
    #[tactic(auto, unfolding(crate::specs::internal::Lines::bottom_kept))]
    fn put_bottom<S: Sink>(&self, style: LineStyle, sink: &mut S) -> Result<(), SinkFault>
        requires { S.faults sink.old < 2 ^ 64 - 1 }
        ensures bytes { AppendsOrBreaksOff (S.bytes sink.old) (S.bytes sink.new) result
            (bottom_kept self.now style) }
        ensures faults { CountsFault (S.faults sink.old) (S.faults sink.new) result }
    {
        match style {
            LineStyle::Table => self.put_totals(Line::All, Line::Mean, sink),
            LineStyle::Csv => Ok(()),
            LineStyle::Html => self.put_page_totals(sink),
        }
    }

    /// Writes what comes after the rows of a page.
    ///
    /// # Errors
    /// `SinkFault` if the sink failed: a proper prefix of it was written.
    fn put_page_totals<S: Sink>(&self, sink: &mut S) -> Result<(), SinkFault>
        requires { S.faults sink.old < 2 ^ 64 - 1 }
        ensures bytes { AppendsOrBreaksOff (S.bytes sink.old) (S.bytes sink.new) result
            (bottom_kept self.now LineStyle.Html) }
        ensures faults { CountsFault (S.faults sink.old) (S.faults sink.new) result }
    {
        put_all(sink, TOTALS_HEAD)?;
        let (all, mean) = (PageLine::Totals, PageLine::Means);
        self.put_totals(Line::Page(all), Line::Page(mean), sink)?;
        put_all(sink, TOTALS_TAIL)
    }

    /// Writes the line `all`, and of a value `mean`.
    ///
    /// # Errors
    /// `SinkFault` if the sink failed: a proper prefix of it was written.
    fn put_totals<S: Sink>(&self, all: Line, mean: Line, sink: &mut S) -> Result<(), SinkFault>
        requires all { IsLine self.now all }
        requires mean { IsLine self.now mean }
        requires faults { S.faults sink.old < 2 ^ 64 - 1 }
        ensures bytes { AppendsOrBreaksOff (S.bytes sink.old) (S.bytes sink.new) result
            (totals_kept self.now all mean) }
        ensures faults { CountsFault (S.faults sink.old) (S.faults sink.new) result }
    {
        self.put_line(all, sink)?;
        if self.of.is_condition() {
            Ok(())
        } else {
            self.put_line(mean, sink)
        }
    }

    /// Writes the rows.
    ///
    /// # Errors
    /// `SinkFault` if the sink failed: a proper prefix of the rows was written.
    fn put_rows<S: Sink>(&self, style: LineStyle, sink: &mut S) -> Result<(), SinkFault>
        requires { S.faults sink.old < 2 ^ 64 - 1 }
        ensures bytes { AppendsOrBreaksOff (S.bytes sink.old) (S.bytes sink.new) result
            (flat_map (two_row self.now style) (numbers_in (rows_of_one self.now.of))) }
        ensures faults { CountsFault (S.faults sink.old) (S.faults sink.new) result }
    {
        let most = self.most(style);
        let rows = self.of.rows_shown();
        for number in rows.first..rows.end {
            self.put_line(Line::of_row(style, most, number), sink)?;
        }
        Ok(())
    }

    /// Writes a line.
    ///
    /// # Errors
    /// `SinkFault` if the sink failed: a proper prefix of the line was written.
    fn put_line<S: Sink>(&self, line: Line, sink: &mut S) -> Result<(), SinkFault>
        requires line { IsLine self.now line }
        requires faults { S.faults sink.old < 2 ^ 64 - 1 }
        ensures bytes { AppendsOrBreaksOff (S.bytes sink.old) (S.bytes sink.new) result
            (line_text self.now line) }
        ensures faults { CountsFault (S.faults sink.old) (S.faults sink.new) result }
    {
        put_piece(sink, &self.start_piece(line))?;
        self.put_cells(line, sink)?;
        put_piece(sink, &self.end_piece(line))
    }

    /// Writes what a line has of each column.
    ///
    /// # Errors
    /// `SinkFault` if the sink failed: a proper prefix of it was written.
    fn put_cells<S: Sink>(&self, line: Line, sink: &mut S) -> Result<(), SinkFault>
        requires line { IsLine self.now line }
        requires faults { S.faults sink.old < 2 ^ 64 - 1 }
        ensures bytes { AppendsOrBreaksOff (S.bytes sink.old) (S.bytes sink.new) result
            (flat_map (cell_piece self.now line) (numbers_in (columns_of_two self.now))) }
        ensures faults { CountsFault (S.faults sink.old) (S.faults sink.new) result }
    {
        let columns = self.columns_shown();
        for column in columns.first..columns.end {
            put_piece(sink, &self.cell_piece(line, column))?;
        }
        Ok(())
    }

    /// The numbers that have a column.
    pub(crate) fn columns_shown(&self) -> Rows
        ensures rows { result ≡ columns_of_two self.now }
        ensures within { result.end ≤ length self.now.column_deals }
    {
        rows_shown(self.by.question.is_condition(), &self.by_sums)
    }

    /// The line of the titles.
    #[tactic(auto, unfolding(crate::specs::internal::Lines::title_line))]
    fn title_line(&self) -> TextBuffer
        ensures { result ≡ title_line self.now }
    {
        let mut text = TextBuffer::new();
        text.put(b"\n");
        text.put(self.of.title());
        text.put(b" by ");
        text.put(self.by.title.as_bytes());
        text.put(b"\n");
        text
    }

    /// What a line begins with.
    #[tactic(auto, unfolding(crate::specs::internal::Lines::start_piece))]
    fn start_piece(&self, line: Line) -> TextBuffer
        ensures { result ≡ start_piece self.now line }
    {
        match line {
            Line::CsvRow(_) => TextBuffer::new(),
            Line::Page(line) => self.page_start(line),
            Line::Header | Line::Row(_) | Line::All | Line::Mean => self.start_in_columns(line),
        }
    }

    /// What a line in columns begins with.
    fn start_in_columns(&self, line: Line) -> TextBuffer
        ensures { result ≡ start_in_columns self.now line }
    {
        let mut piece = TextBuffer::new();
        let first = self.first_text(line);
        let sums = self.of.sums();
        let width = first_len(self.of.is_condition(), sums.greatest);
        put_right(&mut piece, width, first.as_bytes());
        piece
    }

    /// What is in a line's first column.
    #[tactic(auto, unfolding(crate::specs::internal::Lines::first_text))]
    fn first_text(&self, line: Line) -> TextBuffer
        ensures text { result ≡ first_text self.now line }
        ensures few { length result ≤ 100 }
    {
        let mut text = TextBuffer::new();
        match line {
            Line::Header => text.put(b"value"),
            Line::Row(number) => put_label(&mut text, self.of.is_condition(), number),
            Line::All => text.put(b"all"),
            Line::Mean => text.put(b"mean"),
            Line::CsvRow(_) | Line::Page(_) => {}
        }
        text
    }

    /// What a line has of a column.
    #[tactic(auto, unfolding(crate::specs::internal::Lines::cell_piece))]
    fn cell_piece(&self, line: Line, column: u32) -> TextBuffer
        requires line { IsLine self.now line }
        requires column { column < length self.now.column_deals }
        requires shaded { CanShade self.now line column }
        ensures { result ≡ cell_piece self.now line column }
    {
        match line {
            Line::CsvRow(_) => self.cell_text(line, column),
            Line::Page(line) => self.page_cell(line, column),
            Line::Header | Line::Row(_) | Line::All | Line::Mean => {
                self.cell_in_columns(line, column)
            }
        }
    }

    /// What a line in columns has of a column.
    fn cell_in_columns(&self, line: Line, column: u32) -> TextBuffer
        requires line { IsLine self.now line }
        requires column { column < length self.now.column_deals }
        ensures { result ≡ cell_in_columns self.now line column }
    {
        let cell = self.cell_text(line, column);
        let mut piece = TextBuffer::new();
        piece.put(b"  ");
        put_right(&mut piece, self.column_width(column), cell.as_bytes());
        piece
    }

    /// What is in the column of a number.
    #[tactic(auto, unfolding(crate::specs::internal::Lines::cell_text))]
    fn cell_text(&self, line: Line, column: u32) -> TextBuffer
        requires line { IsLine self.now line }
        requires column { column < length self.now.column_deals }
        ensures text { result ≡ cell_text self.now line column }
        ensures few { length result ≤ 100 }
    {
        let by_condition = self.by.question.is_condition();
        let deals = self.column_deals[column as usize];
        let mut text = TextBuffer::new();
        match line {
            Line::Header => put_label(&mut text, by_condition, column),
            Line::Row(row) => put_or_dash(&mut text, self.cell(row, column)),
            Line::All => put_or_dash(&mut text, deals),
            Line::Mean => put_mean_or_dash(&mut text, deals, self.column_sums[column as usize]),
            Line::CsvRow(row) => {
                let of_condition = self.of.is_condition();
                let count = self.cell(row, column);
                put_csv_cell(&mut text, of_condition, by_condition, row, column, count);
            }
            Line::Page(_) => {}
        }
        text
    }

    /// How many deals the cell has.
    pub(crate) fn cell(&self, row: u32, column: u32) -> u64
        requires row { row < length self.now.of.counts }
        requires column { column < length self.now.column_deals }
        ensures { result ≡ cell_at self.now row column }
    {
        self.cells[row as usize * self.column_deals.len() + column as usize]
    }

    /// What a line ends with.
    #[tactic(auto, unfolding(crate::specs::internal::Lines::end_piece))]
    fn end_piece(&self, line: Line) -> TextBuffer
        requires { IsLine self.now line }
        ensures { result ≡ end_piece self.now line }
    {
        match line {
            Line::CsvRow(_) => TextBuffer::new(),
            Line::Page(line) => self.page_end(line),
            Line::Header | Line::Row(_) | Line::All | Line::Mean => self.end_in_columns(line),
        }
    }

    /// What a line in columns ends with.
    fn end_in_columns(&self, line: Line) -> TextBuffer
        requires { IsLine self.now line }
        ensures { result ≡ end_in_columns self.now line }
    {
        let mut piece = TextBuffer::new();
        let last = self.last_text(line);
        piece.put(b"  ");
        put_right(&mut piece, self.all_width(), last.as_bytes());
        piece.put(b"\n");
        piece
    }

    /// What is in the last column.
    #[tactic(auto, unfolding(crate::specs::internal::Lines::last_text))]
    fn last_text(&self, line: Line) -> TextBuffer
        requires { IsLine self.now line }
        ensures text { result ≡ last_text self.now line }
        ensures few { length result ≤ 100 }
    {
        let sums = self.of.sums();
        let mut text = TextBuffer::new();
        match line {
            Line::Header => text.put(b"all"),
            Line::Row(row) => put_or_dash(&mut text, self.of.count_of(row)),
            Line::All => put_or_dash(&mut text, sums.deals),
            Line::Mean => put_mean_or_dash(&mut text, sums.deals, sums.sum),
            Line::CsvRow(_) | Line::Page(_) => {}
        }
        text
    }

    /// How wide the column of a number is.
    #[tactic(auto, unfolding(crate::specs::internal::Lines::column_kept))]
    fn column_width(&self, column: u32) -> usize
        requires { column < length self.now.column_deals }
        ensures value { result ≡ column_kept self.now column }
        ensures few { result ≤ 100 }
    {
        let mut header = TextBuffer::new();
        put_label(&mut header, self.by.question.is_condition(), column);
        let deals = self.column_deals[column as usize];
        let total = self.column_sums[column as usize];
        header
            .len()
            .max(cells_width(self.of.is_condition(), deals, total))
    }

    /// How wide the column of all deals is.
    #[tactic(auto, unfolding(crate::specs::internal::Lines::all_kept))]
    fn all_width(&self) -> usize
        ensures value { result ≡ all_kept self.now }
        ensures few { result ≤ 100 }
    {
        let sums = self.of.sums();
        cells_width(self.of.is_condition(), sums.deals, sums.sum).max(3)
    }
}

/// How wide the cells of a column are with this many deals and this sum.
fn cells_width(is_condition: bool, deals: u64, total: u64) -> usize
    requires deals { deals ≤ 2 ^ 40 }
    requires total { total ≤ deals * most_counted }
    ensures value { result ≡ cells_kept is_condition deals total }
    ensures few { result ≤ 40 }
{
    let mut text = TextBuffer::new();
    put_or_dash(&mut text, deals);
    if is_condition {
        return text.len();
    }
    let mut mean = TextBuffer::new();
    put_mean_or_dash(&mut mean, deals, total);
    text.len().max(mean.len())
}
