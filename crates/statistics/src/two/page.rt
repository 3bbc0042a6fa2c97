//! The lines of a table of two questions on a page.

ghost use Rattle.std.specs.Prelude.{◌≡◌, ◌≤◌, ◌<◌, ◌^◌, length};
ghost use Rattle.statistics.specs.internal.Kept.{cell_at};
ghost use Rattle.statistics.specs.internal.PageLines.{IsPageLine, IsShaded, most_for, most_in_row};
ghost use Rattle.statistics.specs.internal.PageLines.{most_kept, page_cell, page_end, page_start};
ghost use Rattle.statistics.specs.internal.Texts.{rows_of_one};

use crate::cells::put_mean_or_dash;
use crate::line_style::LineStyle;
use crate::numbers::{put_label, put_or_dash};
use crate::page::{
    COLUMNS_HEAD, COLUMNS_TAIL, put_column_head, put_line_head, put_line_tail, put_plain,
    put_shaded,
};
use crate::two::Two;
use boards::TextBuffer;

/// What a line of a page tells.
#[derive(Clone, Copy, Drop)]
pub(crate) enum PageLine {
    /// The numbers of the columns.
    Heads,
    /// How many deals a row has in each column, where a cell has at most this many.
    Cells(u32, u64),
    /// How many deals each column has.
    Totals,
    /// The mean of each column.
    Means,
}

impl Two {
    /// The most deals that a cell has, if the style shades its cells.
    pub(crate) fn most(&self, style: LineStyle) -> u64
        ensures { result ≡ most_for self.now style }
    {
        match style {
            LineStyle::Table | LineStyle::Csv => 0,
            LineStyle::Html => self.most_cell(),
        }
    }

    /// The most deals that a cell has.
    fn most_cell(&self) -> u64
        ensures { result ≡ most_kept self.now }
    {
        let rows = self.of.rows_shown();
        let mut most = 0;
        for number in rows.first..rows.end {
            most = most.max(self.most_in_row(number));
        }
        most
    }

    /// The most deals that a cell of the row has.
    fn most_in_row(&self, row: u32) -> u64
        requires { row < length self.now.of.counts }
        ensures { result ≡ most_in_row self.now row }
    {
        let columns = self.columns_shown();
        let mut most = 0;
        for column in columns.first..columns.end {
            most = most.max(self.cell(row, column));
        }
        most
    }

    /// What a line begins with.
    #[tactic(auto, unfolding(crate::specs::internal::PageLines::page_start))]
    pub(crate) fn page_start(&self, line: PageLine) -> TextBuffer
        ensures { result ≡ page_start self.now line }
    {
        let mut piece = TextBuffer::new();
        match line {
            PageLine::Heads => piece.put(COLUMNS_HEAD),
            PageLine::Cells(number, _) => {
                let mut label = TextBuffer::new();
                put_label(&mut label, self.of.is_condition(), number);
                put_line_head(&mut piece, label.as_bytes());
            }
            PageLine::Totals => put_line_head(&mut piece, b"all"),
            PageLine::Means => put_line_head(&mut piece, b"mean"),
        }
        piece
    }

    /// What a line has of a column.
    #[tactic(auto, unfolding(crate::specs::internal::PageLines::page_cell))]
    pub(crate) fn page_cell(&self, line: PageLine, column: u32) -> TextBuffer
        requires line { IsPageLine self.now line }
        requires column { column < length self.now.column_deals }
        requires shaded { IsShaded self.now line column }
        ensures { result ≡ page_cell self.now line column }
    {
        let deals = self.column_deals[column as usize];
        let mut cell = TextBuffer::new();
        let mut piece = TextBuffer::new();
        match line {
            PageLine::Heads => {
                put_label(&mut cell, self.by.question.is_condition(), column);
                put_column_head(&mut piece, cell.as_bytes());
            }
            PageLine::Cells(row, most) => put_shaded(&mut piece, most, self.cell(row, column)),
            PageLine::Totals => {
                put_or_dash(&mut cell, deals);
                put_plain(&mut piece, cell.as_bytes());
            }
            PageLine::Means => {
                put_mean_or_dash(&mut cell, deals, self.column_sums[column as usize]);
                put_plain(&mut piece, cell.as_bytes());
            }
        }
        piece
    }

    /// What a line ends with.
    #[tactic(auto, unfolding(crate::specs::internal::PageLines::page_end))]
    pub(crate) fn page_end(&self, line: PageLine) -> TextBuffer
        requires { IsPageLine self.now line }
        ensures { result ≡ page_end self.now line }
    {
        let sums = self.of.sums();
        let mut last = TextBuffer::new();
        let mut piece = TextBuffer::new();
        match line {
            PageLine::Heads => {
                piece.put(COLUMNS_TAIL);
                return piece;
            }
            PageLine::Cells(row, _) => put_or_dash(&mut last, self.of.count_of(row)),
            PageLine::Totals => put_or_dash(&mut last, sums.deals),
            PageLine::Means => put_mean_or_dash(&mut last, sums.deals, sums.sum),
        }
        put_line_tail(&mut piece, last.as_bytes());
        piece
    }
}
