//! A table as one page of HTML, to look at and to print.
//!
//! A page needs nothing else: its style is in its header, and it has no script and loads nothing.

mod cells;
mod header;
mod rows;
mod style;

pub(crate) use cells::{
    COLUMNS_HEAD, COLUMNS_TAIL, TOTALS_HEAD, TOTALS_TAIL, put_column_head, put_line_head,
    put_line_tail, put_plain, put_shaded,
};
pub(crate) use header::put_page_head;
pub(crate) use rows::{put_page_header, put_page_mean, put_page_row};
