//! How the lines of a table are written.

/// How the lines of a table are written: as each style but JSON has them.
#[derive(Clone, Copy)]
pub(crate) enum LineStyle {
    /// Columns for people.
    Table,
    /// Comma-separated values.
    Csv,
    /// Rows of a page.
    Html,
}
