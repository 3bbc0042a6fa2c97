//! How a table is written.

use crate::words;
use crate::words::Words;

/// How a table is written.
#[derive(Clone, Copy)]
pub enum TableStyle {
    /// Columns for people, with bars.
    Table,
    /// Comma-separated values, for programs.
    Csv,
    /// One page of HTML, to look at and to print.
    Html,
    /// One object of JSON, for programs.
    Json,
}

/// The words that ask for styles.
pub const STYLES: Words<TableStyle> = words! {
    "table" => TableStyle::Table,
    "csv" => TableStyle::Csv,
    "html" => TableStyle::Html,
    "json" => TableStyle::Json
};
