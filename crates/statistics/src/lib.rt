//! Tables of what the deals of a run answer: how often each number came, and the mean.
//!
//! A `Counter` is a notation that writes no board: it counts each, and its footer is the table.
#![tactic(auto)]

mod cells;
mod counter;
mod csv_lines;
mod deals;
mod each;
mod fractions;
mod json;
mod kept;
pub mod laws;
mod line_style;
mod numbers;
mod one;
mod one_lines;
mod page;
mod pieces;
mod rows;
mod sentence;
mod subject;
mod sums;
mod title;
mod two;

pub use boards::TableStyle;
pub use counter::Counter;
pub use subject::{MAX_CELLS, Subject, TitledQuestion};
