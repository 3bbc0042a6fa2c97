//! Bridge deals in the formats that a program can be asked for: games of Portable Bridge Notation
//! (the crate `pbn_text`), hand records, LIN, a page of HTML, a club's sheet, slips, JSON, and the
//! numbers of candidates.
//!
//! A format is a `Format`, and an `AnyPrinter` prints boards in it, with the hands that a `Show`
//! asks for, and with tricks; a `SolvedPrinter` does where some boards may have tricks. A file has
//! what one format writes: `pbn.rt`, `hands.rt`, `lin.rt`, `page.rt`, `sheet.rt`, `slips.rt`,
//! `json.rt` and `numbers.rt`.
#![tactic(auto)]

mod dotted;
mod hands;
mod json;
pub mod laws;
mod lin;
mod names;
mod numbers;
mod page;
mod pbn;
mod pen;
mod printer;
mod results;
mod sheet;
mod shown;
mod slips;
mod solved;

pub use boards::{Format, Show};
pub use printer::AnyPrinter;
pub use solved::SolvedPrinter;
