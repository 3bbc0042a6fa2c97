//! Bridge deals as games of Portable Bridge Notation 2.1, in this project's profile.
//!
//! A text is `HEADER` and then the games in order. A game has a line for each label of its heading,
//! lines for the board's number, dealer and vulnerability, the line of the deal, and an empty line.
//!
//! There are two ways to write one, both proved to write the text that the definition gives:
//! - `game` and `Reference` write it line by line. This is the simple way, in `reference.rt`.
//! - `Printer` prints many games under one heading, each in a fraction of the time. The text of a
//!   suit is ready for each set of ranks, the lines of dealer and vulnerability for each pair of
//!   these, and the lines of the heading stay in its buffer.
#![tactic(auto)]

pub mod laws;
mod lines;
mod printer;
mod reference;
mod words;

pub use boards::{Date, Heading, Label, MAX_LABEL_LEN, Vul, dealer, vulnerable};
pub use lines::HEADER;
pub use printer::Printer;
pub use reference::{Reference, deal_text, game};
pub use words::{seat_letter, vulnerable_word};
