//! Rules for hints: what a person perhaps meant where a condition is refused, by what is around
//! the fault.
//!
//! The rules are lines of tables (`tables`): what holds at the fault, the parts around it, and
//! the text (`rule`, `lists`, `filling`). Code is left where a text is cut (`parts`), for amounts
//! and bounds, for classes outside their brackets (`outside`), and for words that are alike
//! (`likeness`).
//!
//! Nothing is claimed of which hint a fault gets. That what is shown of one is printable is claimed
//! where it is shown.

mod amounts;
mod bounds;
mod card;
mod filling;
mod hint;
mod joined;
mod kinds;
mod likeness;
mod lists;
mod outside;
mod parts;
mod rule;
mod samples;
mod seats;
mod slips;
mod tables;
mod words;

pub use filling::{read, read_within, suggested};
pub use hint::{Said, of_piece, of_syntax};
pub use joined::joined_tests;
pub use kinds::Kinds;
pub use slips::slip;
