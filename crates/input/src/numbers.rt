//! Boards of candidates that are picked by their numbers: a text of numbers is read, and the board
//! of each is written as its line ends.
//!
//! Spaces and tabs around a number count for nothing, and a line without any other byte is skipped.
//! A number is 1 to 13 digits, below 2^40, and there are at most 2^40 of them.

mod fault;
pub mod laws;
mod line;
mod picked;
mod scanner;

pub use fault::PickFault;
pub use picked::pick;
pub use scanner::NumberScanner;
