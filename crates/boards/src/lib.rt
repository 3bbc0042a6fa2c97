//! Boards: the plan of a run, the boards that it makes from the accepted candidates, and what the
//! notations that write them share.
//!
//! A `Plan` says which candidates of a seed are tried and which boards are made from them: each
//! board's number, deal, dealer and vulnerability, by Law 2 or by a `Setting`. `run_plain_in`
//! writes a plan's text on one thread, the way its definition reads; tests compare the run over
//! lanes with it. A `Cause` says why a run was interrupted, and a `Report` sums up one that wrote
//! all that its plan asks for.
//!
//! A `Heading` has the labels of all boards; `Captions` are labels in any letters, as a page may
//! have them. A `Notation` writes boards and knows nothing of runs; notations share a `TextBuffer`
//! and the `SuitLetters`. A `Format` names a notation, a `Show` says which hands it writes, and
//! `Tricks` are what is known of a board's tricks and par.
#![tactic(auto)]

mod board;
mod buffer;
mod caption;
mod captions;
mod cause;
mod format;
mod heading;
pub mod html;
pub mod laws;
mod next_board;
mod notation;
mod plan;
mod reference;
mod report;
mod setting;
mod show;
mod solved;
mod style;
mod tricks;
mod words;

pub use board::Board;
pub use buffer::{CAPACITY, RANK_LETTERS, SuitLetters, TextBuffer};
pub use caption::{Caption, MAX_CAPTION_CHARS};
pub use captions::Captions;
pub use cause::Cause;
pub use format::{FORMAT_HELP, FORMATS, Format};
pub use heading::{Date, Heading, Label, MAX_LABEL_LEN};
pub use next_board::{board_after, is_full, put_board};
pub use notation::Notation;
pub use plan::{Plan, PlanError};
pub use reference::{PlainFault, run_plain_in};
pub use report::Report;
pub use setting::{Setting, Vul, dealer, vulnerable};
pub use show::{SHOWS, Seats, Show};
pub use solved::SolvedNotation;
pub use style::{STYLES, TableStyle};
pub use tricks::Tricks;
pub use words::Words;
