//! Requests as values: what the words of a command line ask for, with a default for each option
//! that isn't given.
//!
//! A `Request` has one variant for each subcommand: a `Search` says which candidates are tried and
//! accepted, a `Look` how their boards are written; `lessons` are the conditions that have a name.
//! Texts are kept as they were given: `jobs` reads them, refuses what it must, and makes a job of
//! what is asked.
//!
//! Of these texts `PredealtHands` reads the hands, such as `AKQ32.K..A`, into the cards that they
//! fix: the spades, hearts, diamonds and clubs that a seat holds, separated by dots, each card by
//! the letter of its rank. This one fixes seven cards, and leaves six open.
#![tactic(auto)]

mod hand;
mod hand_fault;
mod hand_rule;
mod hands;
pub mod lessons;
mod look;
mod names;
mod questions;
mod request;
mod search;
mod stream;
mod when;
mod workers;

pub use boards::{Format, Show, TableStyle};
pub use hand_fault::HandFault;
pub use hands::PredealtHands;
pub use look::Look;
pub use names::{LabelName, QuestionName};
pub use questions::{MAX_QUESTIONS, Questions, Texts};
pub use request::{Notices, Request};
pub use search::Search;
pub use stream::StreamRequest;
pub use when::{TIMES, When};
pub use workers::Workers;
