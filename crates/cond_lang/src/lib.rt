//! The condition language: texts such as `hcp(north)+hcp(south)>=26 and not balanced(north)`, and
//! the trees that they spell.
//!
//! `parse` cuts the whole text into pieces first (`scanner`), and then reads the tokens from the
//! left, one in sight (`parser`). `parse_question` takes a whole value too, such as
//! `hcp(north)+hcp(south)`. The trees and what they mean of a deal are in `conditions`, and have
//! their names here too. `language` has all of it on a page.
#![tactic(auto)]

mod beginning;
mod beside;
mod classes;
mod condition;
mod language;
pub mod laws;
mod naming;
mod parser;
mod question;
mod scanner;
mod words;

pub use beginning::Beginning;
pub use beside::{check_definitions, parse_after, parse_question_after, text_after};
pub use classes::{Class, Neighbour, Quantifier};
pub use condition::parse;
pub use conditions::{Cond, CondError, Count, Item, MOST_PARTS, Op, Question, Tree, Value};
pub use language::LANGUAGE;
pub use question::parse_question;
pub use scanner::{Token, digit_run_len, letter_run_len, names_of};
pub use words::{Kind, WORDS, measure_word, order_word};
