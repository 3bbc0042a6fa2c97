//! What the words of a command line ask for.
//!
//! `options.rt` has all options: a row of each, what help says of it and what it means. The
//! subcommands are in `subcommands.rt`, and their texts in `texts.rt`. `rows.rt` makes `clap`'s
//! options of rows, `given.rt` says what an option was given, and `words.rt` makes a request of all
//! words. `shown.rt` shows what clap says of them, and `known.rt` tells what is known of an option.
#![tactic(auto)]

mod given;
mod helps;
mod known;
pub mod laws;
mod lesson_names;
mod options;
mod refusals;
mod rows;
mod shown;
mod subcommands;
mod texts;
mod words;

pub use known::{KnownOption, Taken, known_option, takes_option};
pub use shown::{put_cut, shown_text};
pub use words::read_words;
