//! What helps a person with words that are refused, below what clap says of them.
//!
//! `refused` reads what is refused; each other file has the hints of one kind, as tables where it
//! can. Which options there are `command_line` tells; `elsewhere` has those of other commands.
//! `tips` takes clap's own tips away where they lead astray. Nothing is claimed of which hint a
//! word gets.

mod elsewhere;
mod hyphens;
mod instead;
mod missing;
mod numbers;
mod quotes;
mod refused;
mod table;
mod tips;
mod values;

use self::refused::{Refused, What};
pub use self::tips::without_far_tips;
use command_line::{Taken, known_option, takes_option};
use std::alloc::Global;

const COMMAND_FIRST: &str = "the command comes first: deals make --seed 7 --boards 36";

const AFTER_OPTIONS: &str = "each value comes after its option, as --seed 7 --boards 36";

const PICKED_FILE: &str = "numbers of a file come from standard input: deals pick --seed 7 < ";

const SHOWN_FILE: &str = "boards of a file come from standard input: deals show < ";

/// How a line of help begins.
const HINT: &str = "  hint: ";

/// Returns what helps with words that clap refuses with this text, if anything does, and `None` if
/// memory runs out.
pub(crate) fn hint(alloc: Global, words: &[String], refusal: &str) -> Option<String> {
    let text = match hyphens::hint(alloc, words) {
        Some(text) => text,
        None => hint_for(alloc, words, refused::read(refusal)?)?,
    };
    let text = instead::filled(alloc, text)?;
    // Two hints are lines already.
    if text.as_str().starts_with(HINT) {
        return Some(text);
    }
    joined(alloc, &[HINT, text.as_str(), "\n"])
}

/// What helps with what is refused.
fn hint_for(alloc: Global, words: &[String], refused: Refused<'_>) -> Option<String> {
    let command = words.get(1).map_or("", |word| word.as_str());
    let (word, option) = (refused.word, refused.option);
    match refused.what {
        What::Argument => of_argument(alloc, words, command, word),
        What::Command => of_command(alloc, word),
        What::Value => of_value(alloc, command, option, word),
        What::NoValue => missing::of_value(alloc, option),
        What::TooOften => missing::of_repeat(alloc, option),
        What::Columns => joined(alloc, &[missing::ONE_QUESTION]),
        What::Flag => joined(alloc, &["write ", option, " alone"]),
        What::Missing => told(alloc, missing::of_options(command, word)),
        What::NoCommand => joined(alloc, &[missing::NO_COMMAND]),
    }
}

/// The texts, one after the other.
fn joined(alloc: Global, texts: &[&str]) -> Option<String> {
    let mut out = String::new(alloc);
    for text in texts {
        out.push_str(text).ok()?;
    }
    Some(out)
}

/// What to write: an option with its value, between these texts.
fn valued(alloc: Global, before: &str, option: &str, value: &str, after: &str) -> Option<String> {
    joined(alloc, &[before, option, " ", value, after])
}

/// The text, if there is one.
fn told(alloc: Global, text: Option<&str>) -> Option<String> {
    joined(alloc, &[text?])
}

/// What helps with a word that isn't expected.
fn of_argument(alloc: Global, words: &[String], command: &str, word: &str) -> Option<String> {
    if command.starts_with('-') {
        let text = instead::of(alloc, "first", command).unwrap_or(COMMAND_FIRST);
        return joined(alloc, &[text]);
    }
    if let Some(text) = quotes::hint(alloc, words, word) {
        return Some(text);
    }
    if word.starts_with('-') {
        return of_option(alloc, command, word);
    }
    if is_after_tricks(words, word) {
        return joined(alloc, &["the lines come from its input: --tricks < ", word]);
    }
    of_stray(alloc, command, word)
}

/// What helps with a word that belongs to no option of the command. One of `show` or `pick` may be
/// the name of a file.
fn of_stray(alloc: Global, command: &str, word: &str) -> Option<String> {
    if let Some(text) = of_format(alloc, command, word) {
        return Some(text);
    }
    if let Some(text) = instead::of_word(command, word) {
        return joined(alloc, &[elsewhere::fitting(command, text)]);
    }
    match command {
        "show" => return joined(alloc, &[SHOWN_FILE, word]),
        "pick" => return joined(alloc, &[PICKED_FILE, word]),
        _ => {}
    }
    if let Some(text) = of_value_alone(alloc, command, word) {
        return Some(text);
    }
    joined(
        alloc,
        &[elsewhere::of_command(command).unwrap_or(AFTER_OPTIONS)],
    )
}

/// What helps with the name of a lesson, or of a file that has a condition, without its option.
fn of_value_alone(alloc: Global, command: &str, word: &str) -> Option<String> {
    if word.ends_with(".cond") && takes_option(command, "where") {
        return joined(
            alloc,
            &[
                "a file's text goes in quotes: --where \"$(cat ",
                word,
                ")\"",
            ],
        );
    }
    if !takes_option(command, "lesson") {
        return None;
    }
    values::hint(alloc, command, "--lesson", word)
}

/// What helps with the name of a format in the place of an option of `count`, which has its own.
fn of_format(alloc: Global, command: &str, name: &str) -> Option<String> {
    if command != "count" || name.contains(',') {
        return None;
    }
    values::hint(alloc, command, "--format", name)
}

/// What helps with a command that isn't there.
fn of_command(alloc: Global, word: &str) -> Option<String> {
    if word.ends_with(".pbn") {
        return joined(alloc, &[SHOWN_FILE, word]);
    }
    told(alloc, instead::of(alloc, "command", word))
}

/// Whether the word is after the flag `--tricks`, as if that took a file.
fn is_after_tricks(words: &[String], word: &str) -> bool {
    let mut follows = false;
    for given in words {
        if follows && given.as_str() == word {
            return true;
        }
        follows = given.as_str() == "--tricks";
    }
    false
}

/// What helps with an option that isn't there.
fn of_option(alloc: Global, command: &str, word: &str) -> Option<String> {
    if let Some(digits) = numbers::after_sign(word) {
        return joined(alloc, &["numbers have no sign: write ", digits]);
    }
    let known = known_option(word);
    if let Some(known) = known
        && let Some(text) = elsewhere::hint(command, known)
    {
        return joined(alloc, &[text]);
    }
    let name = word.to_ascii_lowercase(alloc).ok()?;
    let name = name.as_str();
    if let Some(text) = of_format(alloc, command, name.trim_start_matches('-')) {
        return Some(text);
    }
    of_name(alloc, command, name, known.is_some())
}

/// What helps with an option by its name in small letters.
fn of_name(alloc: Global, command: &str, name: &str, is_known: bool) -> Option<String> {
    if let Some(text) = instead::of(alloc, "option", name) {
        return joined(alloc, &[elsewhere::fitting(command, text)]);
    }
    if is_known || known_option(name).is_none() {
        return None;
    }
    joined(alloc, &["write ", name, " in small letters"])
}

/// What helps with the value of an option.
fn of_value(alloc: Global, command: &str, option: &str, word: &str) -> Option<String> {
    if let Some(text) = values::hint(alloc, command, option, word) {
        return Some(text);
    }
    let known = known_option(option)?;
    if let Taken::Number { most } = known.takes {
        return numbers::hint(alloc, option, most, word);
    }
    if !word.is_empty() {
        return None;
    }
    valued(alloc, "write ", option, known.sample, "")
}
