//! Texts whose quotes are missing, so that the shell made several words of them.

use crate::words::joined;
use command_line::{Taken, known_option};
use std::alloc::{AllocError, Global};

/// The option of a question, which may come several times.
const QUESTION: &str = "--of";

/// The longest text that is shown whole.
const LONGEST: usize = 60;

/// What helps where this word isn't expected and belongs to the text of an option before it.
pub(crate) fn hint(alloc: Global, words: &[String], word: &str) -> Option<String> {
    let (from, at) = place(words, word)?;
    let (option, first) = parts(words.get(from)?.as_str());
    if !matches!(known_option(option)?.takes, Taken::Text) {
        return None;
    }
    let next = from.saturating_add(1);
    if word.starts_with('-') && word.len() > 1 {
        return of_hyphen(alloc, option, word, next == at && first.is_empty());
    }
    let words = words.get(next..)?;
    if option == QUESTION
        && first.is_empty()
        && let Some(text) = of_questions(alloc, words)
    {
        return Some(text);
    }
    of_text(alloc, option, first, words)
}

/// Where the last option before the word is, and where the word is first.
fn place(words: &[String], word: &str) -> Option<(usize, usize)> {
    let mut from = None;
    for (at, given) in words.iter().enumerate() {
        if given.as_str() == word {
            return Some((from?, at));
        }
        if given.as_str().starts_with('-') && given.len() > 1 {
            from = Some(at);
        }
    }
    None
}

/// The option, and what comes after its `=`.
fn parts(word: &str) -> (&str, &str) {
    word.split_once('=').unwrap_or((word, ""))
}

/// What helps with a value that begins with a hyphen.
fn of_hyphen(alloc: Global, option: &str, word: &str, is_value: bool) -> Option<String> {
    if !is_value || word.starts_with("--") {
        return None;
    }
    let before = "a value that begins with - comes after =: ";
    joined(alloc, &[before, option, "=", word])
}

/// What helps where several questions come after one option, each in quotes of its own.
fn of_questions(alloc: Global, words: &[String]) -> Option<String> {
    let mut text = joined(alloc, &["each question comes after its own option:"])?;
    for word in words {
        let word = word.as_str();
        if word.starts_with("--") {
            break;
        }
        if !word.contains('(') || !word.ends_with(')') || !is_plain(word) {
            return None;
        }
        text.push_str(joined(alloc, &[" ", QUESTION, " '", word, "'"])?.as_str())
            .ok()?;
    }
    Some(text)
}

/// What helps with a text of several words, which is shown if a person can type it so.
fn of_text(alloc: Global, option: &str, first: &str, words: &[String]) -> Option<String> {
    let text = typed(alloc, first, words);
    let shown = text.as_ref().map_or("..", |text| text.as_str());
    let before = "put the whole text between quotes: ";
    joined(alloc, &[before, option, " '", shown, "'"])
}

/// The words up to the next option, with a blank between them, if a person can type them so.
fn typed(alloc: Global, first: &str, words: &[String]) -> Option<String> {
    let mut text = joined(alloc, &[first])?;
    put_words(&mut text, words).ok()?;
    is_plain(text.as_str()).then_some(text)
}

/// Appends the words up to the next option, with a blank between them.
fn put_words(text: &mut String, words: &[String]) -> Result<(), AllocError> {
    for word in words {
        if word.as_str().starts_with("--") {
            break;
        }
        if !text.is_empty() {
            text.push_str(" ")?;
        }
        text.push_str(word.as_str())?;
    }
    Ok(())
}

/// Whether the text is short, and printable between single quotes.
fn is_plain(text: &str) -> bool {
    let is_plain = |byte: &u8| (32..127).contains(byte) && *byte != b'\'';
    text.len() <= LONGEST && text.as_bytes().iter().all(is_plain)
}
