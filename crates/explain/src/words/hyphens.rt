//! Options without their two hyphens: a word processor makes a dash of them, a person writes one.

use crate::words::joined;
use command_line::known_option;
use std::alloc::Global;

/// The dashes that word processors write, and the minus sign.
const DASHES: [char; 3] = ['\u{2013}', '\u{2014}', '\u{2212}'];

/// What helps with the first word that has such a dash, or one hyphen in the place of two.
pub(crate) fn hint(alloc: Global, words: &[String]) -> Option<String> {
    words.iter().find_map(|word| hint_of(alloc, word.as_str()))
}

fn hint_of(alloc: Global, word: &str) -> Option<String> {
    let Some(rest) = word.strip_prefix(DASHES) else {
        return of_hyphen(alloc, name_of(word.strip_prefix('-')?));
    };
    let name = name_of(rest.trim_start_matches(DASHES).trim_start_matches('-'));
    if name.is_empty() {
        return None;
    }
    let hyphens = if name.len() == 1 { "-" } else { "--" };
    joined(alloc, &["write hyphens, and not a dash: ", hyphens, name])
}

/// What helps with a name after one hyphen.
fn of_hyphen(alloc: Global, name: &str) -> Option<String> {
    if name.starts_with('-') {
        return None;
    }
    joined(alloc, &["write two hyphens: --", known_option(name)?.id])
}

/// The name of an option at the start of a word, as far as letters go.
pub(crate) fn name_of(word: &str) -> &str {
    match word.split_once(|c: char| !c.is_ascii_lowercase() && c != '-') {
        Some((name, _)) => name,
        None => word,
    }
}
