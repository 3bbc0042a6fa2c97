//! Words that are like one of the language, or like a name that the text gives.

use crate::rules::filling::joined;
use crate::rules::hint::Said;
use crate::rules::lists::THROUGH;
use crate::rules::parts::Parts;
use crate::rules::words::{is, is_call, is_neighbour, is_one_of, is_seat, is_seat_class, is_suit};
use cond_lang::WORDS;
use std::alloc::{AllocError, Global};
use strsim::jaro;

/// How alike two words are at least, of which the one may be meant by the other: where it begins
/// the other, and where it doesn't.
const BEGUN: f64 = 0.7;

const ALIKE: f64 = 0.8;

/// The word that is most like the one at fault, of those that may come there.
pub(crate) fn hint(alloc: Global, parts: &Parts) -> Said {
    match fault_of(parts) {
        Some(text) => asked(alloc, nearest(alloc, parts, text)?),
        None => Ok(None),
    }
}

/// The name that is most like the word at fault, of those that are given before it.
pub(crate) fn name_hint(alloc: Global, parts: &Parts) -> Said {
    match fault_of(parts) {
        Some(text) if !is_call(parts.call()) => asked(alloc, nearest_name(alloc, parts, text)?),
        _ => Ok(None),
    }
}

/// The word at fault in small letters, if it has several.
fn fault_of<'p>(parts: &'p Parts) -> Option<&'p str> {
    let text = str::from_utf8(parts.word.as_slice()).ok()?;
    let is_word = text.len() > 1 && text.as_bytes()[0].is_ascii_lowercase() && !parts.is_cut();
    is_word.then_some(text)
}

/// Asks whether the word was meant, if there is one.
fn asked(alloc: Global, word: Option<&str>) -> Said {
    match word {
        Some(word) => joined(alloc, &[b"did you mean \"", word.as_bytes(), b"\"?"]),
        None => Ok(None),
    }
}

/// The first of the given names that are most like the text, if they are alike at all.
fn nearest_name<'t>(
    alloc: Global,
    parts: &Parts<'t>,
    text: &str,
) -> Result<Option<&'t str>, AllocError> {
    let mut found = None;
    let mut most = ALIKE;
    for i in 1..parts.fault {
        let Ok(name) = str::from_utf8(parts.at(i)) else {
            continue;
        };
        if !is(parts.at(i - 1), "let") {
            continue;
        }
        let score = jaro(alloc, text, name)?;
        if score > most {
            most = score;
            found = Some(name);
        }
    }
    Ok(found)
}

/// The first of the words that are most like the text, if they are alike at all.
fn nearest(alloc: Global, parts: &Parts, text: &str) -> Result<Option<&'static str>, AllocError> {
    let mut found = None;
    let mut most = BEGUN;
    for (word, _) in WORDS.iter() {
        if !is_at_home(parts, word.as_bytes()) {
            continue;
        }
        let score = jaro(alloc, text, word)?;
        if score > most && (score > ALIKE || text.starts_with(*word)) {
            most = score;
            found = Some(*word);
        }
    }
    Ok(found)
}

/// Whether a word may be meant at the fault: in the place of ranks a suit may come too.
fn is_at_home(parts: &Parts, word: &[u8]) -> bool {
    let is_first = is(parts.at(parts.fault.saturating_sub(1)), "(");
    if is_call(parts.call()) {
        return if is_first {
            is_seat(word) || is_neighbour(word)
        } else {
            is_suit(word)
        };
    }
    if is_seat_class(word) || is_neighbour(word) {
        return is_one_of(parts.at(parts.fault.saturating_sub(1)), THROUGH);
    }
    !is(parts.at(parts.fault.saturating_add(1)), "(") || is_call(word)
}
