//! clap's own tips, which are shown to a person only where the word that was tried is close to the
//! one that there is: clap names the nearest of all, however far it is.

use crate::words::refused::What;
use crate::words::{joined, refused};
use std::alloc::Global;
use strsim::osa_distance;

/// How clap begins a tip that it guessed.
const TIP: &str = "\n  tip: ";

const GUESSES: [&str; 2] = ["a similar ", "some similar "];

/// How clap begins a tip for a word that begins with a hyphen: no lesson's name does.
const AS_A_VALUE: &str = "to pass '";

/// The shortest word in which two letters may differ, and the shortest beginning that says a word.
const LONG: usize = 6;

const BEGINNING: usize = 3;

/// clap's refusal without a tip that is far from what was tried, or that takes an option for a
/// value, and without the usage, which names the tip's option then; none if there is no such tip.
pub fn without_far_tips(alloc: Global, refusal: &str) -> Option<String> {
    let refused = refused::read(refusal)?;
    if !matches!(refused.what, What::Argument | What::Command) {
        return None;
    }
    let (head, rest) = refusal.split_once(TIP)?;
    let (tip, rest) = rest.split_once("\n")?;
    if is_guess(tip) {
        if has_close(alloc, refused.word, tip) {
            return None;
        }
    } else if !tip.starts_with(AS_A_VALUE) {
        return None;
    }
    let (_, end) = rest.rsplit_once("\n\n").unwrap_or(("", rest));
    joined(alloc, &[head.trim(), "\n\n", end])
}

fn is_guess(tip: &str) -> bool {
    GUESSES.iter().any(|guess| tip.starts_with(*guess))
}

/// Whether one of the words in quotes is close to what was tried.
fn has_close(alloc: Global, tried: &str, tip: &str) -> bool {
    let tried = tried.trim_start_matches('-');
    let mut is_quoted = false;
    for part in tip.split('\'') {
        if is_quoted && is_close(alloc, tried, part.trim_start_matches('-')) {
            return true;
        }
        is_quoted = !is_quoted;
    }
    false
}

/// Whether a person who wrote the one may have meant the other: one letter differs, or two in a
/// long word, or one is the beginning of the other.
fn is_close(alloc: Global, tried: &str, word: &str) -> bool {
    let Ok(tried) = tried.to_ascii_lowercase(alloc) else {
        return false;
    };
    let tried = tried.as_str();
    if tried.len() >= BEGINNING && (word.starts_with(tried) || tried.starts_with(word)) {
        return true;
    }
    let most = if tried.len() < LONG { 1 } else { 2 };
    matches!(osa_distance(alloc, tried, word), Ok(distance) if distance <= most)
}
