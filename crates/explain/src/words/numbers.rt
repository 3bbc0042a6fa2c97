//! Numbers that aren't written in digits alone, or are too large.

use crate::words::missing::TO_DRAW;
use crate::words::{joined, valued};
use command_line::known_option;
use std::alloc::Global;

/// Numbers that people write as a word.
static WORDS: [(&str, u64); 21] = [
    ("one", 1),
    ("two", 2),
    ("three", 3),
    ("four", 4),
    ("five", 5),
    ("six", 6),
    ("seven", 7),
    ("eight", 8),
    ("nine", 9),
    ("ten", 10),
    ("eleven", 11),
    ("twelve", 12),
    ("sixteen", 16),
    ("twenty", 20),
    ("thirty", 30),
    ("fifty", 50),
    ("hundred", 100),
    ("thousand", 1000),
    ("million", 1000000),
    ("billion", 1000000000),
    ("zero", 0),
];

/// What helps with the number of this option, which is at most this.
pub(crate) fn hint(alloc: Global, option: &str, most: u64, word: &str) -> Option<String> {
    if word.is_empty() {
        let texts = ["no value comes after ", option, ": is a variable empty?"];
        return joined(alloc, &texts);
    }
    let digits = digits_of(alloc, word)?;
    if digits.as_str() == word {
        return too_large(alloc, option, most);
    }
    of_digits(alloc, option, word, digits.as_str())
}

/// What helps with a number that is written in digits and other things.
fn of_digits(alloc: Global, option: &str, word: &str, digits: &str) -> Option<String> {
    if !digits.is_empty() && word.trim() == digits {
        let before = "write digits alone, without a blank: ";
        return valued(alloc, before, option, digits, "");
    }
    match meant(alloc, word, digits) {
        Some(number) => format!(in alloc; "write digits alone: {option} {number}").ok(),
        None => whole(alloc, option),
    }
}

/// What helps with what is no number.
fn whole(alloc: Global, option: &str) -> Option<String> {
    let sample = known_option(option)?.sample;
    let draw = if option == "--seed" { TO_DRAW } else { "" };
    let before = "write a whole number in digits alone, as ";
    valued(alloc, before, option, sample, draw)
}

/// What is after the sign of a number, which is taken for an option with that.
pub(crate) fn after_sign(word: &str) -> Option<&str> {
    let number = word.strip_prefix('-')?;
    matches!(number.as_bytes(), [b'0'..=b'9', ..]).then_some(number)
}

/// What helps with a number that is too large.
fn too_large(alloc: Global, option: &str, most: u64) -> Option<String> {
    let (what, after) = if option == "--seed" {
        ("a seed", "; a smaller one is as good")
    } else {
        (option, "")
    };
    format!(in alloc; "{what} is at most {most}{after}").ok()
}

/// The digits of the word.
fn digits_of(alloc: Global, word: &str) -> Option<String> {
    let mut digits = String::new(alloc);
    for c in word.chars() {
        if c.is_ascii_digit() {
            digits.push(c).ok()?;
        }
    }
    Some(digits)
}

/// The number that is meant by the word, which has these digits.
fn meant(alloc: Global, word: &str, digits: &str) -> Option<u64> {
    let word = word.trim().to_ascii_lowercase(alloc).ok()?;
    number_of(word.as_str(), digits)
}

/// The number that the word in small letters means.
fn number_of(word: &str, digits: &str) -> Option<u64> {
    if let Some((_, number)) = WORDS.iter().find(|(name, _)| *name == word) {
        return Some(*number);
    }
    if let Some((head, power)) = word.split_once('e') {
        return times_power(head, power);
    }
    if let Some(head) = word.strip_suffix('k') {
        return times(head.trim(), 1000);
    }
    if let Some(head) = word.strip_suffix('m') {
        return times(head.trim(), 1000000);
    }
    let whole = if is_grouped(word, digits) { digits } else { "" };
    times(whole, 1)
}

/// The number with as many zeros after it as the power says.
fn times_power(number: &str, power: &str) -> Option<u64> {
    times(number, 10u64.checked_pow(power.parse().ok()?)?)
}

/// The number that the text is, times the factor.
fn times(number: &str, factor: u64) -> Option<u64> {
    number.parse::<u64>().ok()?.checked_mul(factor)
}

/// Whether the word has these digits alone, separated in threes as in `1,000,000`.
fn is_grouped(word: &str, digits: &str) -> bool {
    let mut len: usize = 0;
    for (i, group) in word.split([',', '.', '_', '\'', ' ']).enumerate() {
        if group.is_empty() || group.len() > 3 || (i > 0 && group.len() < 3) {
            return false;
        }
        len = len.saturating_add(group.len());
    }
    len == digits.len()
}
