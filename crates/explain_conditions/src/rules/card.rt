//! A single card, as a person writes it.

use crate::rules::words::{are_ranks, is_suit};
use cond_lang::WORDS;

/// The letter of each rank, and what a person calls it.
static RANKS: [(&str, &str); 5] = [
    ("a", "ace aces"),
    ("k", "king kings koenig koenige"),
    ("q", "queen queens"),
    ("j", "jack jacks"),
    ("t", "ten tens"),
];

/// The letter of the rank that the part names, in letters of any size; nothing, if it names none.
pub(crate) fn rank_of(part: &[u8]) -> &'static str {
    let is_part = |name: &str| part.eq_ignore_ascii_case(name.as_bytes());
    let found = RANKS
        .iter()
        .find(|(_, names)| names.split(' ').any(is_part));
    found.map_or("", |(letter, _)| *letter)
}

/// The suit's word and the letter of the rank of the card that the part is, as `AS` or `sa`.
pub(crate) fn card_of(part: &[u8]) -> Option<(&'static str, u8)> {
    let [one, other] = part else {
        return None;
    };
    let (one, other) = (one.to_ascii_lowercase(), other.to_ascii_lowercase());
    if are_ranks(&[one]) {
        Some((suit_of(other)?, one))
    } else if are_ranks(&[other]) {
        Some((suit_of(one)?, other))
    } else {
        None
    }
}

/// The word of the suit that begins with the letter.
fn suit_of(letter: u8) -> Option<&'static str> {
    let (word, _) = WORDS.iter().find(|(word, _)| is_suit(word.as_bytes())
        && word.as_bytes().starts_with(&[letter]))?;
    Some(*word)
}
