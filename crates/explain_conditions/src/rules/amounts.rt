//! Numbers as a person writes them after a value: `15`, `15+`, `15-`, `15-17`, `>=15`.

use crate::rules::parts::Parts;
use crate::rules::tables::counted::COUNTED;
use crate::rules::words::{is, is_count, is_number, is_one_of, is_relation, measure_word, number};

/// What comes after a value, in the language's own form.
#[derive(Clone, Copy)]
pub(crate) struct Amount<'t> {
    pub sign: &'t [u8],
    pub low: &'t [u8],
    /// The second number of a range, or none.
    pub high: &'t [u8],
    /// Where the part after it is.
    pub end: usize,
}

/// The amount that begins with the part.
pub(crate) fn amount_at<'t>(parts: &Parts<'t>, i: usize) -> Option<Amount<'t>> {
    let (sign, at) = (parts.at(i), i.saturating_add(1));
    if is(sign, "in") && !is(parts.at(at.saturating_add(1)), "-") {
        None
    } else if is_one_of(sign, "in = ==") {
        unsigned_at(parts, at)
    } else if is_relation(sign) {
        one(parts, sign, at, at)
    } else {
        unsigned_at(parts, i)
    }
}

/// The number with what comes after it: `15+`, `15-`, `15-17`, or it alone.
fn unsigned_at<'t>(parts: &Parts<'t>, i: usize) -> Option<Amount<'t>> {
    let (sign, after) = (parts.at(i.saturating_add(1)), i.saturating_add(2));
    let high = parts.at(after);
    if is(sign, "-") && is_number(high) {
        let found = one(parts, b" in ", i, after)?;
        let (low, high) = ordered(found.low, high);
        Some(Amount { low, high, ..found })
    } else if is(sign, "-") {
        one(parts, b"<=", i, i.saturating_add(1))
    } else if is(sign, "+") && !is_number(high) && !is_count(high) {
        one(parts, b">=", i, i.saturating_add(1))
    } else {
        one(parts, b"==", i, i)
    }
}

/// The comparison with this number, up to the last of its parts, if nothing goes on after it.
fn one<'t>(parts: &Parts<'t>, sign: &'t [u8], i: usize, last: usize) -> Option<Amount<'t>> {
    let (low, end) = (parts.at(i), last.saturating_add(1));
    let is_whole = is_number(low) && !is_one_of(parts.at(end), "+ -");
    is_whole.then_some(Amount {
        sign,
        low,
        high: b"",
        end,
    })
}

/// The lower number first.
pub(crate) fn ordered<'t>(first: &'t [u8], second: &'t [u8]) -> (&'t [u8], &'t [u8]) {
    if number(first) <= number(second) {
        (first, second)
    } else {
        (second, first)
    }
}

/// The word that counts what the amount from the part on is said of, and what comes after its
/// seat; nothing, if it is said of nothing that a word counts.
pub(crate) fn counted_at(parts: &Parts, i: usize) -> (&'static str, &'static str) {
    let Some(amount) = amount_at(parts, i) else {
        return ("", "");
    };
    let part = parts.at(amount.end);
    for (word, after, names) in COUNTED {
        if is_one_of(part, names) {
            return (word, after);
        }
    }
    (measure_word(part).unwrap_or(""), "")
}
