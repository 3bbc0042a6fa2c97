//! The seat that a hint repeats, as it is written.

use crate::rules::outside::closing;
use crate::rules::parts::Parts;
use crate::rules::words::{is, is_neighbour, is_one_of, is_seat, seat_word};

/// The seat that begins with the part after a bracket or a word as `in`, or is in front of the
/// part; else the last one before the fault, or North.
pub(crate) fn seat_at<'t>(parts: &Parts<'t>, i: usize) -> &'t [u8] {
    let before = parts.at(i.saturating_sub(1));
    if is_seat(before) {
        return before;
    }
    let seat: &[u8] = if is_one_of(before, "( in of with for") {
        seat_from(parts, i)
    } else {
        b""
    };
    if seat.is_empty() {
        parts.last_seat()
    } else {
        seat
    }
}

/// The seat that begins with the part: one of the four or a class, as `seat_word` reads it, or a
/// neighbour. Nothing, if none does.
fn seat_from<'t>(parts: &Parts<'t>, i: usize) -> &'t [u8] {
    let part = parts.at(i);
    let open = i.saturating_add(1);
    if is_neighbour(part) && is(parts.at(open), "(") {
        neighbour(parts, i, open).unwrap_or(b"")
    } else {
        seat_word(part).map_or(b"", |word| word.as_bytes())
    }
}

/// The neighbour, up to the bracket that closes the one at `open`.
fn neighbour<'t>(parts: &Parts<'t>, i: usize, open: usize) -> Option<&'t [u8]> {
    parts.written(i, closing(parts, open)?)
}
