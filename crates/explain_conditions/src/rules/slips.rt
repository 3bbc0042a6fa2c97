//! Slips in a condition that is accepted: it means something else than a person perhaps thinks.

use crate::rules::kinds::Kinds;
use crate::rules::lists::THROUGH;
use crate::rules::parts::Parts;
use crate::rules::words::{depth_after, is, is_one_of, is_short_line, is_suit_class, number};
use itoa::Buffer;
use std::alloc::{AllocError, Global};

/// The note on tests joined by `and` and by `or` with no brackets that say which go together.
const MIXED: &str =
    "note: \"and\" binds first: A and B or C is (A and B) or C; brackets would say so\n";

/// What is said of a class that its brackets don't name.
const UNNAMED: &str = ", so that it asks the same each time\n";

/// How many cards a hand has.
const HAND: usize = 13;

/// The longest lengths that a note repeats.
const LONGEST: usize = 40;

/// Returns the note on a condition that is accepted, a line with its end, if it has a slip: an
/// `any` or `every` whose class isn't named in its brackets, a shape or a pattern whose lengths
/// aren't thirteen cards, or `and` and `or` beside each other without brackets.
///
/// # Errors
/// `AllocError` if an allocation failed.
pub fn slip(alloc: Global, condition: &[u8]) -> Result<Option<String>, AllocError> {
    let parts = Parts::of(alloc, condition, condition.len(), Kinds::none())?;
    for start in 1..parts.count() {
        if let Some(said) = unnamed(alloc, &parts, start)? {
            return Ok(Some(said));
        }
    }
    if let Some(said) = miscounted(alloc, &parts)? {
        return Ok(Some(said));
    }
    if !is_mixed(&parts) {
        return Ok(None);
    }
    Ok(Some(String::from_str(alloc, MIXED)?))
}

/// What is said of the `any` or `every` that begins here, if its brackets don't name its class.
fn unnamed(alloc: Global, parts: &Parts, start: usize) -> Result<Option<String>, AllocError> {
    let open = start.saturating_add(2);
    let class = parts.at(start.saturating_add(1));
    if !is_one_of(parts.at(start), THROUGH) || !is(parts.at(open), "(") {
        return Ok(None);
    }
    if has_class(parts, open, class) {
        return Ok(None);
    }
    let Some(through) = parts.written(start, start.saturating_add(1)) else {
        return Ok(None);
    };
    let Ok(class) = str::from_utf8(class) else {
        return Ok(None);
    };
    let Ok(through) = str::from_utf8(through) else {
        return Ok(None);
    };
    let mut said = String::from_str(alloc, "note: \"")?;
    for text in [
        class,
        "\" isn't named in the brackets of \"",
        through,
        "\"",
        UNNAMED,
    ] {
        said.push_str(text)?;
    }
    Ok(Some(said))
}

/// Whether the class is named before the bracket that closes this one; `other` counts for a class
/// of suits, whose suit it leaves out.
fn has_class(parts: &Parts, open: usize, class: &[u8]) -> bool {
    let other = is_suit_class(class);
    let mut depth: usize = 0;
    for i in open..parts.count() {
        let part = parts.at(i);
        depth = depth_after(depth, part);
        if depth == 0 {
            return false;
        }
        if part == class || other && is(part, "other") {
            return true;
        }
    }
    false
}

/// What is said of the first shape or pattern whose lengths no hand has, by their sum.
fn miscounted(alloc: Global, parts: &Parts) -> Result<Option<String>, AllocError> {
    for word in 1..parts.count() {
        if !is_one_of(parts.at(word), "shape pattern") {
            continue;
        }
        let first = after_comma(parts, word);
        let last = first.saturating_add(6);
        let cards = cards_of(parts, first);
        let is_open = has_open_length(parts, first);
        if cards > HAND || cards < HAND && !is_open {
            let lengths = parts.written(first, last).unwrap_or(b"");
            return said_of_lengths(alloc, lengths, cards, is_open);
        }
    }
    Ok(None)
}

/// The part after the first comma from a part on, or the end.
fn after_comma(parts: &Parts, from: usize) -> usize {
    for i in from..parts.count() {
        if is(parts.at(i), ",") {
            return i.saturating_add(1);
        }
    }
    parts.count()
}

/// How many cards the four lengths are together that begin with the part, with a sign between two.
fn cards_of(parts: &Parts, first: usize) -> usize {
    let mut cards: usize = 0;
    for after in [0, 2, 4, 6] {
        let length = parts.at(first.saturating_add(after));
        if !is(length, "x") {
            cards = cards.saturating_add(number(length));
        }
    }
    cards
}

/// Whether one of these lengths may be any.
fn has_open_length(parts: &Parts, first: usize) -> bool {
    [0, 2, 4, 6]
        .iter()
        .any(|after| is(parts.at(first.saturating_add(*after)), "x"))
}

/// The note on lengths that are this many cards, if they are one short line.
fn said_of_lengths(
    alloc: Global,
    lengths: &[u8],
    cards: usize,
    is_open: bool,
) -> Result<Option<String>, AllocError> {
    if !is_short_line(lengths, LONGEST) {
        return Ok(None);
    }
    let Ok(lengths) = str::from_utf8(lengths) else {
        return Ok(None);
    };
    let mut said = String::from_str(alloc, "note: ")?;
    said.push_str(lengths)?;
    said.push_str(" is ")?;
    said.push_str(Buffer::new().format(cards as u64))?;
    said.push_str(if is_open { " cards or more" } else { " cards" })?;
    said.push_str(", and a hand has 13\n")?;
    Ok(Some(said))
}

/// Whether `and` and `or` join tests beside each other.
fn is_mixed(parts: &Parts) -> bool {
    for i in 0..parts.count() {
        let part = parts.at(i);
        let next = i.saturating_add(1);
        let is_start = i == 0 || is(part, "(");
        if is_start && joins_from(parts, next).is_both() {
            return true;
        }
        if is(part, "or") && joins_from(parts, next).has_and {
            return true;
        }
    }
    false
}

/// How the tests from a part on are joined, up to the first `or` or the end of the brackets.
#[derive(Clone, Copy)]
struct Joins {
    has_and: bool,
    has_or: bool,
}

impl Joins {
    fn is_both(self) -> bool {
        self.has_and && self.has_or
    }
}

fn joins_from(parts: &Parts, from: usize) -> Joins {
    let mut depth: usize = 0;
    let mut joins = Joins {
        has_and: false,
        has_or: false,
    };
    for i in from..parts.count() {
        let part = parts.at(i);
        if is(part, "(") {
            depth = depth.saturating_add(1);
        } else if is(part, ")") && depth == 0 {
            return joins;
        } else if is(part, ")") {
            depth = depth.saturating_sub(1);
        } else if depth == 0 && is(part, "or") {
            joins.has_or = true;
            return joins;
        }
        joins.has_and = joins.has_and || depth == 0 && is(part, "and");
    }
    joins
}
