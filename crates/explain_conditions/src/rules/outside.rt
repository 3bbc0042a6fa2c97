//! A class of suits outside the brackets of the `any` or `every` that goes through it.

use crate::rules::filling::{is_accepted, joined};
use crate::rules::hint::Said;
use crate::rules::lists::THROUGH;
use crate::rules::parts::Parts;
use crate::rules::words::{depth_after, is, is_one_of, is_short_line, is_suit_class};
use cond_lang::Kind;
use std::alloc::{AllocError, Global};

/// The longest condition that is told to write.
const LONGEST: usize = 240;

/// A class outside its brackets: where `any` or `every` stands, the bracket after it, the one that
/// closes that, and the part after the last test that names the class.
#[derive(Clone, Copy)]
struct Outside {
    start: usize,
    open: usize,
    close: usize,
    end: usize,
}

/// `any major (len(north,major)>=5) and len(south,major)>=3`
pub(crate) fn hint(alloc: Global, parts: &Parts) -> Said {
    let class = parts.at(parts.fault);
    if !is_suit_class(class) || !parts.can.has(Kind::Suit) {
        return Ok(None);
    }
    let Some(start) = through_from(parts, class, 1) else {
        return Ok(None);
    };
    if through_from(parts, class, start.saturating_add(1)).is_none()
        && let Some(found) = outside_of(parts, class, start)
        && let Some(condition) = moved(alloc, parts, found)?
    {
        let before = b"with this test inside the brackets write: ";
        return joined(alloc, &[before, condition.as_slice()]);
    }
    let Some(through) = parts.written(start, start.saturating_add(1)) else {
        return Ok(None);
    };
    let before = b"move this test inside the brackets of \"";
    joined(alloc, &[before, through, b"\""])
}

/// Where the first `any` or `every` of the class stands from the part on.
fn through_from(parts: &Parts, class: &[u8], from: usize) -> Option<usize> {
    for i in from..parts.count() {
        let after = i.saturating_add(1);
        if is_one_of(parts.at(i), THROUGH)
            && parts.at(after) == class
            && is(parts.at(after.saturating_add(1)), "(")
        {
            return Some(i);
        }
    }
    None
}

/// What is outside, if the brackets end before the fault, and no other ones between them.
fn outside_of(parts: &Parts, class: &[u8], start: usize) -> Option<Outside> {
    let open = start.saturating_add(2);
    let close = closing(parts, open)?;
    let end = end_of_tests(parts, class, close.saturating_add(1));
    (close < parts.fault && parts.fault < end).then_some(Outside {
        start,
        open,
        close,
        end,
    })
}

/// Where the bracket is that closes the one at `open`.
pub(crate) fn closing(parts: &Parts, open: usize) -> Option<usize> {
    let mut depth: usize = 0;
    for i in open..parts.count() {
        depth = depth_after(depth, parts.at(i));
        if depth == 0 {
            return Some(i);
        }
    }
    None
}

/// The part after the last test that names the class, of those beside each other from a part on.
fn end_of_tests(parts: &Parts, class: &[u8], from: usize) -> usize {
    let mut depth: usize = 0;
    let mut end = from;
    let mut is_named = false;
    for i in from..parts.count().saturating_add(1) {
        let part = parts.at(i);
        let ends = part.is_empty() || is(part, ")");
        if depth == 0 && (ends || is_one_of(part, "and or")) {
            end = if is_named { i } else { end };
            is_named = false;
            if ends {
                return end;
            }
        }
        depth = depth_after(depth, part);
        is_named = is_named || part == class;
    }
    end
}

/// The tests from the part on up to the last one that names the class, of those beside each other,
/// as they are written, if one names it and they are a line that a hint repeats. None if an `and`
/// after them would have bound tighter than an `or` among them.
pub(crate) fn tests_that_name<'t>(
    parts: &Parts<'t>,
    class: &[u8],
    from: usize,
) -> Option<&'t [u8]> {
    let end = end_of_tests(parts, class, from);
    let is_torn = is(parts.at(end), "and") && has_or(parts, from, end);
    if end <= from || is_torn {
        return None;
    }
    let tests = parts.written(from, end.saturating_sub(1))?;
    is_short_line(tests, LONGEST).then_some(tests)
}

/// The condition with the tests inside the brackets, where it is clear what is meant. In the
/// brackets of others of its kind it is all of theirs.
fn moved(alloc: Global, parts: &Parts, found: Outside) -> Result<Option<Vec<u8>>, AllocError> {
    if !is_clear(parts, found) {
        return Ok(None);
    }
    let (first, after) = match around(parts, found.start) {
        Some((first, last)) => (first, last.saturating_add(1)),
        None => (found.start, found.end),
    };
    let mut out = Vec::new(alloc);
    put(&mut out, parts, first, found.start)?;
    put_inside(&mut out, parts, found)?;
    put(&mut out, parts, found.end, after)?;
    let is_told = is_short_line(out.as_slice(), LONGEST) && is_accepted(alloc, out.as_slice())?;
    Ok(is_told.then_some(out))
}

/// Whether the tests mean inside the brackets what they mean outside, but for the class: `and`
/// binds tighter than `or`, and `not` tighter than both.
fn is_clear(parts: &Parts, found: Outside) -> bool {
    let join = found.close.saturating_add(1);
    let before = parts.at(found.start.saturating_sub(1));
    let after = parts.at(found.end);
    let is_joined = is_one_of(parts.at(join), "and or") && !is(before, "not");
    let is_between = has_or(parts, join, found.end) && (is(before, "and") || is(after, "and"));
    is_joined && !is_between
}

/// Whether an `or` is among the parts from one up to another, outside of brackets.
pub(crate) fn has_or(parts: &Parts, from: usize, to: usize) -> bool {
    let mut depth: usize = 0;
    for i in from..to {
        let part = parts.at(i);
        depth = depth_after(depth, part);
        if depth == 0 && is(part, "or") {
            return true;
        }
    }
    false
}

/// Where the outermost `any` or `every` stands in whose brackets the part is, and what closes them.
fn around(parts: &Parts, at: usize) -> Option<(usize, usize)> {
    for i in 1..at {
        let first = i.saturating_sub(2);
        if is(parts.at(i), "(") && is_one_of(parts.at(first), THROUGH) {
            let last = closing(parts, i)?;
            if at < last {
                return Some((first, last));
            }
        }
    }
    None
}

/// Appends `any` or `every` with the tests in its brackets.
fn put_inside(out: &mut Vec<u8>, parts: &Parts, found: Outside) -> Result<(), AllocError> {
    let (first, after) = (found.open.saturating_add(1), found.close.saturating_add(1));
    let is_wrapped = is(parts.at(after), "and") && has_or(parts, first, found.close);
    let (open, close) = if is_wrapped { ("(", ")") } else { ("", "") };
    let pieces = [
        (found.start, first, open),
        (first, found.close, close),
        (after, found.end, ")"),
    ];
    for (from, to, sign) in pieces {
        put(out, parts, from, to)?;
        out.extend_from_slice(sign.as_bytes())?;
    }
    Ok(())
}

/// Appends the parts from one up to another on one line, with a blank in front where one belongs.
fn put(out: &mut Vec<u8>, parts: &Parts, from: usize, to: usize) -> Result<(), AllocError> {
    if to <= from {
        return Ok(());
    }
    if is_apart(out.as_slice()) && !is(parts.at(from), ")") {
        out.push(b' ')?;
    }
    put_line(
        out,
        parts.written(from, to.saturating_sub(1)).unwrap_or(b""),
    )
}

/// Whether a blank belongs after the text.
fn is_apart(text: &[u8]) -> bool {
    !text.is_empty() && !text.ends_with(b"(")
}

/// Appends the text on one line.
fn put_line(out: &mut Vec<u8>, text: &[u8]) -> Result<(), AllocError> {
    for byte in text {
        let is_blank = matches!(byte, b'\t' | b'\n' | b'\r');
        out.push(if is_blank { b' ' } else { *byte })?;
    }
    Ok(())
}
