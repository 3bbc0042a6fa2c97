//! What a hint says, with the parts of the text in it.
//!
//! A placeholder in a hint is `%`, a letter and a digit N: `%bN` is the part N before the fault,
//! and `%nN` the one N after it, `%n0` the one with it. Of these parts:
//!
//! | Placeholder | What it means |
//! |---|---|
//! | `%uN` | the seat that begins with `%nN` after a bracket or `in`, as `partner(north)`, or is |
//! | | in front of it, else the last seat before the fault, or `north`: `%u2` fits `word(seat`, |
//! | | `word in seat` and `word seat`; of a class that means no seat there any goes through it |
//! | `%mN` | the part with the fault in small letters |
//! | `%pN`, `%qN` | the card `%nN`, as `spades,a`; the letter of the rank that `%nN` names |
//! | `%zN` | the number `%nN` without zeros in front |
//! | `%iN` | the number `%bN` and one more |
//! | `%dN`, `%gN` | the digits of `%bN` or of `%nN`, with dashes between them |
//! | `%aN` | the amount that begins with `%nN`, as ` in 15-17` or `>=15` |
//! | `%kN`, `%sN` | the word that counts what it is said of, and what comes after its seat |
//! | `%xN` | that amount, or where a test ends a comparison for one suit |
//! | `%fN`, `%rN` | the range from `%b1`, or from `%n1`, to `%nN` |
//! | `%tN` | `not ` if `%bN` is `!=` |
//! | `%vN` | the value that ends with `%bN`; `hcp(north)` where none is |
//! | `%cN` | a comparison for that value |
//! | `%oN` | the tests from `%nN` up to the last that names the class `%b1` |
//! | `%wN` | the word of the call that has the fault |
//! | `%eN` | what comes after the word `%bN` and a seat; `%e0` of the call |
//! | `%hN` | the brackets after the name `%bN`; `%h0` of the call |
//! | `%l0`, `%l1` | the words of all measures, of all orders, each with a comma and a blank |

use crate::rules::amounts::{Amount, amount_at, counted_at, ordered};
use crate::rules::card::{card_of, rank_of};
use crate::rules::hint::Said;
use crate::rules::lists::{BINDS, ENDS, STARTS};
use crate::rules::outside::tests_that_name;
use crate::rules::parts::Parts;
use crate::rules::rule::{fits, without_zeros};
use crate::rules::samples::{comparison, sample};
use crate::rules::seats::seat_at;
use crate::rules::words::{is, is_one_of, is_seat_class, is_suit_class, number};
use cond_lang::{CondError, Token, WORDS, parse};
use conditions::Cond;
use itoa::Buffer;
use std::alloc::{AllocError, Global};

/// What comes after a word and a seat, where it isn't a suit or the bracket.
static AFTER_SEATS: &[(&str, &str)] = &[
    ("cards", ",akq)"),
    ("shape", ",5-3-3-2)"),
    ("pattern", ",5-3-3-2)"),
];

/// What the first rule says that fits and whose hint can be said.
pub(crate) fn first_in(alloc: Global, parts: &Parts, rules: &str) -> Said {
    for line in rules.lines() {
        if let Some((pattern, hint)) = line.split_once(" => ")
            && fits(parts, pattern)
        {
            let said = filled(alloc, parts, hint)?;
            if said.is_some() {
                return Ok(said);
            }
        }
    }
    Ok(None)
}

/// What follows `write: ` in a hint, if anything does: a whole condition, which has to be accepted.
/// A value is told as `write "..."`.
pub fn suggested(hint: &[u8]) -> Option<&[u8]> {
    let mut rest = hint;
    while let [_, more @ ..] = rest {
        if rest.starts_with(b"write: ") {
            return Some(&rest[7..]);
        }
        rest = more;
    }
    None
}

/// The hint with the parts in it, if they are there, and it suggests nothing that is refused.
fn filled(alloc: Global, parts: &Parts, hint: &str) -> Said {
    let mut out = Vec::new(alloc);
    if !put_hint(&mut out, parts, hint)? {
        return Ok(None);
    }
    if hint.contains("%u")
        && let Some(test) = suggested(out.as_slice()).or(example(out.as_slice()))
        && let Some(class) = unbound_class(alloc, parts, test)?
    {
        return through(alloc, out.as_slice(), class, test);
    }
    if !is_sound(alloc, parts, out.as_slice())? {
        return Ok(None);
    }
    in_place(alloc, parts, out)
}

/// What follows `as in` in a hint, if anything does.
fn example(hint: &[u8]) -> Option<&[u8]> {
    for i in 0..hint.len() {
        if begins_at(hint, i, b"as in ") {
            return hint.get(i.saturating_add(6)..);
        }
    }
    None
}

/// The class of seats that the test names, and that means no seat at the fault, if there is one.
fn unbound_class(
    alloc: Global,
    parts: &Parts,
    test: &[u8],
) -> Result<Option<&'static str>, AllocError> {
    if is_accepted(alloc, test)? {
        return Ok(None);
    }
    for (class, _) in WORDS.iter() {
        if is_seat_class(class.as_bytes())
            && !parts.is_bound(class.as_bytes())
            && is_accepted(alloc, within(alloc, class, test)?.as_slice())?
        {
            return Ok(Some(*class));
        }
    }
    Ok(None)
}

/// The hint with the test that it suggests, or has as an example, in the brackets of its class.
fn through(alloc: Global, hint: &[u8], class: &str, test: &[u8]) -> Said {
    let (before, _) = hint.split_at(hint.len().saturating_sub(test.len()));
    let said = b"any is for some seat, every for each; ";
    let told = within(alloc, class, test)?;
    joined(alloc, &[said, before, told.as_slice()])
}

/// Appends the hint with the parts in it, if they are there.
fn put_hint(out: &mut Vec<u8>, parts: &Parts, hint: &str) -> Result<bool, AllocError> {
    for (i, piece) in hint.split('%').enumerate() {
        let text = match piece.as_bytes() {
            [kind, digit, after @ ..] if i > 0 => {
                if !put(out, parts, *kind, usize::from(digit.saturating_sub(b'0')))? {
                    return Ok(false);
                }
                after
            }
            text => text,
        };
        out.extend_from_slice(text)?;
    }
    Ok(true)
}

/// Whether the language has what the hint suggests, if it suggests anything.
fn is_sound(alloc: Global, parts: &Parts, hint: &[u8]) -> Result<bool, AllocError> {
    match suggested(hint) {
        Some(condition) => is_accepted_in(alloc, parts, condition),
        None => Ok(true),
    }
}

/// The hint, and in brackets what it suggests where the text would tear that.
fn in_place(alloc: Global, parts: &Parts, hint: Vec<u8>) -> Said {
    match suggested(hint.as_slice()) {
        Some(condition) if splits_condition(parts, condition) => {
            let (before, _) = hint
                .as_slice()
                .split_at(hint.len().saturating_sub(condition.len()));
            joined(alloc, &[before, b"(", condition, b")"])
        }
        _ => Ok(Some(hint)),
    }
}

/// The texts, one after the other, as a hint.
pub(crate) fn joined(alloc: Global, texts: &[&[u8]]) -> Said {
    let mut out = Vec::new(alloc);
    put_all(&mut out, texts)?;
    Ok(Some(out))
}

/// Appends the texts, one after the other.
pub(crate) fn put_all(out: &mut Vec<u8>, texts: &[&[u8]]) -> Result<(), AllocError> {
    for text in texts {
        out.extend_from_slice(text)?;
    }
    Ok(())
}

/// Whether other words of the text may bind tighter than what joins the condition's tests: `not`
/// binds tighter than `and`, and `and` tighter than `or`.
fn splits_condition(parts: &Parts, condition: &[u8]) -> bool {
    if is_joined(condition, b" or ") {
        parts.has("and not")
    } else {
        is_joined(condition, b" and ") && parts.has("not")
    }
}

/// Whether the word joins tests of the condition, outside of brackets.
fn is_joined(condition: &[u8], word: &[u8]) -> bool {
    let mut depth: usize = 0;
    for (i, byte) in condition.iter().enumerate() {
        match *byte {
            b'(' => depth = depth.saturating_add(1),
            b')' => depth = depth.saturating_sub(1),
            _ if depth == 0 && begins_at(condition, i, word) => return true,
            _ => {}
        }
    }
    false
}

/// Whether the word begins at the byte.
fn begins_at(text: &[u8], at: usize, word: &[u8]) -> bool {
    text.get(at..at.saturating_add(word.len())) == Some(word)
}

/// Whether the text's other words let the condition be in it: as it is, or where a class is named.
fn is_accepted_in(alloc: Global, parts: &Parts, condition: &[u8]) -> Result<bool, AllocError> {
    if is_accepted(alloc, condition)? {
        return Ok(true);
    }
    Ok(parts.has(BINDS) && read_within(alloc, condition)?.is_some())
}

/// Returns the condition that some suit or seat meets the test, of the first class that it names.
///
/// # Errors
/// `AllocError` if an allocation failed.
pub fn read_within(alloc: Global, test: &[u8]) -> Result<Option<Cond>, AllocError> {
    for (class, token) in WORDS.iter() {
        if matches!(token, Token::Class(_)) {
            let found = read(alloc, within(alloc, class, test)?.as_slice())?;
            if found.is_some() {
                return Ok(found);
            }
        }
    }
    Ok(None)
}

/// The condition that some suit or seat of the class meets the test.
fn within(alloc: Global, class: &str, test: &[u8]) -> Result<Vec<u8>, AllocError> {
    let mut out = Vec::new(alloc);
    put_all(&mut out, &[b"any ", class.as_bytes(), b" (", test, b")"])?;
    Ok(out)
}

/// Whether the language has the condition.
pub(crate) fn is_accepted(alloc: Global, condition: &[u8]) -> Result<bool, AllocError> {
    Ok(read(alloc, condition)?.is_some())
}

/// Returns the condition, if the language has it.
///
/// # Errors
/// `AllocError` if an allocation failed.
pub fn read(alloc: Global, condition: &[u8]) -> Result<Option<Cond>, AllocError> {
    match parse(alloc, condition) {
        Ok(condition) => Ok(Some(condition)),
        Err(CondError::Memory) => Err(AllocError),
        Err(_) => Ok(None),
    }
}

/// Appends what the placeholder means, if it is there.
fn put(out: &mut Vec<u8>, parts: &Parts, kind: u8, n: usize) -> Result<bool, AllocError> {
    let back = parts.fault.saturating_sub(n);
    let next = parts.fault.saturating_add(n);
    match kind {
        b'v' => return put_value(out, parts, back),
        b'o' => return put_tests(out, parts, next),
        _ => {}
    }
    let done = match kind {
        b'l' => put_words(out, n),
        b'e' if n == 0 => put_after_seat(out, parts, parts.call()),
        b'e' => put_after_seat(out, parts, parts.at(back)),
        b'x' if is_one_of(parts.at(next), ENDS) => {
            out.extend_from_slice(sample(parts.call(), true, false).as_bytes())
        }
        b'a' | b'x' => put_amount(out, amount_at(parts, next)),
        b'f' => put_range(out, parts.at(parts.fault.saturating_sub(1)), parts.at(next)),
        b'r' => put_range(out, parts.at(parts.fault.saturating_add(1)), parts.at(next)),
        b'p' => put_card(out, parts.at(next)),
        b'd' => put_dashed(out, parts.at(back)),
        b'g' => put_dashed(out, parts.at(next)),
        b'i' => put_number(out, number(parts.at(back)).saturating_add(1)),
        _ => out.extend_from_slice(text_of(parts, kind, back, next)),
    };
    done?;
    Ok(true)
}

/// What the placeholder means, where it is one text.
fn text_of<'t>(parts: &'t Parts, kind: u8, back: usize, next: usize) -> &'t [u8] {
    match kind {
        b'b' => parts.at(back),
        b'n' => parts.at(next),
        b'u' => seat_at(parts, next),
        b'm' => parts.word.as_slice(),
        b'w' => parts.call(),
        b'q' => rank_of(parts.at(next)).as_bytes(),
        b'z' => without_zeros(parts.at(next)),
        b'c' => comparison(parts, back).as_bytes(),
        b't' if is(parts.at(back), "!=") => b"not ",
        b'h' if back == parts.fault => parts.arguments_of(parts.call()).as_bytes(),
        b'h' => parts.arguments_of(parts.at(back)).as_bytes(),
        b'k' => counted_at(parts, next).0.as_bytes(),
        b's' => counted_at(parts, next).1.as_bytes(),
        _ => b"",
    }
}

/// Appends the words of all measures, or of all orders, each with a comma and a blank after it.
fn put_words(out: &mut Vec<u8>, n: usize) -> Result<(), AllocError> {
    for (word, token) in WORDS.iter() {
        if is_in_table(token, n) {
            put_all(out, &[word.as_bytes(), b", "])?;
        }
    }
    Ok(())
}

/// Whether the token is a measure, or an order.
fn is_in_table(token: &Token, n: usize) -> bool {
    match token {
        Token::Measure(_) => n == 0,
        Token::Ordered(_) => n == 1,
        _ => false,
    }
}

/// Appends what comes after the word and a seat. A suit is that of the brackets of any or every.
fn put_after_seat(out: &mut Vec<u8>, parts: &Parts, word: &[u8]) -> Result<(), AllocError> {
    if !is_one_of(word, "len stops") {
        return out.extend_from_slice(after_seat(word).as_bytes());
    }
    let class = parts.class();
    let suit = if is_suit_class(class) {
        class
    } else {
        b"spades"
    };
    put_all(out, &[b",", suit, b")"])
}

/// What comes after the word and a seat, where no suit does.
fn after_seat(word: &[u8]) -> &'static str {
    let found = AFTER_SEATS.iter().find(|(asked, _)| is(word, asked));
    found.map_or(")", |(_, after)| *after)
}

fn put_amount(out: &mut Vec<u8>, amount: Option<Amount>) -> Result<(), AllocError> {
    let Some(amount) = amount else {
        return Ok(());
    };
    let dash: &[u8] = if amount.high.is_empty() { b"" } else { b"-" };
    put_all(out, &[amount.sign, amount.low, dash, amount.high])
}

fn put_range(out: &mut Vec<u8>, one: &[u8], other: &[u8]) -> Result<(), AllocError> {
    let (low, high) = ordered(one, other);
    put_all(out, &[low, b"-", high])
}

/// Appends the card's suit and its rank, if it is one.
fn put_card(out: &mut Vec<u8>, part: &[u8]) -> Result<(), AllocError> {
    match card_of(part) {
        Some((suit, rank)) => put_all(out, &[suit.as_bytes(), b",", &[rank]]),
        None => Ok(()),
    }
}

/// Appends the digits with dashes between them.
fn put_dashed(out: &mut Vec<u8>, digits: &[u8]) -> Result<(), AllocError> {
    for (i, digit) in digits.iter().enumerate() {
        if i > 0 {
            out.push(b'-')?;
        }
        out.push(*digit)?;
    }
    Ok(())
}

pub(crate) fn put_number(out: &mut Vec<u8>, number: usize) -> Result<(), AllocError> {
    out.extend_from_slice(Buffer::new().format(number as u64).as_bytes())
}

/// Appends the tests from the part on that name the class before the fault, if any does.
fn put_tests(out: &mut Vec<u8>, parts: &Parts, from: usize) -> Result<bool, AllocError> {
    let class = parts.at(parts.fault.saturating_sub(1));
    let Some(tests) = tests_that_name(parts, class, from) else {
        return Ok(false);
    };
    out.extend_from_slice(tests)?;
    Ok(true)
}

/// Appends the value that ends with the part; if nothing is there, one that could.
fn put_value(out: &mut Vec<u8>, parts: &Parts, last: usize) -> Result<bool, AllocError> {
    let value = match parts.value(last) {
        Some(value) => value,
        None if is_one_of(parts.at(last), STARTS) => b"hcp(north)",
        None => return Ok(false),
    };
    out.extend_from_slice(value)?;
    Ok(true)
}
