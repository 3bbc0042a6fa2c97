//! What a part is by itself.

use cond_lang::{Class, Token, WORDS};

/// Whether the part reads so.
pub(crate) fn is(part: &[u8], text: &str) -> bool {
    part == text.as_bytes()
}

/// Whether the part reads as one of these texts, with a blank between them.
pub(crate) fn is_one_of(part: &[u8], texts: &str) -> bool {
    texts.split(' ').any(|text| is(part, text))
}

/// The token of a word of the language.
pub(crate) fn token_of(part: &[u8]) -> Option<Token> {
    let (_, token) = WORDS.iter().find(|(word, _)| is(part, word))?;
    Some(*token)
}

/// The part as the word of a measure, of which a hand and a suit have a total.
pub(crate) fn measure_word(part: &[u8]) -> Option<&'static str> {
    let (word, _) = WORDS.iter().find(|(word, token)| matches!(token, Token::Measure(_))
        && is(part, word))?;
    Some(*word)
}

/// Whether the part is the word of an order, of which a hand has a length.
pub(crate) fn is_order(part: &[u8]) -> bool {
    matches!(token_of(part), Some(Token::Ordered(_)))
}

/// Whether the part is a word that begins a value.
pub(crate) fn is_count(part: &[u8]) -> bool {
    matches!(
        token_of(part),
        Some(Token::Measure(_) | Token::Cards | Token::Len | Token::Ordered(_))
    )
}

/// Whether the part is a word after which a seat is in brackets.
pub(crate) fn is_call(part: &[u8]) -> bool {
    is_count(part) || is_one_of(part, "balanced shape pattern stops")
}

pub(crate) fn is_seat(part: &[u8]) -> bool {
    matches!(token_of(part), Some(Token::Seat(_)))
}

pub(crate) fn is_suit(part: &[u8]) -> bool {
    matches!(token_of(part), Some(Token::Suit(_)))
}

/// Whether the part is a class of seats.
pub(crate) fn is_seat_class(part: &[u8]) -> bool {
    matches!(
        token_of(part),
        Some(Token::Class(Class::Seat | Class::NorthSouth | Class::EastWest))
    )
}

/// The word of a seat, or of a class of seats, that the part is in letters of any size; of a seat
/// its first letter will do.
pub(crate) fn seat_word(part: &[u8]) -> Option<&'static str> {
    let (word, _) = WORDS
        .iter()
        .find(|(word, _)| is_seat_word(word.as_bytes(), part))?;
    Some(*word)
}

fn is_seat_word(word: &[u8], part: &[u8]) -> bool {
    let begins = word
        .get(..part.len())
        .is_some_and(|first| first.eq_ignore_ascii_case(part));
    let is_short = part.len() == 1 && is_seat(word);
    begins && (is_short || part.len() == word.len()) && (is_seat(word) || is_seat_class(word))
}

/// Whether the part is a class of suits, or what stands for the others in their brackets.
pub(crate) fn is_suit_class(part: &[u8]) -> bool {
    matches!(token_of(part), Some(Token::Class(_))) && !is_seat_class(part)
}

/// Whether the part is a word that with a seat in brackets is a seat.
pub(crate) fn is_neighbour(part: &[u8]) -> bool {
    matches!(token_of(part), Some(Token::Neighbour(_)))
}

pub(crate) fn is_relation(part: &[u8]) -> bool {
    matches!(part, b"==" | b"!=" | b"<" | b"<=" | b">" | b">=")
}

pub(crate) fn is_number(part: &[u8]) -> bool {
    matches!(part, [b'0'..=b'9', ..])
}

pub(crate) fn is_word(part: &[u8]) -> bool {
    matches!(part, [b'a'..=b'z' | b'A'..=b'Z', ..])
}

/// Whether the part is a word that is neither in the language nor ranks.
pub(crate) fn is_name(part: &[u8]) -> bool {
    is_word(part) && token_of(part).is_none() && !are_ranks(part)
}

/// Whether the letters are ranks, whether or not one occurs twice.
pub(crate) fn are_ranks(word: &[u8]) -> bool {
    word.iter().all(|letter| matches!(letter, b'a' | b'k' | b'q' | b'j' | b't'))
}

/// In how many brackets what comes after the part is.
pub(crate) fn depth_after(depth: usize, part: &[u8]) -> usize {
    if is(part, "(") {
        depth.saturating_add(1)
    } else if is(part, ")") {
        depth.saturating_sub(1)
    } else {
        depth
    }
}

/// Whether the bytes are printable, no more than this, and have no comment among them.
pub(crate) fn is_short_line(bytes: &[u8], most: usize) -> bool {
    let is_plain = |byte: &u8| (32..127).contains(byte) && *byte != b'#';
    bytes.len() <= most && bytes.iter().all(is_plain)
}

/// Whether the part may come in a value, outside of brackets.
pub(crate) fn is_in_value(part: &[u8]) -> bool {
    is(part, "+") || is(part, "*") || is_number(part) || is_count(part)
}

/// The number that the digits write, up to 9,999.
pub(crate) fn number(digits: &[u8]) -> usize {
    let mut number: usize = 0;
    for digit in &digits[..digits.len().min(4)] {
        number = number
            .saturating_mul(10)
            .saturating_add(usize::from(digit.saturating_sub(b'0')));
    }
    number
}
