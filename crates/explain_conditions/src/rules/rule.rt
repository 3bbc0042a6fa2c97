//! Rules that a table holds: what is around a fault, and what is said of it.
//!
//! A table is a text with a rule in each line, its pattern and its hint (`filling`) with `=>`
//! between them. A pattern is words with blanks between them: what holds at the fault, the parts
//! before it, `^`, the part with the fault and those after it. `Seat , ^ suits|majors )` fits
//! `len(north,majors)` at `majors`. These are the words, for texts T with `|` between them:
//!
//! | Word | What it wants |
//! |---|---|
//! | `Can:K`, `Cannot:K` | a token of the kind K (`KINDS`) may come at the fault, or could not |
//! | `In:T`, `NotIn:T` | the fault is in the brackets of one of the words T, or of none of them |
//! | `InCall`, `NotInCall` | it is in the brackets of a word that takes a seat, or of none |
//! | `InCount` | it is in the brackets of a word that counts something |
//! | `InQuestion` | the text was read as a question |
//! | `T`, `Except:T` | one of the texts T, or none of them |
//! | `Named:T` | the part with the fault is one of them, in letters of any size, and a whole word |
//! | `Begins:T` | it begins with one of them |
//! | `Nothing`, `Any` | no part: the text begins or ends there; any part, or none |
//! | `Number`, `Digits:N` | a number, or one of N digits |
//! | `Zeros` | a number of more than four digits whose first ones are zeros |
//! | `Length` | a number, or `x` |
//! | `Above`, `Follows` | a number above that of two parts before, or the one after it |
//! | `Relation`, `Seat`, `Suit`, `Word` | what they say |
//! | `Card`, `Rank` | a card, as `AS` or `sa`; the name of a rank, as `ace` |
//! | `Known`, `Name` | a word of the language; one that is neither that nor ranks |
//! | `InName` | the fault is in the brackets of such a word |
//! | `Later` | a word that the text gives as a name further on |
//! | `Own` | a name that is in the brackets of its own definition |
//! | `Defined` | the bracket that ends what a name stands for |
//! | `InPlainBody` | the fault is in what a name without brackets stands for |
//! | `Ranks` | ranks, whether or not one occurs twice |
//! | `Capital` | a word that has letters that aren't small |
//! | `CapitalWord`, `CapitalRanks` | one that is known, or ranks, once they are |
//! | `Count`, `NoValue` | a word that counts something; neither that nor a number |
//! | `Value`, `Call` | the last part of a value, or the bracket that ends one |
//! | `Bracketed`, `Chained` | the last part of a value after a bracket, or after a comparison |
//! | `Through` | the last part of a value after the bracket of `any` or `every` |
//! | `Suffix:S` | the sign S right after a part and apart from the next |
//! | `Amount`, `Counted` | an amount, as `15-17`, or one with a word that says of what |
//!
//! No text means no part: `|and|or` is the end, or one of these. A name in capitals stands for a
//! list of texts (`lists`); one of `is_text`, which may be one of several texts, for words of the
//! language's own list.

use crate::rules::amounts::{amount_at, counted_at};
use crate::rules::card::{card_of, rank_of};
use crate::rules::lists::{THROUGH, listed};
use crate::rules::parts::Parts;
use crate::rules::words::{
    are_ranks, is, is_call, is_count, is_name, is_neighbour, is_number, is_one_of, is_order,
    is_relation, is_seat, is_seat_class, is_suit, is_suit_class, is_word, measure_word, number,
    token_of,
};
use cond_lang::{Class, Kind};

/// The kinds of tokens that rules ask for.
static KINDS: [(&str, Kind); 19] = [
    ("Let", Kind::Let),
    ("Is", Kind::Is),
    ("Not", Kind::Not),
    ("Open", Kind::Open),
    ("Number", Kind::Number),
    ("Relation", Kind::Relation),
    ("Plus", Kind::Plus),
    ("Comma", Kind::Comma),
    ("Seat", Kind::Seat),
    ("Suit", Kind::Suit),
    ("Ranks", Kind::Ranks),
    ("Close", Kind::Close),
    ("And", Kind::And),
    ("End", Kind::End),
    ("SuitClass", Kind::Class(Class::Suit)),
    ("MajorClass", Kind::Class(Class::Major)),
    ("MinorClass", Kind::Class(Class::Minor)),
    ("NorthSouthClass", Kind::Class(Class::NorthSouth)),
    ("EastWestClass", Kind::Class(Class::EastWest)),
];

/// Whether the pattern fits the fault.
pub(crate) fn fits(parts: &Parts, pattern: &str) -> bool {
    let (before, _) = pattern.split_once('^').unwrap_or(("", pattern));
    let mut back = before.split_ascii_whitespace().count();
    let mut next: usize = 0;
    for word in pattern.split_ascii_whitespace() {
        if word == "^" {
            continue;
        }
        let at = parts.fault.saturating_sub(back).saturating_add(next);
        if !is_wanted(parts, at, word) {
            return false;
        }
        next = next.saturating_add(if back > 0 { 0 } else { 1 });
        back = back.saturating_sub(1);
    }
    true
}

/// Whether the part is one of the texts of a pattern.
fn is_among(part: &[u8], texts: &str) -> bool {
    let (texts, sign) = listed(texts);
    texts.split(sign).any(|text| is_text(part, text))
}

/// Whether the part is the text of a pattern, or a word of the language for which that stands.
fn is_text(part: &[u8], text: &str) -> bool {
    match text {
        "MEASURES" => measure_word(part).is_some(),
        "ORDERS" => is_order(part),
        "NEIGHBOURS" => is_neighbour(part),
        "CLASSES" => is_seat_class(part) || is_suit_class(part),
        "SEAT_CLASSES" => is_seat_class(part),
        "SUIT_CLASSES" => is_suit_class(part),
        "SEATS" => is_seat(part) || is_seat_class(part),
        "SUITS" => is_suit(part) || is_suit_class(part),
        _ => is(part, text),
    }
}

/// Whether the part begins with one of the texts of a pattern.
fn begins_with(part: &[u8], texts: &str) -> bool {
    let (texts, sign) = listed(texts);
    texts
        .split(sign)
        .any(|text| part.starts_with(text.as_bytes()))
}

/// Whether it is so that a token of the kind may come at the fault.
fn can_be(parts: &Parts, name: &str, is_so: bool) -> bool {
    let kind = KINDS.iter().find(|(known, _)| *known == name);
    kind.is_some_and(|(_, kind)| parts.can.has(*kind) == is_so)
}

/// Whether the part is what the word of a pattern wants: by a name, with texts after a colon, or as
/// one of the texts that stand there.
fn is_wanted(parts: &Parts, i: usize, word: &str) -> bool {
    let (name, texts) = word.split_once(':').unwrap_or((word, ""));
    let part = parts.at(i);
    match name {
        "Can" => can_be(parts, texts, true),
        "Cannot" => can_be(parts, texts, false),
        "In" => is_among(parts.call(), texts),
        "NotIn" => !is_among(parts.call(), texts),
        "InCall" => is_call(parts.call()),
        "NotInCall" => !is_call(parts.call()),
        "InCount" => is_count(parts.call()),
        "InQuestion" => parts.can.is_question,
        "Except" => !is_among(part, texts),
        "Named" => !parts.is_cut() && is_among(parts.word.as_slice(), texts),
        "Begins" => begins_with(part, texts),
        "Nothing" => part.is_empty(),
        "Any" => true,
        "Number" => is_number(part),
        "Digits" => is_number(part) && part.len() == number(texts.as_bytes()),
        "Length" => is_number(part) || is(part, "x"),
        "Relation" => is_relation(part),
        "Seat" => is_seat(part),
        "Suit" => is_suit(part),
        "Word" => is_word(part),
        "Known" => token_of(part).is_some(),
        "Name" => is_name(part),
        "InName" => is_name(parts.call()),
        "Later" => is_name(part) && parts.given_at(part) > i,
        "Own" => is_name(part) && parts.is_in_own_brackets(i),
        "Defined" => parts.ends_definition(i),
        "InPlainBody" => parts.is_in_plain_body(),
        "Ranks" => is_word(part) && are_ranks(part),
        "Count" => is_count(part),
        "NoValue" => !is_number(part) && !is_count(part),
        _ => is_wanted_beside(parts, i, word),
    }
}

/// The same of what is wanted of a part's letters, of a card, or of the parts before it.
fn is_wanted_beside(parts: &Parts, i: usize, word: &str) -> bool {
    let (name, texts) = word.split_once(':').unwrap_or((word, ""));
    let part = parts.at(i);
    match name {
        "Above" => is_number(part) && number(parts.at(i.saturating_sub(2))) < number(part),
        "Card" => card_of(part).is_some(),
        "Rank" => !rank_of(part).is_empty(),
        "Zeros" => is_number(part) && without_zeros(part).len() <= 4,
        "Follows" => is_next(parts.at(i.saturating_sub(2)), part),
        "Suffix" => is(part, texts) && parts.is_suffix(i),
        "Capital" | "CapitalWord" | "CapitalRanks" => {
            is_capital(part, parts.word.as_slice(), name)
        }
        _ => is_wanted_by_value(parts, i, word),
    }
}

/// Whether the part has letters that aren't small, and is what is wanted once they are.
fn is_capital(part: &[u8], word: &[u8], name: &str) -> bool {
    if part == word {
        return false;
    }
    match name {
        "CapitalWord" => token_of(word).is_some(),
        "CapitalRanks" => is_word(part) && are_ranks(word),
        _ => is_word(part),
    }
}

/// The same of what is wanted of a value or an amount.
fn is_wanted_by_value(parts: &Parts, i: usize, word: &str) -> bool {
    match word {
        "Value" => parts.value(i).is_some(),
        "Call" => is(parts.at(i), ")") && parts.value(i).is_some(),
        "Bracketed" => is(before_value(parts, i), "(") && parts.value(i).is_some(),
        "Through" => is_one_of(word_before_value(parts, i), THROUGH) && parts.value(i).is_some(),
        "Chained" => is_relation(before_value(parts, i)),
        "Amount" => amount_at(parts, i).is_some(),
        "Counted" => counted_at(parts, i).0 != "",
        _ => is_among(parts.at(i), word),
    }
}

/// The part before the value that ends with this part.
fn before_value<'t>(parts: &Parts<'t>, last: usize) -> &'t [u8] {
    parts.at(parts.value_start(last).saturating_sub(1))
}

/// The word before the class and the bracket in front of the value that ends with this part.
fn word_before_value<'t>(parts: &Parts<'t>, last: usize) -> &'t [u8] {
    parts.at(parts.value_start(last).saturating_sub(3))
}

/// The digits without the zeros in front, but for the last.
pub(crate) fn without_zeros(mut digits: &[u8]) -> &[u8] {
    while let [b'0', rest @ ..] = digits {
        if rest.is_empty() {
            break;
        }
        digits = rest;
    }
    digits
}

/// Whether the second is the number after the first.
fn is_next(first: &[u8], second: &[u8]) -> bool {
    is_number(second) && number(first).saturating_add(1) == number(second)
}
