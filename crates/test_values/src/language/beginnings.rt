//! What may come where a text goes wrong: worked by an independent program, each set once.

use super::*;
use cards::{Measure, Order};
use cond_lang::{Beginning, Class, Kind, Neighbour, Quantifier, names_of};

/// Any measure: all of them are in the same places.
const MEASURE: Kind = Kind::Measure(Measure::Hcp);

/// Any order, likewise.
const ORDER: Kind = Kind::Ordered(Order::Longest);

const SUIT: Kind = Kind::Class(Class::Suit);

const MAJOR: Kind = Kind::Class(Class::Major);

const MINOR: Kind = Kind::Class(Class::Minor);

const OTHER: Kind = Kind::Class(Class::Other);

const SEAT: Kind = Kind::Class(Class::Seat);

const NS: Kind = Kind::Class(Class::NorthSouth);

const EW: Kind = Kind::Class(Class::EastWest);

const PARTNER: Kind = Kind::Neighbour(Neighbour::Partner);

const LEFT: Kind = Kind::Neighbour(Neighbour::Left);

const RIGHT: Kind = Kind::Neighbour(Neighbour::Right);

/// All that begins a condition.
const CONDITION: [Kind; 13] = [
    Kind::Not,
    Kind::Open,
    Kind::Balanced,
    Kind::Shape,
    Kind::Pattern,
    Kind::Quantifier(Quantifier::Any),
    Kind::Quantifier(Quantifier::Every),
    Kind::Stops,
    Kind::Number,
    MEASURE,
    Kind::Cards,
    Kind::Len,
    ORDER,
];

/// All that begins a text.
const TEXT: [Kind; 14] = [
    Kind::Let,
    Kind::Not,
    Kind::Open,
    Kind::Balanced,
    Kind::Shape,
    Kind::Pattern,
    Kind::Quantifier(Quantifier::Any),
    Kind::Quantifier(Quantifier::Every),
    Kind::Stops,
    Kind::Number,
    MEASURE,
    Kind::Cards,
    Kind::Len,
    ORDER,
];

/// The same where each class is bound.
const INSIDE_ALL: [Kind; 11] = [
    Kind::Not,
    Kind::Open,
    Kind::Balanced,
    Kind::Shape,
    Kind::Pattern,
    Kind::Stops,
    Kind::Number,
    MEASURE,
    Kind::Cards,
    Kind::Len,
    ORDER,
];

/// All that begins a value.
const VALUE: [Kind; 5] = [Kind::Number, MEASURE, Kind::Cards, Kind::Len, ORDER];

/// All that is counted in a hand.
const COUNTS: [Kind; 4] = [MEASURE, Kind::Cards, Kind::Len, ORDER];

/// Texts with a syntax fault, or whole ones, and what may come there.
const EXPECTED: [(&str, &[Kind]); 50] = [
    ("2*", &COUNTS),
    ("2*hcp(north) *", &[Kind::Plus, Kind::Relation, Kind::In]),
    ("hcp(north) in 2*", &[Kind::Dash]),
    ("", &TEXT),
    ("not", &CONDITION),
    ("let", &[]),
    ("let mine", &[Kind::Open, Kind::Is]),
    ("let mine(", &[SEAT, SUIT]),
    ("let mine(seat", &[Kind::Comma, Kind::Close]),
    ("let mine(seat,", &[SUIT]),
    ("let mine(seat) is", &[Kind::Open]),
    (
        "let mine(seat) is (hcp(",
        &[Kind::Seat, SEAT, PARTNER, LEFT, RIGHT],
    ),
    (
        "let mine is (hcp(north)",
        &[Kind::Plus, Kind::Relation, Kind::In, Kind::Close],
    ),
    ("let mine is (hcp(north)>3)", &TEXT),
    ("let mine is (mine) mine", &CONDITION),
    ("1==1+", &VALUE),
    ("hcp(north)", &[Kind::Plus, Kind::Relation, Kind::In]),
    (
        "hcp(north)>=15",
        &[Kind::Plus, Kind::Star, Kind::And, Kind::Or, Kind::End],
    ),
    (
        "hcp(south)==3)",
        &[Kind::Plus, Kind::Star, Kind::And, Kind::Or, Kind::End],
    ),
    (
        "(hcp(south)==3",
        &[Kind::Plus, Kind::Star, Kind::Close, Kind::And, Kind::Or],
    ),
    ("losers", &[Kind::Open]),
    ("losers(", &[Kind::Seat, PARTNER, LEFT, RIGHT]),
    ("losers(south", &[Kind::Comma, Kind::Close]),
    ("losers(south,3)", &[Kind::Suit]),
    ("cards(south,", &[Kind::Suit, Kind::Ranks]),
    ("cards(south,clubs", &[Kind::Comma]),
    ("cards(south,clubs,9)", &[Kind::Ranks]),
    ("longest(south,clubs)", &[Kind::Close]),
    ("hcp(east) in 3,4", &[Kind::Dash]),
    ("hcp(east) in 3-", &[Kind::Number]),
    ("hcp(east) in 3-4 5", &[Kind::And, Kind::Or, Kind::End]),
    ("(1 in 3-4 5", &[Kind::Close, Kind::And, Kind::Or]),
    ("pattern(east,x-x-x-in", &[Kind::Number, Kind::X]),
    ("any", &[SEAT, NS, EW, SUIT, MAJOR, MINOR]),
    ("any suit", &[Kind::Open]),
    (
        "any suit (any suit (0==0))",
        &[SEAT, NS, EW, MAJOR, MINOR, OTHER],
    ),
    (
        "any suit (any other (any other (0==0)))",
        &[SEAT, NS, EW, MAJOR, MINOR],
    ),
    ("any suit (len(north,major)>=2)", &[Kind::Suit, SUIT]),
    ("any major (0==0) and len(north,major)>=2", &[Kind::Suit]),
    (
        "any suit (any major (any minor (any other (any",
        &[SEAT, NS, EW],
    ),
    (
        "any suit (any major (any minor (any other (any seat (any ns (any ew (any",
        &INSIDE_ALL,
    ),
    ("hcp(partner", &[Kind::Open]),
    ("any ns (hcp(left(", &[Kind::Seat, NS, PARTNER, LEFT, RIGHT]),
    (
        "any seat (hcp(seat)>1 and any other",
        &[NS, EW, SUIT, MAJOR, MINOR],
    ),
    ("any seat (any suit (any other", &[Kind::Open]),
    (
        "every minor (cards(north,",
        &[Kind::Suit, MINOR, Kind::Ranks],
    ),
    (
        "any suit (stops(north,suit)",
        &[Kind::Close, Kind::And, Kind::Or],
    ),
    (
        "stops(north,hearts) >= 1",
        &[Kind::And, Kind::Or, Kind::End],
    ),
    ("second(north)", &[Kind::Plus, Kind::Relation, Kind::In]),
    ("second(north,hearts)==3", &[Kind::Close]),
];

#[test]
fn what_could_stand_there(rt: HostRuntime) -> Result<(), Fail> {
    for (text, expected) in EXPECTED.iter() {
        assert!(rt; is_expected(rt.alloc(), text, expected)?, "{text}");
    }
    Ok(())
}

/// Beginnings, the names that may come next, whether each given one stands for a value, and whether
/// a new one comes.
const NAMES: [(&str, [bool; 3], &[bool], bool); 6] = [
    ("let", [true, false, false], &[], true),
    (
        "let v is (hcp(north)) let mine is (1>0) mine and",
        [true, true, false],
        &[true, false],
        false,
    ),
    (
        "let v is (hcp(north)) let mine is (1>0) 1+",
        [true, false, false],
        &[true, false],
        false,
    ),
    (
        "let mine is (1>0) let",
        [false, true, false],
        &[false],
        true,
    ),
    (
        "let mine is (1>0) let yours is (",
        [true, false, false],
        &[false],
        false,
    ),
    ("let mine is (", [false, false, false], &[], false),
];

#[test]
fn which_names_could_stand_there(rt: HostRuntime) -> Result<(), Fail> {
    for (text, may_come, values, is_new) in NAMES.iter() {
        let beginning = Beginning::of(rt.alloc(), text.as_bytes())?;
        assert_eq!(rt; beginning.is_after_let(), *is_new, "{text}");
        for number in 0..3 {
            let name = number as u16;
            let may = beginning.allows(Kind::Name(name))?;
            assert_eq!(rt; may, may_come[number], "{text}, {number}");
            let told = beginning.is_value_name(name)?;
            assert_eq!(rt; told, values.get(number).copied(), "{text}, {number}");
        }
    }
    Ok(())
}

#[test]
fn names_of_texts(rt: HostRuntime) {
    let names = names_of(b"let v is (1) # let no\n let mine is (2) let v let hcp theirs");
    assert_eq!(rt; names.len(), 2);
    assert_eq!(rt; names.get(0).copied(), Some(b"v".as_slice()));
    assert_eq!(rt; names.get(1).copied(), Some(b"mine".as_slice()));
    assert_eq!(rt; names_of(&[b' '; 5122]).len(), 0);
}

/// Whether exactly these kinds may come there.
fn is_expected(alloc: Global, text: &str, expected: &[Kind]) -> Result<bool, CondError> {
    let beginning = Beginning::of(alloc, text.as_bytes())?;
    for kind in Kind::ALL {
        if beginning.allows(kind)? != lists(expected, listed(kind)) {
            return Ok(false);
        }
    }
    Ok(true)
}

/// Whether the kind is one of these.
pub fn lists(kinds: &[Kind], kind: Kind) -> bool {
    kinds.iter().any(|listed| listed.place() == kind.place())
}

/// The kind as the sets have it.
fn listed(kind: Kind) -> Kind {
    match kind {
        Kind::Measure(_) => MEASURE,
        Kind::Ordered(_) => ORDER,
        other => other,
    }
}

/// Texts that have no tokens, and why.
const REFUSALS: [(&[u8], CondError); 3] = [
    (b"hcp(nort", CondError::Word { at: 4 }),
    (b"1==1)12345", CondError::Number { at: 5 }),
    (&[b' '; 5122], CondError::TooLong),
];

#[test]
fn refused_before_its_tokens_are_read(rt: HostRuntime) {
    for (text, wanted) in REFUSALS.iter() {
        assert_eq!(rt; Beginning::of(rt.alloc(), text).err(), Some(*wanted));
    }
}
