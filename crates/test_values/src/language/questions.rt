//! Questions: what a text asks, and where one that asks nothing goes wrong.

use super::beginnings::lists;
use super::*;
use cond_lang::{Beginning, Kind, parse_question};

/// Texts, whether they are conditions, and how many rows a table of their answers can have.
const QUESTIONS: [(&str, bool, u64); 6] = [
    ("hcp(north)", false, 38),
    ("7", false, 8),
    ("0==0", true, 2),
    ("hcp(north)+hcp(south)", false, 75),
    ("len(south,spades) # how many", false, 14),
    ("hcp(north)>=15 and balanced(north)", true, 2),
];

#[test]
fn what_is_asked(rt: HostRuntime) -> Result<(), Fail> {
    for (text, is_condition, rows) in QUESTIONS.iter() {
        let question = parse_question(rt.alloc(), text.as_bytes())?;
        assert_eq!(rt; question.is_condition(), *is_condition);
        assert_eq!(rt; question.rows(), *rows);
    }
    Ok(())
}

/// Texts that ask nothing, and why.
const REFUSALS: [(&[u8], CondError); 11] = [
    (b"hcp(nord)", CondError::Word { at: 4 }),
    (b"", CondError::Syntax { at: 0 }),
    (b"hcp(north)>", CondError::Syntax { at: 11 }),
    (b"hcp(north) hcp(south)", CondError::Syntax { at: 11 }),
    (b"len(north)", CondError::Syntax { at: 9 }),
    (b"7 8", CondError::Syntax { at: 2 }),
    (b"(7)", CondError::Syntax { at: 2 }),
    (b"not 7", CondError::Syntax { at: 5 }),
    (b"balanced(north)+1", CondError::Syntax { at: 15 }),
    (b"1+12345", CondError::Number { at: 2 }),
    (&[b' '; 1025], CondError::TooLong),
];

#[test]
fn what_asks_nothing(rt: HostRuntime) {
    for (text, wanted) in REFUSALS.iter() {
        assert_eq!(rt; parse_question(rt.alloc(), text).err(), Some(*wanted));
    }
}

/// Texts, and what may come in a question after the tokens that one begins with.
const EXPECTED: [(&str, &[Kind]); 6] = [
    (
        "hcp(north) hcp(south)",
        &[Kind::Plus, Kind::Relation, Kind::In, Kind::End],
    ),
    (
        "7",
        &[Kind::Plus, Kind::Star, Kind::Relation, Kind::In, Kind::End],
    ),
    ("(7)", &[Kind::Plus, Kind::Star, Kind::Relation, Kind::In]),
    ("len(north)", &[Kind::Comma]),
    (
        "7==8 9",
        &[Kind::Plus, Kind::Star, Kind::And, Kind::Or, Kind::End],
    ),
    ("balanced(north)+1", &[Kind::And, Kind::Or, Kind::End]),
];

#[test]
fn what_could_stand_in_a_question(rt: HostRuntime) -> Result<(), Fail> {
    for (text, expected) in EXPECTED.iter() {
        let beginning = Beginning::of(rt.alloc(), text.as_bytes())?;
        for kind in Kind::ALL {
            let allowed = beginning.allows_in_question(kind)?;
            assert_eq!(rt; allowed, lists(expected, kind));
        }
    }
    Ok(())
}
