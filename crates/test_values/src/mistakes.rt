//! The functions of hints, each with values from outside. All that is said of mistakes, the notes
//! and the page of the language are asked of the built program: by `tests/rows`.

use cards::Fixed;
use cond_lang::{Cond, CondError, LANGUAGE, parse};
use explain_conditions::{explain, explain_question, note};
use screens::unmet::is_never;
use sinks::put_shown;
use std::alloc::Global;
use std::test::Fail;

/// Texts, how they are refused, and all that is said of that. The error of the last one isn't the
/// text's own: it is explained as well as it can be.
const MISTAKES: [(&[u8], CondError, &str); 6] = [
    (
        b"",
        CondError::Syntax { at: 0 },
        "  \n  ^\n  expected a condition such as balanced(north) or \"let\"
  hint: there is no condition here (is a file missing?); for 15 points or more with North write: \
hcp(north)>=15
",
    ),
    (
        b"hcp(nor\x1B[2Jth)>=15",
        CondError::Word { at: 4 },
        "  hcp(nor?[2Jth)>=15
      ^^^
  hint: did you mean \"north\"?
",
    ),
    (
        b"15<=hcp(north)<=17",
        CondError::Syntax { at: 14 },
        "  15<=hcp(north)<=17
                ^^
  expected \"+\", \"and\", \"or\" or the end
  hint: for a range write: hcp(north) in 15-17
",
    ),
    (
        &[0xff; 1025],
        CondError::TooLong,
        "  hint: a condition has at most 1024 bytes, and this one has 1025\n",
    ),
    (b"hcp(north)>=15", CondError::Memory, ""),
    (
        b"hcp(north)=15",
        CondError::Syntax { at: 400 },
        "  hcp(north)=15\n               ^\n",
    ),
];

#[test]
fn what_is_said(rt: HostRuntime) -> Result<(), Fail> {
    for (text, error, wanted) in MISTAKES.iter() {
        let told = explain(rt.alloc(), text, *error)?;
        assert_eq!(rt; told.as_str(), *wanted);
    }
    let shown = shown(rt.alloc(), b"a\tb\r\x7f~\xE2\x89\xA5")?;
    assert_eq!(rt; shown.as_str(), "a b??~???");
    assert_eq!(rt; LANGUAGE.len(), 3);
    Ok(())
}

/// Texts that are refused as questions, how, and all that is said of that.
const QUESTIONS: [(&[u8], CondError, &str); 5] = [
    (
        b"hcp(north) hcp(south)",
        CondError::Syntax { at: 11 },
        "  hcp(north) hcp(south)
             ^^^
  expected \"+\", a comparison such as >=, \"in\" or the end
  hint: compare it, as in hcp(north)>=15
",
    ),
    (
        b"len(north)",
        CondError::Syntax { at: 9 },
        "  len(north)
           ^
  expected \",\"
  hint: name a suit too, as in len(north,spades)
",
    ),
    (
        b"hcp(nord)",
        CondError::Word { at: 4 },
        "  hcp(nord)
      ^^^^
  hint: write \"north\"
",
    ),
    (
        b"any suit (hcp(west,suit)>=8) and len(east,suit)>=2",
        CondError::Syntax { at: 42 },
        "  any suit (hcp(west,suit)>=8) and len(east,suit)>=2
                                            ^^^^
  expected a suit
  hint: with this test inside the brackets write: \
any suit (hcp(west,suit)>=8 and len(east,suit)>=2)
",
    ),
    (
        &[0xff; 1025],
        CondError::TooLong,
        "  hint: a question has at most 1024 bytes, and this one has 1025\n",
    ),
];

#[test]
fn what_is_said_of_questions(rt: HostRuntime) -> Result<(), Fail> {
    for (text, error, wanted) in QUESTIONS.iter() {
        let told = explain_question(rt.alloc(), text, *error)?;
        assert_eq!(rt; told.as_str(), *wanted);
    }
    Ok(())
}

/// The bytes as they are shown on a terminal.
fn shown(alloc: Global, bytes: &[u8]) -> Result<String, Fail> {
    let mut out = String::new(alloc);
    put_shown(&mut out, bytes)?;
    Ok(out)
}

const PLAIN: &str = "note: no deal meets this condition, by its numbers alone\n";

const TURNED: &str =
    "note: no deal meets this condition: in 14-12 has its ends turned; write in 12-14\n";

/// Conditions, and the note on each; none: whether no deal meets it isn't known.
const NOTES: [(&str, &str); 5] = [
    ("hcp(north)>=15 and hcp(south) in 14-12", TURNED),
    ("hcp(north)>=15 and hcp(north)<=12", PLAIN),
    ("shape(north,5-3-3-3)", PLAIN),
    ("hcp(south) in 14-12 or balanced(south)", ""),
    ("hcp(north)>=37", ""),
];

#[test]
fn notes(rt: HostRuntime) -> Result<(), Fail> {
    for (text, wanted) in NOTES.iter() {
        let condition = parse(rt.alloc(), text.as_bytes())?;
        assert_eq!(rt;
            is_never(&condition, &Fixed::none()),
            *wanted != "",
            "{text}"
        );
        let said = said_of(rt.alloc(), &condition)?;
        assert_eq!(rt; said.as_str(), *wanted, "{text}");
    }
    Ok(())
}

/// The note on the condition; empty where there is none.
fn said_of(alloc: Global, condition: &Cond) -> Result<String, Fail> {
    Ok(note(alloc, condition, &Fixed::none())?.unwrap_or(String::new(alloc)))
}
