//! What helps a person with a failure, below the line that names it.

use cond_lang::{
    CondError, Question, check_definitions, letter_run_len, names_of, parse_question,
    parse_question_after, text_after,
};
use deals_cli::{Failure, MAX_QUESTIONS, QuestionName, Request};
use explain::Reasons;
use explain_conditions::{explain, explain_definitions, explain_name, explain_question};
use std::alloc::Global;

/// What helps with a condition that has too many parts.
const TOO_MANY_PARTS: &str =
    "  hint: each any and every asks all in its brackets for each suit or seat: put fewer into one \
     another\n";

/// What helps with a failure; none if nothing does, or if memory runs out. Without a request the
/// words were refused.
pub fn help(
    alloc: Global,
    words: &[String],
    request: Option<&Request<'_>>,
    failure: &Failure,
    reasons: Reasons<'_>,
) -> Option<String> {
    match failure {
        Failure::Condition(CondError::TooManyParts)
        | Failure::Question(_, CondError::TooManyParts) => {
            String::from_str(alloc, TOO_MANY_PARTS).ok()
        }
        Failure::Definitions(error) => {
            let (search, _) = request?.searched()?;
            explain_definitions(alloc, search.let_text?.as_bytes(), *error).ok()
        }
        Failure::Condition(error) => {
            let (search, _) = request?.searched()?;
            let read = Read::of(alloc, search.let_text, search.where_text?, *error)?;
            match defined_elsewhere(request?, &read) {
                Some(at) => explain_name(alloc, read.text.as_slice(), at).ok(),
                None => explain(alloc, read.text.as_slice(), read.error).ok(),
            }
        }
        Failure::Question(name, error) => {
            let (search, _) = request?.searched()?;
            let text = refused_question(alloc, request?, search.let_text, *name, *error)?;
            let read = Read::of(alloc, search.let_text, text, *error)?;
            match defined_elsewhere(request?, &read) {
                Some(at) => explain_name(alloc, read.text.as_slice(), at).ok(),
                None => explain_question(alloc, read.text.as_slice(), read.error).ok(),
            }
        }
        _ => explain::help(alloc, words, request, failure, reasons),
    }
}

/// Where the text has an unknown word that another text of the request defines as a name, and it
/// doesn't itself.
fn defined_elsewhere(request: &Request<'_>, read: &Read) -> Option<usize> {
    let CondError::Word { at } = read.error else {
        return None;
    };
    let rest = read.text.get(at..)?;
    let word = rest.get(..letter_run_len(rest))?;
    if defines(read.text.as_slice(), word) {
        return None;
    }
    let (search, _) = request.searched()?;
    let of = request.question(QuestionName::Of);
    let by = request.question(QuestionName::By);
    [search.where_text, of, by]
        .into_iter()
        .chain((0..MAX_QUESTIONS).map(|place| request.question_at(place)))
        .flatten()
        .any(|text| defines(text.as_bytes(), word))
        .then_some(at)
}

/// Whether the text defines the name.
fn defines(text: &[u8], name: &[u8]) -> bool {
    names_of(text).iter().any(|found| *found == name)
}

/// The text of the question that is refused so: of several questions the first that is. None if
/// memory runs out.
fn refused_question<'a>(
    alloc: Global,
    request: &Request<'a>,
    definitions: Option<&str>,
    name: QuestionName,
    error: CondError,
) -> Option<&'a str> {
    if let Some(text) = request.question(name) {
        return Some(text);
    }
    for place in 0..MAX_QUESTIONS {
        let text = request.question_at(place)?;
        if is_refused(alloc, definitions, text, error) {
            return Some(text);
        }
    }
    None
}

/// Whether the question after the definitions is refused so.
fn is_refused(alloc: Global, definitions: Option<&str>, text: &str, error: CondError) -> bool {
    let read = match definitions {
        None => parse_question(alloc, text.as_bytes()),
        Some(definitions) => read_after(alloc, definitions.as_bytes(), text.as_bytes()),
    };
    matches!(read, Err(found) if found == error)
}

/// The question after the definitions, or their refusal.
fn read_after(alloc: Global, definitions: &[u8], text: &[u8]) -> Result<Question, CondError> {
    check_definitions(alloc, definitions)?;
    parse_question_after(alloc, definitions, text)
}

/// A text as it was read, and its refusal with its place there.
#[derive(Drop)]
struct Read {
    text: Vec<u8>,
    error: CondError,
}

impl Read {
    /// The text after the definitions, where some are given and its own length isn't what is
    /// wrong. None if memory runs out.
    fn of(alloc: Global, definitions: Option<&str>, text: &str, error: CondError) -> Option<Read> {
        match (definitions, error) {
            (None, _) | (_, CondError::TooLong) => {
                let mut alone = Vec::new(alloc);
                alone.extend_from_slice(text.as_bytes()).ok()?;
                Some(Read { text: alone, error })
            }
            (Some(definitions), _) => {
                let text = text_after(alloc, definitions.as_bytes(), text.as_bytes()).ok()?;
                let start = definitions.len().saturating_add(1);
                Some(Read {
                    text,
                    error: moved(error, start),
                })
            }
        }
    }
}

/// The refusal, with its place so much later.
fn moved(error: CondError, start: usize) -> CondError {
    match error {
        CondError::Byte { at } => CondError::Byte {
            at: at.saturating_add(start),
        },
        CondError::Word { at } => CondError::Word {
            at: at.saturating_add(start),
        },
        CondError::Number { at } => CondError::Number {
            at: at.saturating_add(start),
        },
        CondError::Syntax { at } => CondError::Syntax {
            at: at.saturating_add(start),
        },
        CondError::TooLong => CondError::TooLong,
        CondError::TooManyParts => CondError::TooManyParts,
        CondError::Memory => CondError::Memory,
    }
}
