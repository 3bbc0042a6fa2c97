//! All that is written of a refusal.

ghost use Rattle.std.specs.Prelude.{◌≡◌, ◌≤◌, ◌++◌, IfOk, MatchOption, OnOk, length, string_bytes};
ghost use Rattle.cond_lang.specs.Continuations.{IsBeginning};
ghost use Rattle.explain_conditions.specs.Explanation.{Explains, ExplainsAs, ExplainsDefinitions};
ghost use Rattle.explain_conditions.specs.Explanation.{ExplainsQuestion, IsFaulty, definitions_length_line};
ghost use Rattle.explain_conditions.specs.Explanation.{MayHint, MayTell, Nothing, Shows, length_line};
ghost use Rattle.explain_conditions.specs.internal.Appends.{Appends};

use crate::asked::TextKind;
use crate::excerpt::put_excerpt;
use crate::expected::put_expected;
use crate::kinds::KindSet;
use crate::rules::{Said, of_piece, of_syntax, read, read_within, suggested};
use cards::Fixed;
use cond_lang::{Beginning, CondError, Kind, names_of};
use itoa::Buffer;
use screens::unmet::is_never;
use sinks::put_shown;
use std::alloc::{AllocError, Global};

/// What is said where something else comes than a definition.
const ONLY_DEFINITIONS: &[u8] =
    b"--let has definitions alone, as let fit is (..); a condition comes after --where";

/// What is said of a name that another text has.
const DEFINED_ELSEWHERE: &[u8] =
    b"that name is defined in another text alone; names for all texts go in --let";

/// Returns what helps a person with a text that is refused as `error`: the lines that are below
/// the one that names the refusal, each ended by a line feed.
///
/// They are the line of the text that has the fault, cut to 72 columns around it, and carets below
/// the fault; for a syntax fault what may come there; and a hint, if a rule gives one. Bytes
/// that would disturb a terminal, or aren't ASCII, are shown as `?`, and a tab as a space. For a
/// text that is too long the hint alone tells how long it is, and of one of too many parts, or
/// where memory runs out, there is nothing to say.
///
/// # Errors
/// `AllocError` if an allocation failed.
#[inline(never)]
pub fn explain(alloc: Global, text: &[u8], error: CondError) -> Result<String, AllocError>
    ensures { IfOk result (λ written. Explains text.now error (string_bytes written)) }
{
    explain_as(alloc, TextKind::Condition, text, error)
}

/// Returns what helps a person with a text that is refused as a question: the same lines, of what
/// may come in a question.
///
/// # Errors
/// `AllocError` if an allocation failed.
#[inline(never)]
pub fn explain_question(alloc: Global, text: &[u8], error: CondError) -> Result<String, AllocError>
    ensures { IfOk result (λ written. ExplainsQuestion text.now error (string_bytes written)) }
{
    explain_as(alloc, TextKind::Question, text, error)
}

/// Returns what helps a person with a text that is refused as definitions alone: the same lines, of
/// what may come in a definition. Where a definition could begin, a hint says that only
/// definitions come there.
///
/// # Errors
/// `AllocError` if an allocation failed.
#[inline(never)]
pub fn explain_definitions(
    alloc: Global,
    text: &[u8],
    error: CondError,
) -> Result<String, AllocError>
    ensures { IfOk result (λ written. ExplainsDefinitions text.now error (string_bytes written)) }
{
    let mut out = String::new(alloc);
    match error {
        CondError::TooLong => put_length_of_definitions(&mut out, text)?,
        CondError::Byte { at } | CondError::Word { at } | CondError::Number { at } => {
            put_piece(alloc, &mut out, text, at)?
        }
        CondError::Syntax { at } => {
            if may_define(alloc, text, at)? {
                put_told(alloc, &mut out, text, at, ONLY_DEFINITIONS)?
            } else {
                put_syntax(alloc, &mut out, TextKind::Condition, text, at)?
            }
        }
        CondError::TooManyParts | CondError::Memory => {}
    }
    Ok(out)
}

/// Returns what helps a person with a word that isn't in the language, and that another of the
/// texts defines: the line of the text that has it, with carets below, and a hint that names for
/// all texts go in `--let`.
///
/// # Errors
/// `AllocError` if an allocation failed.
#[inline(never)]
pub fn explain_name(alloc: Global, text: &[u8], at: usize) -> Result<String, AllocError>
    ensures { IfOk result (λ written. Shows Nothing text.now at (string_bytes written)) }
{
    let mut out = String::new(alloc);
    put_told(alloc, &mut out, text, at, DEFINED_ELSEWHERE)?;
    Ok(out)
}

/// The lines, of a text that was read as what is asked for.
fn explain_as(
    alloc: Global,
    asked: TextKind,
    text: &[u8],
    error: CondError,
) -> Result<String, AllocError>
    ensures { IfOk result (λ written. ExplainsAs asked text.now error (string_bytes written)) }
{
    let mut out = String::new(alloc);
    match error {
        CondError::TooLong => put_length(&mut out, asked, text)?,
        CondError::Byte { at } | CondError::Word { at } | CondError::Number { at } => {
            put_piece(alloc, &mut out, text, at)?
        }
        CondError::Syntax { at } => put_syntax(alloc, &mut out, asked, text, at)?,
        CondError::TooManyParts | CondError::Memory => {}
    }
    Ok(out)
}

/// Appends what is said of a piece that isn't in the language.
fn put_piece(alloc: Global, out: &mut String, text: &[u8], at: usize) -> Result<(), AllocError>
    ensures { OnOk result (Appends (Shows Nothing text.now at)
        (string_bytes out.old) (string_bytes out.new)) }
{
    put_excerpt(out, text, at)?;
    put_hint(alloc, out, of_piece(alloc, text, at))
}

/// Appends what is said of a token that isn't allowed where it is.
fn put_syntax(
    alloc: Global,
    out: &mut String,
    asked: TextKind,
    text: &[u8],
    at: usize,
) -> Result<(), AllocError>
    ensures { OnOk result (Appends (Shows (MayTell asked text.now) text.now at)
        (string_bytes out.old) (string_bytes out.new)) }
{
    put_excerpt(out, text, at)?;
    let Some(beginning) = beginning_of(alloc, text)? else {
        return Ok(());
    };
    let names = names_of(text);
    let Ok(can) = KindSet::of(asked, &beginning, names.len()) else {
        return Err(AllocError);
    };
    put_expected(alloc, out, &can, names.as_slice(), beginning.is_after_let())?;
    put_hint(alloc, out, of_syntax(alloc, text, at, &can.kinds(asked)))
}

/// Whether a definition may begin at the place.
fn may_define(alloc: Global, text: &[u8], at: usize) -> Result<bool, AllocError> {
    let Some(before) = text.get(..at) else {
        return Ok(false);
    };
    let Some(beginning) = beginning_of(alloc, before)? else {
        return Ok(false);
    };
    match beginning.allows(Kind::Let) {
        Ok(may) => Ok(may),
        Err(_) => Err(AllocError),
    }
}

/// Appends the line of the text that has the place, and this hint.
fn put_told(
    alloc: Global,
    out: &mut String,
    text: &[u8],
    at: usize,
    hint: &[u8],
) -> Result<(), AllocError>
    ensures { OnOk result (Appends (Shows Nothing text.now at)
        (string_bytes out.old) (string_bytes out.new)) }
{
    put_excerpt(out, text, at)?;
    let mut told = Vec::new(alloc);
    told.extend_from_slice(hint)?;
    put_hint(alloc, out, Ok(Some(told)))
}

/// The beginning of the text, if it has tokens.
fn beginning_of(alloc: Global, text: &[u8]) -> Result<Option<Beginning>, AllocError>
    ensures { IfOk result (λ found. MatchOption found (IsFaulty text.now)
        (λ b. IsBeginning text.now b × (length text.now ≤ 5121))) }
{
    match Beginning::of(alloc, text) {
        Ok(beginning) => Ok(Some(beginning)),
        Err(CondError::TooLong) => Ok(None),
        Err(CondError::Byte { .. }) => Ok(None),
        Err(CondError::Word { .. }) => Ok(None),
        Err(CondError::Number { .. }) => Ok(None),
        Err(CondError::Syntax { .. } | CondError::TooManyParts | CondError::Memory) => {
            Err(AllocError)
        }
    }
}

/// Appends the hint for a text that is too long.
fn put_length(out: &mut String, asked: TextKind, text: &[u8]) -> Result<(), AllocError>
    ensures { OnOk result (string_bytes out.new
        ≡ string_bytes out.old ++ length_line asked text.now) }
{
    out.push_str("  hint: a ")?;
    out.push_str(asked.name())?;
    out.push_str(" has at most 1024 bytes, and this one has ")?;
    out.push_str(Buffer::new().format(text.len() as u64))?;
    out.push_str("\n")
}

/// Appends the hint for definitions that are too long.
fn put_length_of_definitions(out: &mut String, text: &[u8]) -> Result<(), AllocError>
    ensures { OnOk result (string_bytes out.new
        ≡ string_bytes out.old ++ definitions_length_line text.now) }
{
    out.push_str("  hint: definitions have at most 4096 bytes, and these have ")?;
    out.push_str(Buffer::new().format(text.len() as u64))?;
    out.push_str("\n")
}

/// Appends the hint, if there is one.
fn put_hint(alloc: Global, out: &mut String, hint: Said) -> Result<(), AllocError>
    ensures { OnOk result (Appends MayHint (string_bytes out.old) (string_bytes out.new)) }
{
    if let Some(hint) = hint? {
        let hint = sound(alloc, hint)?;
        out.push_str("  hint: ")?;
        put_shown(out, hint.as_slice())?;
        out.push_str("\n")?;
    }
    Ok(())
}

/// The hint; of one that tells to write what no deal meets, that none does.
fn sound(alloc: Global, hint: Vec<u8>) -> Result<Vec<u8>, AllocError> {
    let Some(condition) = suggested(hint.as_slice()) else {
        return Ok(hint);
    };
    if !is_never_met(alloc, condition)? {
        return Ok(hint);
    }
    let mut told = Vec::new(alloc);
    told.extend_from_slice(b"no deal meets ")?;
    told.extend_from_slice(condition)?;
    Ok(told)
}

/// Whether no deal meets the condition, or the test in the brackets of a class, by its numbers
/// alone.
fn is_never_met(alloc: Global, condition: &[u8]) -> Result<bool, AllocError> {
    let found = match read(alloc, condition)? {
        None => read_within(alloc, condition)?,
        found => found,
    };
    Ok(found.is_some_and(|condition| is_never(&condition, &Fixed::none())))
}
