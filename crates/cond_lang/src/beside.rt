//! Definitions alone, and texts that are read after them.

ghost use Rattle.std.specs.Prelude.{◌≡◌, ◌<◌, ◌≤◌, ◌↔◌, length, Err, IfOk, IfErr, MatchResult};
ghost use Rattle.conditions.specs.declared.limits.TheConstants.{MOST_PARTS};
ghost use Rattle.conditions.specs.declared.error.CondError.{CondError as Fault};
ghost use Rattle.conditions.specs.Form.{Form};
ghost use Rattle.conditions.specs.Limits.{parts_of};
ghost use Rattle.conditions.specs.Memory.{IsErrUnlessMemory, IsUnlessMemory};
ghost use Rattle.conditions.specs.Questions.{Question as AQuestion, parts_asked};
ghost use Rattle.cond_lang.specs.Asking.{SpellsQuestion};
ghost use Rattle.cond_lang.specs.After.{GivesNames, IsDueAlone, IsDueAfter};
ghost use Rattle.cond_lang.specs.After.{IsDueQuestionAfter, counted_from};
ghost use Rattle.cond_lang.specs.After.{start_after, text_after};
ghost use Rattle.cond_lang.specs.Faults.{HasFault};
ghost use Rattle.cond_lang.specs.Text.{SpellsTree};

use crate::condition::parse_whole;
use crate::parser::read_definitions;
use crate::question::ask_whole;
use crate::scanner::{MAX_BYTES, MAX_DEFINITIONS, MAX_READ, scan};
use conditions::{Cond, CondError, Question};
use std::alloc::{AllocError, Global};

/// Accepts a text that is definitions of names, and nothing else.
///
/// # Errors
/// A text of more than 4,096 bytes is `TooLong`. Otherwise the leftmost faulty piece of the whole
/// text is refused, as `Byte`, `Word` or `Number` with its offset. A text without one that isn't
/// definitions is `Syntax`, at the first token that no definitions go on with, or at the text's
/// length. `Memory` if an allocation failed.
#[inline(never)]
pub fn check_definitions(alloc: Global, text: &[u8]) -> Result<(), CondError>
    ensures too_long { (result ≡ Err CondError.TooLong) ↔ (4096 < length text.now) }
    ensures fault { (e : Fault) → length text.now ≤ 4096 → HasFault text.now e → result ≡ Err e }
    ensures accepted { length text.now ≤ 4096 → GivesNames text.now
        → IfErr result (λ e. e ≡ CondError.Memory) }

    // What comes back is due: the text is definitions, and each refusal has its reason.
    ensures names { IfOk result (λ _. GivesNames text.now) }
    ensures refused { IfErr result (λ e. IsDueAlone text.now e) }
{
    if text.len() > MAX_DEFINITIONS {
        return Err(CondError::TooLong);
    }
    let tokens = scan::<MAX_DEFINITIONS>(text)?;
    read_definitions(alloc, tokens.as_slice(), text.len())
}

/// Returns the condition that a text spells after definitions: that of the definitions, a new line
/// and the text.
///
/// # Errors
/// Those of `parse`, of the definitions, a new line and the text. Only the text's own bytes count
/// for `TooLong`, and an offset is that in the text. Definitions that `check_definitions` accepts
/// have no fault (`laws::no_fault_in_definitions`); one of others is at 0.
#[inline(never)]
pub fn parse_after(alloc: Global, definitions: &[u8], text: &[u8]) -> Result<Cond, CondError>
    requires { length definitions.now ≤ 4096 }
    ensures too_long { (result ≡ Err CondError.TooLong) ↔ (1024 < length text.now) }
    ensures fault { (e : Fault) → length text.now ≤ 1024
        → HasFault (text_after definitions.now text.now) e
        → IsErrUnlessMemory result (counted_from (start_after definitions.now) e) }
    ensures spelled { (t : Form) → length text.now ≤ 1024
        → SpellsTree (text_after definitions.now text.now) t → parts_of t ≤ MOST_PARTS
        → IsUnlessMemory result t }
    ensures too_many { (t : Form) → length text.now ≤ 1024
        → SpellsTree (text_after definitions.now text.now) t → MOST_PARTS < parts_of t
        → IsErrUnlessMemory result CondError.TooManyParts }

    // What comes back is due, as it is of `parse`.
    ensures tree { IfOk result (λ c. SpellsTree (text_after definitions.now text.now) c) }
    ensures few { IfOk result (λ c. parts_of c ≤ MOST_PARTS) }
    ensures refused { IfErr result (λ e. IsDueAfter definitions.now text.now e) }
{
    if text.len() > MAX_BYTES {
        return Err(CondError::TooLong);
    }
    let Ok(whole) = text_after(alloc, definitions, text) else {
        return Err(CondError::Memory);
    };
    match parse_whole::<MAX_READ>(alloc, whole.as_slice()) {
        Ok(condition) => Ok(condition),
        Err(error) => Err(counted_from(definitions.len() + 1, error)),
    }
}

/// Returns the question that a text spells after definitions: that of the definitions, a new line
/// and the text.
///
/// # Errors
/// Those of `parse_question`, as `parse_after` has those of `parse`.
#[inline(never)]
pub fn parse_question_after(
    alloc: Global,
    definitions: &[u8],
    text: &[u8],
) -> Result<Question, CondError>
    requires { length definitions.now ≤ 4096 }
    ensures too_long { (result ≡ Err CondError.TooLong) ↔ (1024 < length text.now) }
    ensures fault { (e : Fault) → length text.now ≤ 1024
        → HasFault (text_after definitions.now text.now) e
        → IsErrUnlessMemory result (counted_from (start_after definitions.now) e) }
    ensures spelled { (q : AQuestion) → length text.now ≤ 1024
        → SpellsQuestion (text_after definitions.now text.now) q → parts_asked q ≤ MOST_PARTS
        → MatchResult result (λ r. r ≡ q) (λ e. e ≡ CondError.Memory) }
    ensures too_many { (q : AQuestion) → length text.now ≤ 1024
        → SpellsQuestion (text_after definitions.now text.now) q → MOST_PARTS < parts_asked q
        → IsErrUnlessMemory result CondError.TooManyParts }

    // What comes back is due, as it is of `parse_question`.
    ensures question { IfOk result (λ q. SpellsQuestion (text_after definitions.now text.now) q) }
    ensures few { IfOk result (λ q. parts_asked q ≤ MOST_PARTS) }
    ensures refused { IfErr result (λ e. IsDueQuestionAfter definitions.now text.now e) }
{
    if text.len() > MAX_BYTES {
        return Err(CondError::TooLong);
    }
    let Ok(whole) = text_after(alloc, definitions, text) else {
        return Err(CondError::Memory);
    };
    match ask_whole::<MAX_READ>(alloc, whole.as_slice()) {
        Ok(question) => Ok(question),
        Err(error) => Err(counted_from(definitions.len() + 1, error)),
    }
}

/// Returns the definitions, a new line and the text, which is what the text is read as.
///
/// # Errors
/// `AllocError` if an allocation failed.
pub fn text_after(alloc: Global, definitions: &[u8], text: &[u8]) -> Result<Vec<u8>, AllocError>
    ensures { IfOk result (λ whole. whole.items ≡ text_after definitions.now text.now) }
{
    let mut whole = Vec::new(alloc);
    whole.extend_from_slice(definitions)?;
    whole.push(b'\n')?;
    whole.extend_from_slice(text)?;
    Ok(whole)
}

/// The fault, with its offset counted from the start of the text.
fn counted_from(start: usize, error: CondError) -> CondError
    ensures { result ≡ counted_from start error }
{
    match error {
        CondError::Byte { at } => CondError::Byte {
            at: at.saturating_sub(start),
        },
        CondError::Word { at } => CondError::Word {
            at: at.saturating_sub(start),
        },
        CondError::Number { at } => CondError::Number {
            at: at.saturating_sub(start),
        },
        CondError::Syntax { at } => CondError::Syntax {
            at: at.saturating_sub(start),
        },
        CondError::TooLong => CondError::TooLong,
        CondError::TooManyParts => CondError::TooManyParts,
        CondError::Memory => CondError::Memory,
    }
}
