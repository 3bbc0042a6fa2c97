//! What question a text spells: a condition, or a value.

ghost use Rattle.std.specs.Prelude.{◌≡◌, ◌≢◌, ◌<◌, ◌≤◌, ◌↔◌, length, Err, IfOk, IfErr};
ghost use Rattle.std.specs.Prelude.{MatchResult};
ghost use Rattle.conditions.specs.declared.limits.TheConstants.{MOST_PARTS};
ghost use Rattle.conditions.specs.declared.error.CondError.{CondError as Fault};
ghost use Rattle.conditions.specs.Memory.{IsErrUnlessMemory};
ghost use Rattle.conditions.specs.Questions.{Question as AQuestion, parts_asked};
ghost use Rattle.cond_lang.specs.Asking.{IsDueQuestion, SpellsQuestion};
ghost use Rattle.cond_lang.specs.Faults.{HasFault};

use crate::parser::{parse_tokens, read_value};
use crate::scanner::{MAX_BYTES, scan};
use conditions::{Cond, CondError, Question};
use std::alloc::Global;

/// Returns the question that a text spells, which is a whole condition or a whole value, behind the
/// definitions of its names.
///
/// # Errors
/// Those of `parse`. A text of tokens that are neither is `Syntax`, at the first token that neither
/// a condition nor a value goes on with, or at the text's length. A value of more than `MOST_PARTS`
/// parts is `TooManyParts` too.
pub fn parse_question(alloc: Global, text: &[u8]) -> Result<Question, CondError>
    ensures too_long { (result ≡ Err CondError.TooLong) ↔ (1024 < length text.now) }
    ensures fault { (e : Fault) → length text.now ≤ 1024 → HasFault text.now e → result ≡ Err e }
    ensures spelled { (q : AQuestion) → length text.now ≤ 1024 → SpellsQuestion text.now q
        → parts_asked q ≤ MOST_PARTS → MatchResult result (λ r. r ≡ q) (λ e. e ≡ CondError.Memory) }
    ensures too_many { (q : AQuestion) → length text.now ≤ 1024 → SpellsQuestion text.now q
        → MOST_PARTS < parts_asked q → IsErrUnlessMemory result CondError.TooManyParts }

    // What comes back is due: the question is the text's, and each refusal has its reason.
    ensures question { IfOk result (λ q. SpellsQuestion text.now q) }
    ensures few { IfOk result (λ q. parts_asked q ≤ MOST_PARTS) }
    ensures refused { IfErr result (λ e. IsDueQuestion text.now e) }
{
    if text.len() > MAX_BYTES {
        return Err(CondError::TooLong);
    }
    ask_whole::<1024>(alloc, text)
}

/// The question that a text of at most N bytes spells.
pub(crate) fn ask_whole<const N: usize>(alloc: Global, text: &[u8]) -> Result<Question, CondError>
    requires room { length text.now ≤ N }
    requires small { N ≤ 5121 }
    ensures short { result ≢ Err CondError.TooLong }
    ensures fault { (e : Fault) → HasFault text.now e → result ≡ Err e }
    ensures spelled { (q : AQuestion) → SpellsQuestion text.now q
        → parts_asked q ≤ MOST_PARTS → MatchResult result (λ r. r ≡ q) (λ e. e ≡ CondError.Memory) }
    ensures too_many { (q : AQuestion) → SpellsQuestion text.now q
        → MOST_PARTS < parts_asked q → IsErrUnlessMemory result CondError.TooManyParts }
    ensures question { IfOk result (λ q. SpellsQuestion text.now q) }
    ensures few { IfOk result (λ q. parts_asked q ≤ MOST_PARTS) }
    ensures refused { IfErr result (λ e. IsDueQuestion text.now e) }
{
    let tokens = scan::<N>(text)?;
    if let Some(grown) = read_value(alloc, tokens.as_slice())? {
        return match grown.value {
            Some(value) => Ok(Question::of_value(value)),
            None => Err(CondError::TooManyParts),
        };
    }
    let tree = parse_tokens(alloc, tokens.as_slice(), text.len())?;
    Ok(Question::of_condition(Cond::of_tree(alloc, tree)))
}
