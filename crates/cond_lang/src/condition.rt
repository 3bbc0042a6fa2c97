//! What condition a text spells.

ghost use Rattle.std.specs.Prelude.{◌≡◌, ◌≢◌, ◌<◌, ◌≤◌, ◌↔◌, length, Err, IfOk, IfErr};
ghost use Rattle.conditions.specs.declared.limits.TheConstants.{MOST_PARTS};
ghost use Rattle.conditions.specs.declared.error.CondError.{CondError as Fault};
ghost use Rattle.conditions.specs.Form.{Form};
ghost use Rattle.conditions.specs.Limits.{parts_of};
ghost use Rattle.conditions.specs.Memory.{IsErrUnlessMemory, IsUnlessMemory};
ghost use Rattle.cond_lang.specs.Faults.{HasFault, IsDue};
ghost use Rattle.cond_lang.specs.Text.{SpellsTree};

use crate::parser::parse_tokens;
use crate::scanner::{MAX_BYTES, scan};
use conditions::{Cond, CondError};
use std::alloc::Global;

/// Returns the condition that a text spells, where each use of a name that the text gives is what
/// the name stands for.
///
/// # Errors
/// A text of more than 1,024 bytes is `TooLong`. Otherwise the leftmost faulty piece of the whole
/// text is refused, as `Byte`, `Word` or `Number` with its offset. A text without one that spells
/// no condition is `Syntax`, at the first token that no condition goes on with, or at the text's
/// length. A text without a fault whose condition has more than `MOST_PARTS` parts, once it is
/// written out for each name and for each suit and seat of its classes, is `TooManyParts`. `Memory`
/// if an allocation failed.
pub fn parse(alloc: Global, text: &[u8]) -> Result<Cond, CondError>
    ensures too_long { (result ≡ Err CondError.TooLong) ↔ (1024 < length text.now) }
    ensures fault { (e : Fault) → length text.now ≤ 1024 → HasFault text.now e → result ≡ Err e }
    ensures spelled { (t : Form) → length text.now ≤ 1024 → SpellsTree text.now t
        → parts_of t ≤ MOST_PARTS → IsUnlessMemory result t }
    ensures too_many { (t : Form) → length text.now ≤ 1024 → SpellsTree text.now t
        → MOST_PARTS < parts_of t → IsErrUnlessMemory result CondError.TooManyParts }

    // What comes back is due: the tree is the text's, and each refusal has its reason.
    ensures tree { IfOk result (λ c. SpellsTree text.now c) }
    ensures few { IfOk result (λ c. parts_of c ≤ MOST_PARTS) }
    ensures refused { IfErr result (λ e. IsDue text.now e) }
{
    if text.len() > MAX_BYTES {
        return Err(CondError::TooLong);
    }
    parse_whole::<1024>(alloc, text)
}

/// The condition that a text of at most N bytes spells.
pub(crate) fn parse_whole<const N: usize>(alloc: Global, text: &[u8]) -> Result<Cond, CondError>
    requires room { length text.now ≤ N }
    requires small { N ≤ 5121 }
    ensures short { result ≢ Err CondError.TooLong }
    ensures fault { (e : Fault) → HasFault text.now e → result ≡ Err e }
    ensures spelled { (t : Form) → SpellsTree text.now t
        → parts_of t ≤ MOST_PARTS → IsUnlessMemory result t }
    ensures too_many { (t : Form) → SpellsTree text.now t
        → MOST_PARTS < parts_of t → IsErrUnlessMemory result CondError.TooManyParts }
    ensures tree { IfOk result (λ c. SpellsTree text.now c) }
    ensures few { IfOk result (λ c. parts_of c ≤ MOST_PARTS) }
    ensures refused { IfErr result (λ e. IsDue text.now e) }
{
    let tokens = scan::<N>(text)?;
    let tree = parse_tokens(alloc, tokens.as_slice(), text.len())?;
    Ok(Cond::of_tree(alloc, tree))
}
