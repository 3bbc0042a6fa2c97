//! What a whole list of tokens is: behind its definitions a condition, a value, or the beginning of
//! a condition.

ghost use Rattle.std.specs.Prelude.{◌≡◌, ◌≢◌, [], ◌<◌, ◌≤◌, ◌⊎◌, ◌↔◌, ℕ, length, IfOk};
ghost use Rattle.std.specs.Prelude.{IfErr, Err, IsTrue, MatchOption};
ghost use Rattle.cond_lang.specs.declared.parser.Refusal.TheVariants.{Syntax};
ghost use Rattle.conditions.specs.declared.limits.TheConstants.{MOST_PARTS};
ghost use Rattle.conditions.specs.Form.{Amount, Form, form_of};
ghost use Rattle.conditions.specs.Limits.{parts_of};
ghost use Rattle.cond_lang.specs.After.{Defines};
ghost use Rattle.cond_lang.specs.Definitions.{Spells, SpellsAmount, TellsName};
ghost use Rattle.cond_lang.specs.Text.{kinds};
ghost use Rattle.cond_lang.specs.Continuations.{IsLongestViable};
ghost use Rattle.cond_lang.specs.Faults.{offset_of, IsPlace, IsPlaceIn};
ghost use Rattle.cond_lang.specs.Grammar.{Meanings};
ghost use Rattle.cond_lang.specs.internal.Defining.{definitions_alone, meanings};
ghost use Rattle.cond_lang.specs.internal.Defining.{whole, whole_value};
ghost use Rattle.cond_lang.specs.internal.Reading.{Gives};
ghost use Rattle.cond_lang.specs.internal.Growing.{GivesBy, IsGrown, IsGrownValue};

use super::grown::{Grown, GrownValue};
use super::names::Named;
use super::{Parser, Refusal};
use crate::classes::Bound;
use crate::scanner::Placed;
use conditions::{CondError, MOST_PARTS, Tree};
use std::alloc::Global;

impl<'a> Parser<'a> {
    /// No token is left.
    fn end(&self) -> Result<(), Refusal>
        ensures ok { IfOk result (λ _. self.now ≡ []) }
        ensures err { IfErr result (λ e. (e ≡ Syntax) × (self.now ≢ [])) }
    {
        if self.left() > 0 {
            return Err(Refusal::Syntax);
        }
        Ok(())
    }

    /// Definitions, and no more.
    #[tactic(auto, unfolding(crate::specs::internal::Defining::definitions_alone))]
    fn definitions_alone(&mut self) -> Result<Vec<Named<'a>>, Refusal>
        ensures gives { Gives (λ names. meanings names.items) result self.new
            (definitions_alone self.old) }
        ensures shorter { length self.new ≤ length self.old }
    {
        let names = self.definitions()?;
        self.end()?;
        Ok(names)
    }

    /// Definitions and one condition, and no more.
    #[tactic(auto, unfolding(crate::specs::internal::Defining::whole))]
    fn whole(&mut self, room: u32) -> Result<Grown, Refusal>
        ensures gives { GivesBy (IsGrown room) result self.new (whole self.old) }
        ensures shorter { length self.new ≤ length self.old }
    {
        let names = self.definitions()?;
        let tree = self.cond(names.as_slice(), room, Bound::none())?;
        self.end()?;
        Ok(tree)
    }

    /// Definitions and one value, and no more.
    #[tactic(auto, unfolding(crate::specs::internal::Defining::whole_value))]
    fn whole_value(&mut self, room: u32) -> Result<GrownValue, Refusal>
        ensures gives { GivesBy (IsGrownValue room) result self.new (whole_value self.old) }
        ensures shorter { length self.new ≤ length self.old }
    {
        let names = self.definitions()?;
        let value = self.value(names.as_slice(), room, Bound::none())?;
        self.end()?;
        Ok(value)
    }
}

/// The tree that the tokens spell, which are those of a text of `end` bytes.
pub(crate) fn parse_tokens(alloc: Global, tokens: &[Placed], end: usize) -> Result<Tree, CondError>
    ensures spelled { IfOk result (λ t.
        Spells (kinds tokens.now) (form_of t) × (parts_of (form_of t) ≤ MOST_PARTS)) }
    ensures found { (t : Form) → Spells (kinds tokens.now) t → IfErr result (λ e.
        (e ≡ CondError.Memory) ⊎ ((e ≡ CondError.TooManyParts) × (MOST_PARTS < parts_of t))) }
    ensures place { (at : ℕ) → result ≡ Err (CondError.Syntax at) → IsPlace tokens.now end at }
    ensures many { result ≡ Err CondError.TooManyParts
        → (t : Form) × Spells (kinds tokens.now) t × (MOST_PARTS < parts_of t) }
    ensures errors { IfErr result (λ e. (e ≡ CondError.Memory)
        ⊎ ((e ≡ CondError.TooManyParts) ⊎ ((at : ℕ) × (e ≡ CondError.Syntax at)))) }
{
    let mut parser = Parser::new(alloc, tokens);
    match parser.whole(MOST_PARTS) {
        Ok(grown) => match grown.tree {
            Some(tree) => Ok(Box::into_inner(tree)),
            None => Err(CondError::TooManyParts),
        },
        Err(Refusal::Memory) => Err(CondError::Memory),
        Err(Refusal::Syntax) => {
            let index = tokens.len() - parser.left();
            Err(CondError::Syntax {
                at: offset_of(tokens, end, index),
            })
        }
    }
}

/// Accepts tokens that are definitions, and no more, which are those of a text of `end` bytes.
pub(crate) fn read_definitions(
    alloc: Global,
    tokens: &[Placed],
    end: usize,
) -> Result<(), CondError>
    ensures names { IfOk result (λ _. (N : Meanings) × Defines (kinds tokens.now) N) }
    ensures found { (N : Meanings) → Defines (kinds tokens.now) N
        → IfErr result (λ e. e ≡ CondError.Memory) }
    ensures place { (at : ℕ) → result ≡ Err (CondError.Syntax at)
        → IsPlaceIn Defines tokens.now end at }
    ensures errors { IfErr result (λ e. (e ≡ CondError.Memory)
        ⊎ ((at : ℕ) × (e ≡ CondError.Syntax at))) }
{
    let mut parser = Parser::new(alloc, tokens);
    match parser.definitions_alone() {
        Ok(_) => Ok(()),
        Err(Refusal::Memory) => Err(CondError::Memory),
        Err(Refusal::Syntax) => {
            let index = tokens.len() - parser.left();
            Err(CondError::Syntax {
                at: offset_of(tokens, end, index),
            })
        }
    }
}

/// The value that the tokens are, if they are one and no more. The only error is `Memory`.
pub(crate) fn read_value(alloc: Global, tokens: &[Placed]) -> Result<Option<GrownValue>, CondError>
    ensures value { IfOk result (λ found. MatchOption found
        ((a : Amount) → SpellsAmount (kinds tokens.now) a → ⊥)
        (λ v. (a : Amount) × IsGrownValue MOST_PARTS v a × SpellsAmount (kinds tokens.now) a)) }
    ensures memory { IfErr result (λ e. e ≡ CondError.Memory) }
{
    let mut parser = Parser::new(alloc, tokens);
    match parser.whole_value(MOST_PARTS) {
        Ok(value) => Ok(Some(value)),
        Err(Refusal::Syntax) => Ok(None),
        Err(Refusal::Memory) => Err(CondError::Memory),
    }
}

/// Whether the name of this number stands for a value, if a whole definition among those that the
/// tokens begin with gives it. The only error is `Memory`.
pub(crate) fn is_value_name(
    alloc: Global,
    tokens: &[Placed],
    name: u16,
) -> Result<Option<bool>, CondError>
    ensures told { IfOk result (λ told. TellsName (kinds tokens.now) name told) }
    ensures memory { IfErr result (λ e. e ≡ CondError.Memory) }
{
    let mut parser = Parser::new(alloc, tokens);
    let Ok(names) = parser.whole_definitions() else {
        return Err(CondError::Memory);
    };
    match names.get(name as usize) {
        Some(named) => Ok(Some(named.is_value)),
        None => Ok(None),
    }
}

/// How far some tokens go, and whether they end there.
#[derive(Clone, Copy)]
pub(crate) struct Reach {
    /// How many of the tokens, at most, begin a condition.
    pub count: usize,
    /// Whether all of them together are one.
    pub is_whole: bool,
}

/// How many of the tokens a condition can begin with. The only error is `Memory`.
pub(crate) fn read_as_far(alloc: Global, tokens: &[Placed]) -> Result<Reach, CondError>
    ensures count { IfOk result (λ r. IsLongestViable (kinds tokens.now) r.count) }
    ensures whole { IfOk result (λ r.
        IsTrue r.is_whole ↔ ((t : Form) × Spells (kinds tokens.now) t)) }
    ensures memory { IfErr result (λ e. e ≡ CondError.Memory) }
{
    let mut parser = Parser::new(alloc, tokens);
    match parser.whole(0) {
        Ok(_) => Ok(Reach {
            count: tokens.len(),
            is_whole: true,
        }),
        Err(Refusal::Syntax) => Ok(Reach {
            count: tokens.len() - parser.left(),
            is_whole: false,
        }),
        Err(Refusal::Memory) => Err(CondError::Memory),
    }
}

/// The offset of the token at the index, or `end` if there is none.
fn offset_of(tokens: &[Placed], end: usize, index: usize) -> usize
    ensures { result ≡ offset_of tokens.now end index }
{
    match tokens.get(index) {
        Some(token) => token.at,
        None => end,
    }
}
