//! What may come where a condition goes wrong.

ghost use Rattle.std.specs.Prelude.{◌≡◌, ◌≢◌, ◌≤◌, ◌↔◌, ℕ, ◌++◌, ◌∷◌, [], length};
ghost use Rattle.std.specs.Prelude.{Err, IfOk, IfErr, IsTrue};
ghost use Rattle.conditions.specs.Form.{Amount};
ghost use Rattle.cond_lang.specs.Asking.{CanFollowAsking};
ghost use Rattle.cond_lang.specs.Continuations.{CanFollow, IsBeginning, ends_with_let};
ghost use Rattle.cond_lang.specs.Definitions.{SpellsAmount, TellsName};
ghost use Rattle.cond_lang.specs.Faults.{IsDue};
ghost use Rattle.cond_lang.specs.Text.{kinds};

use crate::parser::{is_value_name, read_as_far, read_value};
use crate::scanner::{MAX_READ, Placed, Token, scan};
use crate::words::Kind;
use conditions::CondError;
use std::alloc::{AllocError, Global};
use std::marker::Model;

/// The longest beginning of a text that some condition goes on with, which contracts see as its
/// tokens. It is also the longest that some question goes on with, by the law
/// `same_beginning_as_a_condition`.
#[derive(Drop)]
pub struct Beginning {
    alloc: Global,
    tokens: Vec<Placed>,
    count: usize,
}

impl Model for Beginning {
    ghost use Rattle.std.specs.Prelude.{◌≤◌, List, length, take};
    ghost use Rattle.cond_lang.specs.declared.scanner.Token.{Token as AToken};
    ghost use Rattle.cond_lang.specs.Text.{kinds};

    ghost Value = { List AToken };

    ghost view = { λ b. take b.count (kinds b.tokens.items) };

    ghost invariant = { λ b. (b.count ≤ length b.tokens.items) × (b.count ≤ 5121) };
}

impl Beginning {
    /// Returns the tokens of the text, up to the first that no condition goes on with. A text that
    /// spells a condition is a beginning as a whole.
    ///
    /// # Errors
    /// Those of `parse` but `Syntax` and `TooManyParts`: the text has more than 5,121 bytes or a
    /// faulty piece, or an allocation failed.
    #[inline(never)]
    pub fn of(alloc: Global, text: &[u8]) -> Result<Beginning, CondError>
        ensures begins { IfOk result (λ b. IsBeginning text.now b) }
        ensures short { IfOk result (λ b. length text.now ≤ 5121) }
        ensures refused { IfErr result (λ e. IsDue text.now e) }
        ensures spared { (at : ℕ) → result ≢ Err (CondError.Syntax at) }
        ensures uncounted { result ≢ Err CondError.TooManyParts }
    {
        if text.len() > MAX_READ {
            return Err(CondError::TooLong);
        }
        let Ok(tokens) = kept(alloc, scan::<MAX_READ>(text)?.as_slice()) else {
            return Err(CondError::Memory);
        };
        let count = read_as_far(alloc, tokens.as_slice())?.count;
        Ok(Beginning {
            alloc,
            tokens,
            count,
        })
    }

    /// Returns whether the last token is `let`, after which a new name comes.
    pub fn is_after_let(&self) -> bool
        ensures { result ≡ ends_with_let self.now }
    {
        match self.tokens.as_slice()[..self.count].last() {
            Some(last) => matches!(last.token, Token::Let),
            None => false,
        }
    }

    /// Returns whether some token of the kind may come next: some condition begins with these
    /// tokens and that one. The end may come if the tokens are a condition.
    ///
    /// # Errors
    /// `Memory` if an allocation failed.
    pub fn allows(&self, kind: Kind) -> Result<bool, CondError>
        ensures allowed { IfOk result (λ b. IsTrue b ↔ CanFollow self.now kind) }
        ensures memory { IfErr result (λ e. e ≡ CondError.Memory) }
    {
        let before = &self.tokens.as_slice()[..self.count];
        match kind.token() {
            None => Ok(read_as_far(self.alloc, before)?.is_whole),
            Some(token) => {
                let Ok(longer) = followed_by(self.alloc, before, token) else {
                    return Err(CondError::Memory);
                };
                Ok(read_as_far(self.alloc, longer.as_slice())?.count == longer.len())
            }
        }
    }

    /// Returns whether some token of the kind may come next in a question: what may come in a
    /// condition may, and the end may if the tokens are a value too.
    ///
    /// # Errors
    /// `Memory` if an allocation failed.
    pub fn allows_in_question(&self, kind: Kind) -> Result<bool, CondError>
        ensures allowed { IfOk result (λ b. IsTrue b ↔ CanFollowAsking self.now kind) }
        ensures memory { IfErr result (λ e. e ≡ CondError.Memory) }
    {
        match kind {
            Kind::End => Ok(self.is_value()? || self.allows(Kind::End)?),
            _ => self.allows(kind),
        }
    }

    /// Returns whether the name stands for a value, if a whole definition of the text gives it, and
    /// else it stands for a condition. The names are numbered from 0, in the order of their
    /// definitions.
    ///
    /// # Errors
    /// `Memory` if an allocation failed.
    pub fn is_value_name(&self, name: u16) -> Result<Option<bool>, CondError>
        ensures told { IfOk result (λ told. TellsName self.now name told) }
        ensures memory { IfErr result (λ e. e ≡ CondError.Memory) }
    {
        is_value_name(self.alloc, &self.tokens.as_slice()[..self.count], name)
    }

    /// Whether the tokens are a whole value. The only error is `Memory`.
    fn is_value(&self) -> Result<bool, CondError>
        ensures value { IfOk result (λ b. IsTrue b
            ↔ ((a : Amount) × SpellsAmount self.now a)) }
        ensures memory { IfErr result (λ e. e ≡ CondError.Memory) }
    {
        let tokens = &self.tokens.as_slice()[..self.count];
        Ok(read_value(self.alloc, tokens)?.is_some())
    }
}

/// The tokens, on the heap.
fn kept(alloc: Global, tokens: &[Placed]) -> Result<Vec<Placed>, AllocError>
    ensures { IfOk result (λ kept. kept.items ≡ tokens.now) }
{
    let mut kept = Vec::new(alloc);
    kept.extend_from_slice(tokens)?;
    Ok(kept)
}

/// The tokens, with one more after them.
fn followed_by(alloc: Global, before: &[Placed], token: Token) -> Result<Vec<Placed>, AllocError>
    ensures { IfOk result (λ longer. kinds longer.items ≡ kinds before.now ++ token ∷ []) }
{
    let mut longer = Vec::new(alloc);
    longer.extend_from_slice(before)?;
    longer.push(Placed { token, at: 0 })?;
    Ok(longer)
}
