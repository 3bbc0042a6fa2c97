//! The kinds of tokens that may come at a fault.

ghost use Rattle.std.specs.Prelude.{◌≡◌, ◌↔◌, ◌<◌, ◌≤◌, ℕ, false, slice_index_or, IfOk, IfErr, IsTrue};
ghost use Rattle.std.specs.List.{list_all};
ghost use Rattle.conditions.specs.declared.error.CondError.TheVariants.{Memory};
ghost use Rattle.cond_lang.specs.declared.words.Kind.{Kind as AKind};
ghost use Rattle.explain_conditions.specs.Asked.{CanStand, IsOfValue, IsTold};
ghost use Rattle.explain_conditions.specs.internal.Kinds.{in_set, of_value};

use crate::asked::TextKind;
use crate::rules::Kinds;
use arrayvec::ArrayVec;
use cond_lang::{Beginning, CondError, Kind};

/// A set of kinds, and of a text's names.
#[derive(Drop)]
pub(crate) struct KindSet {
    holds: [bool; Kind::COUNT],
    names: ArrayVec<bool, 5121>,
    /// Of each name, whether it stands for a value.
    values: ArrayVec<bool, 5121>,
}

impl KindSet {
    /// The kinds, and the text's first `count` names, that may come after the beginning of what is
    /// asked for. The only error is `Memory`.
    pub(crate) fn of(
        asked: TextKind,
        beginning: &Beginning,
        count: usize,
    ) -> Result<KindSet, CondError>
        requires { count ≤ 5121 }
        ensures allowed { IfOk result (λ set. (kind : AKind) → IsTold count kind
            → IsTrue (in_set set kind) ↔ CanStand asked beginning.now kind) }
        ensures values { IfOk result (λ set. (n : ℕ) → n < count
            → IsOfValue beginning.now n (of_value set (AKind.Name n))) }
        ensures memory { IfErr result (λ e. e ≡ Memory) }
    {
        let mut holds = [false; Kind::COUNT];
        for (i, kind) in Kind::ALL.iter().enumerate() {
            holds[i] = asked.allows(beginning, *kind)?;
        }
        let names = names_that_may_come(asked, beginning, count)?;
        let values = names_of_values(beginning, count)?;
        Ok(KindSet {
            holds,
            names,
            values,
        })
    }

    /// Whether the name with this number stands for a value.
    pub(crate) fn is_value(&self, name: u16) -> bool
        ensures { result ≡ of_value self.now (AKind.Name name) }
    {
        match self.values.get(name as usize) {
            Some(is_value) => *is_value,
            None => false,
        }
    }

    /// Whether it has the kind.
    pub(crate) fn has(&self, kind: Kind) -> bool
        ensures { result ≡ in_set self.now kind }
    {
        let held = match kind {
            Kind::Name(number) => self.names.get(number as usize),
            _ => self.holds.get(kind.place()),
        };
        match held {
            Some(holds) => *holds,
            None => false,
        }
    }

    /// The same kinds, as the rules for hints take them.
    pub(crate) fn kinds(&self, asked: TextKind) -> Kinds {
        Kinds {
            holds: self.holds,
            is_question: matches!(asked, TextKind::Question),
        }
    }
}

/// Of each of the first `count` names, whether it may come. The only error is `Memory`.
fn names_that_may_come(
    asked: TextKind,
    beginning: &Beginning,
    count: usize,
) -> Result<ArrayVec<bool, 5121>, CondError>
    requires { count ≤ 5121 }
    ensures allowed { IfOk result (λ names. (n : ℕ) → n < count
        → IsTrue (slice_index_or names.items n false)
        ↔ CanStand asked beginning.now (AKind.Name n)) }
    ensures memory { IfErr result (λ e. e ≡ Memory) }
{
    let mut names = ArrayVec::new();
    for number in 0..count {
        names.push(asked.allows(beginning, Kind::Name(number as u16))?);
    }
    Ok(names)
}

/// Of each of the first `count` names, whether it stands for a value. The only error is `Memory`.
fn names_of_values(beginning: &Beginning, count: usize) -> Result<ArrayVec<bool, 5121>, CondError>
    requires { count ≤ 5121 }
    ensures values { IfOk result (λ values. (n : ℕ) → n < count
        → IsOfValue beginning.now n (slice_index_or values.items n false)) }
    ensures memory { IfErr result (λ e. e ≡ Memory) }
{
    let mut values = ArrayVec::new();
    for number in 0..count {
        let told = beginning.is_value_name(number as u16)?;
        values.push(told.unwrap_or(false));
    }
    Ok(values)
}
