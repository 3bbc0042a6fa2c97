//! What a text was read as.

ghost use Rattle.std.specs.Prelude.{◌≡◌, ◌↔◌, IfOk, IfErr, IsTrue};
ghost use Rattle.conditions.specs.declared.error.CondError.TheVariants.{Memory};
ghost use Rattle.explain_conditions.specs.Asked.{CanStand, asked_name};

use cond_lang::{Beginning, CondError, Kind};

/// What a text was read as.
#[derive(Clone, Copy)]
pub(crate) enum TextKind {
    /// A condition.
    Condition,
    /// A question, which is a condition or a value.
    Question,
}

impl TextKind {
    /// What a person calls it.
    pub(crate) fn name(self) -> &'static str
        ensures { result.now ≡ asked_name self }
    {
        match self {
            TextKind::Condition => "condition",
            TextKind::Question => "question",
        }
    }

    /// Whether some token of the kind may come after the beginning. The only error is `Memory`.
    pub(crate) fn allows(self, beginning: &Beginning, kind: Kind) -> Result<bool, CondError>
        ensures allowed { IfOk result (λ b. IsTrue b ↔ CanStand self beginning.now kind) }
        ensures memory { IfErr result (λ e. e ≡ Memory) }
    {
        match self {
            TextKind::Condition => beginning.allows(kind),
            TextKind::Question => beginning.allows_in_question(kind),
        }
    }
}
