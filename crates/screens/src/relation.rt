//! The relation that holds where another one does, or doesn't.

ghost use Rattle.std.specs.Prelude.{◌≡◌, ℕ};
ghost use Rattle.conditions.specs.Meaning.{is_related};
ghost use Rattle.screens.specs.Refuted.{related_as};
ghost use Rattle.screens.specs.internal.Exclusions.{has_truth};

use conditions::Op;

/// The relation, or where it doesn't hold the one that does.
pub(crate) fn related_as(op: Op, truth: bool) -> Op
    ensures named { result ≡ related_as op truth }
    ensures related { (m n : ℕ) → is_related result m n ≡ has_truth truth (is_related op m n) }
{
    if truth {
        return op;
    }
    match op {
        Op::Equal => Op::NotEqual,
        Op::NotEqual => Op::Equal,
        Op::Less => Op::AtLeast,
        Op::AtMost => Op::More,
        Op::More => Op::AtMost,
        Op::AtLeast => Op::Less,
    }
}
