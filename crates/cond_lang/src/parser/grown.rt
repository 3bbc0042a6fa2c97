//! Values and trees that grow as their text is read, and how many parts they have.
//!
//! One that there is no room for is dropped at once, and only its parts are counted on. What is
//! read behind another has the room that this one leaves.

ghost use Rattle.std.specs.Prelude.{◌≡◌, ◌≢◌, ℕ, ◌+◌, ◌-◌, min, Option, Err, IfOk};
ghost use Rattle.conditions.specs.Form.{Amount, Form, amount_of, form_of, compare, negation, sum};
ghost use Rattle.conditions.specs.Form.{within};
ghost use Rattle.conditions.specs.Limits.{atoms_of, parts_of};
ghost use Rattle.cond_lang.specs.Grammar.{joined};
ghost use Rattle.cond_lang.specs.internal.Growing.{AreGrown, IsGrown, IsGrownValue};
ghost use Rattle.cond_lang.specs.internal.Growing.{most_counted, room_behind};
ghost use Rattle.cond_lang.specs.internal.Reading.{behind};

use super::Refusal;
use crate::classes::Quantifier;
use conditions::{Op, Tree, Value};
use std::alloc::Global;

/// A value as far as it is read.
#[derive(Drop)]
pub(crate) struct GrownValue {
    /// How many parts it has, or `u32::MAX` if it has more.
    pub(crate) parts: u32,
    /// The value, if there is room for its parts.
    pub(crate) value: Option<Value>,
}

/// A tree as far as it is read.
#[derive(Drop)]
pub(crate) struct Grown {
    /// How many parts it has, or `u32::MAX` if it has more.
    pub(crate) parts: u32,
    /// The tree, if there is room for its parts.
    pub(crate) tree: Option<Box<Tree>>,
}

impl GrownValue {
    /// A value of one part.
    pub(crate) fn one(room: u32, value: Value) -> GrownValue
        requires { atoms_of (amount_of value) ≡ 1 }
        ensures { IsGrownValue room result (amount_of value) }
    {
        if room == 0 {
            return GrownValue {
                parts: 1,
                value: None,
            };
        }
        GrownValue {
            parts: 1,
            value: Some(value),
        }
    }

    /// The sum of the two.
    pub(crate) fn sum(
        alloc: Global,
        room: u32,
        left: GrownValue,
        right: GrownValue,
    ) -> Result<GrownValue, Refusal>
        ensures ok { IfOk result (λ v. (a b : Amount) → IsGrownValue room left a
            → IsGrownValue (room - left.parts) right b → IsGrownValue room v (sum a b)) }
        ensures err { result ≢ Err Refusal.Syntax }
    {
        let parts = together(left.parts, right.parts);
        if parts > room {
            return Ok(GrownValue { parts, value: None });
        }
        let Some(left) = left.value else {
            return Ok(GrownValue { parts, value: None });
        };
        let Some(right) = right.value else {
            return Ok(GrownValue { parts, value: None });
        };
        let value = Value::Sum(Box::new(alloc, left)?, Box::new(alloc, right)?);
        Ok(GrownValue {
            parts,
            value: Some(value),
        })
    }
}

impl Grown {
    /// A tree of one part.
    #[inline(never)]
    pub(crate) fn one(alloc: Global, room: u32, tree: Tree) -> Result<Grown, Refusal>
        requires { parts_of (form_of tree) ≡ 1 }
        ensures ok { IfOk result (λ g. IsGrown room g (form_of tree)) }
        ensures err { result ≢ Err Refusal.Syntax }
    {
        if room == 0 {
            return Ok(Grown {
                parts: 1,
                tree: None,
            });
        }
        let tree = Box::new(alloc, tree)?;
        Ok(Grown {
            parts: 1,
            tree: Some(tree),
        })
    }

    /// Whether the value is in the range.
    #[inline(never)]
    pub(crate) fn within(
        alloc: Global,
        value: GrownValue,
        least: u16,
        most: u16,
    ) -> Result<Grown, Refusal>
        ensures ok { IfOk result (λ g. (room : ℕ) (a : Amount)
            → IsGrownValue room value a → IsGrown room g (within a least most)) }
        ensures err { result ≢ Err Refusal.Syntax }
    {
        let parts = value.parts;
        let Some(value) = value.value else {
            return Ok(Grown { parts, tree: None });
        };
        let tree = Box::new(alloc, Tree::Within(value, least, most))?;
        Ok(Grown {
            parts,
            tree: Some(tree),
        })
    }

    /// Whether the values are in the relation.
    #[inline(never)]
    pub(crate) fn compare(
        alloc: Global,
        room: u32,
        left: GrownValue,
        op: Op,
        right: GrownValue,
    ) -> Result<Grown, Refusal>
        ensures ok { IfOk result (λ g. (a b : Amount) → IsGrownValue room left a
            → IsGrownValue (room - left.parts) right b → IsGrown room g (compare a op b)) }
        ensures err { result ≢ Err Refusal.Syntax }
    {
        let parts = together(left.parts, right.parts);
        if parts > room {
            return Ok(Grown { parts, tree: None });
        }
        let Some(left) = left.value else {
            return Ok(Grown { parts, tree: None });
        };
        let Some(right) = right.value else {
            return Ok(Grown { parts, tree: None });
        };
        let tree = Box::new(alloc, Tree::Compare { left, op, right })?;
        Ok(Grown {
            parts,
            tree: Some(tree),
        })
    }

    /// The tree's negation.
    #[inline(never)]
    pub(crate) fn negation(alloc: Global, inner: Grown) -> Result<Grown, Refusal>
        ensures ok { IfOk result (λ g. (room : ℕ) (t : Form)
            → IsGrown room inner t → IsGrown room g (negation t)) }
        ensures err { result ≢ Err Refusal.Syntax }
    {
        let parts = inner.parts;
        let Some(inner) = inner.tree else {
            return Ok(Grown { parts, tree: None });
        };
        let tree = Box::new(alloc, Tree::Negation(inner))?;
        Ok(Grown {
            parts,
            tree: Some(tree),
        })
    }

    /// One of the two trees or both, or both trees.
    #[inline(never)]
    pub(crate) fn joined(
        alloc: Global,
        room: u32,
        quantifier: Quantifier,
        left: Grown,
        right: Grown,
    ) -> Result<Grown, Refusal>
        ensures ok { IfOk result (λ g. (t u : Form) → IsGrown room left t
            → IsGrown (room - left.parts) right u → IsGrown room g (joined quantifier t u)) }
        ensures err { result ≢ Err Refusal.Syntax }
    {
        let parts = together(left.parts, right.parts);
        if parts > room {
            return Ok(Grown { parts, tree: None });
        }
        let Some(left) = left.tree else {
            return Ok(Grown { parts, tree: None });
        };
        let Some(right) = right.tree else {
            return Ok(Grown { parts, tree: None });
        };
        let tree = Box::new(alloc, join(quantifier, left, right))?;
        Ok(Grown {
            parts,
            tree: Some(tree),
        })
    }

    /// The tree joined to the one before it, if there is one.
    #[inline(never)]
    pub(crate) fn behind(
        alloc: Global,
        room: u32,
        quantifier: Quantifier,
        left: Option<Grown>,
        tree: Grown,
    ) -> Result<Grown, Refusal>
        ensures ok { IfOk result (λ g. (t : Option Form) (u : Form) → AreGrown room left t
            → IsGrown (room_behind room left) tree u → IsGrown room g (behind quantifier t u)) }
        ensures err { result ≢ Err Refusal.Syntax }
    {
        match left {
            None => Ok(tree),
            Some(left) => Grown::joined(alloc, room, quantifier, left, tree),
        }
    }
}

/// `or` for `any`, and `and` for `every`.
fn join(quantifier: Quantifier, left: Box<Tree>, right: Box<Tree>) -> Tree
    ensures { form_of result ≡ joined quantifier (form_of left.value) (form_of right.value) }
{
    match quantifier {
        Quantifier::Any => Tree::AnyOf(left, right),
        Quantifier::Every => Tree::AllOf(left, right),
    }
}

/// The room that is left behind the tree, if there is one.
pub(crate) fn room_behind(room: u32, left: &Option<Grown>) -> u32
    ensures { result ≡ room_behind room left.now }
{
    match left {
        None => room,
        Some(left) => room.saturating_sub(left.parts),
    }
}

/// How many parts the two have together, or `u32::MAX` if they have more.
fn together(left: u32, right: u32) -> u32
    ensures { result ≡ min (left + right) most_counted }
{
    left.saturating_add(right)
}
