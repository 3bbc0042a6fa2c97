//! A condition: made of a tree, cloned, and asked whether it holds of a deal.

ghost use Rattle.std.specs.Prelude.{◌≡◌, IfOk};
ghost use Rattle.conditions.specs.declared.limits.TheConstants.{MOST_PARTS};
ghost use Rattle.conditions.specs.declared.tree.Op.TheVariants.{Equal};
ghost use Rattle.conditions.specs.Form.{all_of, form_of, compare, number};
ghost use Rattle.conditions.specs.Limits.{IsWithinLimits, HasAtMostAtoms, HasNumbersUpTo};
ghost use Rattle.conditions.specs.Meaning.{holds};
ghost use Rattle.conditions.specs.Memory.{IsUnlessMemory};

use crate::error::CondError;
use crate::meaning;
use crate::tree::{Op, Tree, Value};
use cards::Deal;
use std::alloc::{AllocError, Global};
use std::marker::Model;

/// A condition on a deal, which contracts see as its tree's form.
///
/// Each of its values adds up at most 16,384 numbers and counts, and each of its numbers is at most
/// 9,999, so that a sum is a `u64`.
pub struct Cond {
    alloc: Global,
    tree: Tree,
}

impl Model for Cond {
    ghost use Rattle.conditions.specs.Form.{Form, form_of};
    ghost use Rattle.conditions.specs.internal.FormCode.{form_code};
    ghost use Rattle.conditions.specs.Limits.{IsWithinLimits};

    ghost Value = { Form };

    ghost coded = { form_code };

    ghost view = { λ c. form_of c.tree };

    ghost invariant = { λ c. IsWithinLimits (form_of c.tree) };
}

// By hand, so that to drop one is a call (docs/DECISIONS.md).
impl Drop for Cond {
    fn drop(self) {
        let Cond { alloc: _, tree: _ } = self;
    }
}

impl Cond {
    /// The condition that is this tree.
    pub fn of_tree(alloc: Global, tree: Tree) -> Cond
        requires { IsWithinLimits (form_of tree) }
        ensures { result ≡ form_of tree }
    {
        Cond { alloc, tree }
    }

    /// The allocator that the condition was made with.
    pub fn allocator(&self) -> Global {
        self.alloc
    }

    /// The condition of the text `0==0`, which holds of every deal.
    pub fn any(alloc: Global) -> Cond
        ensures { result ≡ compare (number 0) Equal (number 0) }
    {
        let tree = Tree::Compare {
            left: Value::Number(0),
            op: Op::Equal,
            right: Value::Number(0),
        };
        Cond { alloc, tree }
    }

    /// Returns an equal condition.
    ///
    /// # Errors
    /// `Memory` if an allocation failed.
    pub fn try_clone(&self) -> Result<Cond, CondError>
        ensures { IsUnlessMemory result self.now }
    {
        match self.tree.try_clone(self.alloc) {
            Ok(tree) => Ok(Cond {
                alloc: self.alloc,
                tree,
            }),
            Err(_) => Err(CondError::Memory),
        }
    }

    /// The condition that holds of the deals of which both do.
    ///
    /// # Errors
    /// `Memory` if an allocation failed.
    pub fn and(self, other: Cond) -> Result<Cond, CondError>
        ensures { IsUnlessMemory result (all_of self other) }
    {
        let alloc = self.alloc;
        match both(alloc, self.into_tree(), other.into_tree()) {
            Ok(tree) => Ok(Cond { alloc, tree }),
            Err(_) => Err(CondError::Memory),
        }
    }

    /// The tree alone.
    fn into_tree(self) -> Tree
        ensures form { form_of result ≡ self }
        ensures limits { IsWithinLimits self }
    {
        let Cond { alloc: _, tree } = self;
        tree
    }

    /// Whether the condition is true of the deal.
    pub fn holds(&self, deal: &Deal) -> bool
        ensures { result ≡ holds self.now deal.now }
    {
        meaning::holds(&self.tree, deal)
    }

    /// The tree of the condition: each of its values has at most 16,384 atoms, and each number is
    /// at most 9,999.
    pub fn tree(&self) -> &Tree
        ensures form { form_of result.now ≡ self.now }
        ensures few { HasAtMostAtoms MOST_PARTS self.now }
        ensures small { HasNumbersUpTo 9999 self.now }
    {
        &self.tree
    }
}

/// The tree that is true where both are.
fn both(alloc: Global, left: Tree, right: Tree) -> Result<Tree, AllocError>
    ensures { IfOk result (λ t. form_of t ≡ all_of (form_of left) (form_of right)) }
{
    let left = Box::new(alloc, left)?;
    let right = Box::new(alloc, right)?;
    Ok(Tree::AllOf(left, right))
}
