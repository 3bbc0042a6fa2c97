//! What a tree can't be, by what is known of a deal.

ghost use Rattle.std.specs.Prelude.{◌≡◌};
ghost use Rattle.cards.specs.Hands.{is_balanced};
ghost use Rattle.conditions.specs.declared.limits.TheConstants.{MOST_PARTS};
ghost use Rattle.conditions.specs.Form.{form_of};
ghost use Rattle.conditions.specs.Limits.{HasAtMostAtoms};
ghost use Rattle.screens.specs.Refuted.{is_never_related, is_never_within, is_refuted};
ghost use Rattle.screens.specs.Refuted.{is_refuted_shape, shape_by};

use crate::relation::related_as;
use crate::unmet::facts::Facts;
use cards::Seat;
use conditions::shapes::{are_allowed, are_allowed_in_some_order, is_rearrangement, is_same};
use conditions::{Op, Tree};

impl Facts {
    /// Whether the tree can't have this truth.
    pub(crate) fn refute(&self, tree: &Tree, truth: bool) -> bool
        requires { HasAtMostAtoms MOST_PARTS (form_of tree.now) }
        ensures { result ≡ is_refuted self.now truth (form_of tree.now) }
    {
        match tree {
            Tree::AnyOf(left, right) => {
                if truth {
                    self.refute(left, truth) && self.refute(right, truth)
                } else {
                    self.refute(left, truth) || self.refute(right, truth)
                }
            }
            Tree::AllOf(left, right) => {
                if truth {
                    self.refute(left, truth) || self.refute(right, truth)
                } else {
                    self.refute(left, truth) && self.refute(right, truth)
                }
            }
            Tree::Negation(inner) => self.refute(inner, !truth),
            Tree::Compare { left, op, right } => {
                let (a, b) = (self.least_value(left), self.greatest_value(left));
                let (c, d) = (self.least_value(right), self.greatest_value(right));
                is_never_related(related_as(*op, truth), a, b, c, d)
            }
            Tree::Within(value, first, last) => {
                let (a, b) = (self.least_value(value), self.greatest_value(value));
                is_never_within(truth, a, b, u64::from(*first), u64::from(*last))
            }
            _ => self.refute_shape(tree, truth),
        }
    }

    /// The same of a test of a shape.
    fn refute_shape(&self, tree: &Tree, truth: bool) -> bool
        ensures { result ≡ is_refuted_shape self.now truth (form_of tree.now) }
    {
        match tree {
            Tree::Balanced(seat) => match self.shape(*seat) {
                Some(shape) => is_balanced(&shape) != truth,
                None => false,
            },
            Tree::Shape(seat, lengths) => match self.shape(*seat) {
                Some(shape) => is_same(&shape, lengths) != truth,
                None => false,
            },
            Tree::Pattern(seat, lengths) => match self.shape(*seat) {
                Some(shape) => is_rearrangement(&shape, lengths) != truth,
                None => false,
            },
            Tree::LooseShape(seat, items) => match self.shape(*seat) {
                Some(shape) => are_allowed(items, &shape) != truth,
                None => false,
            },
            Tree::LoosePattern(seat, items) => match self.shape(*seat) {
                Some(shape) => are_allowed_in_some_order(items, &shape) != truth,
                None => false,
            },
            _ => false,
        }
    }

    /// The seat's shape, if it is known.
    fn shape(&self, seat: Seat) -> Option<[u16; 4]>
        ensures { result ≡ shape_by self.now seat }
    {
        let least = self.least_lengths(seat).in_order();
        if is_same(&least, &self.greatest_lengths(seat).in_order()) {
            Some(least)
        } else {
            None
        }
    }
}

/// Whether the lengths are 4-3-3-3, 4-4-3-2 or 5-3-3-2 in some order.
fn is_balanced(lengths: &[u16; 4]) -> bool
    ensures { result ≡ is_balanced lengths.now }
{
    is_rearrangement(lengths, &[4, 3, 3, 3])
        || is_rearrangement(lengths, &[4, 4, 3, 2])
        || is_rearrangement(lengths, &[5, 3, 3, 2])
}

/// Whether the relation holds of no two numbers, the left from a to b and the right from c to d.
fn is_never_related(op: Op, a: u64, b: u64, c: u64, d: u64) -> bool
    ensures { result ≡ is_never_related op a b c d }
{
    match op {
        Op::Equal => b < c || d < a,
        Op::NotEqual => b <= c && d <= a,
        Op::Less => d <= a,
        Op::AtMost => d < a,
        Op::More => b <= c,
        Op::AtLeast => b < c,
    }
}

/// Whether no number from a to b is from m to n, or whether each is.
fn is_never_within(truth: bool, a: u64, b: u64, m: u64, n: u64) -> bool
    ensures { result ≡ is_never_within truth a b m n }
{
    if truth {
        n < m || b < m || n < a
    } else {
        m <= a && b <= n
    }
}
