//! Tests that give a candidate up once some hands are known: they compare bounds, and are made once
//! for a condition.

ghost use Rattle.std.specs.Prelude.{◌≡◌, ℕ, ◌≤◌, ◌&&◌, ◌||◌, Bool, List, IfOk, IsTrue, nat_le, not};
ghost use Rattle.conditions.specs.declared.limits.TheConstants.{MOST_PARTS};
ghost use Rattle.conditions.specs.Form.{amount_of, form_of};
ghost use Rattle.conditions.specs.Limits.{HasAtMostAtoms, atoms_of};
ghost use Rattle.conditions.specs.Meaning.{holds, is_related, value_in};
ghost use Rattle.screens.specs.internal.Exclusions.{Refutes, excludes, has_truth, is_below};
ghost use Rattle.screens.specs.internal.Gaps.{is_open};

use crate::estimate::Estimate;
use crate::gap::{Gap, Shift};
use crate::relation::related_as;
use crate::stage::{Bound, Stage};
use cards::{CardWeights, Fixed, Hand};
use conditions::{Op, Tree, Value};
use std::alloc::{AllocError, Global};

/// A test of the hands that are known. What it excludes can become no deal that is accepted.
#[derive(Drop)]
pub(crate) enum Test {
    /// It excludes nothing.
    Never,
    /// West's cards weigh more than this.
    WestAbove(CardWeights, u64),
    /// West's cards weigh less than this.
    WestBelow(CardWeights, u64),
    /// South's cards weigh more than this.
    SouthAbove(CardWeights, u64),
    /// South's cards weigh less than this.
    SouthBelow(CardWeights, u64),
    /// West's cards by the first weights and South's by the second weigh more than this.
    BothAbove(CardWeights, CardWeights, u64),
    /// A gap is open.
    Opens(Box<Gap>),
    /// One of the two excludes.
    Either(Box<Test>, Box<Test>),
    /// Both exclude.
    Both(Box<Test>, Box<Test>),
}

impl Test {
    /// The test that excludes what can't give the tree this truth.
    ///
    /// # Errors
    /// An allocation failed.
    pub(crate) fn of(
        alloc: Global,
        tree: &Tree,
        truth: bool,
        stage: Stage,
        fixed: &Fixed,
    ) -> Result<Test, AllocError>
        requires { HasAtMostAtoms MOST_PARTS (form_of tree.now) }
        ensures { IfOk result (λ test. Refutes stage fixed.now
            (λ deal. has_truth truth (holds (form_of tree.now) deal)) test) }
    {
        match tree {
            Tree::AnyOf(left, right) => {
                let left = Test::of(alloc, left, truth, stage, fixed)?;
                let right = Test::of(alloc, right, truth, stage, fixed)?;
                if truth {
                    Test::both(alloc, left, right)
                } else {
                    Test::either(alloc, left, right)
                }
            }
            Tree::AllOf(left, right) => {
                let left = Test::of(alloc, left, truth, stage, fixed)?;
                let right = Test::of(alloc, right, truth, stage, fixed)?;
                if truth {
                    Test::either(alloc, left, right)
                } else {
                    Test::both(alloc, left, right)
                }
            }
            Tree::Negation(inner) => Test::of(alloc, inner, !truth, stage, fixed),
            Tree::Compare { left, op, right } => {
                Test::of_comparison(alloc, left, related_as(*op, truth), right, stage, fixed)
            }
            Tree::Within(value, least, most) => {
                Test::of_range(alloc, value, *least, *most, truth, stage, fixed)
            }
            _ => Ok(Test::Never),
        }
    }

    /// The test that excludes what can't bring the two values into the relation.
    ///
    /// # Errors
    /// An allocation failed.
    fn of_comparison(
        alloc: Global,
        left: &Value,
        op: Op,
        right: &Value,
        stage: Stage,
        fixed: &Fixed,
    ) -> Result<Test, AllocError>
        requires left { atoms_of (amount_of left.now) ≤ MOST_PARTS }
        requires right { atoms_of (amount_of right.now) ≤ MOST_PARTS }
        ensures { IfOk result (λ test. Refutes stage fixed.now (λ deal. is_related op
            (value_in deal (amount_of left.now)) (value_in deal (amount_of right.now))) test) }
    {
        match op {
            Op::Equal => {
                let less = Test::outdone(alloc, left, right, false, stage, fixed)?;
                let more = Test::outdone(alloc, right, left, false, stage, fixed)?;
                Test::either(alloc, less, more)
            }
            Op::NotEqual => Ok(Test::Never),
            Op::Less => Test::outdone(alloc, right, left, true, stage, fixed),
            Op::AtMost => Test::outdone(alloc, right, left, false, stage, fixed),
            Op::More => Test::outdone(alloc, left, right, true, stage, fixed),
            Op::AtLeast => Test::outdone(alloc, left, right, false, stage, fixed),
        }
    }

    /// The test that excludes what can't give this truth to whether the value is in the range.
    ///
    /// # Errors
    /// An allocation failed.
    fn of_range(
        alloc: Global,
        value: &Value,
        least: u16,
        most: u16,
        truth: bool,
        stage: Stage,
        fixed: &Fixed,
    ) -> Result<Test, AllocError>
        requires { atoms_of (amount_of value.now) ≤ MOST_PARTS }
        ensures { IfOk result (λ test. Refutes stage fixed.now (λ deal. has_truth truth
            (nat_le least (value_in deal (amount_of value.now))
            && nat_le (value_in deal (amount_of value.now)) most)) test) }
    {
        let least = Value::Number(least);
        let most = Value::Number(most);
        if truth {
            let low = Test::outdone(alloc, value, &least, false, stage, fixed)?;
            let high = Test::outdone(alloc, &most, value, false, stage, fixed)?;
            Test::either(alloc, low, high)
        } else {
            let not_low = Test::outdone(alloc, &least, value, true, stage, fixed)?;
            let not_high = Test::outdone(alloc, value, &most, true, stage, fixed)?;
            Test::both(alloc, not_low, not_high)
        }
    }

    /// The test that excludes where one value is less than another in any case, or at most equal to
    /// it if that counts too.
    ///
    /// # Errors
    /// An allocation failed.
    fn outdone(
        alloc: Global,
        left: &Value,
        right: &Value,
        or_equal: bool,
        stage: Stage,
        fixed: &Fixed,
    ) -> Result<Test, AllocError>
        requires left { atoms_of (amount_of left.now) ≤ MOST_PARTS }
        requires right { atoms_of (amount_of right.now) ≤ MOST_PARTS }
        ensures { IfOk result (λ test. Refutes stage fixed.now (λ deal. not (is_below or_equal
            (value_in deal (amount_of left.now)) (value_in deal (amount_of right.now)))) test) }
    {
        let most = Estimate::of(left, Bound::Greatest, stage, fixed);
        let least = Estimate::of(right, Bound::Least, stage, fixed);
        let Ok(gap) = Gap::between(&most, &least, or_equal) else {
            return Ok(Test::Never);
        };
        Test::of_gap(alloc, gap)
    }

    /// A test that excludes only where the gap is open: of a single weight if that will do.
    ///
    /// # Errors
    /// An allocation failed.
    fn of_gap(alloc: Global, gap: Gap) -> Result<Test, AllocError>
        ensures { IfOk result (λ test. (west south : List Bool)
            → IsTrue (excludes test west south) → IsTrue (is_open gap west south)) }
    {
        if !gap.can_open() {
            return Ok(Test::Never);
        }
        let room = gap.low.saturating_sub(gap.high);
        let lack = gap.high.saturating_sub(gap.low);
        let Gap {
            low,
            high,
            west,
            south,
        } = gap;
        match (west.gain, west.loss, south.gain, south.loss) {
            (Some(weights), None, None, None) => Ok(Test::WestAbove(weights, room)),
            (None, Some(weights), None, None) => Ok(Test::WestBelow(weights, lack)),
            (None, None, Some(weights), None) => Ok(Test::SouthAbove(weights, room)),
            (None, None, None, Some(weights)) => Ok(Test::SouthBelow(weights, lack)),
            (Some(west), None, Some(south), None) => Ok(Test::BothAbove(west, south, room)),
            (gain, loss, other_gain, other_loss) => {
                let west = Shift { gain, loss };
                let (gain, loss) = (other_gain, other_loss);
                let south = Shift { gain, loss };
                let gap = Gap {
                    low,
                    high,
                    west,
                    south,
                };
                Ok(Test::Opens(Box::new(alloc, gap)?))
            }
        }
    }

    /// The test that excludes where one of the two does.
    ///
    /// # Errors
    /// An allocation failed.
    fn either(alloc: Global, left: Test, right: Test) -> Result<Test, AllocError>
        ensures { IfOk result (λ test. (west south : List Bool) → excludes test west south
            ≡ (excludes left west south || excludes right west south)) }
    {
        match (left, right) {
            (Test::Never, right) => Ok(right),
            (left, Test::Never) => Ok(left),
            (left, right) => Ok(Test::Either(Box::new(alloc, left)?, Box::new(alloc, right)?)),
        }
    }

    /// The test that excludes where both do.
    ///
    /// # Errors
    /// An allocation failed.
    fn both(alloc: Global, left: Test, right: Test) -> Result<Test, AllocError>
        ensures { IfOk result (λ test. (west south : List Bool) → excludes test west south
            ≡ (excludes left west south && excludes right west south)) }
    {
        match (left, right) {
            (Test::Never, _) | (_, Test::Never) => Ok(Test::Never),
            (left, right) => Ok(Test::Both(Box::new(alloc, left)?, Box::new(alloc, right)?)),
        }
    }

    /// Whether the test excludes anything at all, as far as can be told.
    pub(crate) fn is_useful(&self) -> bool {
        !matches!(self, Test::Never)
    }

    /// Whether the test excludes a candidate with these hands of West and South.
    #[inline(always)]
    pub(crate) fn excludes(&self, west: &Hand, south: &Hand) -> bool
        ensures { result ≡ excludes self.now west.now south.now }
    {
        match self {
            Test::WestAbove(weights, most) => u64::from(weights.weigh(west)) > *most,
            Test::WestBelow(weights, least) => u64::from(weights.weigh(west)) < *least,
            Test::BothAbove(of_west, of_south, most) => {
                u64::from(of_west.weigh(west) + of_south.weigh(south)) > *most
            }
            _ => self.excludes_by_parts(west, south),
        }
    }

    /// The same, for any test: `excludes` is for the usual ones, and is small.
    fn excludes_by_parts(&self, west: &Hand, south: &Hand) -> bool
        ensures { result ≡ excludes self.now west.now south.now }
    {
        match self {
            Test::Never => false,
            Test::WestAbove(weights, most) => u64::from(weights.weigh(west)) > *most,
            Test::WestBelow(weights, least) => u64::from(weights.weigh(west)) < *least,
            Test::SouthAbove(weights, most) => u64::from(weights.weigh(south)) > *most,
            Test::SouthBelow(weights, least) => u64::from(weights.weigh(south)) < *least,
            Test::BothAbove(of_west, of_south, most) => {
                u64::from(of_west.weigh(west) + of_south.weigh(south)) > *most
            }
            Test::Opens(gap) => gap.is_open(west, south),
            Test::Either(left, right) => {
                left.excludes_by_parts(west, south) || right.excludes_by_parts(west, south)
            }
            Test::Both(left, right) => {
                left.excludes_by_parts(west, south) && right.excludes_by_parts(west, south)
            }
        }
    }
}
