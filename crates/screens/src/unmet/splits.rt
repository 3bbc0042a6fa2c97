//! Four counts that add up: each way to split their sum is tried.

ghost use Rattle.std.specs.Prelude.{◌≡◌, ◌≤◌};
ghost use Rattle.conditions.specs.declared.limits.TheConstants.{MOST_PARTS};
ghost use Rattle.conditions.specs.Form.{form_of};
ghost use Rattle.conditions.specs.Limits.{HasAtMostAtoms};
ghost use Rattle.screens.specs.Splits.{exactly, is_hopeless, part_at, start_of, told, up_to};

use crate::unmet::facts::{Fact, Facts};
use conditions::Tree;

impl Fact {
    /// The count is exactly this.
    fn exactly(self, number: u16) -> Fact
        ensures { result ≡ exactly number self }
    {
        Fact {
            count: self.count,
            least: number,
            most: number,
        }
    }

    /// The count is at most this, too.
    fn up_to(self, most: u16) -> Fact
        ensures { result ≡ up_to most self }
    {
        Fact {
            count: self.count,
            least: self.least,
            most: self.most.min(most),
        }
    }
}

impl Facts {
    /// The fact that has this many after it.
    fn part_at(&self, more: usize) -> Fact
        ensures { result ≡ part_at more self.now }
    {
        match more {
            0 => self.fourth,
            1 => self.third,
            2 => self.second,
            _ => self.first,
        }
    }

    /// The facts if the count of this one is exactly the number, and those after it are at most
    /// `rest`.
    fn told(&self, more: usize, number: u16, rest: u16) -> Facts
        ensures { result ≡ told more number rest self.now }
    {
        match more {
            0 => Facts {
                first: self.first,
                second: self.second,
                third: self.third,
                fourth: self.fourth.exactly(number),
            },
            1 => Facts {
                first: self.first,
                second: self.second,
                third: self.third.exactly(number),
                fourth: self.fourth.up_to(rest),
            },
            2 => Facts {
                first: self.first,
                second: self.second.exactly(number),
                third: self.third.up_to(rest),
                fourth: self.fourth.up_to(rest),
            },
            _ => Facts {
                first: self.first.exactly(number),
                second: self.second.up_to(rest),
                third: self.third.up_to(rest),
                fourth: self.fourth.up_to(rest),
            },
        }
    }

    /// The least number to try for a count: what is left over has to go to the last.
    fn start_of(&self, more: usize, least: u16) -> u16
        ensures { result ≡ start_of more least self.now }
    {
        match more {
            0 => self.fourth.least.max(least),
            _ => self.part_at(more).least,
        }
    }

    /// Whether the tree isn't met whatever the last `untold` of the counts are, if these are
    /// together from `least` to `most`.
    #[tactic(auto, unfolding(crate::specs::Splits::is_hopeless))]
    pub(crate) fn is_hopeless(&self, tree: &Tree, untold: usize, least: u16, most: u16) -> bool
        requires atoms { HasAtMostAtoms MOST_PARTS (form_of tree.now) }
        requires few { most ≤ 52 }
        ensures { result ≡ is_hopeless (form_of tree.now) untold least most self.now }
    {
        if self.refute(tree, true) {
            return true;
        }
        if untold == 0 {
            return false;
        }
        let more = untold - 1;
        let end = self.part_at(more).most.min(most) + 1;
        let start = self.start_of(more, least);
        for number in start..end {
            let rest = most - number;
            let facts = self.told(more, number, rest);
            if !facts.is_hopeless(tree, more, least.saturating_sub(number), rest) {
                return false;
            }
        }
        true
    }
}
