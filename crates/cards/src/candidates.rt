//! The candidates of a seed, from one on: deal after deal, with a jump over those between.

ghost use Rattle.std.specs.Prelude.{◌≡◌, ◌+◌, ◌-◌, ◌<◌, ◌≤◌, ◌^◌};
ghost use Rattle.cards.specs.CandidateWalks.{GivesDeal, GivesHand, GoesOnAt, Moves, Stays};
ghost use Rattle.cards.specs.Deals.{IsPartition};
ghost use Rattle.cards.specs.Fixed.{none_fixed};
ghost use Rattle.cards.specs.declared.seat.Seat.TheVariants.{South, West};

use crate::around::Around;
use crate::{Deal, Fixed, Hand};
use lcg48::{Lcg48, Steps, Stride};
use std::marker::Model;

/// The draws of one candidate: one for each exchange of the 52 cards.
pub(crate) const DRAWS: u64 = 51;

/// Every `step`-th candidate of a seed around fixed cards, from one on. Contracts see the
/// generator's state before the next candidate's draws, how many draws it is from there to those of
/// the candidate after it, the fixed cards, and how many hands of the next candidate are dealt:
/// none, West's, or West's and South's.
///
/// A deal need not take all draws of its candidate: the gap is what a whole deal leaves up to the
/// next one. A candidate that isn't dealt whole is left from its start.
#[derive(Drop)]
pub struct Candidates {
    start: Lcg48,
    stride: Stride,
    gap: Stride,
    around: Around,
    cards: [u8; 52],
    generator: Lcg48,
    west: u64,
    south: u64,
    dealt: u8,
}

impl Model for Candidates {
    ghost use Rattle.std.specs.Prelude.{◌≡◌, ◌+◌};
    ghost use Rattle.cards.specs.CandidateWalks.{CandidatesView};
    ghost use Rattle.cards.specs.internal.Around.{draws_around};
    ghost use Rattle.cards.specs.internal.Dealings.{IsUnderWay};

    ghost Value = { CandidatesView };

    ghost view = { λ c. record {
      state = c.start;
      stride = c.stride;
      fixed = c.around;
      dealt = c.dealt;
    } };

    ghost invariant = { λ c.
        IsUnderWay c.around c.start c.generator c.cards c.west c.south c.dealt
        × (draws_around c.around + c.gap ≡ c.stride) };
}

impl Candidates {
    /// The candidates `first`, `first + step`, `first + 2 * step`, .. of the seed.
    ///
    /// `first` may be up to 16 past the last candidate, as the shares of up to 16 workers need it.
    pub fn new(seed: u32, first: u64, step: u32) -> Candidates
        requires first { first < 2 ^ 40 + 16 }
        requires step { 1 ≤ step }
        ensures { GoesOnAt result none_fixed seed first step }
    {
        Candidates::around(seed, first, step, &Fixed::none())
    }

    /// The same candidates, dealt around these fixed cards.
    pub fn around(seed: u32, first: u64, step: u32, fixed: &Fixed) -> Candidates
        requires first { first < 2 ^ 40 + 16 }
        requires step { 1 ≤ step }
        ensures { GoesOnAt result fixed.now seed first step }
    {
        let mut steps = Steps::new();
        let jump = Stride::of(DRAWS * first, &mut steps);
        let start = jump.apply(&Lcg48::seeded(seed));
        let around = Around::of(fixed);
        let stride = DRAWS * u64::from(step);
        Candidates {
            start,
            stride: Stride::of(stride, &mut steps),
            gap: Stride::of(stride - around.draws(), &mut steps),
            around,
            cards: [0; 52],
            generator: start,
            west: 0,
            south: 0,
            dealt: 0,
        }
    }

    /// The next candidate's deal.
    #[inline]
    pub fn next(&mut self) -> Deal
        ensures deal { GivesDeal self.old result }
        ensures partition { IsPartition result }
        ensures moved { Moves self.old self.new }
    {
        // In one piece, which is quicker than hand by hand.
        let deal = self.around.draw(&mut self.start);
        self.start = self.gap.apply(&self.start);
        self.dealt = 0;
        deal
    }

    /// Deals West's hand of the next candidate, and no more. What was dealt of it before is dealt
    /// anew.
    #[inline(always)]
    pub fn deal_west(&mut self) -> Hand
        ensures hand { GivesHand self.old West result }
        ensures stays { Stays self.old self.new }
        ensures dealt { self.new.dealt ≡ 1 }
    {
        let mut generator = self.start;
        let west = self.around.deal_west(&mut self.cards, &mut generator);
        self.generator = generator;
        self.west = west;
        self.dealt = 1;
        Hand::of_mask(west)
    }

    /// Deals South's hand of the next candidate too, once West's is dealt.
    #[inline(always)]
    pub fn deal_south(&mut self) -> Hand
        requires { self.old.dealt ≡ 1 }
        ensures hand { GivesHand self.old South result }
        ensures stays { Stays self.old self.new }
        ensures dealt { self.new.dealt ≡ 2 }
    {
        let mut generator = self.generator;
        let south = self.around.deal_south(&mut self.cards, &mut generator);
        self.generator = generator;
        self.south = south;
        self.dealt = 2;
        Hand::of_mask(south)
    }

    /// Deals the rest of the next candidate, once West's and South's hands are dealt, and goes on
    /// to the candidate after it.
    #[inline(always)]
    pub fn finish(&mut self) -> Deal
        requires { self.old.dealt ≡ 2 }
        ensures deal { GivesDeal self.old result }
        ensures partition { IsPartition result }
        ensures moved { Moves self.old self.new }
        ensures dealt { self.new.dealt ≡ 0 }
    {
        let mut generator = self.generator;
        let (west, south) = (self.west, self.south);
        let deal = self
            .around
            .deal_rest(&mut self.cards, &mut generator, west, south);
        self.dealt = 0;
        self.skip();
        deal
    }

    /// Goes on to the candidate after the next, which nobody needs any more.
    #[inline(always)]
    pub fn skip(&mut self)
        ensures moved { Moves self.old self.new }
        ensures dealt { self.new.dealt ≡ 0 }
    {
        self.start = self.stride.apply(&self.start);
        self.dealt = 0;
    }
}
