//! The candidates of a seed by their numbers, in any order.

ghost use Rattle.std.specs.Prelude.{◌≡◌, ◌<◌, ◌^◌};
ghost use Rattle.cards.specs.Deals.{IsPartition};
ghost use Rattle.cards.specs.Fixed.{candidate_around};

use crate::around::Around;
use crate::candidates::DRAWS;
use crate::{Deal, Fixed};
use lcg48::{Jumps, Lcg48};
use std::marker::Model;

/// The deals of a seed's candidates around fixed cards, each by its number. Contracts see the seed
/// and the fixed cards.
///
/// It is made for many deals: a deal of any number takes some tens of nanoseconds more than the
/// next one of `Candidates`, which goes through them in order.
#[derive(Drop)]
pub struct DealsByNumber {
    seed: u32,
    jumps: Jumps,
    around: Around,
}

impl Model for DealsByNumber {
    ghost use Rattle.cards.specs.CandidateWalks.{Source};

    ghost Value = { Source };

    ghost view = { λ d. record { seed = d.seed; fixed = d.around } };
}

impl DealsByNumber {
    /// Returns the deals of the seed around these fixed cards.
    pub fn new(seed: u32, fixed: &Fixed) -> DealsByNumber
        ensures seed { result.seed ≡ seed }
        ensures fixed { result.fixed ≡ fixed.now }
    {
        DealsByNumber {
            seed,
            jumps: Jumps::new(),
            around: Around::of(fixed),
        }
    }

    /// Returns the deal of the candidate of this number.
    #[inline]
    pub fn deal(&self, number: u64) -> Deal
        requires { number < 2 ^ 40 }
        ensures value { result ≡ candidate_around self.now.fixed self.now.seed number }
        ensures partition { IsPartition result }
    {
        let start = Lcg48::seeded(self.seed);
        let mut generator = self.jumps.apply(DRAWS * number, &start);
        self.around.draw(&mut generator)
    }
}
