//! What is known of a deal: how much is counted at the least and at the most.

ghost use Rattle.std.specs.Prelude.{◌≡◌, ◌≤◌};
ghost use Rattle.screens.specs.Facts.{greatest_by, greatest_in, greatest_made, greatest_told};
ghost use Rattle.screens.specs.Facts.{greatest_lengths, greatest_totals, least_by, least_in};
ghost use Rattle.screens.specs.Facts.{least_lengths, least_made, least_told, least_totals};
ghost use Rattle.screens.specs.Suits.{HasUpTo};

use crate::unmet::by_suit::BySuit;
use crate::unmet::counts::is_same_count;
use cards::{Measure, Seat, Suit};
use conditions::Count;

/// What is counted is at least and at most this.
#[derive(Clone, Copy)]
pub(crate) struct Fact {
    pub(crate) count: Count,
    pub(crate) least: u16,
    pub(crate) most: u16,
}

/// Four facts on one deal.
#[derive(Clone, Copy)]
pub(crate) struct Facts {
    pub(crate) first: Fact,
    pub(crate) second: Fact,
    pub(crate) third: Fact,
    pub(crate) fourth: Fact,
}

impl Fact {
    /// The least that the count is by this fact: 0 if it tells of another.
    #[inline(always)]
    fn least_in(&self, count: Count) -> u64
        ensures value { result ≡ least_in self.now count }
        ensures few { result ≤ 65535 }
    {
        if is_same_count(self.count, count) {
            u64::from(self.least)
        } else {
            0
        }
    }

    /// The greatest that the count is by this fact, if it is at most `most` by others.
    #[inline(always)]
    fn greatest_in(&self, count: Count, most: u64) -> u64
        ensures value { result ≡ greatest_in self.now count most }
        ensures few { result ≤ most }
    {
        if is_same_count(self.count, count) {
            most.min(u64::from(self.most))
        } else {
            most
        }
    }
}

impl Facts {
    /// The least that the count is.
    #[tactic(auto, unfolding(crate::specs::Facts::least_by))]
    pub(crate) fn least(&self, count: Count) -> u64
        ensures value { result ≡ least_by self.now count }
        ensures few { result ≤ 262140 }
    {
        let (least, most) = (self.least_told(count), self.greatest_told(count));
        if most <= least {
            return least;
        }
        least.max(self.least_made(count))
    }

    /// The greatest that the count is.
    #[tactic(auto, unfolding(crate::specs::Facts::greatest_by))]
    pub(crate) fn greatest(&self, count: Count) -> u64
        ensures value { result ≡ greatest_by self.now count }
        ensures few { result ≤ 40 }
    {
        let (least, most) = (self.least_told(count), self.greatest_told(count));
        if most <= least {
            return most;
        }
        most.min(self.greatest_made(count))
    }

    /// The least that the count is, by the facts that tell of it.
    #[tactic(auto, unfolding(crate::specs::Facts::least_told))]
    pub(crate) fn least_told(&self, count: Count) -> u64
        ensures value { result ≡ least_told self.now count }
        ensures few { result ≤ 65535 }
    {
        let told = self.first.least_in(count).max(self.second.least_in(count));
        let more = self.third.least_in(count).max(self.fourth.least_in(count));
        told.max(more).max(u64::from(count.least()))
    }

    /// The greatest that the count is, by the facts that tell of it.
    #[tactic(auto, unfolding(crate::specs::Facts::greatest_told))]
    pub(crate) fn greatest_told(&self, count: Count) -> u64
        ensures value { result ≡ greatest_told self.now count }
        ensures few { result ≤ 40 }
    {
        let most = self.first.greatest_in(count, u64::from(count.greatest()));
        let most = self.second.greatest_in(count, most);
        let most = self.third.greatest_in(count, most);
        self.fourth.greatest_in(count, most)
    }

    /// The least that the count is, by the counts of the suits that make it.
    fn least_made(&self, count: Count) -> u64
        ensures value { result ≡ least_made self.now count }
        ensures few { result ≤ 262140 }
    {
        match count {
            Count::Ordered(order, seat) => self.least_lengths(seat).ordered(order),
            Count::Total(measure, seat) => self.least_totals(measure, seat).total(),
            _ => 0,
        }
    }

    /// The greatest that the count is, by the counts of the suits that make it.
    fn greatest_made(&self, count: Count) -> u64
        ensures value { result ≡ greatest_made self.now count }
    {
        match count {
            Count::Ordered(order, seat) => self.greatest_lengths(seat).ordered(order),
            Count::Total(measure, seat) => self.greatest_totals(measure, seat).total(),
            _ => u64::from(count.greatest()),
        }
    }

    /// The least lengths of the seat's suits.
    pub(crate) fn least_lengths(&self, seat: Seat) -> BySuit
        ensures value { result ≡ least_lengths self.now seat }
        ensures few { HasUpTo 65535 result }
    {
        BySuit {
            spades: self.least_told(Count::Length(seat, Suit::Spades)),
            hearts: self.least_told(Count::Length(seat, Suit::Hearts)),
            diamonds: self.least_told(Count::Length(seat, Suit::Diamonds)),
            clubs: self.least_told(Count::Length(seat, Suit::Clubs)),
        }
    }

    /// The greatest lengths of the seat's suits.
    pub(crate) fn greatest_lengths(&self, seat: Seat) -> BySuit
        ensures value { result ≡ greatest_lengths self.now seat }
        ensures few { HasUpTo 40 result }
    {
        BySuit {
            spades: self.greatest_told(Count::Length(seat, Suit::Spades)),
            hearts: self.greatest_told(Count::Length(seat, Suit::Hearts)),
            diamonds: self.greatest_told(Count::Length(seat, Suit::Diamonds)),
            clubs: self.greatest_told(Count::Length(seat, Suit::Clubs)),
        }
    }

    /// The least that the cards of each of the seat's suits count.
    fn least_totals(&self, measure: Measure, seat: Seat) -> BySuit
        ensures value { result ≡ least_totals self.now measure seat }
        ensures few { HasUpTo 65535 result }
    {
        BySuit {
            spades: self.least_told(Count::SuitTotal(measure, seat, Suit::Spades)),
            hearts: self.least_told(Count::SuitTotal(measure, seat, Suit::Hearts)),
            diamonds: self.least_told(Count::SuitTotal(measure, seat, Suit::Diamonds)),
            clubs: self.least_told(Count::SuitTotal(measure, seat, Suit::Clubs)),
        }
    }

    /// The greatest that the cards of each of the seat's suits count.
    fn greatest_totals(&self, measure: Measure, seat: Seat) -> BySuit
        ensures value { result ≡ greatest_totals self.now measure seat }
        ensures few { HasUpTo 40 result }
    {
        BySuit {
            spades: self.greatest_told(Count::SuitTotal(measure, seat, Suit::Spades)),
            hearts: self.greatest_told(Count::SuitTotal(measure, seat, Suit::Hearts)),
            diamonds: self.greatest_told(Count::SuitTotal(measure, seat, Suit::Diamonds)),
            clubs: self.greatest_told(Count::SuitTotal(measure, seat, Suit::Clubs)),
        }
    }
}
