//! Wholes: four counts of which it is known how much they are together.

ghost use Rattle.std.specs.Prelude.{◌≡◌, ◌≤◌};
ghost use Rattle.conditions.specs.Bounds.{rank_count};
ghost use Rattle.screens.specs.Wholes.{facts_on, hand_measure, hand_shape, honours_by};
ghost use Rattle.screens.specs.Wholes.{pack_measure, pack_ranks, suit_lengths, suit_measure};
ghost use Rattle.screens.specs.Wholes.{suit_ranks, total_weight};

use crate::unmet::facts::{Fact, Facts};
use cards::{Fixed, Honours, Measure, Seat, Suit};
use conditions::Count;

/// Four counts, and how much they are together at the least and at the most.
#[derive(Clone, Copy)]
pub(crate) struct Whole {
    pub(crate) first: Count,
    pub(crate) second: Count,
    pub(crate) third: Count,
    pub(crate) fourth: Count,
    pub(crate) least: u16,
    pub(crate) most: u16,
}

impl Whole {
    /// What the fixed cards tell of the four.
    pub(crate) fn facts(&self, fixed: &Fixed) -> Facts
        ensures { result ≡ facts_on fixed.now self.now }
    {
        Facts {
            first: Fact::on(self.first, fixed),
            second: Fact::on(self.second, fixed),
            third: Fact::on(self.third, fixed),
            fourth: Fact::on(self.fourth, fixed),
        }
    }

    /// The lengths of a hand's suits.
    pub(crate) fn hand_shape(seat: Seat) -> Whole
        ensures value { result ≡ hand_shape seat }
        ensures few { result.most ≤ 52 }
    {
        Whole {
            first: Count::Length(seat, Suit::Spades),
            second: Count::Length(seat, Suit::Hearts),
            third: Count::Length(seat, Suit::Diamonds),
            fourth: Count::Length(seat, Suit::Clubs),
            least: 13,
            most: 13,
        }
    }

    /// What the cards of a hand's suits count: together no more than a hand does.
    pub(crate) fn hand_measure(measure: Measure, seat: Seat) -> Whole
        ensures value { result ≡ hand_measure measure seat }
        ensures few { result.most ≤ 52 }
    {
        Whole {
            first: Count::SuitTotal(measure, seat, Suit::Spades),
            second: Count::SuitTotal(measure, seat, Suit::Hearts),
            third: Count::SuitTotal(measure, seat, Suit::Diamonds),
            fourth: Count::SuitTotal(measure, seat, Suit::Clubs),
            least: 0,
            most: 40,
        }
    }

    /// How the seats share a suit.
    pub(crate) fn suit_lengths(suit: Suit) -> Whole
        ensures value { result ≡ suit_lengths suit }
        ensures few { result.most ≤ 52 }
    {
        Whole {
            first: Count::Length(Seat::North, suit),
            second: Count::Length(Seat::East, suit),
            third: Count::Length(Seat::South, suit),
            fourth: Count::Length(Seat::West, suit),
            least: 13,
            most: 13,
        }
    }

    /// How they share what the whole pack counts, by a measure with these weights.
    pub(crate) fn pack_measure(measure: Measure) -> Whole
        ensures value { result ≡ pack_measure measure }
        ensures few { result.most ≤ 52 }
    {
        let total = 4 * total_weight(measure);
        Whole {
            first: Count::Total(measure, Seat::North),
            second: Count::Total(measure, Seat::East),
            third: Count::Total(measure, Seat::South),
            fourth: Count::Total(measure, Seat::West),
            least: total,
            most: total,
        }
    }

    /// How they share what a suit counts.
    pub(crate) fn suit_measure(measure: Measure, suit: Suit) -> Whole
        ensures value { result ≡ suit_measure measure suit }
        ensures few { result.most ≤ 52 }
    {
        let total = total_weight(measure);
        Whole {
            first: Count::SuitTotal(measure, Seat::North, suit),
            second: Count::SuitTotal(measure, Seat::East, suit),
            third: Count::SuitTotal(measure, Seat::South, suit),
            fourth: Count::SuitTotal(measure, Seat::West, suit),
            least: total,
            most: total,
        }
    }

    /// How they share the cards of these ranks.
    pub(crate) fn pack_ranks(ranks: Honours) -> Whole
        ensures value { result ≡ pack_ranks ranks }
        ensures few { result.most ≤ 52 }
    {
        let total = 4 * rank_count(ranks);
        Whole {
            first: Count::Cards(Seat::North, ranks),
            second: Count::Cards(Seat::East, ranks),
            third: Count::Cards(Seat::South, ranks),
            fourth: Count::Cards(Seat::West, ranks),
            least: total,
            most: total,
        }
    }

    /// How they share those of a suit.
    pub(crate) fn suit_ranks(ranks: Honours, suit: Suit) -> Whole
        ensures value { result ≡ suit_ranks ranks suit }
        ensures few { result.most ≤ 52 }
    {
        let total = rank_count(ranks);
        Whole {
            first: Count::SuitCards(Seat::North, suit, ranks),
            second: Count::SuitCards(Seat::East, suit, ranks),
            third: Count::SuitCards(Seat::South, suit, ranks),
            fourth: Count::SuitCards(Seat::West, suit, ranks),
            least: total,
            most: total,
        }
    }
}

/// What four cards of a suit count together, or 0 of a measure that doesn't count by ranks.
fn total_weight(measure: Measure) -> u16
    ensures value { result ≡ total_weight measure }
    ensures few { result ≤ 10 }
{
    match measure.weights() {
        Some(weights) => {
            let [ace, king, queen, jack] = weights;
            u16::from(ace) + u16::from(king) + u16::from(queen) + u16::from(jack)
        }
        None => 0,
    }
}

/// How many ranks these are.
fn rank_count(ranks: Honours) -> u16
    ensures value { result ≡ rank_count ranks }
    ensures few { result ≤ 5 }
{
    u16::from(ranks.ace)
        + u16::from(ranks.king)
        + u16::from(ranks.queen)
        + u16::from(ranks.jack)
        + u16::from(ranks.ten)
}

/// The set of honours of a number: 16 of it are the ace, 8 the king, and so on.
pub(crate) fn honours_by(number: u32) -> Honours
    ensures { result ≡ honours_by number }
{
    Honours {
        ace: number / 16 % 2 == 1,
        king: number / 8 % 2 == 1,
        queen: number / 4 % 2 == 1,
        jack: number / 2 % 2 == 1,
        ten: number % 2 == 1,
    }
}
