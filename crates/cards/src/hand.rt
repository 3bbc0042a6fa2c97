//! Hands: the cards of one seat, their points, lengths and shape, and what else is counted in them.

ghost use Rattle.std.specs.Prelude.{◌≡◌, ℕ, ◌<◌, ◌≤◌, ◌^◌, ◌*◌, ◌↔◌, IsTrue, sum, IfSome, length};
ghost use Rattle.std.specs.Int.{bit_at};
ghost use Rattle.cards.specs.Pack.{suit_number};
ghost use Rattle.cards.specs.Hands.{points_of, points_in, length_of, shape_of};
ghost use Rattle.cards.specs.Counts.{total_of, total_in};
ghost use Rattle.cards.specs.Hands.{weight_in};
ghost use Rattle.cards.specs.Counts.{counted_in, counted_of, losers_in, honours_of, honours_in};
ghost use Rattle.cards.specs.Hands.{is_balanced};
ghost use Rattle.cards.specs.Counts.{ordered_of, stops_in};
ghost use Rattle.cards.specs.Balanced.{IsBalanced};
ghost use Rattle.cards.specs.Ranks.{has_rank, ranks_of};
ghost use Rattle.cards.specs.internal.Masks.{cards_of_mask};
ghost use Rattle.cards.specs.internal.BalancedInOrder.{IsBalancedInOrder};
ghost use Rattle.cards.specs.Measures.{measure_number, measures, weights_of};

use crate::masks::{honours_of_mask, suit_mask, weight_of_mask};
use crate::{Honours, Order, Suit};
use std::marker::Model;

/// What an ace, a king, a queen and a jack count in high card points.
const POINTS: [u8; 4] = [4, 3, 2, 1];

/// A seat's cards, which contracts see as a list of 52 truth values, one a card.
#[tactic(auto, using(crate::specs::internal::MaskBits::mask_of_cards))]
#[derive(Clone, Copy, PartialEq, Eq, Debug)]
pub struct Hand {
    cards: u64,
}

impl Model for Hand {
    ghost use Rattle.std.specs.Prelude.{List, Bool, ◌<◌, ◌^◌, refl};
    ghost use lib.Lanes.{mask_l};
    ghost use Rattle.cards.specs.internal.Masks.{cards_of_mask};
    ghost use Rattle.cards.specs.internal.MaskBits.{mask_of_cards};

    ghost Value = { List Bool };

    ghost view = { λ h. cards_of_mask h.cards };

    ghost invariant = { λ h. h.cards < 2 ^ 52 };

    ghost inverse = { λ xs. record { cards = mask_l xs } };

    ghost inverse_ok = { λ h below. Prim.rw (mask_of_cards h.cards below) refl };
}

impl Hand {
    pub(crate) fn of_mask(cards: u64) -> Hand
        requires { cards < 2 ^ 52 }
        ensures { result ≡ cards_of_mask cards }
    {
        Hand { cards }
    }

    /// The cards as a mask of 52 bits.
    #[inline(always)]
    pub(crate) fn mask(&self) -> u64
        ensures cards { cards_of_mask result ≡ self.now }
        ensures below { result < 2 ^ 52 }
    {
        self.cards
    }

    /// The high card points: an ace counts 4, a king 3, a queen 2, a jack 1. At most 40.
    pub fn points(&self) -> u8
        ensures value { result ≡ points_of self.now }
        ensures most { result ≤ 40 }
    {
        weight_of_mask(POINTS, self.cards)
    }

    /// The high card points of the suit's cards alone. At most 10.
    pub fn points_in(&self, suit: Suit) -> u8
        ensures value { result ≡ points_in self.now suit }
        ensures most { result ≤ 10 }
    {
        self.weight_in(POINTS, suit)
    }

    /// What the measure counts in the hand. At most 40.
    #[inline(always)]
    pub fn total(&self, measure: Measure) -> u8
        ensures value { result ≡ total_of measure self.now }
        ensures most { result ≤ 40 }
    {
        // Points are asked for most: apart they are built with their weights, and multiply nothing.
        if let Measure::Hcp = measure {
            return self.points();
        }
        match measure.weights() {
            Some(weights) => weight_of_mask(weights, self.cards),
            None => self.counted(measure),
        }
    }

    /// What the measure counts in the suit's cards alone. At most 10.
    #[inline(always)]
    pub fn total_in(&self, measure: Measure, suit: Suit) -> u8
        ensures value { result ≡ total_in measure self.now suit }
        ensures most { result ≤ 10 }
    {
        if let Measure::Hcp = measure {
            return self.points_in(suit);
        }
        match measure.weights() {
            Some(weights) => self.weight_in(weights, suit),
            None => self.counted_in(measure, suit),
        }
    }

    /// The weights of the suit's cards together, by what an ace, a king, a queen and a jack weigh.
    #[inline(always)]
    fn weight_in(&self, weights: [u8; 4], suit: Suit) -> u8
        requires { sum weights ≤ 10 }
        ensures value { result ≡ weight_in weights self.now suit }
        ensures most { result ≤ 10 }
    {
        weight_of_mask(weights, self.cards & suit_mask(suit))
    }

    /// What the measure counts in the four suits together, if it counts more than ranks.
    fn counted(&self, measure: Measure) -> u8
        ensures value { result ≡ counted_of measure self.now }
        ensures most { result ≤ 40 }
    {
        let majors = self.counted_in(measure, Suit::Spades)
            + self.counted_in(measure, Suit::Hearts);
        majors + self.counted_in(measure, Suit::Diamonds) + self.counted_in(measure, Suit::Clubs)
    }

    /// What the measure counts in the suit's cards, if it counts more than ranks.
    #[inline(always)]
    fn counted_in(&self, measure: Measure, suit: Suit) -> u8
        ensures value { result ≡ counted_in measure self.now suit }
        ensures most { result ≤ 10 }
    {
        match measure {
            Measure::Losers => self.losers_in(suit),
            _ => 0,
        }
    }

    /// The losers in the suit: the ace if it isn't there, the king if it isn't and the suit has two
    /// cards or more, the queen if it isn't and the suit has three or more. A void has none. At
    /// most 3.
    #[inline(always)]
    pub fn losers_in(&self, suit: Suit) -> u8
        ensures value { result ≡ losers_in self.now suit }
        ensures most { result ≤ 3 }
    {
        let counted = self.length(suit).min(3);
        let winners = (self.cards >> first_card(suit)) & ((1 << counted) - 1);
        counted - winners.count_ones() as u8
    }

    /// How many cards of these ranks the hand has. At most 20.
    pub fn honours(&self, honours: Honours) -> u8
        ensures { result ≡ honours_of honours self.now }
    {
        honours_of_mask(honours, self.cards)
    }

    /// How many cards of these ranks the hand has in the suit. At most 5.
    pub fn honours_in(&self, honours: Honours, suit: Suit) -> u8
        ensures { result ≡ honours_in honours self.now suit }
    {
        honours_of_mask(honours, self.cards & suit_mask(suit))
    }

    /// How many cards of the suit the hand has, 0 to 13.
    pub fn length(&self, suit: Suit) -> u8
        ensures value { result ≡ length_of self.now suit }
        ensures most { result ≤ 13 }
    {
        (self.cards & suit_mask(suit)).count_ones() as u8
    }

    /// The four lengths in the order spades, hearts, diamonds, clubs.
    pub fn shape(&self) -> [u8; 4]
        ensures { result ≡ shape_of self.now }
    {
        [
            self.length(Suit::Spades),
            self.length(Suit::Hearts),
            self.length(Suit::Diamonds),
            self.length(Suit::Clubs),
        ]
    }

    /// The length of this order among the four, 0 to 13.
    pub fn ordered(&self, order: Order) -> u8
        ensures { result ≡ ordered_of order self.now }
    {
        let [spades, hearts, diamonds, clubs] = self.shape();
        let (spades, hearts) = (u64::from(spades), u64::from(hearts));
        order.of(spades, hearts, u64::from(diamonds), u64::from(clubs)) as u8
    }

    /// Whether the four lengths are 4-3-3-3, 4-4-3-2 or 5-3-3-2 in some order.
    pub fn balanced(&self) -> bool
        ensures value { result ≡ is_balanced (shape_of self.now) }
        ensures shapes { IsTrue result ↔ IsBalanced (shape_of self.now) }
    {
        let mut shape = self.shape();
        shape.sort_unstable();
        is_balanced_in_order(&shape)
    }

    /// Whether the hand stops the suit: it has the ace, or the king and two cards or more, or the
    /// queen and three or more, or the jack and four or more.
    pub fn stops(&self, suit: Suit) -> bool
        ensures { result ≡ stops_in self.now suit }
    {
        let length = self.length(suit);
        self.has_rank(suit, 0)
            || self.has_rank(suit, 1) && length >= 2
            || self.has_rank(suit, 2) && length >= 3
            || self.has_rank(suit, 3) && length >= 4
    }

    /// Whether the hand has the suit's card of this rank, the ace being 0 and the two 12.
    #[inline(always)]
    fn has_rank(&self, suit: Suit, rank: usize) -> bool
        requires { rank < 13 }
        ensures { result ≡ has_rank self.now suit rank }
    {
        (self.cards >> (first_card(suit) + rank)) & 1 == 1
    }

    /// Which of the suit's thirteen ranks the hand has, from the ace down to the two.
    pub fn ranks(&self, suit: Suit) -> [bool; 13]
        ensures { result ≡ ranks_of self.now suit }
    {
        let first = first_card(suit);
        let mut ranks = [false; 13];
        for rank in 0..ranks.len() {
            ranks[rank] = (self.cards >> (first + rank)) & 1 == 1;
        }
        ranks
    }

    /// The suit's thirteen ranks as 13 bits: a bit is 1 if and only if the hand has the rank. Bit 0
    /// is the ace, bit 12 the two.
    pub fn rank_set(&self, suit: Suit) -> u16
        ensures bits { (rank : ℕ)
            → rank < 13
            → (bit_at result rank ≡ 1) ↔ IsTrue (has_rank self.now suit rank) }
        ensures below { result < 2 ^ 13 }
    {
        ((self.cards >> first_card(suit)) & 0x1FFF) as u16
    }
}

/// The suit's first card.
fn first_card(suit: Suit) -> usize
    ensures value { result ≡ 13 * suit_number suit }
    ensures most { result ≤ 39 }
{
    13 * suit as usize
}

/// Whether these four lengths, in ascending order, are those of a balanced hand.
fn is_balanced_in_order(lengths: &[u8; 4]) -> bool
    ensures { IsTrue result ↔ IsBalancedInOrder lengths.now }
{
    *lengths == [3, 3, 3, 4] || *lengths == [2, 3, 4, 4] || *lengths == [2, 3, 3, 5]
}

/// A way to count a hand.
#[derive(Clone, Copy)]
pub enum Measure {
    /// High card points: ace 4, king 3, queen 2, jack 1.
    Hcp,
    /// Controls: ace 2, king 1.
    Controls,
    /// Losers: of a suit's ace, king and queen, as many as it has cards, those that aren't there.
    Losers,
}

impl Measure {
    /// How many measures there are.
    pub const COUNT: usize = 3;

    /// The place of the measure among all, from 0 on.
    pub fn place(self) -> usize
        ensures value { result ≡ measure_number self }
        ensures within { result < length measures }
    {
        self as usize
    }

    /// Returns what an ace, a king, a queen and a jack count, at most 10 together, or `None` of a
    /// measure that counts more than ranks.
    #[inline(always)]
    pub fn weights(self) -> Option<[u8; 4]>
        ensures value { result ≡ weights_of self }
        ensures light { IfSome result (λ w. sum w ≤ 10) }
    {
        match self {
            Measure::Hcp => Some(POINTS),
            Measure::Controls => Some([2, 1, 0, 0]),
            Measure::Losers => None,
        }
    }
}
