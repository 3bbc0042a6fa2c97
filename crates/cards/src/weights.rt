//! A weight for each card, and what a hand's cards weigh together.

ghost use Rattle.std.specs.Prelude.{◌≡◌, ◌<◌, ◌≤◌, ◌^◌, ◌==◌, ◌↔◌, All, IsSome, IfSome, map};
ghost use Rattle.std.specs.Int.{bit_at};
ghost use lib.Lanes.{mask_l};
ghost use Rattle.cards.specs.Weights.{weighed};

use crate::Hand;
use std::marker::Model;

/// A weight below 16 for each of the 52 cards, which contracts see as the list of the weights by
/// card number.
///
/// It keeps the four bits of the weights as four masks, so that a hand is weighed by counting its
/// cards under each of them.
#[derive(Drop)]
pub struct CardWeights {
    ones: u64,
    twos: u64,
    fours: u64,
    eights: u64,
}

impl Model for CardWeights {
    ghost use Rattle.std.specs.Prelude.{List, ℕ};
    ghost use Rattle.cards.specs.internal.WeightMasks.{IsWeightMasks, weights_of_masks};

    ghost Value = { List ℕ };

    ghost view = { λ w. weights_of_masks w.ones w.twos w.fours w.eights };

    ghost invariant = { λ w. IsWeightMasks w.ones w.twos w.fours w.eights };
}

impl CardWeights {
    /// These weights by card number, or `None` unless each is below 16.
    pub fn new(weights: &[u8; 52]) -> Option<CardWeights>
        ensures light { IsSome result ↔ All (λ w. w < 16) weights.now }
        ensures kept { IfSome result (λ w. w ≡ weights.now) }
    {
        if weights.iter().all(|weight| *weight < 16) {
            Some(CardWeights {
                ones: cards_with_bit(weights, 0),
                twos: cards_with_bit(weights, 1),
                fours: cards_with_bit(weights, 2),
                eights: cards_with_bit(weights, 3),
            })
        } else {
            None
        }
    }

    /// The weights of the hand's cards together. At most 780.
    #[inline]
    pub fn weigh(&self, hand: &Hand) -> u32
        ensures value { result ≡ weighed self.now hand.now }
        ensures most { result ≤ 780 }
    {
        let cards = hand.mask();
        let ones = (cards & self.ones).count_ones();
        let twos = (cards & self.twos).count_ones();
        let fours = (cards & self.fours).count_ones();
        let eights = (cards & self.eights).count_ones();
        ones + 2 * twos + 4 * fours + 8 * eights
    }
}

/// The mask of the cards whose weights have this bit set.
fn cards_with_bit(weights: &[u8; 52], bit: u32) -> u64
    requires { bit < 4 }
    ensures value { result ≡ mask_l (map (λ w. bit_at w bit == 1) weights.now) }
    ensures below { result < 2 ^ 52 }
{
    let mut mask = 0;
    for (card, weight) in weights.iter().enumerate() {
        if has_bit(*weight, bit) {
            mask |= 1 << card;
        }
    }
    mask
}

/// Whether the bit is set in the weight.
fn has_bit(weight: u8, bit: u32) -> bool
    requires { bit < 4 }
    ensures { result ≡ (bit_at weight bit == 1) }
{
    (weight >> bit) & 1 == 1
}
