//! The cards of the pack, by number.

ghost use Rattle.std.specs.Prelude.{◌≡◌, ℕ, ◌/◌, ◌<◌, ◌↔◌, IsSome, IfSome};

use crate::Suit;
use std::marker::Model;

/// A card, which contracts see as its number: `13 * suit + rank`.
///
/// Suits are spades 0, hearts 1, diamonds 2, clubs 3; ranks are ace 0, king 1, queen 2, jack 3,
/// ten 4, down to two 12.
#[derive(Clone, Copy)]
pub struct Card {
    number: u8,
}

impl Model for Card {
    ghost Value = { ℕ };

    ghost view = { λ c. c.number };

    ghost invariant = { λ c. c.number < 52 };

    ghost inverse = { λ n. record { number = n } };
}

impl Card {
    ghost use Rattle.cards.specs.Pack.{suit_number, rank_of};

    /// The card of this number, or `None` for 52 and above.
    pub fn new(number: u8) -> Option<Card>
        ensures in_pack { IsSome result ↔ (number < 52) }
        ensures kept { IfSome result (λ c. c ≡ number) }
    {
        if number < 52 {
            Some(Card { number })
        } else {
            None
        }
    }

    /// The card's number, 0 to 51.
    pub fn number(self) -> u8
        ensures value { result ≡ self }
        ensures below { result < 52 }
    {
        self.number
    }

    /// The card's suit.
    pub fn suit(self) -> Suit
        ensures { suit_number result ≡ self / 13 }
    {
        match self.number / 13 {
            0 => Suit::Spades,
            1 => Suit::Hearts,
            2 => Suit::Diamonds,
            _ => Suit::Clubs,
        }
    }

    /// The card's rank, 0 for the ace to 12 for the two.
    pub fn rank(self) -> u8
        ensures value { result ≡ rank_of self }
        ensures below { result < 13 }
    {
        self.number % 13
    }
}
