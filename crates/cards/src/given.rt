//! Cards given to seats one by one, until they are a deal.

ghost use Rattle.std.specs.Prelude.{◌≡◌, ◌<◌, ◌^◌, List, IfSome, IsSome, map, Some, None, length};
ghost use Rattle.std.specs.Prelude.{slice_index_or, slice_set, false, true};
ghost use Rattle.cards.specs.declared.seat.Seat.{Seat as ASeat};
ghost use Rattle.cards.specs.Deals.{IsPartition};
ghost use Rattle.cards.specs.Fixed.{none_fixed};
ghost use Rattle.cards.specs.Given.{AreFree, with_cards};
ghost use Rattle.cards.specs.Pack.{seat_number};
ghost use Rattle.cards.specs.internal.GivenMasks.{are_thirteen};

use crate::{Deal, Seat};
use std::marker::Model;

/// The mask of all 52 cards.
const ALL: u64 = (1 << 52) - 1;

/// Who has each card, as far as that is known, which contracts see as a list of 52: the seat of
/// each card that was given, by its number, and `None` for each other one.
///
/// It keeps the cards of each seat as a mask of 52 bits, and the mask of all that were given.
#[derive(Drop)]
pub struct Given {
    masks: [u64; 4],
    held: u64,
}

impl Model for Given {
    ghost use Rattle.std.specs.Prelude.{List, Option};
    ghost use Rattle.cards.specs.declared.seat.Seat.{Seat as ASeat};
    ghost use Rattle.cards.specs.internal.GivenMasks.{IsGiven, given_of};

    ghost Value = { List (Option ASeat) };

    ghost view = { λ g. given_of g.masks };

    ghost invariant = { λ g. IsGiven g.masks g.held };
}

impl Given {
    /// No card was given.
    pub fn none() -> Given
        ensures { result ≡ none_fixed }
    {
        Given {
            masks: [0; 4],
            held: 0,
        }
    }

    /// Gives a card to a seat, unless it was given before. Returns whether it did.
    #[inline(always)]
    pub fn give(&mut self, card: usize, seat: Seat) -> bool
        requires { card < 52 }
        ensures free { result ≡ true → slice_index_or self.old card None ≡ None }
        ensures given { result ≡ true → self.new ≡ slice_set self.old card (Some seat) }
        ensures held { result ≡ false → IsSome (slice_index_or self.old card None) }
        ensures kept { result ≡ false → self.new ≡ self.old }
    {
        if (self.held >> card) & 1 == 1 {
            return false;
        }
        self.held |= 1 << card;
        self.masks[index_of(seat)] |= 1 << card;
        true
    }

    /// Gives a seat the cards whose bits are set, bit c for card c, unless one of them was given
    /// before. Returns whether it did.
    pub fn give_all(&mut self, cards: u64, seat: Seat) -> bool
        requires { cards < 2 ^ 52 }
        ensures cards { length self.old ≡ 52 }
        ensures free { result ≡ true → AreFree cards self.old }
        ensures given { result ≡ true → self.new ≡ with_cards cards seat self.old }
        ensures held { AreFree cards self.old → result ≡ true }
        ensures kept { result ≡ false → self.new ≡ self.old }
    {
        if self.held & cards != 0 {
            return false;
        }
        self.held |= cards;
        self.masks[index_of(seat)] |= cards;
        true
    }

    /// The deal, if every card was given and every seat has thirteen.
    pub fn deal(&self) -> Option<Deal>
        ensures cards { length self.now ≡ 52 }
        ensures partition { IfSome result (λ d. IsPartition d) }
        ensures given { IfSome result (λ d. self.now ≡ map (λ seat. Some seat) d) }
        ensures every { (d : List ASeat) → IsPartition d
            → self.now ≡ map (λ seat. Some seat) d → IsSome result }
    {
        if self.held != ALL || !are_thirteen(&self.masks) {
            return None;
        }
        let [north, east, south, _] = self.masks;
        Some(Deal::of_three_masks(north, east, south))
    }
}

/// Whether each of the masks has thirteen cards.
fn are_thirteen(masks: &[u64; 4]) -> bool
    ensures { result ≡ are_thirteen masks.now }
{
    masks[0].count_ones() == 13
        && masks[1].count_ones() == 13
        && masks[2].count_ones() == 13
        && masks[3].count_ones() == 13
}

/// The index of the seat's mask.
fn index_of(seat: Seat) -> usize
    ensures { result ≡ seat_number seat }
{
    seat as usize
}
