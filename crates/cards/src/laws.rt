//! Laws of this crate's definitions: functions whose contracts are the laws. They do nothing, but
//! for `equality`, which compares.

ghost use Rattle.std.specs.Prelude.{◌≡◌, ℕ, List, map, ◌↔◌, ◌<◌, IsTrue, Option, Some, None, slice_get};
ghost use Rattle.std.specs.List.Sorted.{IsPermutation};
ghost use Rattle.cards.specs.Shuffle.{IsPlaces, card_at, pack};
ghost use Rattle.cards.specs.Hands.{is_rearrangement, is_balanced};
ghost use Rattle.cards.specs.Balanced.{IsBalanced};
ghost use Rattle.cards.specs.Candidates.{candidate, state_before};
ghost use Rattle.cards.specs.Fixed.{IsFixed, candidate_around, free_count, free_index, none_fixed};
ghost use Rattle.cards.specs.Fixed.{open_seat, places_for};
ghost use Rattle.cards.specs.Deals.{IsPartition};
ghost use Rattle.cards.specs.Hands.{hand_of};
ghost use Rattle.cards.specs.Turning.{goes_to, turned};
ghost use Rattle.cards.specs.declared.seat.Seat.{Seat as ASeat};

use crate::Deal;

/// One list of numbers is a rearrangement of another if and only if it is a permutation of it.
pub fn rearrangement()
    ensures { (xs ys : List ℕ) → IsTrue (is_rearrangement xs ys) ↔ IsPermutation xs ys }
{}

/// The test of a balanced shape says that it is a permutation of 4-3-3-3, 4-4-3-2 or 5-3-3-2.
pub fn balanced()
    ensures { (shape : List ℕ) → IsTrue (is_balanced shape) ↔ IsBalanced shape }
{}

/// After the exchanges each position has one card, and each card one position: the cards at the
/// positions 0 to 51 are a permutation of the pack.
pub fn positions()
    ensures { (places : List ℕ) → IsPlaces places → IsPermutation pack (map (card_at places) pack) }
{}

/// Two deals are equal if and only if each card has the same seat in both.
pub fn equality(a: &Deal, b: &Deal) -> bool
    ensures { IsTrue result ↔ (a.now ≡ b.now) }
{
    a.keep_partition();
    b.keep_partition();
    a == b
}

/// Every candidate of every seed is a partition of the pack into four hands of thirteen.
pub fn candidates()
    ensures { (seed k : ℕ) → IsPartition (candidate seed k) }
{}

/// With no card fixed a candidate is what it is without fixed cards.
pub fn around_nothing()
    ensures { (seed k : ℕ) → candidate_around none_fixed seed k ≡ candidate seed k }
{}

/// Every candidate around fixed cards is a partition of the pack into four hands of thirteen.
pub fn around_is_a_partition()
    ensures { (fixed : List (Option ASeat)) (seed k : ℕ)
        → IsFixed fixed
        → IsPartition (candidate_around fixed seed k) }
{}

/// Each fixed card is at its seat.
pub fn fixed_cards_stay()
    ensures { (fixed : List (Option ASeat)) (seed k card : ℕ) (seat : ASeat)
        → IsFixed fixed
        → slice_get fixed card ≡ Some (Some seat)
        → slice_get (candidate_around fixed seed k) card ≡ Some seat }
{}

/// The free cards are dealt by Algorithm P: the free card whose index the exchanges bring to
/// position i goes to the seat that gets the i-th of them.
pub fn free_cards_are_dealt()
    ensures { (fixed : List (Option ASeat)) (seed k card i : ℕ)
        → IsFixed fixed
        → i < free_count fixed
        → slice_get fixed card ≡ Some None
        → free_index fixed card
        ≡ card_at (places_for (free_count fixed) (state_before seed k)) i
        → slice_get (candidate_around fixed seed k) card ≡ Some (open_seat fixed i) }
{}

/// A turned deal has the same hands: each is where it went.
#[tactic(auto, using(crate::proofs::Turning::hand_kept))]
pub fn turning_keeps_hands()
    ensures { (to seat : ASeat) (deal : List ASeat)
        → hand_of (turned to deal) (goes_to to seat) ≡ hand_of deal seat }
{}

/// A turned partition is a partition.
pub fn turning_keeps_partitions()
    ensures { (to : ASeat) (deal : List ASeat) → IsPartition deal → IsPartition (turned to deal) }
{}
