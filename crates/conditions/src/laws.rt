//! What is proved of the definitions alone: each function's contract is a law, and its body does
//! nothing.

ghost use Rattle.std.specs.Prelude.{◌≡◌, ◌≤◌, ℕ, List, map};
ghost use Rattle.cards.specs.declared.seat.Seat.{Seat as ASeat};
ghost use Rattle.cards.specs.Deals.{IsPartition};
ghost use Rattle.cards.specs.Hands.{is_same, is_rearrangement};
ghost use Rattle.conditions.specs.Bounds.{greatest_of, least_of};
ghost use Rattle.conditions.specs.declared.tree.Item.TheVariants.{Length as ALength};
ghost use Rattle.conditions.specs.declared.tree.Op.TheVariants.{AtMost};
ghost use Rattle.conditions.specs.Form.{Amount, all_of, compare, within, number};
ghost use Rattle.conditions.specs.Form.{shape, pattern, shaped, patterned};
ghost use Rattle.conditions.specs.Meaning.{holds, value_in, are_allowed, are_allowed_in_some_order};

/// `v in a-b` is `a<=v and v<=b`.
pub fn in_is_two_comparisons()
    ensures { (value : Amount) (least most : ℕ) (deal : List ASeat)
        → holds (within value least most) deal
        ≡ holds (all_of (compare (number least) AtMost value) (compare value AtMost (number most)))
        deal }
{}

/// No deal has less than the least of a value, and none has more than the greatest.
#[tactic(auto, using(crate::proofs::ValueBounds::at_least, crate::proofs::ValueBounds::at_most))]
pub fn values_are_within_bounds()
    ensures least { (deal : List ASeat) → IsPartition deal → (value : Amount)
        → least_of value ≤ value_in deal value }
    ensures greatest { (deal : List ASeat) → IsPartition deal → (value : Amount)
        → value_in deal value ≤ greatest_of value }
{}

/// A shape or a pattern whose items are all numbers is that of the numbers.
#[tactic(auto, using(crate::proofs::Loose::number_shapes, crate::proofs::Loose::number_patterns))]
pub fn numbers_are_not_loose()
    ensures shape { (seat : ASeat) (numbers : List ℕ)
        → shaped seat (map (λ n. ALength n) numbers) ≡ shape seat numbers }
    ensures pattern { (seat : ASeat) (numbers : List ℕ)
        → patterned seat (map (λ n. ALength n) numbers) ≡ pattern seat numbers }
{}

/// Items that are all numbers allow the numbers themselves, and no other lengths.
#[tactic(auto, using(crate::proofs::Loose::numbers_allowed, crate::proofs::Loose::orders_allowed))]
pub fn numbers_allow_themselves()
    ensures same { (numbers lengths : List ℕ)
        → are_allowed (map (λ n. ALength n) numbers) lengths ≡ is_same lengths numbers }
    ensures in_some_order { (numbers lengths : List ℕ)
        → are_allowed_in_some_order (map (λ n. ALength n) numbers) lengths
        ≡ is_rearrangement lengths numbers }
{}
