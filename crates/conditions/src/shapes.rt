//! The lengths of a hand's suits, and which of them a test of a shape asks for.

ghost use Rattle.std.specs.Prelude.{◌≡◌, ◌==◌, [], ◌∷◌, count_by};
ghost use Rattle.std.specs.List.{list_all, list_any};
ghost use Rattle.cards.specs.Hands.{is_same, is_rearrangement, orders_of};
ghost use Rattle.conditions.specs.Meaning.{allows, are_allowed, are_allowed_in_some_order};

use crate::Item;

/// Returns whether two lists have the same numbers in the same order.
pub fn is_same(left: &[u16; 4], right: &[u16; 4]) -> bool
    ensures { result ≡ is_same left.now right.now }
{
    left == right
}

/// Returns whether two lists have the same numbers in some order, each as often in one as in the
/// other.
pub fn is_rearrangement(left: &[u16], right: &[u16]) -> bool
    ensures { result ≡ is_rearrangement left.now right.now }
{
    are_as_often(left, left, right) && are_as_often(right, left, right)
}

/// Whether each of the numbers occurs as often in one list as in the other.
fn are_as_often(numbers: &[u16], left: &[u16], right: &[u16]) -> bool
    ensures { result ≡
        list_all (λ x. count_by (λ y. y == x) left.now == count_by (λ y. y == x) right.now)
        numbers.now }
{
    numbers
        .iter()
        .all(|number| count(left, *number) == count(right, *number))
}

/// How often a number occurs in a list.
fn count(numbers: &[u16], wanted: u16) -> usize
    ensures { result ≡ count_by (λ n. n == wanted) numbers.now }
{
    numbers.iter().filter(|number| **number == wanted).count()
}

/// Whether an item allows a suit of this length.
fn allows(item: Item, length: u16) -> bool
    ensures { result ≡ allows item length }
{
    match item {
        Item::Any => true,
        Item::Length(wanted) => length == wanted,
    }
}

/// Returns whether the items allow the lengths, each the one at its place.
pub fn are_allowed(items: &[Item; 4], lengths: &[u16; 4]) -> bool
    ensures { result ≡ are_allowed items.now lengths.now }
{
    allows(items[0], lengths[0])
        && allows(items[1], lengths[1])
        && allows(items[2], lengths[2])
        && allows(items[3], lengths[3])
}

/// Returns whether the items allow the lengths in some order.
pub fn are_allowed_in_some_order(items: &[Item; 4], lengths: &[u16; 4]) -> bool
    ensures { result ≡ are_allowed_in_some_order items.now lengths.now }
{
    let shapes = orders_of(lengths[0], lengths[1], lengths[2], lengths[3]);
    allow_one(items, &shapes)
}

/// Whether the items allow some of the shapes.
fn allow_one(items: &[Item; 4], shapes: &[[u16; 4]]) -> bool
    ensures { result ≡ list_any (are_allowed items.now) shapes.now }
{
    shapes.iter().any(|shape| are_allowed(items, shape))
}

/// The orders in which four numbers may come.
fn orders_of(a: u16, b: u16, c: u16, d: u16) -> [[u16; 4]; 24]
    ensures { result ≡ orders_of (a ∷ b ∷ c ∷ d ∷ []) }
{
    [
        [a, b, c, d],
        [b, a, c, d],
        [b, c, a, d],
        [b, c, d, a],
        [a, c, b, d],
        [c, a, b, d],
        [c, b, a, d],
        [c, b, d, a],
        [a, c, d, b],
        [c, a, d, b],
        [c, d, a, b],
        [c, d, b, a],
        [a, b, d, c],
        [b, a, d, c],
        [b, d, a, c],
        [b, d, c, a],
        [a, d, b, c],
        [d, a, b, c],
        [d, b, a, c],
        [d, b, c, a],
        [a, d, c, b],
        [d, a, c, b],
        [d, c, a, b],
        [d, c, b, a],
    ]
}
