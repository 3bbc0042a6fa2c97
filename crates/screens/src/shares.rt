//! A value card by card: what each card counts in it at each seat, and what the value can be beside
//! that.

ghost use Rattle.std.specs.Prelude.{◌≡◌, ◌*◌, ◌≤◌, cond};
ghost use Rattle.conditions.specs.declared.limits.TheConstants.{MOST_PARTS};
ghost use Rattle.conditions.specs.Form.{amount_of, times};
ghost use Rattle.conditions.specs.Limits.{atoms_of};
ghost use Rattle.screens.specs.internal.Shares.{beside, card_weight, farther, greatest_beside};
ghost use Rattle.screens.specs.internal.Shares.{is_light, open_weight, third_open, weight_at};

use crate::single_cards::{count_beside, counts_for, whose};
use crate::stage::{Bound, Stage};
use cards::Seat;
use conditions::{Count, Value};

/// What the card counts in the value if the seat has it.
pub(crate) fn weight_at(value: &Value, card: usize, seat: Seat) -> u32
    requires { atoms_of (amount_of value.now) ≤ MOST_PARTS }
    ensures value { result ≡ weight_at (amount_of value.now) card seat }
    ensures most { result ≤ 3825 * atoms_of (amount_of value.now) }
{
    match value {
        Value::Sum(left, right) => weight_at(left, card, seat) + weight_at(right, card, seat),
        Value::Number(_) => 0,
        Value::Count(count) => card_weight(*count, card, seat),
        Value::Times(factor, count) => light_weight(*factor, card_weight(*count, card, seat)),
    }
}

/// That many times the weight, if it can be weighed.
fn light_weight(factor: u16, weight: u32) -> u32
    requires { weight ≤ 255 }
    ensures value { result ≡ cond (is_light factor) (factor * weight) 0 }
    ensures most { result ≤ 3825 }
{
    if factor <= 15 {
        u32::from(factor) * weight
    } else {
        0
    }
}

/// What the card counts if the seat has it.
fn card_weight(count: Count, card: usize, seat: Seat) -> u32
    ensures value { result ≡ card_weight count card seat }
    ensures most { result ≤ 255 }
{
    if seat == whose(count) {
        u32::from(counts_for(count, card))
    } else {
        0
    }
}

/// The least or the greatest of what isn't counted card by card.
pub(crate) fn beside(value: &Value, bound: Bound) -> u64
    requires { atoms_of (amount_of value.now) ≤ MOST_PARTS }
    ensures value { result ≡ beside bound (amount_of value.now) }
    ensures most { result ≤ 2621400 * atoms_of (amount_of value.now) }
{
    match bound {
        Bound::Least => value.least(),
        Bound::Greatest => greatest_beside(value),
    }
}

fn greatest_beside(value: &Value) -> u64
    requires { atoms_of (amount_of value.now) ≤ MOST_PARTS }
    ensures value { result ≡ greatest_beside (amount_of value.now) }
    ensures most { result ≤ 2621400 * atoms_of (amount_of value.now) }
{
    match value {
        Value::Sum(left, right) => greatest_beside(left) + greatest_beside(right),
        Value::Number(number) => u64::from(*number),
        Value::Count(count) => u64::from(count_beside(*count)),
        Value::Times(factor, count) => times_beside(*factor, *count),
    }
}

/// The same of that many times a count.
fn times_beside(factor: u16, count: Count) -> u64
    ensures value { result ≡ greatest_beside (times factor count) }
    ensures most { result ≤ 2621400 }
{
    let whole = if factor <= 15 {
        u32::from(count_beside(count))
    } else {
        count.greatest()
    };
    u64::from(factor) * u64::from(whole)
}

/// The least or the greatest that a card of no known hand counts, if it is fixed at this seat, or
/// at none.
pub(crate) fn open_weight(
    value: &Value,
    bound: Bound,
    stage: Stage,
    card: usize,
    fixed: Option<Seat>,
) -> u32
    requires { atoms_of (amount_of value.now) ≤ MOST_PARTS }
    ensures value { result ≡ open_weight bound stage (amount_of value.now) card fixed }
    ensures most { result ≤ 3825 * atoms_of (amount_of value.now) }
{
    match fixed {
        Some(seat) => weight_at(value, card, seat),
        None => {
            let north = weight_at(value, card, Seat::North);
            let east = weight_at(value, card, Seat::East);
            let third = weight_at(value, card, third_open(stage));
            bound.farther(bound.farther(north, east), third)
        }
    }
}

impl Bound {
    /// Of two numbers the one that the bound takes.
    fn farther(self, left: u32, right: u32) -> u32
        ensures { result ≡ farther self left right }
    {
        match self {
            Bound::Least => left.min(right),
            Bound::Greatest => left.max(right),
        }
    }
}

/// North and East may have a card of no known hand, and South too as long as that hand isn't known.
fn third_open(stage: Stage) -> Seat
    ensures { result ≡ third_open stage }
{
    match stage {
        Stage::OneHand => Seat::South,
        Stage::TwoHands => Seat::North,
    }
}
