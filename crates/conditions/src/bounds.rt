//! The least and the greatest number that a value of any deal is.

ghost use Rattle.std.specs.Prelude.{◌≡◌, ◌*◌, ◌≤◌, sum};
ghost use Rattle.conditions.specs.declared.limits.TheConstants.{MOST_PARTS};
ghost use Rattle.conditions.specs.Bounds.{greatest_count, greatest_of, least_count, least_of};
ghost use Rattle.conditions.specs.Bounds.{least_weight, most_counted, most_in, most_of, rank_count};
ghost use Rattle.conditions.specs.Form.{amount_of};
ghost use Rattle.conditions.specs.Limits.{atoms_of};

use crate::tree::{Count, Value};
use cards::{Honours, Measure};

impl Value {
    /// The least that the value can be: no deal has less, and some values never come down to it.
    pub fn least(&self) -> u64
        requires { atoms_of (amount_of self.now) ≤ MOST_PARTS }
        ensures value { result ≡ least_of (amount_of self.now) }
        ensures most { result ≤ 2621400 * atoms_of (amount_of self.now) }
    {
        match self {
            Value::Sum(left, right) => left.least() + right.least(),
            Value::Number(number) => u64::from(*number),
            Value::Count(count) => u64::from(count.least()),
            Value::Times(factor, count) => times(*factor, count.least()),
        }
    }

    /// The greatest that the value can be: no deal has more, and some values never reach it.
    pub fn greatest(&self) -> u64
        requires { atoms_of (amount_of self.now) ≤ MOST_PARTS }
        ensures value { result ≡ greatest_of (amount_of self.now) }
        ensures most { result ≤ 2621400 * atoms_of (amount_of self.now) }
    {
        match self {
            Value::Sum(left, right) => left.greatest() + right.greatest(),
            Value::Number(number) => u64::from(*number),
            Value::Count(count) => u64::from(count.greatest()),
            Value::Times(factor, count) => times(*factor, count.greatest()),
        }
    }
}

impl Count {
    /// The least that is counted in any deal, as far as it is told.
    pub fn least(self) -> u32
        ensures value { result ≡ least_count self }
        ensures few { result ≤ 4 }
    {
        match self {
            Count::Ordered(order, _) => order.least(),
            _ => 0,
        }
    }

    /// The greatest that is counted in any deal: some counts never reach it.
    pub fn greatest(self) -> u32
        ensures value { result ≡ greatest_count self }
        ensures few { result ≤ 40 }
    {
        match self {
            Count::Total(measure, _) => most_of(measure),
            Count::SuitTotal(measure, _, _) => most_in(measure),
            Count::Cards(_, ranks) => (4 * rank_count(ranks)).min(13),
            Count::SuitCards(_, _, ranks) => rank_count(ranks),
            Count::Length(..) => 13,
            Count::Ordered(order, _) => order.greatest(),
        }
    }
}

/// That many times a count.
pub(crate) fn times(factor: u16, count: u32) -> u64
    requires { count ≤ 40 }
    ensures value { result ≡ factor * count }
    ensures most { result ≤ 2621400 }
{
    u64::from(factor) * u64::from(count)
}

/// The most that a hand counts by the measure. Of the sixteen honours it lacks three.
fn most_of(measure: Measure) -> u32
    ensures value { result ≡ most_of measure }
    ensures few { result ≤ 40 }
{
    match measure.weights() {
        Some(weights) => 4 * total_weight(weights) - 3 * least_weight(weights),
        None => 4 * most_counted(measure),
    }
}

/// The most that the cards of one suit count by the measure.
fn most_in(measure: Measure) -> u32
    ensures value { result ≡ most_in measure }
    ensures few { result ≤ 10 }
{
    match measure.weights() {
        Some(weights) => total_weight(weights),
        None => most_counted(measure),
    }
}

/// The most that the cards of one suit count by a measure that counts more than ranks.
fn most_counted(measure: Measure) -> u32
    ensures value { result ≡ most_counted measure }
    ensures few { result ≤ 10 }
{
    match measure {
        Measure::Losers => 3,
        _ => 0,
    }
}

/// The weights of four ranks together.
fn total_weight(weights: [u8; 4]) -> u32
    ensures value { result ≡ sum weights }
{
    let [ace, king, queen, jack] = weights;
    u32::from(ace) + u32::from(king) + u32::from(queen) + u32::from(jack)
}

/// The least of the weights.
fn least_weight(weights: [u8; 4]) -> u32
    ensures value { result ≡ least_weight weights }
    ensures few { result ≤ sum weights }
{
    let [ace, king, queen, jack] = weights;
    u32::from(ace.min(king).min(queen.min(jack)))
}

/// How many ranks these are.
fn rank_count(ranks: Honours) -> u32
    ensures value { result ≡ rank_count ranks }
    ensures few { result ≤ 5 }
{
    u32::from(ranks.ace)
        + u32::from(ranks.king)
        + u32::from(ranks.queen)
        + u32::from(ranks.jack)
        + u32::from(ranks.ten)
}
