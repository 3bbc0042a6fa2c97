//! The measures and the orders of lengths: their places, and the words and values of some;
//! `tests/second` has what each counts.

use crate::support::same;
use cards::{Measure, Order};
use cond_lang::{measure_word, order_word};

/// A measure, its word, and what an ace, a king, a queen and a jack weigh, if it goes by these.
type Row = (Measure, &'static str, Option<[u8; 4]>);

/// The first measures in their order.
const MEASURES: [Row; 3] = [
    (Measure::Hcp, "hcp", Some([4, 3, 2, 1])),
    (Measure::Controls, "controls", Some([2, 1, 0, 0])),
    (Measure::Losers, "losers", None),
];

#[test]
fn measures_in_order(rt: HostRuntime) {
    for (place, (measure, word, weights)) in MEASURES.iter().enumerate() {
        same(&rt, measure.place(), place);
        same(&rt, measure_word(*measure), *word);
        same(&rt, measure.weights(), *weights);
    }
}

/// An order, its word, the least and the greatest length there of thirteen cards, and which of
/// 2, 6, 1 and 4 is there.
type OrderRow = (Order, &'static str, u32, u32, u64);

/// The first orders.
const ORDERS: [OrderRow; 3] = [
    (Order::Longest, "longest", 4, 13, 6),
    (Order::Second, "second", 0, 6, 4),
    (Order::Shortest, "shortest", 0, 3, 1),
];

#[test]
fn orders_of_lengths(rt: HostRuntime) {
    for (place, (order, word, least, greatest, number)) in ORDERS.iter().enumerate() {
        same(&rt, order.place(), place);
        same(&rt, order_word(*order), *word);
        same(&rt, (order.least(), order.greatest()), (*least, *greatest));
        same(&rt, order.of(2, 6, 1, 4), *number);
    }
}
