//! What hands are counted to have.

use crate::support::{deal_of, same};
use crate::written::{IN_ORDER, WORKED};
use cards::{Hand, Honours, Measure, Order, Seat, Suit};
use std::process::Abort;

/// Candidates 0 and 1 of seed 0.
const FIRST: &[u8] = b"72.AT64.75.AT872 AK985.85.A6.Q654 QJ43.Q732.QT3.K9 T6.KJ9.KJ9842.J3";

const SECOND: &[u8] = b"AQ764.KQ..QJT643 K853.954.QJ53.A2 JT2.AJT.T964.K95 9.87632.AK872.87";

/// Hands of each balanced shape, and one that is none.
const EVEN: &[u8] = b"AKQJ.987.432.AKQ T987.AKQJ.AK.JT9 6543.T65.QJT98.8 2.432.765.765432";

const LONG_CLUBS: &[u8] = b"AK.987.432.AKQJT T987.AKQJ.AK.987 6543.T65.QJT9.65 QJ2.432.8765.432";

/// The points, the controls, the losers and the shape of a hand.
type Counts = (u8, u8, u8, [u8; 4]);

/// A deal, and what each seat has. Losers were counted by an independent program, those of the
/// worked deal suit by suit by hand too, and the rest by hand.
type Counted = (&'static [u8], [Counts; 4]);

const COUNTED: [Counted; 4] = [
    (
        IN_ORDER,
        [
            (10, 3, 0, [13, 0, 0, 0]),
            (10, 3, 0, [0, 13, 0, 0]),
            (10, 3, 0, [0, 0, 13, 0]),
            (10, 3, 0, [0, 0, 0, 13]),
        ],
    ),
    (
        WORKED,
        [
            (13, 5, 4, [0, 2, 6, 5]),
            (12, 3, 6, [5, 3, 1, 4]),
            (5, 1, 8, [4, 6, 1, 2]),
            (10, 3, 7, [4, 2, 5, 2]),
        ],
    ),
    (
        FIRST,
        [
            (8, 4, 8, [2, 4, 2, 5]),
            (13, 5, 6, [5, 2, 2, 4]),
            (10, 1, 7, [4, 4, 3, 2]),
            (9, 2, 8, [2, 3, 6, 2]),
        ],
    ),
    (
        SECOND,
        [
            (14, 3, 4, [5, 2, 0, 6]),
            (10, 3, 8, [4, 3, 4, 2]),
            (9, 3, 10, [3, 3, 4, 3]),
            (7, 3, 7, [1, 5, 5, 2]),
        ],
    ),
];

const SEATS: [Seat; 4] = [Seat::North, Seat::East, Seat::South, Seat::West];

/// The measures that are counted here.
const MEASURES: [Measure; 3] = [Measure::Hcp, Measure::Controls, Measure::Losers];

#[test]
fn counts_of_hands(rt: HostRuntime) {
    for (hands, counts) in COUNTED.iter() {
        let deal = deal_of(&rt, hands);
        for (seat, counted) in SEATS.iter().zip(counts.iter()) {
            hand_has(&rt, &deal.hand(*seat), *counted);
        }
    }
}

/// Every deal has the pack's forty points.
#[test]
fn forty_points(rt: HostRuntime) {
    for hands in [IN_ORDER, WORKED, FIRST, SECOND, EVEN, LONG_CLUBS] {
        let deal = deal_of(&rt, hands);
        let [north, east, south, west] = SEATS.map(|seat| u32::from(deal.hand(seat).points()));
        same(&rt, north + east + south + west, 40);
    }
}

/// The hand has what is counted.
fn hand_has(rt: &impl Abort, hand: &Hand, (points, controls, losers, shape): Counts) {
    same(rt, hand.points(), points);
    let totals = MEASURES.map(|measure| hand.total(measure));
    same(rt, totals, [points, controls, losers]);
    same(rt, hand.shape(), shape);
}

/// A deal, which of its seats are balanced, and the longest and shortest suits of North and South.
type Shapes = (&'static [u8], [bool; 4], (u8, u8), (u8, u8));

const SHAPES: [Shapes; 6] = [
    (IN_ORDER, [false, false, false, false], (13, 0), (13, 0)),
    (WORKED, [false, false, false, false], (6, 0), (6, 1)),
    (FIRST, [false, false, true, false], (5, 2), (4, 2)),
    (SECOND, [false, true, true, false], (6, 0), (4, 3)),
    (EVEN, [true, true, false, false], (4, 3), (5, 1)),
    (LONG_CLUBS, [true, true, true, true], (5, 2), (4, 2)),
];

#[test]
fn shapes_of_hands(rt: HostRuntime) {
    for (hands, balanced, of_north, of_south) in SHAPES.iter() {
        let deal = deal_of(&rt, hands);
        same(&rt, SEATS.map(|seat| deal.hand(seat).balanced()), *balanced);
        let (north, south) = (deal.hand(Seat::North), deal.hand(Seat::South));
        same(&rt, ends_of(&north), *of_north);
        same(&rt, ends_of(&south), *of_south);
    }
}

/// The longest and the shortest suit.
fn ends_of(hand: &Hand) -> (u8, u8) {
    (hand.ordered(Order::Longest), hand.ordered(Order::Shortest))
}

/// Of the worked deal a seat, a suit, its length, and its points, controls and losers.
const SUITS: [(Seat, Suit, u8, [u8; 3]); 8] = [
    (Seat::North, Suit::Spades, 0, [0, 0, 0]),
    (Seat::North, Suit::Hearts, 2, [0, 0, 2]),
    (Seat::North, Suit::Diamonds, 6, [9, 3, 0]),
    (Seat::North, Suit::Clubs, 5, [4, 2, 2]),
    (Seat::South, Suit::Spades, 4, [1, 0, 3]),
    (Seat::South, Suit::Hearts, 6, [1, 0, 3]),
    (Seat::South, Suit::Diamonds, 1, [0, 0, 1]),
    (Seat::South, Suit::Clubs, 2, [3, 1, 1]),
];

#[test]
fn counts_of_suits(rt: HostRuntime) {
    let deal = deal_of(&rt, WORKED);
    for (seat, suit, length, counts) in SUITS.iter() {
        let hand = deal.hand(*seat);
        same(&rt, hand.length(*suit), *length);
        suit_has(&rt, &hand, *suit, *counts);
    }
}

/// The suit has these points, controls and losers.
fn suit_has(rt: &impl Abort, hand: &Hand, suit: Suit, counts: [u8; 3]) {
    let [points, _, losers] = counts;
    same(
        rt,
        (hand.points_in(suit), hand.losers_in(suit)),
        (points, losers),
    );
    let totals = MEASURES.map(|measure| hand.total_in(measure, suit));
    same(rt, totals, counts);
}

#[test]
fn ranks_of_suits(rt: HostRuntime) {
    let north = deal_of(&rt, WORKED).hand(Seat::North);
    let (t, f) = (true, false);
    let diamonds = [t, t, t, f, f, t, t, t, f, f, f, f, f];
    same(&rt, north.ranks(Suit::Diamonds), diamonds);
    same(&rt, north.rank_set(Suit::Diamonds), 0b0_0000_1110_0111);
    same(&rt, north.rank_set(Suit::Spades), 0);
}

/// Honours by the ace, king, queen, jack and ten.
fn honours([ace, king, queen, jack, ten]: [bool; 5]) -> Honours {
    Honours {
        ace,
        king,
        queen,
        jack,
        ten,
    }
}

#[test]
fn honours_of_the_worked_deal(rt: HostRuntime) {
    let deal = deal_of(&rt, WORKED);
    let (t, f) = (true, false);
    for (seat, counted, count) in [
        (Seat::North, [t, t, t, f, f], 4),
        (Seat::South, [f, f, f, t, t], 2),
        (Seat::East, [t, t, t, t, t], 7),
        (Seat::East, [f, f, f, f, f], 0),
    ] {
        same(&rt, deal.hand(seat).honours(honours(counted)), count);
    }
    for (seat, suit, counted, count) in [
        (Seat::North, Suit::Diamonds, [t, t, t, f, f], 3),
        (Seat::West, Suit::Spades, [f, t, t, f, t], 3),
    ] {
        same(
            &rt,
            deal.hand(seat).honours_in(honours(counted), suit),
            count,
        );
    }
}
