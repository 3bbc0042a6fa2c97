//! Cards, places and deals, and the shuffle against a plain program.

use crate::support::{deal_of, same};
use crate::written::{IN_ORDER, WORKED, seats_of};
use cards::{Candidates, Card, Deal, MAX_CANDIDATES, Packed, Places, Seat, Suit, laws};
use lcg48::{Lcg48, Steps, Stride};
use std::process::Abort;

/// The first two candidates of seed 0, the first of which docs/SEQUENCE.md deals by hand.
const OF_SEED_ZERO: [&[u8]; 2] = [
    b"72.AT64.75.AT872 AK985.85.A6.Q654 QJ43.Q732.QT3.K9 T6.KJ9.KJ9842.J3",
    b"AQ764.KQ..QJT643 K853.954.QJ53.A2 JT2.AJT.T964.K95 9.87632.AK872.87",
];

/// The pack when all places are zero.
const TURNED_PACK: &[u8] = b"KQJT98765432.A.. .KQJT98765432.A. ..KQJT98765432.A A...KQJT98765432";

/// As the pack in order, but for two cards of East and South.
const ALMOST_IN_ORDER: &[u8] =
    b"AKQJT98765432... .AKQJT9876543.2. .2.AKQJT9876543. ...AKQJT98765432";

#[test]
fn cards_and_seats(rt: HostRuntime) {
    let card = Card::new(51).expect(&rt, "card 51");
    same(
        &rt,
        (card.number(), card.suit(), card.rank()),
        (51, Suit::Clubs, 12),
    );
    assert!(rt; Card::new(52).is_none());
    same(
        &rt,
        (Seat::North.next(), Seat::West.next()),
        (Seat::East, Seat::North),
    );
}

#[test]
fn places_drawn(rt: HostRuntime) {
    let drawn = Places::draw(&mut Lcg48::seeded(0));
    for (j, place) in [(52, 8), (51, 38), (50, 4), (49, 42)] {
        same(&rt, drawn.place(j), place);
    }
}

#[test]
fn sound_places(rt: HostRuntime) {
    let mut places = [0; 51];
    for (first, last, is_sound) in [(52, 0, false), (51, 0, true), (51, 2, false)] {
        places[0] = first;
        places[50] = last;
        same(&rt, Places::new(places).is_some(), is_sound);
    }
}

/// The places that leave the pack as it is: for j the position j - 1.
fn places_that_stay() -> [u8; 51] {
    let mut places = [0; 51];
    for i in 0..51u8 {
        places[usize::from(i)] = 51 - i;
    }
    places
}

/// The pack shuffled by the places, if they are sound.
fn shuffled(places: [u8; 51]) -> Option<Deal> {
    Places::new(places).map(|places| Deal::shuffled(&places))
}

#[test]
fn deals_of_places(rt: HostRuntime) {
    same(
        &rt,
        shuffled(places_that_stay()),
        Some(deal_of(&rt, IN_ORDER)),
    );
    let turned = deal_of(&rt, TURNED_PACK);
    same(&rt, shuffled([0; 51]), Some(turned));
    let ace_of_spades = Card::new(0).expect(&rt, "card 0");
    same(&rt, turned.holder(ace_of_spades), Seat::West);
}

#[test]
fn equal_deals(rt: HostRuntime) {
    for (one, other, are_equal) in [
        (IN_ORDER, IN_ORDER, true),
        (IN_ORDER, ALMOST_IN_ORDER, false),
        (ALMOST_IN_ORDER, TURNED_PACK, false),
    ] {
        let equal = laws::equality(&deal_of(&rt, one), &deal_of(&rt, other));
        same(&rt, equal, are_equal);
    }
}

#[test]
fn deals_of_seats(rt: HostRuntime) {
    let mut seats = seats_of(WORKED);
    assert!(rt; Deal::from_seats(&seats).is_some());
    seats[0] = Seat::North;
    assert!(rt; Deal::from_seats(&seats).is_none());
}

#[test]
fn packed_deals(rt: HostRuntime) {
    for deal in [deal_of(&rt, IN_ORDER), deal_of(&rt, WORKED)] {
        for flag in [false, true] {
            let packed = Packed::of_deal(&deal, flag);
            same(&rt, (packed.deal(0), packed.flag()), (deal, flag));
        }
    }
}

/// The first deal, turned so that North's hand is each seat's in turn.
const TURNED: [(Seat, &[u8]); 4] = [
    (
        Seat::North,
        b"72.AT64.75.AT872 AK985.85.A6.Q654 QJ43.Q732.QT3.K9 T6.KJ9.KJ9842.J3",
    ),
    (
        Seat::East,
        b"T6.KJ9.KJ9842.J3 72.AT64.75.AT872 AK985.85.A6.Q654 QJ43.Q732.QT3.K9",
    ),
    (
        Seat::South,
        b"QJ43.Q732.QT3.K9 T6.KJ9.KJ9842.J3 72.AT64.75.AT872 AK985.85.A6.Q654",
    ),
    (
        Seat::West,
        b"AK985.85.A6.Q654 QJ43.Q732.QT3.K9 T6.KJ9.KJ9842.J3 72.AT64.75.AT872",
    ),
];

#[test]
fn candidates_of_seed_zero(rt: HostRuntime) {
    let mut each = Candidates::new(0, 0, 1);
    for hands in OF_SEED_ZERO.iter() {
        same(&rt, each.next(), deal_of(&rt, hands));
    }
    let mut from_one = Candidates::new(0, 1, 16);
    same(&rt, from_one.next(), deal_of(&rt, OF_SEED_ZERO[1]));
}

/// At the limit is the last candidate that a run may have, and the one after the last share of
/// sixteen workers.
#[test]
fn candidates_at_the_limit(rt: HostRuntime) {
    let before = Stride::of(51 * (MAX_CANDIDATES - 1), &mut Steps::new());
    let mut generator = before.apply(&Lcg48::seeded(1));
    let mut last = Candidates::new(1, MAX_CANDIDATES - 1, 1);
    same(
        &rt,
        last.next(),
        Deal::shuffled(&Places::draw(&mut generator)),
    );
    let mut after = Candidates::new(1, MAX_CANDIDATES, 16);
    same(
        &rt,
        after.next(),
        Deal::shuffled(&Places::draw(&mut generator)),
    );
}

#[test]
fn turned_deals(rt: HostRuntime) {
    let deal = deal_of(&rt, OF_SEED_ZERO[0]);
    for (to, hands) in TURNED.iter() {
        same(&rt, deal.turned(*to), deal_of(&rt, hands));
    }
}

/// Algorithm P as it is written: cards exchanged for 52, 51, .., 2, then cut into four hands.
fn dealt_downwards(places: &Places) -> [Seat; 52] {
    let mut pack = [0; 52];
    for (card, item) in pack.iter_mut().enumerate() {
        *item = card;
    }
    for i in 0..51u8 {
        let j = 52 - i;
        pack.swap(usize::from(j - 1), usize::from(places.place(j)));
    }
    let order = [Seat::North, Seat::East, Seat::South, Seat::West];
    let mut seats = [Seat::North; 52];
    for (hand, seat) in pack.chunks(13).zip(order) {
        for card in hand {
            seats[*card % 52] = seat;
        }
    }
    seats
}

/// The shuffle and every third candidate from the fifth on.
#[test]
fn ten_thousand_deals_by_a_plain_program(rt: HostRuntime) {
    let mut generator = Lcg48::seeded(2026);
    let mut thirds = Candidates::new(2026, 5, 3);
    for number in 0..10_000 {
        let places = Places::draw(&mut generator);
        let plain = Deal::from_seats(&dealt_downwards(&places));
        assert_eq!(rt; plain, Some(Deal::shuffled(&places)));
        if number >= 5 && number % 3 == 2 {
            assert_eq!(rt; plain, Some(thirds.next()));
        }
    }
}
