//! Deals around fixed cards, with outside values, and against a plain program.

use crate::support::{deal_of, same};
use crate::written::fixed_in;
use cards::{Candidates, Card, Deal, Fixed, MAX_CANDIDATES, Packed, Places, Seat};
use lcg48::Lcg48;
use std::process::Abort;

/// The deal of the candidate of the seed around the fixed cards.
fn around(seed: u32, candidate: u64, hands: &[u8]) -> Option<Deal> {
    let fixed = Fixed::new(fixed_in(hands))?;
    Some(Candidates::around(seed, candidate % MAX_CANDIDATES, 1, &fixed).next())
}

/// A seed, a candidate, what is fixed from North on, and the deal.
const AROUND: [(u32, u64, &[u8], &[u8]); 10] = [
    (
        0,
        0,
        b"",
        b"72.AT64.75.AT872 AK985.85.A6.Q654 QJ43.Q732.QT3.K9 T6.KJ9.KJ9842.J3",
    ),
    (
        0,
        0,
        b"AKQ32.K..A",
        b"AKQ8632.K.K.AQ92 JT5.QJ843.AQ75.4 9.AT52.964.KJ765 74.976.JT832.T83",
    ),
    (
        0,
        1,
        b"AKQ32.K..A",
        b"AKQJ32.K.952.A94 T654.AT976.A8.QJ 98.QJ82.T74.KT62 7.543.KQJ63.8753",
    ),
    (
        0,
        2,
        b"AKQ32.K..A",
        b"AKQ732.AK.AJ.A75 96.QJ9.KT87632.T JT.53.Q9.KQJ9632 854.T87642.54.84",
    ),
    (
        7,
        1_000_000,
        b"AKQ32.K..A",
        b"AKQ832.K64..A863 74.AQ852.AK53.K9 J9.J973.J987.Q42 T65.T.QT642.JT75",
    ),
    (
        0,
        0,
        b"... ... ...AKQJT98765432",
        b"AQT974.KJT6.654. K6.AQ9432.JT732. ...AKQJT98765432 J8532.875.AKQ98.",
    ),
    (
        0,
        0,
        b"AKQJT98765432... .AKQJT98765432.. ..AKQJT98765432.",
        b"AKQJT98765432... .AKQJT98765432.. ..AKQJT98765432. ...AKQJT98765432",
    ),
    (
        0,
        3,
        b"... A.A.A.A ... K.K.K.K",
        b"T87.7653.JT.J762 AJ53.AQ4.A963.A5 Q942.J92.874.983 K6.KT8.KQ52.KQT4",
    ),
    (
        0,
        0,
        b"...",
        b"72.AT64.75.AT872 AK985.85.A6.Q654 QJ43.Q732.QT3.K9 T6.KJ9.KJ9842.J3",
    ),
    (
        2024,
        5,
        b"KQ432.A93.AJ.JT8 ... A985.KJ742.KQ32.",
        b"KQ432.A93.AJ.JT8 6.865.6.AQ976532 A985.KJ742.KQ32. JT7.QT.T98754.K4",
    ),
];

#[test]
fn worked_deals(rt: HostRuntime) {
    for (seed, candidate, hands, wanted) in AROUND.iter() {
        same(
            &rt,
            around(*seed, *candidate, hands),
            Some(deal_of(&rt, wanted)),
        );
    }
}

/// The deal of the undealt candidate of the seed around the fixed cards, and its flag.
fn undealt(seed: u32, candidate: u64, hands: &[u8]) -> Option<(Deal, bool)> {
    let packed = Packed::of_source(seed, &Fixed::new(fixed_in(hands))?);
    Some((packed.deal(candidate % MAX_CANDIDATES), packed.flag()))
}

#[test]
fn undealt_candidates(rt: HostRuntime) {
    for (seed, candidate, hands, wanted) in AROUND.iter() {
        same(
            &rt,
            undealt(*seed, *candidate, hands),
            Some((deal_of(&rt, wanted), false)),
        );
    }
    for seed in [1, 4095, 4096, 0x1234_5678, u32::MAX] {
        for hands in [b"" as &[u8], b"AKQ32.K..A", b"... A.A.A.A ... K.K.K.K"] {
            let dealt = around(seed, 1_234_567, hands).map(|deal| (deal, false));
            same(&rt, undealt(seed, 1_234_567, hands), dealt);
        }
    }
}

#[test]
fn fixed_cards(rt: HostRuntime) {
    assert!(rt; Fixed::new(fixed_in(b"AKQJT98765432...")).is_some());
    assert!(rt; Fixed::new(fixed_in(b"AKQJT98765432.A..")).is_none());
    assert!(rt; Fixed::new(fixed_in(b"... ... ... AKQJT98765432...2")).is_none());
    same(&rt, Fixed::none().free(), 52);
}

/// The cards that are free, in their order, and how many they are.
fn free_cards(fixed: &[Option<Seat>; 52]) -> ([usize; 52], usize) {
    let mut free = [0; 52];
    let mut count = 0;
    for (card, seat) in fixed.iter().enumerate() {
        if seat.is_none() {
            free[count % 52] = card;
            count = (count % 52) + 1;
        }
    }
    (free, count)
}

/// Shuffles the first cards, this many.
fn shuffle(cards: &mut [usize; 52], count: usize, generator: &mut Lcg48) {
    for j in (2..count % 53 + 1).rev() {
        let place = (j as u128 * u128::from(generator.next())) >> 48;
        cards.swap((j - 1) % 52, place as usize % 52);
    }
}

/// The deal as it is described: the free cards are listed and shuffled, and North takes the first
/// of them until it has thirteen cards, then East, South and West.
fn dealt_plainly(fixed: &[Option<Seat>; 52], generator: &mut Lcg48) -> [Seat; 52] {
    let (mut free, count) = free_cards(fixed);
    shuffle(&mut free, count, generator);
    let mut seats = [Seat::North; 52];
    for (seat, fixed) in seats.iter_mut().zip(fixed.iter()) {
        *seat = fixed.unwrap_or(Seat::West);
    }
    let mut next = free.iter().take(count);
    for seat in [Seat::North, Seat::East, Seat::South] {
        let held = fixed.iter().filter(|fixed| **fixed == Some(seat)).count();
        for card in next.by_ref().take(13 - held % 14) {
            seats[*card % 52] = seat;
        }
    }
    seats
}

/// Of a deal each card stays fixed or is taken away, by one draw for each.
fn some_fixed(deal: &Deal, generator: &mut Lcg48) -> [Option<Seat>; 52] {
    let often = generator.next() >> 45;
    let mut fixed = [None; 52];
    for (card, seat) in fixed.iter_mut().enumerate() {
        if let Some(card) = Card::new(card as u8) {
            if generator.next() >> 45 < often {
                *seat = Some(deal.holder(card));
            }
        }
    }
    fixed
}

/// Passes over the draws of a candidate.
fn skip_candidate(generator: &mut Lcg48) {
    for _ in 0..51 {
        generator.next();
    }
}

#[test]
fn ten_thousand_sets_by_a_plain_program(rt: HostRuntime) {
    let mut generator = Lcg48::seeded(24);
    for seed in 0..10_000 {
        let deal = Deal::shuffled(&Places::draw(&mut generator));
        let seats = some_fixed(&deal, &mut generator);
        let fixed = Fixed::new(seats);
        assert!(rt; fixed.is_some());
        if let Some(fixed) = fixed {
            let mut candidates = Candidates::around(seed, 0, 1, &fixed);
            let mut before = Lcg48::seeded(seed);
            for _ in 0..2 {
                let mut plain = before;
                let wanted = Deal::from_seats(&dealt_plainly(&seats, &mut plain));
                same(&rt, Some(candidates.next()), wanted);
                skip_candidate(&mut before);
            }
        }
    }
}

/// Deals the next candidate hand by hand, and returns the deal. Each hand that is dealt early must
/// be that of the deal.
fn by_hands(rt: &impl Abort, candidates: &mut Candidates) -> Deal {
    let west = candidates.deal_west();
    let south = candidates.deal_south();
    let deal = candidates.finish();
    same(
        rt,
        (west, south),
        (deal.hand(Seat::West), deal.hand(Seat::South)),
    );
    deal
}

/// Two walks through the same candidates: one by whole deals, and one by hands that passes over
/// each third candidate, at West's hand or before it.
#[test]
fn hand_by_hand(rt: HostRuntime) {
    for (_, _, hands, _) in AROUND.iter() {
        let fixed = Fixed::new(fixed_in(hands)).expect(&rt, "no more than thirteen");
        let mut whole = Candidates::around(24, 7, 5, &fixed);
        let mut parts = Candidates::around(24, 7, 5, &fixed);
        for _ in 0..300 {
            same(&rt, by_hands(&rt, &mut parts), whole.next());
            same(&rt, parts.next(), whole.next());
            let given_up = whole.next();
            if given_up.hand(Seat::East).points() % 2 == 0 {
                same(&rt, parts.deal_west(), given_up.hand(Seat::West));
            }
            parts.skip();
        }
    }
}

/// West's hand can be dealt again, at any time.
#[test]
fn dealt_anew(rt: HostRuntime) {
    let mut candidates = Candidates::new(0, 0, 1);
    let west = candidates.deal_west();
    candidates.deal_south();
    same(&rt, candidates.deal_west(), west);
    same(
        &rt,
        by_hands(&rt, &mut candidates),
        deal_of(&rt, AROUND[0].3),
    );
    candidates.deal_west();
    same(&rt, candidates.next(), Candidates::new(0, 1, 1).next());
}
