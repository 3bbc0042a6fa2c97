//! A candidate in three words, for keeping many of them or handing them on: its deal with a flag,
//! or only what it is dealt from.

ghost use Rattle.std.specs.Prelude.{◌≡◌, ◌+◌, ◌<◌, ◌≤◌, ◌^◌};
ghost use Rattle.cards.specs.Deals.{IsPartition};
ghost use Rattle.cards.specs.Packed.{HasNumber, deal_in, flag_in, undealt, whole};
ghost use Rattle.cards.specs.internal.PackedMasks.{IsPacked, fixed_told, joined, shown, told};

use crate::around::mask_fixed;
use crate::{Candidates, Deal, Fixed, Seat};
use std::marker::Model;

/// What is above a mask of 52 cards begins here.
const ABOVE: u64 = 1 << 52;

/// The first word of an undealt candidate is not below this.
const UNDEALT: u64 = 2 * ABOVE;

/// The part of a seed that is above one mask.
const PART: u64 = 1 << 12;

/// A candidate: its deal and a flag, or the seed and the fixed cards that it is dealt from, whose
/// flag is not set.
///
/// Of a deal West has the cards that nobody else has, and the flag is above North's. Of fixed
/// cards the first mask has North's and West's, the second East's and West's, and the third
/// South's; the seed is above the three.
#[derive(Clone, Copy)]
pub struct Packed {
    first: u64,
    second: u64,
    third: u64,
}

impl Model for Packed {
    ghost use Rattle.std.specs.Prelude.{refl};
    ghost use Rattle.cards.specs.Packed.{PackedView};
    ghost use Rattle.cards.specs.internal.PackedMasks.{IsPacked, shown};
    ghost use Rattle.cards.specs.internal.PackedMasks.{first_of, second_of, third_of};

    ghost Value = { PackedView };

    ghost view = { λ p. shown p.first p.second p.third };

    ghost invariant = { λ p. IsPacked p.first p.second p.third };

    ghost inverse = { λ v. record {
      first = first_of v;
      second = second_of v;
      third = third_of v;
    } };

    ghost inverse_ok = { λ p ok. Prim.rw (ok.first_is, ok.second_is, ok.third_is) refl };
}

impl Packed {
    /// The deal with the flag.
    #[inline(always)]
    pub fn of_deal(deal: &Deal, flag: bool) -> Packed
        ensures { result ≡ whole deal.now flag }
    {
        Packed {
            first: join(deal.mask(Seat::North), u64::from(flag)),
            second: deal.mask(Seat::East),
            third: deal.mask(Seat::South),
        }
    }

    /// An undealt candidate of the seed, around these fixed cards.
    pub fn of_source(seed: u32, fixed: &Fixed) -> Packed
        ensures { result ≡ undealt (record { seed = seed; fixed = fixed.now }) }
    {
        let seats = fixed.as_array();
        let seed = u64::from(seed);
        let north = mask_fixed(seats, Seat::North);
        let east = mask_fixed(seats, Seat::East);
        let south = mask_fixed(seats, Seat::South);
        let west = mask_fixed(seats, Seat::West);
        Packed {
            first: join(north | west, 2 + seed / (PART * PART)),
            second: join(east | west, seed % PART),
            third: join(south, seed / PART % PART),
        }
    }

    /// The flag, which is not set of an undealt candidate.
    #[inline(always)]
    pub fn flag(&self) -> bool
        ensures { result ≡ flag_in self.now }
    {
        self.first / ABOVE == 1
    }

    /// The deal of the candidate, which has this number. One that is not dealt yet has a number
    /// below 2^40, and is dealt now: that takes far longer than the next one of `Candidates`.
    #[inline(always)]
    pub fn deal(&self, number: u64) -> Deal
        requires { HasNumber self.now number }
        ensures value { result ≡ deal_in self.now number }
        ensures partition { IsPartition result }
    {
        if self.first < UNDEALT {
            return Deal::of_three_masks(self.first % ABOVE, self.second, self.third);
        }
        deal_source(self.first, self.second, self.third, number)
    }
}

/// The deal of the undealt candidate of these three words, which has this number.
// A call, so that the deal of one that is dealt is read in line.
#[inline(never)]
fn deal_source(first: u64, second: u64, third: u64, number: u64) -> Deal
    requires packed { IsPacked first second third }
    requires undealt { 2 ^ 53 ≤ first }
    requires number { HasNumber (shown first second third) number }
    ensures value { result ≡ deal_in (shown first second third) number }
    ensures partition { IsPartition result }
{
    let high = (first / ABOVE - 2) * PART + third / ABOVE;
    let seed = (high * PART + second / ABOVE) as u32;
    let seats = seats_told(first % ABOVE, second % ABOVE, third % ABOVE);
    Candidates::around(seed, number, 1, &Fixed::of_seats(seats)).next()
}

/// A word with these cards, and this above them.
fn join(cards: u64, above: u64) -> u64
    requires cards { cards < 2 ^ 52 }
    requires above { above < 2 ^ 12 }
    ensures { result ≡ joined cards above }
{
    cards + above * ABOVE
}

/// Where each card is fixed, by the three masks.
fn seats_told(first: u64, second: u64, third: u64) -> [Option<Seat>; 52]
    ensures { result ≡ fixed_told first second third }
{
    let mut seats = [None; 52];
    for card in 0..seats.len() {
        let bits = (first >> card & 1, second >> card & 1, third >> card & 1);
        seats[card] = seat_told(bits.0 == 1, bits.1 == 1, bits.2 == 1);
    }
    seats
}

/// Where a card is fixed, by whether it is in the three masks.
fn seat_told(first: bool, second: bool, third: bool) -> Option<Seat>
    ensures { result ≡ told first second third }
{
    if first {
        return Some(if second { Seat::West } else { Seat::North });
    }
    if second {
        return Some(Seat::East);
    }
    if third { Some(Seat::South) } else { None }
}
