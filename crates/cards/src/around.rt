//! Dealing around fixed cards: what is prepared of them once, and each deal by exchanges of the
//! free cards, with each place drawn when it is needed.

ghost use Rattle.std.specs.Prelude.{◌≡◌, ◌≤◌, ◌↔◌, ℕ, List, Option, ◌+◌, ◌-◌, ◌<◌, ◌^◌, IsTrue, slice_index};
ghost use Rattle.lcg48.specs.Sequence.{state_after, step};
ghost use Rattle.cards.specs.Deals.{IsPartition};
ghost use Rattle.cards.specs.Fixed.{IsFixed, dealt_around, free_count, is_fixed_at, places_for};
ghost use Rattle.cards.specs.Fixed.{room};
ghost use Rattle.cards.specs.declared.seat.Seat.TheVariants.{East, South, West};
ghost use Rattle.cards.specs.internal.Around.{IsListed, IsSide, draws_around, fixed_mask, AreCards};
ghost use Rattle.cards.specs.internal.Around.{IsDealingAround, IsSettled};
ghost use Rattle.cards.specs.internal.Dealings.{IsSouthDealt, IsWestDealt, drawn_deal};
ghost use Rattle.cards.specs.internal.Masks.{seat_mask};
ghost use Rattle.cards.specs.declared.seat.Seat.{Seat as ASeat};

use crate::fixed::{Fixed, held_by, is_open};
use crate::places::place_for;
use crate::{Deal, Seat};
use lcg48::Lcg48;
use std::marker::Model;

/// What is kept of fixed cards to deal around them, which contracts see as their list: the mask of
/// each seat, how many free cards it gets, and the free cards by rising number.
#[derive(Drop)]
pub(crate) struct Around {
    fixed: Fixed,
    north: Side,
    east: Side,
    south: Side,
    west: Side,
    free: [u8; 52],
    count: usize,
}

/// What is fixed at one seat: the mask of these cards, and how many free ones it gets.
#[derive(Clone, Copy)]
pub(crate) struct Side {
    mask: u64,
    room: usize,
}

impl Model for Around {
    ghost use Rattle.std.specs.Prelude.{List, Option};
    ghost use Rattle.cards.specs.declared.seat.Seat.{Seat as ASeat};
    ghost use Rattle.cards.specs.internal.Around.{IsKept};

    ghost Value = { List (Option ASeat) };

    ghost view = { λ a. a.fixed };

    ghost invariant = { λ a. IsKept a.fixed a.north a.east a.south a.west a.free a.count };
}

impl Around {
    pub(crate) fn of(fixed: &Fixed) -> Around
        ensures { result ≡ fixed.now }
    {
        let seats = fixed.as_array();
        let (free, count) = list_free(seats);
        Around {
            fixed: *fixed,
            north: side_of(seats, Seat::North),
            east: side_of(seats, Seat::East),
            south: side_of(seats, Seat::South),
            west: side_of(seats, Seat::West),
            free,
            count,
        }
    }

    /// The deal of the next draws around the fixed cards. Of m free cards the first m - 1 draws
    /// shuffle the list by rising number; North has the first of it until he has thirteen cards,
    /// then East, South and West. So the last draws decide what North has, and as he has what the
    /// others leave, they need not be made; nor need East's if all of North's cards are fixed.
    #[inline]
    pub(crate) fn draw(&self, generator: &mut Lcg48) -> Deal
        ensures value { result
            ≡ dealt_around self.now (places_for (free_count self.now) generator.old) }
        ensures partition { IsPartition result }
        ensures stepped { generator.new ≡ state_after generator.old (draws_around self.now) }
    {
        if self.count == 52 {
            return self.draw_by(generator, 52, 13, 13, 13);
        }
        let (east, south, west) = (self.east.room, self.south.room, self.west.room);
        self.draw_by(generator, self.count, east, south, west)
    }

    /// The same by how many cards are free, and how many of them East, South and West get. Where
    /// these are constants, as with no card fixed, the exchanges are compiled without a loop.
    #[inline(always)]
    fn draw_by(
        &self,
        generator: &mut Lcg48,
        free: usize,
        east: usize,
        south: usize,
        west: usize,
    ) -> Deal
        requires free { free ≡ free_count self.now }
        requires east { east ≡ room self.now East }
        requires south { south ≡ room self.now South }
        requires west { west ≡ room self.now West }
        ensures value { result
            ≡ dealt_around self.now (places_for (free_count self.now) generator.old) }
        ensures partition { IsPartition result }
        ensures stepped { generator.new ≡ state_after generator.old (draws_around self.now) }
    {
        let mut cards = self.free;
        let south_end = free - west;
        let east_end = south_end - south;
        let west = self.west.mask | settle(&mut cards, generator, free, west);
        let south = self.south.mask | settle(&mut cards, generator, south_end, south);
        if east_end == east {
            return Deal::with_rest_to_east(self.north.mask, south, west);
        }
        let east = self.east.mask | settle(&mut cards, generator, east_end, east);
        Deal::with_rest_to_north(east, south, west)
    }

    /// How many draws a deal takes.
    pub(crate) fn draws(&self) -> u64
        ensures value { result ≡ draws_around self.now }
        ensures few { result ≤ 51 }
    {
        let rest = if self.north.room == 0 {
            self.east.room
        } else {
            self.north.room
        };
        (self.count - rest) as u64
    }

    /// Deals West's hand by the next draws, and returns its mask. Then `cards` is the list of the
    /// free cards as the exchanges left it.
    #[inline(always)]
    pub(crate) fn deal_west(&self, cards: &mut [u8; 52], generator: &mut Lcg48) -> u64
        ensures { IsWestDealt self.now generator.old generator.new cards.new result }
    {
        *cards = self.free;
        if self.is_whole() {
            return self.west.mask | settle(cards, generator, 52, 13);
        }
        self.west.mask | settle(cards, generator, self.count, self.west.room)
    }

    /// Deals South's hand by the draws after West's, and returns its mask.
    #[inline(always)]
    pub(crate) fn deal_south(&self, cards: &mut [u8; 52], generator: &mut Lcg48) -> u64
        requires { AreCards cards.old }
        ensures { (x west : ℕ) → IsWestDealt self.now x generator.old cards.old west
            → IsSouthDealt self.now x generator.new cards.new west result }
    {
        if self.is_whole() {
            return self.south.mask | settle(cards, generator, 39, 13);
        }
        let end = self.count - self.west.room;
        self.south.mask | settle(cards, generator, end, self.south.room)
    }

    /// Deals East's hand by the draws after South's, and returns its mask.
    #[inline(always)]
    fn deal_east(&self, cards: &mut [u8; 52], generator: &mut Lcg48) -> u64
        requires { AreCards cards.old }
        ensures { (x west south : ℕ) → IsSouthDealt self.now x generator.old cards.old west south
            → result ≡ seat_mask (drawn_deal self.now x) East }
    {
        if self.is_whole() {
            return self.east.mask | settle(cards, generator, 26, 13);
        }
        let end = self.count - self.west.room - self.south.room;
        self.east.mask | settle(cards, generator, end, self.east.room)
    }

    /// The deal of which West's and South's hands are dealt, by the draws after South's.
    #[inline(always)]
    pub(crate) fn deal_rest(
        &self,
        cards: &mut [u8; 52],
        generator: &mut Lcg48,
        west: u64,
        south: u64,
    ) -> Deal
        requires { (x : ℕ) × IsSouthDealt self.now x generator.old cards.old west south }
        ensures value { (x : ℕ) → IsSouthDealt self.now x generator.old cards.old west south
            → result ≡ drawn_deal self.now x }
        ensures partition { IsPartition result }
    {
        if self.north.room == 0 {
            return Deal::with_rest_to_east(self.north.mask, south, west);
        }
        let east = self.deal_east(cards, generator);
        Deal::with_rest_to_north(east, south, west)
    }

    /// Whether no card is fixed. Then each hand is dealt with constants in place of the numbers
    /// that are kept, and its exchanges are compiled without a loop.
    #[inline(always)]
    fn is_whole(&self) -> bool
        ensures { IsTrue result ↔ (free_count self.now ≡ 52) }
    {
        self.count == 52
    }
}

/// What is fixed at the seat.
fn side_of(seats: &[Option<Seat>; 52], seat: Seat) -> Side
    requires { IsFixed seats.now }
    ensures { IsSide seats.now seat result }
{
    Side {
        mask: mask_fixed(seats, seat),
        room: 13 - held_by(seats, seat),
    }
}

/// The cards that are fixed at the seat.
pub(crate) fn mask_fixed(seats: &[Option<Seat>; 52], seat: Seat) -> u64
    ensures { result ≡ fixed_mask seats.now seat }
{
    let mut mask = 0;
    for (card, fixed) in seats.iter().enumerate() {
        if is_at(*fixed, seat) {
            mask |= 1 << card;
        }
    }
    mask
}

/// The free cards by rising number, and how many there are.
fn list_free(seats: &[Option<Seat>; 52]) -> ([u8; 52], usize)
    ensures count { result.1 ≡ free_count seats.now }
    ensures listed { IsListed seats.now result.0 result.1 }
{
    let mut free = [0; 52];
    let mut count = 0;
    for (card, fixed) in seats.iter().enumerate() {
        if is_open(*fixed) {
            free[count] = card as u8;
            count += 1;
        }
    }
    (free, count)
}

fn is_at(fixed: Option<Seat>, seat: Seat) -> bool
    ensures { result ≡ is_fixed_at seat fixed }
{
    fixed == Some(seat)
}

/// Runs the exchanges for this many positions below `end`, and returns the mask of the cards left
/// there, which no later exchange touches. Two draws at a time are quicker than one after the
/// other.
#[inline(always)]
pub(crate) fn settle(cards: &mut [u8; 52], generator: &mut Lcg48, end: usize, count: usize) -> u64
    requires some { count ≤ end }
    requires inside { end ≤ 52 }
    requires cards { AreCards cards.old }
    ensures cards { AreCards cards.new }
    ensures settled { IsSettled generator.old generator.new
        cards.old cards.new result (end - count) end }
{
    let mut mask = 0;
    for pair in 0..count / 2 {
        let (first, second) = generator.next_two();
        let upper = exchange(cards, first, end - 1 - 2 * pair);
        let lower = exchange(cards, second, end - 2 - 2 * pair);
        mask |= 1 << upper;
        mask |= 1 << lower;
    }
    if count % 2 == 1 {
        let card = exchange(cards, generator.next(), end - count);
        mask |= 1 << card;
    }
    mask
}

/// The exchange at a position by this draw, and the card that stays there. At position 0 it
/// changes nothing.
///
/// It is written out, since a `swap` first asks whether the two positions are the same.
fn exchange(cards: &mut [u8; 52], draw: u64, position: usize) -> u8
    requires inside { position < 52 }
    requires draw { draw < 2 ^ 48 }
    requires cards { AreCards cards.old }
    ensures cards { AreCards cards.new }
    ensures below { result < 52 }
    ensures dealing { (fixed : List (Option ASeat)) (free : List ℕ) (x before : ℕ)
        → position < free_count fixed
        → draw ≡ step before
        → IsDealingAround fixed free x before cards.old (position + 1)
        → IsDealingAround fixed free x draw cards.new position }
    ensures card { result ≡ slice_index cards.new position }
{
    let place = usize::from(place_for(position + 1, draw));
    let card = cards[place];
    let other = cards[position];
    cards[position] = card;
    cards[place] = other;
    card
}
