//! Sets of cards as masks of 52 bits: bit c is set if card c is in the set.

ghost use Rattle.std.specs.Prelude.{◌≡◌, ◌<◌, ◌≤◌, ◌^◌, ◌==◌, cond, sum};
ghost use Rattle.cards.specs.Pack.{seat_number};
ghost use Rattle.cards.specs.Hands.{weight_of};
ghost use Rattle.cards.specs.Counts.{honours_of};
ghost use Rattle.cards.specs.internal.Masks.{cards_of_mask, mask_of_suit, mask_of_honours, seat_mask};

use crate::{Honours, Seat, Suit};

const ACES: u64 = 0x80_0400_2001;

const KINGS: u64 = ACES << 1;

const QUEENS: u64 = ACES << 2;

const JACKS: u64 = ACES << 3;

const TENS: u64 = ACES << 4;

/// The seat's cards.
pub(crate) fn mask_of(seats: &[Seat; 52], seat: Seat) -> u64
    ensures { result ≡ seat_mask seats.now seat }
{
    let mut mask = 0;
    for (card, holder) in seats.iter().enumerate() {
        if is_same(*holder, seat) {
            mask |= 1 << card;
        }
    }
    mask
}

fn is_same(holder: Seat, seat: Seat) -> bool
    ensures { result ≡ (seat_number holder == seat_number seat) }
{
    holder == seat
}

/// The thirteen cards of the suit.
pub(crate) fn suit_mask(suit: Suit) -> u64
    ensures value { result ≡ mask_of_suit suit }
    ensures below { result < 2 ^ 52 }
{
    match suit {
        Suit::Spades => 0x1FFF,
        Suit::Hearts => 0x3FF_E000,
        Suit::Diamonds => 0x7F_FC00_0000,
        Suit::Clubs => 0xF_FF80_0000_0000,
    }
}

/// The cards' weights together, by what an ace, a king, a queen and a jack weigh.
#[inline(always)]
pub(crate) fn weight_of_mask(weights: [u8; 4], cards: u64) -> u8
    requires cards { cards < 2 ^ 52 }
    requires light { sum weights ≤ 10 }
    ensures value { result ≡ weight_of weights (cards_of_mask cards) }
    ensures most { result ≤ 40 }
{
    let aces = (cards & ACES).count_ones();
    let kings = (cards & KINGS).count_ones();
    let queens = (cards & QUEENS).count_ones();
    let jacks = (cards & JACKS).count_ones();
    let honours = u32::from(weights[0]) * aces + u32::from(weights[1]) * kings;
    (honours + u32::from(weights[2]) * queens + u32::from(weights[3]) * jacks) as u8
}

/// How many of the cards are such honours.
#[inline(always)]
pub(crate) fn honours_of_mask(honours: Honours, cards: u64) -> u8
    requires { cards < 2 ^ 52 }
    ensures { result ≡ honours_of honours (cards_of_mask cards) }
{
    (cards & honours_mask(honours)).count_ones() as u8
}

/// The cards of the four suits that are such honours.
fn honours_mask(honours: Honours) -> u64
    ensures { result ≡ mask_of_honours honours }
{
    let top = chosen(honours.ace, ACES) | chosen(honours.king, KINGS);
    let low = chosen(honours.jack, JACKS) | chosen(honours.ten, TENS);
    top | chosen(honours.queen, QUEENS) | low
}

/// The cards, or none.
fn chosen(is_chosen: bool, cards: u64) -> u64
    ensures { result ≡ cond is_chosen cards 0 }
{
    if is_chosen { cards } else { 0 }
}
