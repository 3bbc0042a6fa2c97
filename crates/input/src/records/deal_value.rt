//! The deal that a Deal tag tells.

ghost use Rattle.std.specs.Prelude.{◌≡◌, ◌*◌, ◌+◌, ◌≤◌, ◌^◌, ◌++◌, ℕ, IfSome, List, Some, length};
ghost use Rattle.input.specs.DealValues.{deal_in, gives};
ghost use Rattle.input.specs.DealValues.{none_given, rank_in, seat_in, separator, whole};
ghost use Rattle.input.specs.internal.Hands.{how_many};

use crate::records::hand_value::{RANKS, cards_in, rank_in};
use crate::records::values::dealer_in;
use cards::{Deal, Given, Seat};

/// The last part of a deal: the clubs of the last hand.
const LAST_PART: usize = 15;

/// The bytes of a hand of thirteen cards: a letter for each, and three dots.
const HAND: usize = 16;

/// The bytes of four such hands, with spaces between them.
const WHOLE: usize = 67;

/// What is between two of them.
const BETWEEN: u8 = b' ';

/// All cards, bit c for card c.
const PACK: u64 = (1 << 52) - 1;

/// What is after a part of a deal.
fn separator(part: usize) -> u8
    requires { part ≤ 15 }
    ensures { result ≡ separator part }
{
    if part % 4 == 3 { b' ' } else { b'.' }
}

/// Whose hand a part of a deal is of.
fn seat_in(first: Seat, part: usize) -> Seat
    requires { part ≤ 15 }
    ensures { result ≡ seat_in first part }
{
    match (first as usize + part / 4) % 4 {
        0 => Seat::North,
        1 => Seat::East,
        2 => Seat::South,
        _ => Seat::West,
    }
}

/// What the hands give, from that of the first seat on, byte by byte.
fn given_by_bytes(first: Seat, hands: &[u8]) -> Option<Given>
    ensures { result ≡ gives first 0 none_given hands.now }
{
    let mut given = Given::none();
    let mut part = 0;
    for byte in hands {
        if part < LAST_PART && *byte == separator(part) {
            part += 1;
            continue;
        }
        let rank = rank_in(*byte);
        if rank == RANKS {
            return None;
        }
        if !given.give(13 * (part % 4) + rank, seat_in(first, part)) {
            return None;
        }
    }
    if part == LAST_PART { Some(given) } else { None }
}

/// Gives the seat of this hand the cards that the text tells, and returns them; none if somebody
/// has one of them. Only if they are thirteen are they sure to be the hand.
fn give_hand(given: &mut Given, first: Seat, hand: usize, text: &[u8]) -> u64
    requires hand { hand ≤ 3 }
    requires whole { length text.now ≡ 16 }
    ensures most { how_many result ≤ 13 }
    ensures gives { how_many result ≡ 13 → (rest : List ℕ)
        → gives first (4 * hand) given.old (text.now ++ rest)
        ≡ gives first (4 * hand + 3) given.new rest }
{
    let cards = cards_in(text);
    if given.give_all(cards, seat_in(first, 4 * hand)) {
        cards
    } else {
        0
    }
}

/// What the hands give, from that of the first seat on, if they are whole: then each has sixteen
/// bytes, and can be read without a look for its end. Their 52 letters have to tell all 52 cards,
/// so none is told twice, and no letter is tested for that.
fn given_by_hands(first: Seat, hands: &[u8]) -> Option<Given>
    ensures { IfSome result (λ given. gives first 0 none_given hands.now ≡ Some given) }
{
    if hands.len() != WHOLE {
        return None;
    }
    let mut given = Given::none();
    let mut all = 0;
    for hand in 0..3 {
        let from = (HAND + 1) * hand;
        all |= give_hand(&mut given, first, hand, &hands[from..from + HAND]);
        if hands[from + HAND] != BETWEEN {
            return None;
        }
    }
    all |= give_hand(&mut given, first, 3, &hands[WHOLE - HAND..]);
    if all == PACK { Some(given) } else { None }
}

/// What the hands give, from that of the first seat on.
fn gives(first: Seat, hands: &[u8]) -> Option<Given>
    ensures { result ≡ gives first 0 none_given hands.now }
{
    match given_by_hands(first, hands) {
        Some(given) => Some(given),
        None => given_by_bytes(first, hands),
    }
}

/// The deal, if every card is given and every seat has thirteen.
fn whole(given: &Given) -> Option<Deal>
    ensures { result ≡ whole (Some given.now) }
{
    given.deal()
}

/// The deal that the value of a Deal tag tells.
#[tactic(auto, unfolding(crate::specs::DealValues::deal_in))]
pub(crate) fn deal_in(value: &[u8]) -> Option<Deal>
    ensures { result ≡ deal_in value.now }
{
    if value.len() < 2 || value[1] != b':' {
        return None;
    }
    let first = dealer_in(&value[..1])?;
    let given = gives(first, &value[2..])?;
    whole(&given)
}
