//! What single cards count in a count, and what is counted beside them.

ghost use Rattle.std.specs.Prelude.{◌≡◌, ◌≤◌, cond};
ghost use Rattle.cards.specs.Counts.{has_honour};
ghost use Rattle.cards.specs.Pack.{is_in_suit, rank_of};
ghost use Rattle.screens.specs.SingleCards.{count_beside, counts_for, rank_weight, whose};

use cards::{Honours, Measure, Seat, Suit};
use conditions::Count;

/// The seat whose hand is counted.
pub(crate) fn whose(count: Count) -> Seat
    ensures { result ≡ whose count }
{
    match count {
        Count::Total(_, seat) | Count::SuitTotal(_, seat, _) => seat,
        Count::Cards(seat, _) | Count::SuitCards(seat, _, _) => seat,
        Count::Length(seat, _) | Count::Ordered(_, seat) => seat,
    }
}

/// What the card counts if the seat has it.
pub(crate) fn counts_for(count: Count, card: usize) -> u16
    ensures value { result ≡ counts_for count card }
    ensures few { result ≤ 255 }
{
    match count {
        Count::Total(measure, _) => rank_weight(measure, card),
        Count::SuitTotal(measure, _, suit) => of_suit(suit, card, rank_weight(measure, card)),
        Count::Cards(_, ranks) => u16::from(has_honour(ranks, card)),
        Count::SuitCards(_, suit, ranks) => of_suit(suit, card, u16::from(has_honour(ranks, card))),
        Count::Length(_, suit) => of_suit(suit, card, 1),
        Count::Ordered(..) => 0,
    }
}

/// The most that is counted beside single cards.
pub(crate) fn count_beside(count: Count) -> u16
    ensures value { result ≡ count_beside count }
    ensures few { result ≤ 40 }
{
    match count {
        Count::Total(measure, _) | Count::SuitTotal(measure, _, _) => match measure.weights() {
            Some(_) => 0,
            None => count.greatest() as u16,
        },
        Count::Ordered(..) => count.greatest() as u16,
        _ => 0,
    }
}

/// The number, or 0 if the card is of another suit.
fn of_suit(suit: Suit, card: usize, number: u16) -> u16
    ensures { result ≡ cond (is_in_suit suit card) number 0 }
{
    if card / 13 == suit as usize {
        number
    } else {
        0
    }
}

/// Whether the card's rank is among these.
fn has_honour(ranks: Honours, card: usize) -> bool
    ensures { result ≡ has_honour ranks (rank_of card) }
{
    match card % 13 {
        0 => ranks.ace,
        1 => ranks.king,
        2 => ranks.queen,
        3 => ranks.jack,
        4 => ranks.ten,
        _ => false,
    }
}

/// What the card counts by the measure, if that counts ranks.
fn rank_weight(measure: Measure, card: usize) -> u16
    ensures value { result ≡ rank_weight measure card }
    ensures few { result ≤ 255 }
{
    match measure.weights() {
        Some(weights) => match weights.get(card % 13) {
            Some(weight) => u16::from(*weight),
            None => 0,
        },
        None => 0,
    }
}
