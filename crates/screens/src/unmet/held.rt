//! What is known of a count by the cards that are fixed before the deal.

ghost use Rattle.std.specs.Prelude.{◌≡◌, ◌≤◌};
ghost use Rattle.cards.specs.Fixed.{held, room};
ghost use Rattle.screens.specs.Held.{card_share, fact_on, had, heaviest, heaviest_rank};

use crate::single_cards::{count_beside, counts_for, whose};
use crate::unmet::facts::Fact;
use cards::{Fixed, Measure, Seat};
use conditions::Count;

impl Fact {
    /// What the fixed cards tell of the count.
    pub(crate) fn on(count: Count, fixed: &Fixed) -> Fact
        ensures { result ≡ fact_on fixed.now count }
    {
        let own = had(fixed, count, false);
        let room = heaviest(count) * spare(fixed, whose(count));
        Fact {
            count,
            least: own,
            most: count_beside(count) + had(fixed, count, true).min(own + room),
        }
    }
}

/// What the seat's fixed cards count, with the free cards if these count too.
fn had(fixed: &Fixed, count: Count, free: bool) -> u16
    ensures value { result ≡ had fixed.now count free }
    ensures few { result ≤ 13260 }
{
    let seats = fixed.as_array();
    let mut total = 0;
    for card in 0..seats.len() {
        total += card_share(count, card, seats[card], free);
    }
    total
}

/// How many more cards the seat gets.
fn spare(fixed: &Fixed, seat: Seat) -> u16
    ensures value { result ≡ room fixed.now seat }
    ensures few { result ≤ 13 }
{
    13_usize.saturating_sub(held_at(fixed.as_array(), seat)) as u16
}

/// How many cards are fixed at the seat.
fn held_at(seats: &[Option<Seat>; 52], seat: Seat) -> usize
    ensures { result ≡ held seats.now seat }
{
    seats.iter().filter(|fixed| **fixed == Some(seat)).count()
}

/// The most that one card counts.
fn heaviest(count: Count) -> u16
    ensures value { result ≡ heaviest count }
    ensures few { result ≤ 255 }
{
    match count {
        Count::Total(measure, _) | Count::SuitTotal(measure, _, _) => heaviest_rank(measure),
        Count::Cards(..) | Count::SuitCards(..) | Count::Length(..) => 1,
        Count::Ordered(..) => 0,
    }
}

/// The most that a rank counts by the measure.
fn heaviest_rank(measure: Measure) -> u16
    ensures value { result ≡ heaviest_rank measure }
    ensures few { result ≤ 255 }
{
    match measure.weights() {
        Some(weights) => {
            let [ace, king, queen, jack] = weights;
            u16::from(ace.max(king).max(queen.max(jack)))
        }
        None => 0,
    }
}

/// What the card counts where it is fixed, and if it is free, whether it counts.
fn card_share(count: Count, card: usize, fixed: Option<Seat>, free: bool) -> u16
    ensures value { result ≡ card_share count card fixed free }
    ensures few { result ≤ 255 }
{
    let has = match fixed {
        Some(seat) => seat == whose(count),
        None => free,
    };
    if has { counts_for(count, card) } else { 0 }
}
