//! Cards that are fixed at seats before the deal.

ghost use Rattle.std.specs.Prelude.{◌≡◌, ◌↔◌, IsSome, IfSome};
ghost use Rattle.cards.specs.Fixed.{IsFixed, free_count, held, is_free, none_fixed};

use crate::Seat;
use std::marker::Model;

/// Cards that are fixed at seats before the deal, which contracts see as a list of 52: the seat of
/// each fixed card by its number, and `None` for each free one. No seat has more than thirteen.
#[derive(Clone, Copy)]
pub struct Fixed {
    seats: [Option<Seat>; 52],
}

impl Model for Fixed {
    ghost use Rattle.std.specs.Prelude.{List, Option};
    ghost use Rattle.cards.specs.declared.seat.Seat.{Seat as ASeat};
    ghost use Rattle.cards.specs.Fixed.{IsFixed};

    ghost Value = { List (Option ASeat) };

    ghost view = { λ f. f.seats };

    ghost invariant = { λ f. IsFixed f.seats };

    ghost inverse = { λ xs. record { seats = xs } };
}

impl Fixed {
    /// These cards, or `None` if a seat has more than thirteen.
    pub fn new(seats: [Option<Seat>; 52]) -> Option<Fixed>
        ensures room { IsSome result ↔ IsFixed seats }
        ensures kept { IfSome result (λ f. f ≡ seats) }
    {
        for seat in [Seat::North, Seat::East, Seat::South, Seat::West] {
            if held_by(&seats, seat) > 13 {
                return None;
            }
        }
        Some(Fixed { seats })
    }

    /// The fixed cards, of which no seat has more than thirteen.
    pub(crate) fn of_seats(seats: [Option<Seat>; 52]) -> Fixed
        requires { IsFixed seats }
        ensures { result ≡ seats }
    {
        Fixed { seats }
    }

    /// No card is fixed.
    pub fn none() -> Fixed
        ensures { result ≡ none_fixed }
    {
        Fixed { seats: [None; 52] }
    }

    /// How many cards are free.
    pub fn free(&self) -> usize
        ensures count { result ≡ free_count self.now }
        ensures fixed { IsFixed self.now }
    {
        self.seats.iter().filter(|fixed| fixed.is_none()).count()
    }

    /// The seats by card number.
    pub fn as_array(&self) -> &[Option<Seat>; 52]
        ensures seats { result.now ≡ self.now }
        ensures fixed { IsFixed result.now }
    {
        &self.seats
    }
}

/// How many cards are fixed at the seat.
pub(crate) fn held_by(seats: &[Option<Seat>; 52], seat: Seat) -> usize
    ensures { result ≡ held seats.now seat }
{
    seats.iter().filter(|fixed| **fixed == Some(seat)).count()
}

pub(crate) fn is_open(fixed: Option<Seat>) -> bool
    ensures { result ≡ is_free fixed }
{
    fixed.is_none()
}
