//! The names of seats.

ghost use Rattle.std.specs.Prelude.{◌≡◌, ◌≤◌, length};
ghost use Rattle.notations.specs.Names.{seat_name};

use cards::Seat;

/// The name of the seat.
#[inline(always)]
pub(crate) fn seat_name(seat: Seat) -> &'static [u8]
    ensures value { result.now ≡ seat_name seat }
    ensures most { length result.now ≤ 5 }
{
    match seat {
        Seat::North => b"North",
        Seat::East => b"East",
        Seat::South => b"South",
        Seat::West => b"West",
    }
}
