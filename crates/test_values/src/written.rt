//! Deals as they are written: four hands from North on, separated by spaces, and in each the
//! spades, hearts, diamonds and clubs, separated by dots.

ghost use Rattle.std.specs.Prelude.{◌≤◌};

use cards::{Deal, Seat};

/// The pack in order: North has the spades, East the hearts, South the diamonds, West the clubs.
pub const IN_ORDER: &[u8] = b"AKQJT98765432... .AKQJT98765432.. ..AKQJT98765432. ...AKQJT98765432";

/// A deal with a void, all lengths and 13, 12, 5 and 10 points.
pub const WORKED: &[u8] = b".63.AKQ987.A9732 A8654.KQ5.T.QJT6 J973.J98742.3.K4 KQT2.AT.J6542.85";

/// Returns the deal of the hands.
///
/// # Errors
/// A reason if not each seat has thirteen cards.
pub fn deal(hands: &[u8]) -> Result<Deal, &'static str> {
    Deal::from_seats(&seats_of(hands)).ok_or("not thirteen cards each")
}

/// Returns the seats of the cards by their numbers. A card that isn't written is North's.
pub fn seats_of(hands: &[u8]) -> [Seat; 52] {
    fixed_in(hands).map(|seat| seat.unwrap_or(Seat::North))
}

/// Returns the seats of the cards that are written, by their numbers.
pub fn fixed_in(hands: &[u8]) -> [Option<Seat>; 52] {
    let mut seats = [None; 52];
    let mut seat = Seat::North;
    let mut suit = 0;
    for byte in hands {
        match *byte {
            b' ' => {
                seat = seat.next();
                suit = 0;
            }
            b'.' => suit = (suit % 4) + 1,
            letter => fix(&mut seats, 13 * (suit % 4), letter, seat),
        }
    }
    seats
}

/// Fixes the card of this letter at the seat, of the suit whose first card this is.
fn fix(seats: &mut [Option<Seat>; 52], first: usize, letter: u8, seat: Seat)
    requires { first ≤ 39 }
{
    for (rank, other) in b"AKQJT98765432".iter().enumerate() {
        if *other == letter {
            seats[first + rank] = Some(seat);
        }
    }
}
