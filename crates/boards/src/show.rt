//! What is written of a board: which hands, all, the dealer's, one, or a side's, and their points.

ghost use Rattle.std.specs.Prelude.{◌≡◌};
ghost use Rattle.boards.specs.Show.{counted_in, hand_in, is_same, shows};

use crate::board::Board;
use crate::words;
use crate::words::Words;
use cards::{Hand, Seat};

/// The hands that are written of a board, as they are asked for by a word.
#[derive(Clone, Copy)]
pub enum Seats {
    All,
    /// The hand of the board's dealer.
    Dealer,
    North,
    East,
    South,
    West,
    NorthSouth,
    EastWest,
}

/// The words that ask for hands.
pub const SHOWS: Words<Seats> = words! {
    "all" => Seats::All,
    "dealer" => Seats::Dealer,
    "north" => Seats::North,
    "east" => Seats::East,
    "south" => Seats::South,
    "west" => Seats::West,
    "ns" => Seats::NorthSouth,
    "ew" => Seats::EastWest
};

/// What is written of a board.
#[derive(Clone, Copy)]
pub struct Show {
    /// The hands.
    pub seats: Seats,
    /// Whether hand records, pages and sheets have the points of the hands that are written.
    pub points: bool,
}

impl Seats {
    /// Whether the hand in the seat is written.
    fn shows(self, board: &Board, seat: Seat) -> bool
        ensures { result ≡ shows self board.now seat }
    {
        match self {
            Seats::All => true,
            Seats::Dealer => is_same(seat, board.dealer),
            Seats::North => is_same(seat, Seat::North),
            Seats::East => is_same(seat, Seat::East),
            Seats::South => is_same(seat, Seat::South),
            Seats::West => is_same(seat, Seat::West),
            Seats::NorthSouth => is_same(seat, Seat::North) || is_same(seat, Seat::South),
            Seats::EastWest => is_same(seat, Seat::East) || is_same(seat, Seat::West),
        }
    }
}

impl Show {
    /// All hands, with their points.
    pub const ALL: Show = Show {
        seats: Seats::All,
        points: true,
    };

    /// Returns the hand in the seat, or `None` if it isn't written.
    pub fn hand(self, board: &Board, seat: Seat) -> Option<Hand>
        ensures { result ≡ hand_in self board.now seat }
    {
        if self.seats.shows(board, seat) {
            Some(board.deal.hand(seat))
        } else {
            None
        }
    }

    /// Returns the hand in the seat whose points are written, or `None` if they aren't.
    pub fn counted(self, board: &Board, seat: Seat) -> Option<Hand>
        ensures { result ≡ counted_in self board.now seat }
    {
        if self.points {
            self.hand(board, seat)
        } else {
            None
        }
    }
}

/// Whether the seats are one.
fn is_same(seat: Seat, other: Seat) -> bool
    ensures { result ≡ is_same seat other }
{
    seat as usize == other as usize
}
