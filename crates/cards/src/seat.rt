//! The four seats at the table.

ghost use Rattle.std.specs.Prelude.{◌≡◌, ◌<◌};

/// A seat at the table, clockwise from North. Their numbers are 0 to 3.
#[derive(Clone, Copy, PartialEq, Eq, Debug)]
pub enum Seat {
    North,
    East,
    South,
    West,
}

impl Seat {
    ghost use Rattle.cards.specs.Pack.{seat_at_position};
    ghost use Rattle.cards.specs.Turning.{goes_to, next_seat};

    /// The next seat clockwise.
    pub fn next(self) -> Seat
        ensures { result ≡ next_seat self }
    {
        match self {
            Seat::North => Seat::East,
            Seat::East => Seat::South,
            Seat::South => Seat::West,
            Seat::West => Seat::North,
        }
    }

    /// The seat whose hand goes to this one when North's goes to `to`.
    pub(crate) fn came_from(self, to: Seat) -> Seat
        ensures { goes_to to result ≡ self }
    {
        match to {
            Seat::North => self,
            Seat::East => self.next().next().next(),
            Seat::South => self.next().next(),
            Seat::West => self.next(),
        }
    }

    /// The seat whose thirteen positions hold this one.
    pub(crate) fn at_position(position: usize) -> Seat
        requires { position < 52 }
        ensures { result ≡ seat_at_position position }
    {
        match position / 13 {
            0 => Seat::North,
            1 => Seat::East,
            2 => Seat::South,
            _ => Seat::West,
        }
    }
}
