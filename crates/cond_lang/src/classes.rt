//! Classes of suits and of seats, the quantifiers that go through them, and what they mean.

ghost use Rattle.std.specs.Prelude.{◌≡◌};
ghost use Rattle.cond_lang.specs.Classes.{bind, bound_to, can_bind, is_bound, is_major, is_member};
ghost use Rattle.cond_lang.specs.Classes.{choice, given};
ghost use Rattle.cond_lang.specs.Classes.{is_north_or_south, is_taken, is_this, seat_beside};
ghost use Rattle.cond_lang.specs.Classes.{seat_bound_to, unbound};
ghost use Rattle.cond_lang.specs.internal.Reading.{can_quantify};
ghost use Rattle.cond_lang.specs.internal.Arguments.{argument_at, is_argument, place_of};

use cards::{Seat, Suit};

/// Whether a condition is asked of some suit or seat of a class, or of each.
#[derive(Clone, Copy)]
pub enum Quantifier {
    /// It holds with some suit or seat of the class.
    Any,
    /// It holds with each.
    Every,
}

/// A class of suits, or of seats.
#[derive(Clone, Copy)]
pub enum Class {
    /// All four suits.
    Suit,
    /// Spades and hearts.
    Major,
    /// Diamonds and clubs.
    Minor,
    /// The suits that no enclosing class means.
    Other,
    /// All four seats.
    Seat,
    /// North and South.
    NorthSouth,
    /// East and West.
    EastWest,
}

/// A seat as another sees it.
#[derive(Clone, Copy)]
pub enum Neighbour {
    /// The seat across.
    Partner,
    /// The next seat clockwise: East is to the left of North.
    Left,
    /// The seat before.
    Right,
}

impl Neighbour {
    /// The seat that is this neighbour of the given one.
    pub(crate) fn of(self, seat: Seat) -> Seat
        ensures { result ≡ seat_beside self seat }
    {
        match self {
            Neighbour::Partner => seat.next().next(),
            Neighbour::Left => seat.next(),
            Neighbour::Right => seat.next().next().next(),
        }
    }
}

/// A suit and a seat with the same place: a class means one or the other.
#[derive(Clone, Copy)]
pub(crate) struct Choice {
    suit: Suit,
    seat: Seat,
}

impl Choice {
    pub(crate) const FIRST: Choice = Choice {
        suit: Suit::Spades,
        seat: Seat::North,
    };

    pub(crate) const SECOND: Choice = Choice {
        suit: Suit::Hearts,
        seat: Seat::East,
    };

    pub(crate) const THIRD: Choice = Choice {
        suit: Suit::Diamonds,
        seat: Seat::South,
    };

    pub(crate) const FOURTH: Choice = Choice {
        suit: Suit::Clubs,
        seat: Seat::West,
    };

    /// The suit and the seat.
    pub(crate) fn of(suit: Suit, seat: Seat) -> Choice
        ensures { result ≡ choice suit seat }
    {
        Choice { suit, seat }
    }

    /// The suit and the seat with this place among the sixteen.
    pub(crate) fn at(place: usize) -> Choice
        ensures { result ≡ argument_at place }
    {
        let suit = match place / 4 {
            0 => Suit::Spades,
            1 => Suit::Hearts,
            2 => Suit::Diamonds,
            _ => Suit::Clubs,
        };
        let seat = match place % 4 {
            0 => Seat::North,
            1 => Seat::East,
            2 => Seat::South,
            _ => Seat::West,
        };
        Choice { suit, seat }
    }

    /// Its place among the sixteen.
    pub(crate) fn place(self) -> usize
        ensures { result ≡ place_of self }
    {
        4 * (self.suit as usize) + (self.seat as usize)
    }
}

/// What a name takes in brackets behind it, and its body calls `seat` and `suit`.
#[derive(Clone, Copy)]
pub(crate) enum Params {
    /// Nothing, and no brackets.
    Plain,
    /// A seat.
    OfSeat,
    /// A suit.
    OfSuit,
    /// A seat and a suit.
    OfBoth,
}

impl Params {
    /// Whether the choice is one of arguments alone: the first suit and the first seat stand for
    /// those that the name doesn't take.
    pub(crate) fn is_argument(self, choice: Choice) -> bool
        ensures { result ≡ is_argument self choice }
    {
        match self {
            Params::Plain => choice.place() == 0,
            Params::OfSeat => choice.suit as u8 == 0,
            Params::OfSuit => choice.seat as u8 == 0,
            Params::OfBoth => true,
        }
    }
}

/// The suit or the seat that each class means, where the class is bound.
#[derive(Clone, Copy)]
pub(crate) struct Bound {
    suit: Option<Suit>,
    major: Option<Suit>,
    minor: Option<Suit>,
    other: Option<Suit>,
    seat: Option<Seat>,
    north_south: Option<Seat>,
    east_west: Option<Seat>,
}

impl Bound {
    /// No class is bound.
    pub(crate) fn none() -> Bound
        ensures { result ≡ unbound }
    {
        Bound {
            suit: None,
            major: None,
            minor: None,
            other: None,
            seat: None,
            north_south: None,
            east_west: None,
        }
    }

    /// Inside a name's body, with these arguments.
    pub(crate) fn given(params: Params, choice: Choice) -> Bound
        ensures { result ≡ given params choice }
    {
        let bound = Bound::none();
        match params {
            Params::Plain => bound,
            Params::OfSeat => bound.with(Class::Seat, choice),
            Params::OfSuit => bound.with(Class::Suit, choice),
            Params::OfBoth => bound.with(Class::Seat, choice).with(Class::Suit, choice),
        }
    }

    /// The suit that the class means, if it is one of suits.
    pub(crate) fn suit_of(self, class: Class) -> Option<Suit>
        ensures { result ≡ bound_to self class }
    {
        match class {
            Class::Suit => self.suit,
            Class::Major => self.major,
            Class::Minor => self.minor,
            Class::Other => self.other,
            Class::Seat | Class::NorthSouth | Class::EastWest => None,
        }
    }

    /// The seat that the class means, if it is one of seats.
    pub(crate) fn seat_of(self, class: Class) -> Option<Seat>
        ensures { result ≡ seat_bound_to self class }
    {
        match class {
            Class::Seat => self.seat,
            Class::NorthSouth => self.north_south,
            Class::EastWest => self.east_west,
            Class::Suit | Class::Major | Class::Minor | Class::Other => None,
        }
    }

    /// The same with the class bound to the suit or to the seat.
    pub(crate) fn with(self, class: Class, choice: Choice) -> Bound
        ensures { result ≡ bind self class choice }
    {
        let mut bound = self;
        match class {
            Class::Suit => bound.suit = Some(choice.suit),
            Class::Major => bound.major = Some(choice.suit),
            Class::Minor => bound.minor = Some(choice.suit),
            Class::Other => bound.other = Some(choice.suit),
            Class::Seat => bound.seat = Some(choice.seat),
            Class::NorthSouth => bound.north_south = Some(choice.seat),
            Class::EastWest => bound.east_west = Some(choice.seat),
        }
        bound
    }

    fn is_bound(self, class: Class) -> bool
        ensures { result ≡ is_bound self class }
    {
        match class {
            Class::Suit | Class::Major | Class::Minor | Class::Other => {
                self.suit_of(class).is_some()
            }
            Class::Seat | Class::NorthSouth | Class::EastWest => self.seat_of(class).is_some(),
        }
    }

    /// Whether the class can be bound here.
    pub(crate) fn can_bind(self, class: Class) -> bool
        ensures { result ≡ can_bind self class }
    {
        if self.is_bound(class) {
            return false;
        }
        match class {
            Class::Other => {
                self.is_bound(Class::Suit)
                    || self.is_bound(Class::Major)
                    || self.is_bound(Class::Minor)
            }
            _ => true,
        }
    }

    /// Whether some class can be bound here.
    pub(crate) fn can_quantify(self) -> bool
        ensures { result ≡ can_quantify self }
    {
        self.can_bind(Class::Suit)
            || self.can_bind(Class::Major)
            || self.can_bind(Class::Minor)
            || self.can_bind(Class::Other)
            || self.can_bind(Class::Seat)
            || self.can_bind(Class::NorthSouth)
            || self.can_bind(Class::EastWest)
    }

    /// Whether the suit or the seat is one of the class.
    pub(crate) fn is_member(self, class: Class, choice: Choice) -> bool
        ensures { result ≡ is_member self class choice }
    {
        match class {
            Class::Suit | Class::Seat => true,
            Class::Major => is_major(choice.suit),
            Class::Minor => !is_major(choice.suit),
            Class::Other => !self.is_taken(choice.suit),
            Class::NorthSouth => is_north_or_south(choice.seat),
            Class::EastWest => !is_north_or_south(choice.seat),
        }
    }

    /// Whether an enclosing class means the suit.
    fn is_taken(self, suit: Suit) -> bool
        ensures { result ≡ is_taken self suit }
    {
        is_this(self.suit, suit) || is_this(self.major, suit) || is_this(self.minor, suit)
    }
}

fn is_major(suit: Suit) -> bool
    ensures { result ≡ is_major suit }
{
    matches!(suit, Suit::Spades | Suit::Hearts)
}

fn is_north_or_south(seat: Seat) -> bool
    ensures { result ≡ is_north_or_south seat }
{
    matches!(seat, Seat::North | Seat::South)
}

fn is_this(bound: Option<Suit>, suit: Suit) -> bool
    ensures { result ≡ is_this bound suit }
{
    match bound {
        None => false,
        Some(other) => other as u8 == suit as u8,
    }
}
