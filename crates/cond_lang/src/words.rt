//! The words of the language, and the kinds of its tokens, which a person is told.

ghost use Rattle.std.specs.Prelude.{◌≡◌, ◌<◌, None, IfSome, length};
ghost use Rattle.cond_lang.specs.Continuations.{kind_of};
ghost use Rattle.cond_lang.specs.Cut.{measure_word, order_word};
ghost use Rattle.cond_lang.specs.Kinds.{IsListed, all_kinds, place_of};

use crate::classes::{Class, Neighbour, Quantifier};
use crate::scanner::Token;
use cards::{Honours, Measure, Order, Seat, Suit};
use conditions::Op;

/// The words of the language, each with its token: the table `words` of the definition.
pub const WORDS: [(&str, Token); 33 + Measure::COUNT + Order::COUNT] = [
    ("or", Token::Or),
    ("and", Token::And),
    ("not", Token::Not),
    ("balanced", Token::Balanced),
    ("shape", Token::Shape),
    ("pattern", Token::Pattern),
    ("any", Token::Quantifier(Quantifier::Any)),
    ("every", Token::Quantifier(Quantifier::Every)),
    ("stops", Token::Stops),
    ("hcp", Token::Measure(Measure::Hcp)),
    ("controls", Token::Measure(Measure::Controls)),
    ("losers", Token::Measure(Measure::Losers)),
    ("cards", Token::Cards),
    ("len", Token::Len),
    ("longest", Token::Ordered(Order::Longest)),
    ("second", Token::Ordered(Order::Second)),
    ("shortest", Token::Ordered(Order::Shortest)),
    ("in", Token::In),
    ("x", Token::X),
    ("north", Token::Seat(Seat::North)),
    ("east", Token::Seat(Seat::East)),
    ("south", Token::Seat(Seat::South)),
    ("west", Token::Seat(Seat::West)),
    ("seat", Token::Class(Class::Seat)),
    ("ns", Token::Class(Class::NorthSouth)),
    ("ew", Token::Class(Class::EastWest)),
    ("partner", Token::Neighbour(Neighbour::Partner)),
    ("left", Token::Neighbour(Neighbour::Left)),
    ("right", Token::Neighbour(Neighbour::Right)),
    ("spades", Token::Suit(Suit::Spades)),
    ("hearts", Token::Suit(Suit::Hearts)),
    ("diamonds", Token::Suit(Suit::Diamonds)),
    ("clubs", Token::Suit(Suit::Clubs)),
    ("suit", Token::Class(Class::Suit)),
    ("major", Token::Class(Class::Major)),
    ("minor", Token::Class(Class::Minor)),
    ("other", Token::Class(Class::Other)),
    ("let", Token::Let),
    ("is", Token::Is),
];

/// The word of the measure.
pub fn measure_word(measure: Measure) -> &'static str
    ensures { result.now ≡ measure_word measure }
{
    match measure {
        Measure::Hcp => "hcp",
        Measure::Controls => "controls",
        Measure::Losers => "losers",
    }
}

/// The word of the order.
pub fn order_word(order: Order) -> &'static str
    ensures { result.now ≡ order_word order }
{
    match order {
        Order::Longest => "longest",
        Order::Second => "second",
        Order::Shortest => "shortest",
    }
}

/// What the measures count, a line or more for each: a part of the page of the language, in plain
/// text of 80 columns at most.
pub(crate) const MEASURE_LINES: &str =
    "  hcp(north)                  high card points: ace 4, king 3, queen 2, jack 1
  hcp(north,spades)           those of the spades alone
  controls(north)             2 for each ace, 1 for each king; also with a suit
  losers(north)               of each suit's ace, king and queen, as many as the
                              suit has cards, those that are not in the hand;
                              also with a suit
";

/// What may come at a place of a condition: a kind of token, or the end. Each word of its own, the
/// six comparisons, the four seats, the four suits, all ranks and all numbers are one kind each,
/// and each name.
#[derive(Clone, Copy)]
pub enum Kind {
    Let,
    Not,
    Open,
    Balanced,
    Shape,
    Pattern,
    Quantifier(Quantifier),
    Stops,
    Number,
    Measure(Measure),
    Cards,
    Len,
    Ordered(Order),
    Plus,
    Star,
    Relation,
    In,
    Dash,
    X,
    Comma,
    Seat,
    Suit,
    Class(Class),
    Neighbour(Neighbour),
    Ranks,
    /// The name with this number.
    Name(u16),
    Is,
    Close,
    And,
    Or,
    End,
}

/// The ace alone.
const ACE: Honours = Honours {
    ace: true,
    king: false,
    queen: false,
    jack: false,
    ten: false,
};

impl Kind {
    /// How many kinds there are, beside the names.
    pub const COUNT: usize = 37 + Kind::OF_TABLES;

    /// How many of them are a measure or an order.
    const OF_TABLES: usize = Measure::COUNT + Order::COUNT;

    /// All kinds but the names, in the order in which a person is told them.
    pub const ALL: [Kind; Kind::COUNT] = [
        Kind::Let,
        Kind::Not,
        Kind::Open,
        Kind::Balanced,
        Kind::Shape,
        Kind::Pattern,
        Kind::Quantifier(Quantifier::Any),
        Kind::Quantifier(Quantifier::Every),
        Kind::Stops,
        Kind::Number,
        Kind::Measure(Measure::Hcp),
        Kind::Measure(Measure::Controls),
        Kind::Measure(Measure::Losers),
        Kind::Cards,
        Kind::Len,
        Kind::Ordered(Order::Longest),
        Kind::Ordered(Order::Second),
        Kind::Ordered(Order::Shortest),
        Kind::Plus,
        Kind::Star,
        Kind::Relation,
        Kind::In,
        Kind::Dash,
        Kind::X,
        Kind::Comma,
        Kind::Seat,
        Kind::Class(Class::Seat),
        Kind::Class(Class::NorthSouth),
        Kind::Class(Class::EastWest),
        Kind::Neighbour(Neighbour::Partner),
        Kind::Neighbour(Neighbour::Left),
        Kind::Neighbour(Neighbour::Right),
        Kind::Suit,
        Kind::Class(Class::Suit),
        Kind::Class(Class::Major),
        Kind::Class(Class::Minor),
        Kind::Class(Class::Other),
        Kind::Ranks,
        Kind::Is,
        Kind::Close,
        Kind::And,
        Kind::Or,
        Kind::End,
    ];

    /// The place of the kind in [`ALL`], and that of the end of [`ALL`] for a name.
    ///
    /// [`ALL`]: Kind::ALL
    pub fn place(self) -> usize
        ensures value { result ≡ place_of self }
        ensures within { IsListed self → result < length all_kinds }
    {
        match self {
            Kind::Let => 0,
            Kind::Not => 1,
            Kind::Open => 2,
            Kind::Balanced => 3,
            Kind::Shape => 4,
            Kind::Pattern => 5,
            Kind::Quantifier(Quantifier::Any) => 6,
            Kind::Quantifier(Quantifier::Every) => 7,
            Kind::Stops => 8,
            Kind::Number => 9,
            Kind::Measure(measure) => 10 + measure.place(),
            Kind::Cards => 10 + Measure::COUNT,
            Kind::Len => 11 + Measure::COUNT,
            Kind::Ordered(order) => 12 + Measure::COUNT + order.place(),
            Kind::Plus => 12 + Kind::OF_TABLES,
            Kind::Star => 13 + Kind::OF_TABLES,
            Kind::Relation => 14 + Kind::OF_TABLES,
            Kind::In => 15 + Kind::OF_TABLES,
            Kind::Dash => 16 + Kind::OF_TABLES,
            Kind::X => 17 + Kind::OF_TABLES,
            Kind::Comma => 18 + Kind::OF_TABLES,
            Kind::Seat => 19 + Kind::OF_TABLES,
            Kind::Class(Class::Seat) => 20 + Kind::OF_TABLES,
            Kind::Class(Class::NorthSouth) => 21 + Kind::OF_TABLES,
            Kind::Class(Class::EastWest) => 22 + Kind::OF_TABLES,
            Kind::Neighbour(Neighbour::Partner) => 23 + Kind::OF_TABLES,
            Kind::Neighbour(Neighbour::Left) => 24 + Kind::OF_TABLES,
            Kind::Neighbour(Neighbour::Right) => 25 + Kind::OF_TABLES,
            Kind::Suit => 26 + Kind::OF_TABLES,
            Kind::Class(Class::Suit) => 27 + Kind::OF_TABLES,
            Kind::Class(Class::Major) => 28 + Kind::OF_TABLES,
            Kind::Class(Class::Minor) => 29 + Kind::OF_TABLES,
            Kind::Class(Class::Other) => 30 + Kind::OF_TABLES,
            Kind::Ranks => 31 + Kind::OF_TABLES,
            Kind::Is => 32 + Kind::OF_TABLES,
            Kind::Close => 33 + Kind::OF_TABLES,
            Kind::And => 34 + Kind::OF_TABLES,
            Kind::Or => 35 + Kind::OF_TABLES,
            Kind::End => 36 + Kind::OF_TABLES,
            Kind::Name(_) => Kind::COUNT,
        }
    }

    /// A token of the kind. The end has none.
    pub(crate) fn token(self) -> Option<Token>
        ensures some { IfSome result (λ t. kind_of t ≡ self) }
        ensures end { result ≡ None → self ≡ Kind.End }
        ensures none { self ≡ Kind.End → result ≡ None }
    {
        let token = match self {
            Kind::Let => Token::Let,
            Kind::Not => Token::Not,
            Kind::Open => Token::Open,
            Kind::Balanced => Token::Balanced,
            Kind::Shape => Token::Shape,
            Kind::Pattern => Token::Pattern,
            Kind::Quantifier(quantifier) => Token::Quantifier(quantifier),
            Kind::Stops => Token::Stops,
            Kind::Number => Token::Number(0),
            Kind::Measure(measure) => Token::Measure(measure),
            Kind::Cards => Token::Cards,
            Kind::Len => Token::Len,
            Kind::Ordered(order) => Token::Ordered(order),
            Kind::Plus => Token::Plus,
            Kind::Star => Token::Star,
            Kind::Relation => Token::Relation(Op::Equal),
            Kind::In => Token::In,
            Kind::Dash => Token::Dash,
            Kind::X => Token::X,
            Kind::Comma => Token::Comma,
            Kind::Seat => Token::Seat(Seat::North),
            Kind::Suit => Token::Suit(Suit::Spades),
            Kind::Class(class) => Token::Class(class),
            Kind::Neighbour(neighbour) => Token::Neighbour(neighbour),
            Kind::Ranks => Token::Ranks(ACE),
            Kind::Name(name) => Token::Name(name),
            Kind::Is => Token::Is,
            Kind::Close => Token::Close,
            Kind::And => Token::And,
            Kind::Or => Token::Or,
            Kind::End => return None,
        };
        Some(token)
    }
}
