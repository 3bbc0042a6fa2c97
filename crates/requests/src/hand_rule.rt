//! What is said of a text that is refused: what a hand's text takes, or which card is there twice.

ghost use Rattle.std.specs.Prelude.{◌≡◌, ◌++◌, ◌<◌, OnOk, string_bytes};
ghost use Rattle.cards.specs.Pack.{suit_number};
ghost use Rattle.requests.specs.HandRules.{card_words, holder_words, rank_word, rule_of};
ghost use Rattle.requests.specs.HandRules.{suit_words};

use crate::HandFault;
use cards::{Card, Seat, Suit};
use std::alloc::AllocError;

const LETTERS: &str = "write A K Q J T 9 8 7 6 5 4 3 2 and dots, without the cards that may be any";

const THREE_DOTS: &str = "three dots separate spades, hearts, diamonds and clubs, as AKQ32.K..A";

impl HandFault {
    /// Appends what a person should know to write the text right: `a ten is written T`, or
    /// `the ace of spades is there twice`.
    ///
    /// # Errors
    /// `AllocError` if an allocation failed.
    pub fn put_rule(self, line: &mut String) -> Result<(), AllocError>
        ensures { OnOk result (string_bytes line.new ≡ string_bytes line.old ++ rule_of self) }
    {
        match self {
            HandFault::LowerCase => {
                line.push_str("ranks are capital letters, A K Q J T 9 8 7 6 5 4 3 2")
            }
            HandFault::TenAsDigits => line.push_str("a ten is written T"),
            HandFault::Unknown(_) => line.push_str(LETTERS),
            HandFault::Dots => line.push_str(THREE_DOTS),
            HandFault::Twice(card) => put_card(line, card, " is there twice"),
            HandFault::TooMany => line.push_str("a hand has 13 cards at most"),
            HandFault::Held(card, seat) => put_card(line, card, of_holder(seat)),
        }
    }
}

/// Appends the card's name, and what is said of it.
fn put_card(line: &mut String, card: Card, said: &str) -> Result<(), AllocError>
    ensures { OnOk result
        (string_bytes line.new ≡ string_bytes line.old ++ (card_words card ++ said.now)) }
{
    line.push_str("the ")?;
    line.push_str(of_rank(card.rank()))?;
    line.push_str(of_suit(card.suit()))?;
    line.push_str(said)
}

fn of_rank(rank: u8) -> &'static str
    requires { rank < 13 }
    ensures { result.now ≡ rank_word rank }
{
    match rank {
        0 => "ace",
        1 => "king",
        2 => "queen",
        3 => "jack",
        4 => "ten",
        5 => "nine",
        6 => "eight",
        7 => "seven",
        8 => "six",
        9 => "five",
        10 => "four",
        11 => "three",
        _ => "two",
    }
}

fn of_suit(suit: Suit) -> &'static str
    ensures { result.now ≡ suit_words (suit_number suit) }
{
    match suit {
        Suit::Spades => " of spades",
        Suit::Hearts => " of hearts",
        Suit::Diamonds => " of diamonds",
        Suit::Clubs => " of clubs",
    }
}

fn of_holder(seat: Seat) -> &'static str
    ensures { result.now ≡ holder_words seat }
{
    match seat {
        Seat::North => " is north's",
        Seat::East => " is east's",
        Seat::South => " is south's",
        Seat::West => " is west's",
    }
}
