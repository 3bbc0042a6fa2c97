//! Predealt hands as texts, and the cards that they fix.

ghost use Rattle.std.specs.Prelude.{◌≡◌, ◌<◌, None, Some, IfErr, IfOk};
ghost use Rattle.requests.specs.PredealtHands.{AreHands, IsFixedBy, before, bytes_of};
ghost use Rattle.requests.specs.PredealtHands.{first_refused, fixed_of, given_at, given_by};
ghost use Rattle.requests.specs.PredealtHands.{has_given, is_refused, is_refused_at};
ghost use Rattle.requests.specs.PredealtHands.{none_given, seat_given, shares};

use crate::hand::{has_card, is_hand};
use cards::{Fixed, Seat};

/// Predealt hands as texts, by seat.
#[derive(Clone, Copy)]
pub struct PredealtHands<'a> {
    pub north: Option<&'a str>,
    pub east: Option<&'a str>,
    pub south: Option<&'a str>,
    pub west: Option<&'a str>,
}

impl<'a> PredealtHands<'a> {
    /// No text is given.
    pub fn none() -> PredealtHands<'static>
        ensures { given_by result ≡ none_given }
    {
        PredealtHands {
            north: None,
            east: None,
            south: None,
            west: None,
        }
    }

    /// The cards that the texts fix at the seats.
    ///
    /// # Errors
    ///
    /// The first seat, in the order north, east, south, west, whose text isn't a hand or has a card
    /// of an earlier one.
    pub fn read(&self) -> Result<Fixed, Seat>
        ensures sound { IfOk result (λ _. first_refused (given_by self.now) ≡ None) }
        ensures hands { IfOk result (λ _. AreHands (given_by self.now)) }
        ensures fixed { IfOk result (λ fixed. fixed ≡ fixed_of (given_by self.now)) }
        ensures held { IfOk result (λ fixed. IsFixedBy (given_by self.now) fixed) }
        ensures refused { IfErr result (λ seat. first_refused (given_by self.now) ≡ Some seat) }
    {
        if let Some(seat) = self.first_refused() {
            return Err(seat);
        }
        Ok(Fixed::new(self.seats()).unwrap())
    }

    /// The first seat whose text is refused.
    #[tactic(auto, unfolding(crate::specs::PredealtHands::first_refused))]
    fn first_refused(&self) -> Option<Seat>
        ensures { result ≡ first_refused (given_by self.now) }
    {
        if self.is_refused_at(Seat::North) {
            Some(Seat::North)
        } else if self.is_refused_at(Seat::East) {
            Some(Seat::East)
        } else if self.is_refused_at(Seat::South) {
            Some(Seat::South)
        } else if self.is_refused_at(Seat::West) {
            Some(Seat::West)
        } else {
            None
        }
    }

    /// Whether the seat's text isn't a hand or has a card of an earlier one.
    fn is_refused_at(&self, seat: Seat) -> bool
        ensures { result ≡ is_refused_at (given_by self.now) seat }
    {
        self.before(seat).refuses(self.given_at(seat))
    }

    /// The text of the seat, if it is given.
    pub fn given_at(&self, seat: Seat) -> Option<&'a str>
        ensures { bytes_of result ≡ given_at (given_by self.now) seat }
    {
        match seat {
            Seat::North => self.north,
            Seat::East => self.east,
            Seat::South => self.south,
            Seat::West => self.west,
        }
    }

    /// The texts of the seats before this one.
    pub(crate) fn before(&self, seat: Seat) -> PredealtHands<'a>
        ensures { given_by result ≡ before seat (given_by self.now) }
    {
        let none = PredealtHands::none();
        match seat {
            Seat::North => none,
            Seat::East => PredealtHands {
                north: self.north,
                ..none
            },
            Seat::South => PredealtHands {
                north: self.north,
                east: self.east,
                ..none
            },
            Seat::West => PredealtHands {
                west: None,
                ..*self
            },
        }
    }

    /// Whether a text beside these isn't a hand or has a card of one of them.
    fn refuses(&self, text: Option<&str>) -> bool
        ensures { result ≡ is_refused (given_by self.now) (bytes_of text.entry) }
    {
        match text {
            None => false,
            Some(text) => !is_hand(text.as_bytes()) || self.shares(text.as_bytes()),
        }
    }

    /// Whether the text has a card of one of these.
    fn shares(&self, text: &[u8]) -> bool
        ensures { result ≡ shares (given_by self.now) text.now }
    {
        (0..52).any(|card| has_card(text, card) && self.seat_given(card).is_some())
    }

    /// The seat of each card that the texts have, by its number.
    pub(crate) fn seats(&self) -> [Option<Seat>; 52]
        ensures { result ≡ fixed_of (given_by self.now) }
    {
        let mut seats = [None; 52];
        for card in 0..seats.len() {
            seats[card] = self.seat_given(card);
        }
        seats
    }

    /// The seat whose text has the card.
    pub(crate) fn seat_given(&self, card: usize) -> Option<Seat>
        requires { card < 52 }
        ensures { result ≡ seat_given (given_by self.now) card }
    {
        if has_given(self.north, card) {
            Some(Seat::North)
        } else if has_given(self.east, card) {
            Some(Seat::East)
        } else if has_given(self.south, card) {
            Some(Seat::South)
        } else if has_given(self.west, card) {
            Some(Seat::West)
        } else {
            None
        }
    }
}

/// Whether a text is given that has the card.
fn has_given(text: Option<&str>, card: usize) -> bool
    requires { card < 52 }
    ensures { result ≡ has_given (bytes_of text.entry) card }
{
    match text {
        None => false,
        Some(text) => has_card(text.as_bytes(), card),
    }
}
