//! What is wrong with a text that is refused, for a hint.

ghost use Rattle.std.specs.Prelude.{◌≡◌, ◌<◌, ◌&&◌, List, ℕ, IfSome, Some, is_some, not};
ghost use Rattle.requests.specs.HandFaults.{IsFaultOf, IsUnread};
ghost use Rattle.requests.specs.PredealtHands.{GivenHands, before, given_at, given_by};
ghost use Rattle.requests.specs.PredealtHands.{has_card};
ghost use Rattle.requests.specs.PredealtHands.{has_letters_alone, has_none_twice, is_hand};
ghost use Rattle.requests.specs.PredealtHands.{is_refused_at, seat_given, shares, times_in};

use crate::PredealtHands;
use crate::hand::{has_card, has_room, has_three_dots, is_hand_byte, is_rank_letter, times_in};
use cards::{Card, Seat};

/// What is wrong with the text of a hand.
#[derive(Clone, Copy)]
pub enum HandFault {
    /// It has the letter of a rank in lower case: `a` for `A`.
    LowerCase,
    /// It has `10` for `T`.
    TenAsDigits,
    /// The byte at this index is neither a dot nor the letter of a rank, nor that in lower case.
    Unknown(usize),
    /// It hasn't exactly three dots.
    Dots,
    /// The card occurs twice.
    Twice(Card),
    /// It has more than thirteen cards.
    TooMany,
    /// The text of this seat, an earlier one, has the card too.
    Held(Card, Seat),
}

impl PredealtHands<'_> {
    /// What is wrong with the seat's text, or `None` if it isn't given, or is a hand without a card
    /// of an earlier one.
    pub fn fault_at(&self, seat: Seat) -> Option<HandFault>
        ensures refused { is_some result ≡ is_refused_at (given_by self.now) seat }
        ensures named { IfSome result (λ fault. (text : List ℕ)
            → given_at (given_by self.now) seat ≡ Some text
            → IsFaultOf (before seat (given_by self.now)) text fault) }
    {
        let text = self.given_at(seat)?.as_bytes();
        fault_of(text).or(shared_card(&self.before(seat), text))
    }
}

/// What is wrong with the text alone.
#[tactic(auto, unfolding(crate::specs::PredealtHands::is_hand))]
fn fault_of(text: &[u8]) -> Option<HandFault>
    ensures found { is_some result ≡ not (is_hand text.now) }
    ensures named { (earlier : GivenHands)
        → IfSome result (λ fault. IsFaultOf earlier text.now fault) }
{
    if let Some(place) = unread_place(text) {
        return Some(fault_of_byte(text, place));
    }
    if !has_three_dots(text) {
        return Some(HandFault::Dots);
    }
    if let Some(card) = card_twice(text) {
        return Some(HandFault::Twice(card));
    }
    if has_room(text) {
        None
    } else {
        Some(HandFault::TooMany)
    }
}

/// Where the first byte is that is neither a dot nor the letter of a rank.
fn unread_place(text: &[u8]) -> Option<usize>
    ensures found { is_some result ≡ not (has_letters_alone text.now) }
    ensures unread { IfSome result (λ place. IsUnread text.now place) }
{
    for (place, byte) in text.iter().enumerate() {
        if !is_hand_byte(*byte) {
            return Some(place);
        }
    }
    None
}

/// What is wrong with the byte at this place.
fn fault_of_byte(text: &[u8], place: usize) -> HandFault
    requires { IsUnread text.now place }
    ensures { (earlier : GivenHands) → IsFaultOf earlier text.now result }
{
    let byte = text[place];
    if byte == b'1' && text.get(place + 1).copied() == Some(b'0') {
        HandFault::TenAsDigits
    } else if is_rank_letter(byte.to_ascii_uppercase()) {
        HandFault::LowerCase
    } else {
        HandFault::Unknown(place)
    }
}

/// The first card that the text has twice.
fn card_twice(text: &[u8]) -> Option<Card>
    ensures found { is_some result ≡ not (has_none_twice text.now) }
    ensures twice { IfSome result (λ card. 1 < times_in text.now card) }
{
    for number in 0..52 {
        if times_in(text, usize::from(number)) > 1 {
            return Card::new(number);
        }
    }
    None
}

/// The first card of the text that an earlier one has.
fn shared_card(earlier: &PredealtHands<'_>, text: &[u8]) -> Option<HandFault>
    ensures found { is_some result ≡ shares (given_by earlier.now) text.now }
    ensures held { IfSome result (λ fault.
        IsFaultOf (given_by earlier.now) text.now fault) }
{
    for number in 0..52 {
        let fault = card_held(earlier, text, number);
        if fault.is_some() {
            return fault;
        }
    }
    None
}

/// The card of this number, if the text and an earlier one have it.
fn card_held(earlier: &PredealtHands<'_>, text: &[u8], number: u8) -> Option<HandFault>
    requires { number < 52 }
    ensures found { is_some result
        ≡ (has_card text.now number && is_some (seat_given (given_by earlier.now) number)) }
    ensures held { IfSome result (λ fault.
        IsFaultOf (given_by earlier.now) text.now fault) }
{
    if !has_card(text, usize::from(number)) {
        return None;
    }
    let seat = earlier.seat_given(usize::from(number))?;
    Some(HandFault::Held(Card::new(number)?, seat))
}
