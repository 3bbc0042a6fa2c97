//! The text of a hand.

ghost use Rattle.std.specs.Prelude.{◌≡◌, ◌<◌, [], slice_index_or};
ghost use Rattle.requests.specs.PredealtHands.{has_card, has_letters_alone, has_none_twice};
ghost use Rattle.requests.specs.PredealtHands.{has_room};
ghost use Rattle.requests.specs.PredealtHands.{has_three_dots, is_hand, is_hand_byte};
ghost use Rattle.requests.specs.PredealtHands.{is_rank_letter};
ghost use Rattle.requests.specs.PredealtHands.{suits_of, times_in};

use boards::RANK_LETTERS;

/// The part of the suit of this number.
fn suit_text(text: &[u8], suit: usize) -> &[u8]
    ensures { result.now ≡ slice_index_or (suits_of text.now) suit [] }
{
    text.split(|byte| *byte == b'.').nth(suit).unwrap_or(&[])
}

/// How often the text has the card.
#[tactic(auto, unfolding(crate::specs::PredealtHands::times_in))]
pub fn times_in(text: &[u8], card: usize) -> usize
    requires { card < 52 }
    ensures { result ≡ times_in text.now card }
{
    let letter = RANK_LETTERS[card % 13];
    suit_text(text, card / 13)
        .iter()
        .filter(|byte| **byte == letter)
        .count()
}

/// Whether the text has the card.
pub fn has_card(text: &[u8], card: usize) -> bool
    requires { card < 52 }
    ensures { result ≡ has_card text.now card }
{
    times_in(text, card) > 0
}

pub fn is_rank_letter(byte: u8) -> bool
    ensures { result ≡ is_rank_letter byte }
{
    RANK_LETTERS.contains(&byte)
}

/// Whether it is a dot or the letter of a rank.
pub fn is_hand_byte(byte: u8) -> bool
    ensures { result ≡ is_hand_byte byte }
{
    byte == b'.' || is_rank_letter(byte)
}

/// Whether the text is a hand.
#[tactic(auto, unfolding(crate::specs::PredealtHands::is_hand))]
pub fn is_hand(text: &[u8]) -> bool
    ensures { result ≡ is_hand text.now }
{
    has_three_dots(text) && has_letters_alone(text) && has_none_twice(text) && has_room(text)
}

pub fn has_three_dots(text: &[u8]) -> bool
    ensures { result ≡ has_three_dots text.now }
{
    text.iter().filter(|byte| **byte == b'.').count() == 3
}

/// Whether each byte is a dot or the letter of a rank.
fn has_letters_alone(text: &[u8]) -> bool
    ensures { result ≡ has_letters_alone text.now }
{
    text.iter().all(|byte| is_hand_byte(*byte))
}

/// Whether no card occurs twice.
fn has_none_twice(text: &[u8]) -> bool
    ensures { result ≡ has_none_twice text.now }
{
    (0..52).all(|card| times_in(text, card) <= 1)
}

/// Whether there are thirteen cards at most.
pub fn has_room(text: &[u8]) -> bool
    ensures { result ≡ has_room text.now }
{
    (0..52).filter(|card| has_card(text, *card)).count() <= 13
}
