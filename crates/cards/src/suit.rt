//! The four suits.

/// A suit, in the order in which cards are numbered and hands are written. Their numbers are 0
/// to 3.
#[derive(Clone, Copy, PartialEq, Eq, Debug)]
pub enum Suit {
    Spades,
    Hearts,
    Diamonds,
    Clubs,
}
