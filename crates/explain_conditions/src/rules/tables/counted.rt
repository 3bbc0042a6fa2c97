//! What a person says that a hand has.

/// The word that counts it, what comes after the seat, and what a person calls it, unless that is
/// the word of a measure.
pub(crate) static COUNTED: &[(&str, &str, &str)] = &[
    ("len", ",spades", "spade spades"),
    ("len", ",hearts", "heart hearts"),
    ("len", ",diamonds", "diamond diamonds"),
    ("len", ",clubs", "club clubs"),
    ("cards", ",a", "ace aces"),
    ("cards", ",k", "king kings"),
    ("cards", ",q", "queen queens"),
    ("cards", ",j", "jack jacks"),
    ("hcp", "", "point points pts punkte"),
];
