//! The five honours of a suit, and sets of them.

/// Some of the five honours.
#[derive(Clone, Copy)]
pub struct Honours {
    /// Whether the ace is among them.
    pub ace: bool,
    /// Whether the king is among them.
    pub king: bool,
    /// Whether the queen is among them.
    pub queen: bool,
    /// Whether the jack is among them.
    pub jack: bool,
    /// Whether the ten is among them.
    pub ten: bool,
}
