//! The tags that say something of a board.

ghost use Rattle.std.specs.Prelude.{◌≡◌, bytes_eq};
ghost use Rattle.input.specs.Kinds.{kind_of};

/// A tag that says something of a board, or of all of them.
#[derive(Clone, Copy)]
pub enum TagKind {
    Event,
    Site,
    Date,
    Board,
    Dealer,
    Vulnerable,
    Deal,
    /// `DoubleDummyTricks`.
    Tricks,
    /// `OptimumScore`.
    Score,
    /// `ParContract`.
    Contract,
}

/// Whether the two are the same bytes. Most names have another length.
fn is_name(name: &[u8], word: &[u8]) -> bool
    ensures { result ≡ bytes_eq name.now word.now }
{
    if name.len() != word.len() {
        return false;
    }
    for (i, byte) in word.iter().enumerate() {
        if name[i] != *byte {
            return false;
        }
    }
    true
}

/// The kind of a tag of this name, if it says something of a board.
#[tactic(auto, unfolding(crate::specs::Kinds::kind_of))]
pub(crate) fn kind_of(name: &[u8]) -> Option<TagKind>
    ensures { result ≡ kind_of name.now }
{
    if is_name(name, b"Event") {
        Some(TagKind::Event)
    } else if is_name(name, b"Site") {
        Some(TagKind::Site)
    } else if is_name(name, b"Date") {
        Some(TagKind::Date)
    } else if is_name(name, b"Board") {
        Some(TagKind::Board)
    } else if is_name(name, b"Dealer") {
        Some(TagKind::Dealer)
    } else if is_name(name, b"Vulnerable") {
        Some(TagKind::Vulnerable)
    } else if is_name(name, b"Deal") {
        Some(TagKind::Deal)
    } else if is_name(name, b"DoubleDummyTricks") {
        Some(TagKind::Tricks)
    } else if is_name(name, b"OptimumScore") {
        Some(TagKind::Score)
    } else if is_name(name, b"ParContract") {
        Some(TagKind::Contract)
    } else {
        None
    }
}
