//! What writes boards as text, each with what is known of its tricks.

ghost use Rattle.std.specs.Prelude.{◌≡◌, ℕ, List};
ghost use Rattle.boards.specs.Layouts.{SolvedLayout};

use crate::{Board, Tricks};

/// Writes boards with what is known of their tricks: a text is its header, the boards in order, and
/// its footer.
///
/// The layout defines the three, and no call changes it. As with a `Notation`, `print` writes the
/// text of one board, and `text` returns it.
pub trait SolvedNotation {
    /// What comes before the boards, the text of each board, and what comes after them.
    ghost layout: { Self → SolvedLayout };

    /// The text of the board that was printed last.
    ghost printed: { Self → List ℕ };

    /// Returns what comes before the boards.
    fn header(&self) -> &[u8]
        ensures { result.now ≡ (layout self.now).header };

    /// Prints the board in place of the last one.
    fn print(&mut self, tricks: &Tricks, board: &Board)
        ensures layout { layout self.new ≡ layout self.old }
        ensures text { printed self.new ≡ (layout self.old).board tricks.now board.now };

    /// Returns the text of the board that was printed last.
    fn text(&self) -> &[u8]
        ensures { result.now ≡ printed self.now };

    /// Returns what comes after the boards.
    fn footer(&self) -> &[u8]
        ensures { result.now ≡ (layout self.now).footer };
}
