//! What writes boards as text.

ghost use Rattle.std.specs.Prelude.{◌≡◌, ◌-◌, ◌<◌, ◌^◌, ◌++◌, ◌∷◌, [], ℕ, List};
ghost use Rattle.boards.specs.declared.board.Board.{Board as ABoard};
ghost use Rattle.boards.specs.Layouts.{Layout};
ghost use Rattle.sinks.specs.Sinks.{AppendsOrBreaksOff, CountsFault};

use crate::Board;
use sinks::{Sink, SinkFault};

/// Writes boards, as PBN or as a table of counts: a text is a header, the boards in order, and a
/// footer.
///
/// The layout defines the three, and no call changes it. A notation holds the text of one board at
/// a time: `print` writes it, and `text` returns it. A board may have no text, as in a table of
/// counts, which is written by the footer alone.
pub trait Notation {
    /// What comes before the boards, the text of each board, and what comes after them.
    ghost layout: { Self → Layout };

    /// The text of the board that was printed last.
    ghost printed: { Self → List ℕ };

    /// These boards were printed, in this order.
    ghost has_printed: { Self → List ABoard → Type 0 };

    /// Returns what comes before the boards.
    fn header(&self) -> &[u8]
        ensures { result.now ≡ (layout self.now).header };

    /// Prints the board in place of the last one.
    fn print(&mut self, board: &Board)
        ensures layout { layout self.new ≡ layout self.old }
        ensures text { printed self.new ≡ (layout self.old).board board.now }
        ensures boards { (boards : List ABoard) → has_printed self.old boards
            → has_printed self.new (boards ++ board.now ∷ []) };

    /// Returns the text of the board that was printed last.
    fn text(&self) -> &[u8]
        ensures { result.now ≡ printed self.now };

    /// Writes what comes after the boards that were printed, where this many candidates were tried.
    ///
    /// # Errors
    /// `SinkFault` if the sink failed: a proper prefix of the footer was written.
    fn put_footer<S: Sink>(&self, tried: u64, sink: &mut S) -> Result<(), SinkFault>
        requires { S.faults sink.old < 2 ^ 64 - 1 }
        ensures bytes { (boards : List ABoard) → has_printed self.now boards
            → AppendsOrBreaksOff (S.bytes sink.old) (S.bytes sink.new) result
            ((layout self.now).footer boards tried) }
        ensures faults { CountsFault (S.faults sink.old) (S.faults sink.new) result };
}
