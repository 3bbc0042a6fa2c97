//! The numbers of the candidates that boards were dealt from, in decimal: a line a board.
//!
//! A text has no header and no footer.

ghost use Rattle.std.specs.Prelude.{◌≡◌, []};
ghost use Rattle.notations.specs.Numbers.{number_line};

use boards::{Board, TextBuffer};

/// Writes the number of the board's candidate and the end of the line into the empty buffer.
pub(crate) fn put_line(text: &mut TextBuffer, board: &Board)
    requires { text.old ≡ [] }
    ensures { text.new ≡ number_line board.now }
{
    text.put_number(board.candidate);
    text.put(b"\n");
}
