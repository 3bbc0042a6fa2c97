//! JSON, for programs: a line a board, each an object of its own.
//!
//! A text has no header and no footer. Labels are not written.

ghost use Rattle.std.specs.Prelude.{◌≡◌, ◌≤◌, ◌+◌, ◌++◌, [], length};
ghost use Rattle.std.specs.Option.{option_copied};
ghost use Rattle.boards.specs.declared.buffer.TheConstants.{CAPACITY};
ghost use Rattle.notations.specs.Json.{json_line, number_member, tricks_members};
ghost use Rattle.notations.specs.Tricks.{or_nothing};

use crate::dotted::put_deal;
use crate::results::{put_given, put_par};
use boards::{Board, Show, SuitLetters, TextBuffer, Tricks};
use cards::MAX_CANDIDATES;
use pbn_text::{seat_letter, vulnerable_word};

/// Writes the board's line into the empty buffer.
#[tactic(auto, unfolding(crate::specs::Json::json_line))]
pub(crate) fn put_line(
    line: &mut TextBuffer,
    letters: &SuitLetters,
    show: Show,
    tricks: Option<&Tricks>,
    board: &Board,
)
    requires { line.old ≡ [] }
    ensures { line.new ≡ json_line show (or_nothing (option_copied tricks.entry)) board.now }
{
    line.put(b"{\"board\":");
    line.put_number(board.number);
    line.put(b",\"dealer\":\"");
    line.put(&seat_letter(board.dealer));
    line.put(b"\",\"vulnerable\":\"");
    line.put(vulnerable_word(board.vulnerable));
    line.put(b"\",\"deal\":\"");
    put_deal(line, letters, show, board);
    line.put(b"\"");
    put_candidate(line, board.candidate);
    put_tricks(line, tricks);
    line.put(b"}\n");
}

/// Appends the number of the candidate, if the board is of one.
fn put_candidate(line: &mut TextBuffer, candidate: u64)
    requires { length line.old + 200 ≤ CAPACITY }
    ensures text { line.new ≡ line.old ++ number_member candidate }
    ensures most { length line.new ≤ length line.old + 30 }
{
    if candidate < MAX_CANDIDATES {
        line.put(b",\"number\":");
        line.put_number(candidate);
    }
}

/// Appends what is known of the tricks.
fn put_tricks(line: &mut TextBuffer, tricks: Option<&Tricks>)
    requires { length line.old + 200 ≤ CAPACITY }
    ensures text { line.new ≡ line.old ++ tricks_members (or_nothing (option_copied tricks.entry)) }
    ensures most { length line.new ≤ length line.old + 100 }
{
    if let Some(tricks) = tricks {
        put_given(line, b",\"tricks\":\"", tricks.digits(), b"\"");
        put_par(line, b",\"par\":\"", tricks, b"\"");
    }
}
