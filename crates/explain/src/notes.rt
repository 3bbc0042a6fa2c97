//! What is noted for a person: that boards with later numbers are the first deals again, that fewer
//! boards came than were asked for, and that an input has no boards.

use boards::Report;
use requests::{Request, Search};
use std::alloc::Global;

/// Returns the note on boards whose numbers go on, but whose deals don't, as a line; none if they
/// aren't asked for, or if memory runs out.
pub fn dealt_again(alloc: Global, words: &[String], request: &Request<'_>) -> Option<String> {
    let Request::Make { search, look, .. } = request else {
        return None;
    };
    let board = look.first_board();
    if board < 2 || words.iter().any(|word| names_first(word.as_str())) {
        return None;
    }
    let boards = boards_from(alloc, board, search)?;
    let boards = boards.as_str();
    format!(in alloc;
        "note: boards {boards} are the first deals of this seed: with a seed of their own \
that is right; after boards of the same seed give --first too\n"
    )
    .ok()
}

/// Whether the word is the option of the first candidate.
fn names_first(word: &str) -> bool {
    word == "--first" || word.starts_with("--first=")
}

/// The numbers of the boards from this one on.
fn boards_from(alloc: Global, board: u64, search: &Search<'_>) -> Option<String> {
    let last = match search.boards {
        Some(boards) => board.checked_add(u64::from(boards))?.checked_sub(1)?,
        None => board,
    };
    if last == board {
        return format!(in alloc; "from {board} on").ok();
    }
    format!(in alloc; "{board} to {last}").ok()
}

/// Returns the note on fewer boards than were asked for, as a line; none if as many came, if no
/// number of them was asked for, or if memory runs out.
pub fn fewer_boards(alloc: Global, report: &Report) -> Option<String> {
    let asked = u64::from(report.plan.limit()?);
    let boards = report.boards;
    if boards >= asked {
        return None;
    }
    if report.candidates == 0 {
        return format!(in alloc;
            "note: none of the {asked} boards asked for: no deal was tried\n"
        ).ok();
    }
    if boards == 0 {
        return format!(in alloc;
            "note: none of the {asked} boards asked for: none of the deals that were tried match\n"
        ).ok();
    }
    format!(in alloc;
        "note: {boards} of the {asked} boards asked for: \
no more of the deals that were tried match\n"
    )
    .ok()
}

/// The mark that some editors put before a text in UTF-8.
const MARK: &[u8] = b"\xEF\xBB\xBF";

/// What is told of an input without a board, by how it begins; else the last row.
static BEGINNINGS: [(&[u8], &str); 8] = [
    (b"{", "it looks like JSON"),
    (b"qx|", "it looks like LIN"),
    (b"md|", "it looks like LIN"),
    (b"pn|", "it looks like LIN"),
    (b"vg|", "it looks like LIN"),
    (b"<", "it looks like a page"),
    (b"PK", "it is a packed file"),
    (b"", "no line of it begins with [Deal"),
];

/// Returns the note on an input that begins so: that its first line isn't read, or that it has no
/// board, as a line; none if it may have one, or if memory runs out.
pub fn no_board(alloc: Global, first: &[u8], has_deal: bool) -> Option<String> {
    if first.starts_with(MARK) && first.ends_with(b"[") {
        return String::from_str(alloc, MARKED).ok();
    }
    if has_deal {
        return None;
    }
    if first.is_empty() {
        return String::from_str(alloc, EMPTY).ok();
    }
    let (_, why) = BEGINNINGS.iter().find(|row| first.starts_with(row.0))?;
    format!(in alloc; "note: the input has no board: deals show reads PBN, and {why}\n").ok()
}

/// Returns the note on an input whose lines end in CR alone, as a line; none if memory runs out.
pub fn one_line(alloc: Global) -> Option<String> {
    String::from_str(alloc, ENDED_BY_CR).ok()
}

const ENDED_BY_CR: &str = "note: the lines of the input end in CR alone, so that all is one line: \
write tr '\\r' '\\n' < FILE | deals show\n";

const MARKED: &str =
    "note: the first line isn't read, since a byte order mark comes before it: leave it out\n";

const EMPTY: &str =
    "note: the input is empty: the boards of a file are written by deals show < FILE\n";
