//! Par on a page, with the signs of suits.

ghost use Rattle.std.specs.Prelude.{◌≡◌, ◌≤◌, ◌+◌, ◌*◌, ◌++◌, false, length};
ghost use Rattle.boards.specs.declared.buffer.TheConstants.{CAPACITY};
ghost use Rattle.notations.specs.Pages.{mark, marked_contract, marked_par, marks, played_after};
ghost use Rattle.notations.specs.Pages.{result_mark, suit_mark};
ghost use Rattle.notations.specs.Tricks.{if_given};

use boards::{TextBuffer, Tricks};

/// Appends par between two texts, or nothing at all if it isn't known.
pub(super) fn put_par(text: &mut TextBuffer, before: &[u8], tricks: &Tricks, after: &[u8])
    requires { length text.old + length before.now + length after.now + 410 ≤ CAPACITY }
    ensures text { text.new ≡ text.old
        ++ if_given before.now (marked_par tricks.now.score tricks.now.contract) after.now }
    ensures most { length text.new
        ≤ length text.old + length before.now + length after.now + 410 }
{
    let score = tricks.score();
    if score.is_empty() {
        return;
    }
    text.put(before);
    text.put(score);
    put_contract(text, tricks.contract());
    text.put(after);
}

/// Appends contracts after a space, or nothing if there are none.
#[tactic(auto, unfolding(crate::specs::Pages::marked_contract))]
fn put_contract(text: &mut TextBuffer, contract: &[u8])
    requires { length text.old + 15 * length contract.now + 14 ≤ CAPACITY }
    ensures text { text.new ≡ text.old ++ marked_contract contract.now }
    ensures most { length text.new ≤ length text.old + 15 * length contract.now + 14 }
{
    if contract.is_empty() {
        return;
    }
    text.put(b" <span>");
    put_marks(text, contract);
    text.put(b"</span>");
}

/// Appends the letters and signs of contracts.
fn put_marks(text: &mut TextBuffer, contract: &[u8])
    requires { length text.old + 15 * length contract.now ≤ CAPACITY }
    ensures text { text.new ≡ text.old ++ marks false contract.now }
    ensures most { length text.new ≤ length text.old + 15 * length contract.now }
{
    let mut played = false;
    for letter in contract {
        put_mark(text, played, *letter);
        played = played_after(played, *letter);
    }
}

/// Whether a contract is played, so that a hyphen is minus, after this letter.
fn played_after(played: bool, letter: u8) -> bool
    ensures { result ≡ played_after played letter }
{
    letter != b',' && (letter == b'-' || played)
}

/// Appends a letter of a contract, or its sign.
#[tactic(auto, unfolding(crate::specs::Pages::mark))]
fn put_mark(text: &mut TextBuffer, played: bool, letter: u8)
    requires { length text.old + 15 ≤ CAPACITY }
    ensures text { text.new ≡ text.old ++ mark played letter }
    ensures most { length text.new ≤ length text.old + 15 }
{
    match letter {
        b'*' => text.put(b"\xC3\x97"),
        b',' => text.put(b",</span><span>"),
        _ if played => put_result_mark(text, letter),
        _ => put_suit_mark(text, letter),
    }
}

/// Appends a letter of a result, or minus.
#[tactic(auto, unfolding(crate::specs::Pages::result_mark))]
fn put_result_mark(text: &mut TextBuffer, letter: u8)
    requires { length text.old + 15 ≤ CAPACITY }
    ensures text { text.new ≡ text.old ++ result_mark letter }
    ensures most { length text.new ≤ length text.old + 15 }
{
    match letter {
        b'-' => text.put(b"\xE2\x88\x92"),
        _ => text.put(&[letter]),
    }
}

/// Appends a letter of a bid, or the sign of its suit.
#[tactic(auto, unfolding(crate::specs::Pages::suit_mark))]
fn put_suit_mark(text: &mut TextBuffer, letter: u8)
    requires { length text.old + 15 ≤ CAPACITY }
    ensures text { text.new ≡ text.old ++ suit_mark letter }
    ensures most { length text.new ≤ length text.old + 15 }
{
    match letter {
        b'S' => text.put(b"<i>\xE2\x99\xA0</i>"),
        b'H' => text.put(b"<b>\xE2\x99\xA5</b>"),
        b'D' => text.put(b"<b>\xE2\x99\xA6</b>"),
        b'C' => text.put(b"<i>\xE2\x99\xA3</i>"),
        _ => text.put(&[letter]),
    }
}
