//! The excerpt of a text: the line where it goes wrong, and carets below the fault.

ghost use Rattle.std.specs.Prelude.{◌≡◌, ◌≢◌, ℕ, ◌+◌, ◌-◌, ◌<◌, ◌≤◌, ◌++◌, drop, length};
ghost use Rattle.std.specs.Prelude.{slice_index, string_bytes, OnOk};
ghost use Rattle.explain_conditions.specs.Excerpt.{IsExcerpt, IsPlace, IsWithoutEnds, begins_with_equals};
ghost use Rattle.explain_conditions.specs.Excerpt.{caret_line};
ghost use Rattle.explain_conditions.specs.Excerpt.{count_shown, excerpt, first_shown, shown_line};
ghost use Rattle.explain_conditions.specs.Excerpt.{token_len, where_cut, without_return};
ghost use Rattle.explain_conditions.specs.internal.Appends.{Appends};

use crate::repeated::put_repeated;
use cond_lang::{digit_run_len, letter_run_len};
use sinks::put_shown;
use std::alloc::AllocError;

/// The longest line that is shown whole.
const WHOLE: usize = 72;

/// How much of a longer line is shown, and how much of it before the fault.
const PART: usize = 68;

const BEFORE: usize = 34;

/// Appends the line of the text that has the byte at `at`, or the last one, and carets below the
/// token there, or one after its end.
pub(crate) fn put_excerpt(out: &mut String, text: &[u8], at: usize) -> Result<(), AllocError>
    ensures { OnOk result (Appends (IsExcerpt text.now at)
        (string_bytes out.old) (string_bytes out.new)) }
{
    let place = place_of(text, at);
    let start = line_start(text, place);
    let end = line_end(text, place);
    let line = without_return(&text[start..end]);
    put_line_and_carets(out, line, place - start, width_at(text, at))
}

/// Where the first caret is.
fn place_of(text: &[u8], at: usize) -> usize
    ensures place { IsPlace text.now at result }
    ensures within { result ≤ length text.now }
{
    if at < text.len() {
        at
    } else {
        len_without_ends(text)
    }
}

/// The length of the text without the ends of lines after it.
fn len_without_ends(text: &[u8]) -> usize
    ensures { IsWithoutEnds text.now result }
{
    let mut len = text.len();
    while len > 0 && (text[len - 1] == b'\n' || text[len - 1] == b'\r') {
        len -= 1;
    }
    len
}

/// The start of the line that has the place.
fn line_start(text: &[u8], place: usize) -> usize
    requires { place ≤ length text.now }
    ensures within { result ≤ place }
    ensures begins { 0 < result → slice_index text.now (result - 1) ≡ 10 }
    ensures one { (k : ℕ) → result ≤ k → k < place → slice_index text.now k ≢ 10 }
{
    let mut start = place;
    while start > 0 && text[start - 1] != b'\n' {
        start -= 1;
    }
    start
}

/// The end of the line that has the place.
fn line_end(text: &[u8], place: usize) -> usize
    requires { place ≤ length text.now }
    ensures from { place ≤ result }
    ensures within { result ≤ length text.now }
    ensures one { (k : ℕ) → place ≤ k → k < result → slice_index text.now k ≢ 10 }
    ensures ends { result < length text.now → slice_index text.now result ≡ 10 }
{
    let mut end = place;
    while end < text.len() && text[end] != b'\n' {
        end += 1;
    }
    end
}

/// The line without a carriage return at its end.
fn without_return(line: &[u8]) -> &[u8]
    ensures { result.now ≡ without_return line.entry.now }
{
    let len = line.len();
    if len > 0 && line[len - 1] == b'\r' {
        &line[..len - 1]
    } else {
        line
    }
}

/// How many bytes the token has at the byte, or one at the end.
fn width_at(text: &[u8], at: usize) -> usize
    ensures { result ≡ token_len (drop at text.now) }
{
    if at < text.len() {
        token_len(&text[at..])
    } else {
        1
    }
}

/// How many bytes the token has that the text begins with.
fn token_len(text: &[u8]) -> usize
    ensures { result ≡ token_len text.now }
{
    let Some((first, rest)) = text.split_first() else {
        return 1;
    };
    if first.is_ascii_lowercase() {
        letter_run_len(text)
    } else if first.is_ascii_digit() {
        digit_run_len(text)
    } else if matches!(first, b'=' | b'!' | b'<' | b'>') && begins_with_equals(rest) {
        2
    } else {
        1
    }
}

fn begins_with_equals(text: &[u8]) -> bool
    ensures { result ≡ begins_with_equals text.now }
{
    match text {
        [] => false,
        [first, ..] => *first == b'=',
    }
}

/// Appends the line, cut around the column if it is long, and the carets below it.
fn put_line_and_carets(
    out: &mut String,
    line: &[u8],
    column: usize,
    width: usize,
) -> Result<(), AllocError>
    ensures { OnOk result (string_bytes out.new
        ≡ string_bytes out.old ++ excerpt line.now column width) }
{
    let first = first_shown(line.len(), column);
    let after = first + count_shown(line.len());
    let count = width.min(after.saturating_sub(column)).max(1);
    put_line(out, line, first, after)?;
    put_carets(out, first, column, count)
}

fn first_shown(len: usize, column: usize) -> usize
    ensures value { result ≡ first_shown len column }
    ensures within { result + count_shown len ≤ len }
{
    if len <= WHOLE {
        0
    } else {
        column.saturating_sub(BEFORE).min(len - PART)
    }
}

fn count_shown(len: usize) -> usize
    ensures { result ≡ count_shown len }
{
    if len <= WHOLE { len } else { PART }
}

/// Appends the bytes of the line from `first` up to `after`.
#[tactic(auto, unfolding(crate::specs::Excerpt::shown_line))]
fn put_line(out: &mut String, line: &[u8], first: usize, after: usize) -> Result<(), AllocError>
    requires ordered { first ≤ after }
    requires within { after ≤ length line.now }
    ensures { OnOk result (string_bytes out.new
        ≡ string_bytes out.old ++ shown_line line.now first after) }
{
    out.push_str("  ")?;
    put_where_cut(out, 0 < first, '.')?;
    put_shown(out, &line[first..after])?;
    put_where_cut(out, after < line.len(), '.')?;
    out.push_str("\n")
}

/// Appends the carets.
#[tactic(auto, unfolding(crate::specs::Excerpt::caret_line))]
fn put_carets(out: &mut String, first: usize, column: usize, count: usize) -> Result<(), AllocError>
    ensures { OnOk result (string_bytes out.new
        ≡ string_bytes out.old ++ caret_line first column count) }
{
    out.push_str("  ")?;
    put_where_cut(out, 0 < first, ' ')?;
    put_repeated(out, ' ', column.saturating_sub(first))?;
    put_repeated(out, '^', count)?;
    out.push_str("\n")
}

/// Appends two such characters where a line is cut.
fn put_where_cut(out: &mut String, cut: bool, character: char) -> Result<(), AllocError>
    requires { character < 128 }
    ensures { OnOk result (string_bytes out.new ≡ string_bytes out.old ++ where_cut cut character) }
{
    if cut {
        put_repeated(out, character, 2)
    } else {
        Ok(())
    }
}
