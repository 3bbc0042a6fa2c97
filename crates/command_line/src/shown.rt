//! clap's texts as they are shown on a terminal, whatever the words are.

ghost use Rattle.std.specs.Prelude.{◌≡◌, ◌++◌, OnOk, string_bytes};
ghost use Rattle.command_line.specs.Shown.{cut_text};

use sinks::put_shown;
use std::alloc::{AllocError, Global};

/// The longest text that is shown whole, and how much of a longer one is shown.
const WHOLE: usize = 72;

const PART: usize = 70;

/// Appends a text as it is shown on a terminal: of more than 72 bytes the first 70, and two dots.
///
/// # Errors
/// `AllocError` if an allocation failed.
pub fn put_cut(out: &mut String, text: &[u8]) -> Result<(), AllocError>
    ensures { OnOk result (string_bytes out.new ≡ string_bytes out.old ++ cut_text text.now) }
{
    if text.len() <= WHOLE {
        return put_shown(out, text);
    }
    let part = &text[..PART];
    put_shown(out, part)?;
    out.push_str("..")
}

/// The parts of a word that clap's texts show: all of it, what is before its `=` and after
/// it, and the last part of a path, which is how the usage names the program.
fn parts(word: &str) -> [&str; 4] {
    let (before, after) = word.split_once('=').unwrap_or(("", ""));
    let (_, last) = word.rsplit_once('/').unwrap_or(("", ""));
    [word, before, after, last]
}

/// Whether the part is here and can't be shown as it is: it is long, or has a line's end, which
/// would otherwise be taken for one of clap's. A short one is in quotes.
fn stands(part: &[u8], text: &[u8], is_quoted: bool) -> bool {
    let Some(rest) = text.strip_prefix(part) else {
        return false;
    };
    part.len() > WHOLE || (is_quoted && rest.first() == Some(&b'\'') && part.contains(&b'\n'))
}

/// The part of the word that is here and isn't shown as it is.
fn part_of<'a>(word: &'a str, text: &[u8], is_quoted: bool) -> Option<&'a [u8]> {
    for part in parts(word) {
        let part = part.as_bytes();
        if stands(part, text, is_quoted) {
            return Some(part);
        }
    }
    None
}

/// The part of one of the words that is here and isn't shown as it is.
fn part_at<'a>(words: &'a [String], text: &[u8], is_quoted: bool) -> Option<&'a [u8]> {
    words
        .iter()
        .find_map(|word| part_of(word.as_str(), text, is_quoted))
}

/// Returns clap's text of these words as it is shown on a terminal: a word of more than 72 bytes is
/// cut, a tab is shown as a space, and a byte that would disturb the terminal, or isn't ASCII, as
/// `?`.
///
/// # Errors
/// `AllocError` if an allocation failed.
pub fn shown_text(alloc: Global, words: &[String], text: &str) -> Result<String, AllocError> {
    let bytes = text.as_bytes();
    let mut out = String::new(alloc);
    let mut is_quoted = false;
    // How many bytes still belong to a word that was shown.
    let mut left: usize = 0;
    for (at, byte) in bytes.iter().enumerate() {
        if left > 0 {
            left -= 1;
            continue;
        }
        let rest = bytes.get(at..).unwrap_or(&[]);
        if let Some(part) = part_at(words, rest, is_quoted) {
            put_cut(&mut out, part)?;
            left = part.len().saturating_sub(1);
        } else if *byte == b'\n' {
            out.push('\n')?;
        } else {
            put_shown(&mut out, &[*byte])?;
        }
        is_quoted = *byte == b'\'';
    }
    Ok(out)
}
