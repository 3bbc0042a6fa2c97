//! Words that were not read: when hints are said of them, and what helps if one isn't UTF-8.

use requests::{TIMES, When};
use sinks::put_shown;
use std::alloc::Global;

/// How much is shown of what is before the byte.
const SHOWN: usize = 40;

/// Returns when hints are said, by the last word that says it.
pub fn hints_among(words: &[String]) -> When {
    let mut when = When::Auto;
    let mut follows = false;
    for word in words {
        let word = word.as_str();
        match word.strip_prefix("--hints=") {
            Some(named) => when = when_of(named).unwrap_or(when),
            None if follows => when = when_of(word).unwrap_or(when),
            None => {}
        }
        follows = word == "--hints";
    }
    when
}

fn when_of(word: &str) -> Option<When> {
    let (_, when) = TIMES.table.iter().find(|(named, _)| *named == word)?;
    Some(*when)
}

/// Returns what helps with a word of which only the first `len` bytes are UTF-8: a line that says
/// where the others begin. There is none if memory runs out.
pub fn not_utf8(alloc: Global, word: &[u8], len: usize) -> Option<String> {
    let (line, start) = last_line(word.get(..len)?);
    let before = word.get(start.max(len.saturating_sub(SHOWN))..len)?;
    let place = place_of(alloc, line, before)?;
    let place = place.as_str();
    format!(in alloc; "  hint: the text has to be UTF-8, and a byte {place} isn't\n").ok()
}

/// Where a byte of this line is, after these bytes.
fn place_of(alloc: Global, line: usize, before: &[u8]) -> Option<String> {
    let mut shown = String::new(alloc);
    put_shown(&mut shown, before).ok()?;
    let shown = shown.as_str();
    if shown.is_empty() {
        return format!(in alloc; "at the start of line {line}").ok();
    }
    format!(in alloc; "in line {line} after \"{shown}\"").ok()
}

/// The number of the last line, and where it begins.
fn last_line(text: &[u8]) -> (usize, usize) {
    let (mut line, mut start) = (1usize, 0usize);
    for (i, byte) in text.iter().enumerate() {
        if *byte == b'\n' {
            line = line.saturating_add(1);
            start = i.saturating_add(1);
        }
    }
    (line, start)
}
